// The free names of trees.

ghost use Rattle.std.specs.Prelude.{◌≡◌, ◌++◌, OnOk};
ghost use Rattle.kv_sig.specs.FreeNames.{assumed_callee, assumed_form, assumed_prog, free_form, free_prog, free_ref, free_refs, free_term, free_terms};
ghost use Rattle.kv_trees.specs.Bridge.{plain_form, plain_prog, plain_term, plain_terms};

use kv_syn::{Callee, Form, List, Name, NoMemory, Plain, Profile, Prog, Ref, Shared, Term, Var};
use std::alloc::Global;

// Each adds what stands there, from left to right and as often as it does.

fn push_free_ref(alloc: Global, place: &Ref, variables: &mut List<Var>) -> Result<(), NoMemory>
    ensures { OnOk result (variables.new ≡ variables.old ++ free_ref place.now) }
{
    match place {
        Ref::Free(variable) => variables.push(variable.copy(alloc)?),
        Ref::Bound(_) => Ok(()),
    }
}

fn push_free_refs(alloc: Global, places: &[Ref], variables: &mut List<Var>) -> Result<(), NoMemory>
    ensures { OnOk result (variables.new ≡ variables.old ++ free_refs places.now) }
{
    for place in places {
        push_free_ref(alloc, place, variables)?;
    }
    Ok(())
}

#[cycle(free_term)]
fn push_free_term(alloc: Global, term: &Term, variables: &mut List<Var>) -> Result<(), NoMemory>
    ensures { OnOk result (variables.new ≡ variables.old ++ free_term (plain_term term.now)) }
{
    match term {
        Term::Place(place) => push_free_ref(alloc, place, variables),
        Term::App(_, terms) => push_free_terms(alloc, terms.items(), variables),
    }
}

#[cycle(free_term)]
fn push_free_terms(alloc: Global, terms: &[Term], variables: &mut List<Var>) -> Result<(), NoMemory>
    ensures { OnOk result (variables.new ≡ variables.old ++ free_terms (plain_terms terms.now)) }
{
    for term in terms {
        push_free_term(alloc, term, variables)?;
    }
    Ok(())
}

#[cycle(free_form)]
pub(crate) fn push_free_form(
    alloc: Global,
    form: &Form,
    variables: &mut List<Var>,
) -> Result<(), NoMemory>
    ensures { OnOk result (variables.new ≡ variables.old ++ free_form (plain_form form.now)) }
{
    match form {
        Form::True | Form::False => Ok(()),
        Form::Atom(_, ts) => push_free_terms(alloc, ts.items(), variables),
        Form::Equal(s, t) => {
            push_free_term(alloc, s, variables)?;
            push_free_term(alloc, t, variables)
        }
        Form::Not(f) | Form::All(_, f) | Form::Ex(_, f) => {
            push_free_form(alloc, f.get(), variables)
        }
        Form::And(f, g) | Form::Or(f, g) | Form::Imp(f, g) | Form::Iff(f, g) => {
            push_free_form(alloc, f.get(), variables)?;
            push_free_form(alloc, g.get(), variables)
        }
        Form::After(a, f) | Form::Can(a, f) => {
            push_free_prog(alloc, a.get(), variables)?;
            push_free_form(alloc, f.get(), variables)
        }
    }
}

#[cycle(free_form)]
fn push_free_prog(alloc: Global, prog: &Prog, variables: &mut List<Var>) -> Result<(), NoMemory>
    ensures { OnOk result (variables.new ≡ variables.old ++ free_prog (plain_prog prog.now)) }
{
    match prog {
        Prog::Skip | Prog::Abort => Ok(()),
        Prog::Assign(x, t) => {
            push_free_ref(alloc, x, variables)?;
            push_free_term(alloc, t, variables)
        }
        Prog::Seq(a, b) | Prog::Choice(a, b) => {
            push_free_prog(alloc, a.get(), variables)?;
            push_free_prog(alloc, b.get(), variables)
        }
        Prog::If(e, a, b) => {
            push_free_form(alloc, e.get(), variables)?;
            push_free_prog(alloc, a.get(), variables)?;
            push_free_prog(alloc, b.get(), variables)
        }
        Prog::While(e, a) => {
            push_free_form(alloc, e.get(), variables)?;
            push_free_prog(alloc, a.get(), variables)
        }
        Prog::Local(_, t, a) => {
            push_free_term(alloc, t, variables)?;
            push_free_prog(alloc, a.get(), variables)
        }
        Prog::Call(_, ts, rs) => {
            push_free_terms(alloc, ts.items(), variables)?;
            push_free_refs(alloc, rs.items(), variables)
        }
    }
}

fn push_assumed(
    alloc: Global,
    callee: &Callee,
    procedures: &mut List<(Name, Profile)>,
) -> Result<(), NoMemory>
    ensures { OnOk result (procedures.new ≡ procedures.old ++ assumed_callee callee.now) }
{
    match callee {
        Callee::Symbol(_) => Ok(()),
        Callee::Assumed(name, profile) => {
            procedures.push((name.copy(alloc)?, profile.copy(alloc)?))
        }
    }
}

#[cycle(assumed_form)]
pub(crate) fn push_assumed_form(
    alloc: Global,
    form: &Form,
    procedures: &mut List<(Name, Profile)>,
) -> Result<(), NoMemory>
    ensures { OnOk result (procedures.new ≡ procedures.old ++ assumed_form (plain_form form.now)) }
{
    match form {
        Form::True | Form::False | Form::Atom(_, _) | Form::Equal(_, _) => Ok(()),
        Form::Not(f) | Form::All(_, f) | Form::Ex(_, f) => { shared_form(alloc, f, procedures) }
        Form::And(f, g) | Form::Or(f, g) | Form::Imp(f, g) | Form::Iff(f, g) => {
            shared_form(alloc, f, procedures)?;
            shared_form(alloc, g, procedures)
        }
        Form::After(a, f) | Form::Can(a, f) => {
            shared_prog(alloc, a, procedures)?;
            shared_form(alloc, f, procedures)
        }
    }
}

#[cycle(assumed_form)]
fn push_assumed_prog(
    alloc: Global,
    prog: &Prog,
    procedures: &mut List<(Name, Profile)>,
) -> Result<(), NoMemory>
    ensures { OnOk result (procedures.new ≡ procedures.old ++ assumed_prog (plain_prog prog.now)) }
{
    match prog {
        Prog::Skip | Prog::Abort | Prog::Assign(_, _) => Ok(()),
        Prog::Seq(a, b) | Prog::Choice(a, b) => {
            shared_prog(alloc, a, procedures)?;
            shared_prog(alloc, b, procedures)
        }
        Prog::If(e, a, b) => {
            shared_form(alloc, e, procedures)?;
            shared_prog(alloc, a, procedures)?;
            shared_prog(alloc, b, procedures)
        }
        Prog::While(e, a) => {
            shared_form(alloc, e, procedures)?;
            shared_prog(alloc, a, procedures)
        }
        Prog::Local(_, _, a) => shared_prog(alloc, a, procedures),
        Prog::Call(callee, _, _) => push_assumed(alloc, callee, procedures),
    }
}

#[cycle(assumed_form)]
fn shared_form(
    alloc: Global,
    form: &Shared<Form>,
    procedures: &mut List<(Name, Profile)>,
) -> Result<(), NoMemory>
    ensures { OnOk result (procedures.new ≡ procedures.old ++ assumed_form (plain_form form.now)) }
{
    push_assumed_form(alloc, form.get(), procedures)
}

#[cycle(assumed_form)]
fn shared_prog(
    alloc: Global,
    prog: &Shared<Prog>,
    procedures: &mut List<(Name, Profile)>,
) -> Result<(), NoMemory>
    ensures { OnOk result (procedures.new ≡ procedures.old ++ assumed_prog (plain_prog prog.now)) }
{
    push_assumed_prog(alloc, prog.get(), procedures)
}
