// Formulas with another name for a variable. A free variable is called the same under any number of binders, so none
// are counted.

ghost use Rattle.std.specs.Prelude.{◌≡◌, ℕ, map, IfOk};
ghost use Rattle.kv_trees.specs.Bridge.{plain_term, plain_terms, plain_form, plain_prog};
ghost use Rattle.kv_subst.specs.Changing.{changed_term, changed_terms, changed_form, changed_prog};
ghost use Rattle.kv_subst.specs.Opening.{renamed_var, renamed, rename_form};

use kv_names::{List, Name, NoMemory, Plain, Shared, Var};
use kv_trees::{Form, Prog, Ref, Term, is_var};
use std::alloc::Global;

/// The formula with another name for the variable, which keeps its sort.
pub fn rename(alloc: Global, form: &Form, from: &Var, to: &Name) -> Result<Form, NoMemory>
    ensures { IfOk result (λ f. plain_form f ≡ rename_form from.now to.now (plain_form form.now)) }
{
    form_renamed(alloc, form, from, to)
}

fn ref_renamed(alloc: Global, place: &Ref, from: &Var, to: &Name) -> Result<Ref, NoMemory>
    ensures { IfOk result (λ r. r ≡ renamed_var from.now to.now place.now) }
{
    match place {
        Ref::Free(x) => {
            if is_var(x, from) {
                Ok(Ref::Free(Var {
                    name: to.copy(alloc)?,
                    sort: from.sort.copy(alloc)?,
                }))
            } else {
                Ok(Ref::Free(x.copy(alloc)?))
            }
        }
        Ref::Bound(n) => Ok(Ref::Bound(*n)),
    }
}

fn refs_renamed(alloc: Global, places: &[Ref], from: &Var, to: &Name) -> Result<List<Ref>, NoMemory>
    ensures { IfOk result (λ rs. rs ≡ map (renamed_var from.now to.now) places.now) }
{
    let mut renamed = List::new(alloc);
    for place in places {
        renamed.push(ref_renamed(alloc, place, from, to)?)?;
    }
    Ok(renamed)
}

#[cycle(term_renamed)]
fn term_renamed(alloc: Global, term: &Term, from: &Var, to: &Name) -> Result<Term, NoMemory>
    ensures { IfOk result (λ t. plain_term t ≡ changed_term (renamed from.now to.now 0) (plain_term term.now)) }
{
    match term {
        Term::Place(r) => Ok(Term::Place(ref_renamed(alloc, r, from, to)?)),
        Term::App(f, ts) => Ok(Term::App(f.copy(alloc)?, shared_terms(alloc, ts, from, to)?)),
    }
}

#[cycle(term_renamed)]
fn shared_terms(
    alloc: Global,
    terms: &Shared<List<Term>>,
    from: &Var,
    to: &Name,
) -> Result<Shared<List<Term>>, NoMemory>
    ensures { IfOk result (λ ts. plain_terms ts ≡ changed_terms (renamed from.now to.now 0) (plain_terms terms.now)) }
{
    Shared::new(alloc, terms_renamed(alloc, terms.items(), from, to)?)
}

#[cycle(term_renamed)]
fn terms_renamed(
    alloc: Global,
    terms: &[Term],
    from: &Var,
    to: &Name,
) -> Result<List<Term>, NoMemory>
    ensures { IfOk result (λ ts. plain_terms ts ≡ changed_terms (renamed from.now to.now 0) (plain_terms terms.now)) }
{
    let mut renamed = List::new(alloc);
    for term in terms {
        renamed.push(term_renamed(alloc, term, from, to)?)?;
    }
    Ok(renamed)
}

#[cycle(form_renamed)]
fn form_renamed(alloc: Global, form: &Form, from: &Var, to: &Name) -> Result<Form, NoMemory>
    ensures { IfOk result (λ f. (k : ℕ) → plain_form f ≡ changed_form (renamed from.now to.now) k (plain_form form.now)) }
{
    match form {
        Form::True => Ok(Form::True),
        Form::False => Ok(Form::False),
        Form::Atom(p, ts) => Ok(Form::Atom(p.copy(alloc)?, shared_terms(alloc, ts, from, to)?)),
        Form::Equal(s, t) => Ok(Form::Equal(
            term_renamed(alloc, s, from, to)?,
            term_renamed(alloc, t, from, to)?,
        )),
        Form::Not(f) => Ok(Form::Not(shared_form(alloc, f, from, to)?)),
        Form::And(f, g) => Ok(Form::And(
            shared_form(alloc, f, from, to)?,
            shared_form(alloc, g, from, to)?,
        )),
        Form::Or(f, g) => Ok(Form::Or(
            shared_form(alloc, f, from, to)?,
            shared_form(alloc, g, from, to)?,
        )),
        Form::Imp(f, g) => Ok(Form::Imp(
            shared_form(alloc, f, from, to)?,
            shared_form(alloc, g, from, to)?,
        )),
        Form::Iff(f, g) => Ok(Form::Iff(
            shared_form(alloc, f, from, to)?,
            shared_form(alloc, g, from, to)?,
        )),
        Form::All(s, f) => Ok(Form::All(s.copy(alloc)?, shared_form(alloc, f, from, to)?)),
        Form::Ex(s, f) => Ok(Form::Ex(s.copy(alloc)?, shared_form(alloc, f, from, to)?)),
        Form::After(a, f) => Ok(Form::After(
            shared_prog(alloc, a, from, to)?,
            shared_form(alloc, f, from, to)?,
        )),
        Form::Can(a, f) => Ok(Form::Can(
            shared_prog(alloc, a, from, to)?,
            shared_form(alloc, f, from, to)?,
        )),
    }
}

#[cycle(form_renamed)]
fn shared_form(
    alloc: Global,
    form: &Shared<Form>,
    from: &Var,
    to: &Name,
) -> Result<Shared<Form>, NoMemory>
    ensures { IfOk result (λ f. (k : ℕ) → plain_form f ≡ changed_form (renamed from.now to.now) k (plain_form form.now)) }
{
    Shared::new(alloc, form_renamed(alloc, form.get(), from, to)?)
}

#[cycle(form_renamed)]
fn prog_renamed(alloc: Global, prog: &Prog, from: &Var, to: &Name) -> Result<Prog, NoMemory>
    ensures { IfOk result (λ a. (k : ℕ) → plain_prog a ≡ changed_prog (renamed from.now to.now) k (plain_prog prog.now)) }
{
    match prog {
        Prog::Skip => Ok(Prog::Skip),
        Prog::Abort => Ok(Prog::Abort),
        Prog::Assign(x, t) => Ok(Prog::Assign(
            ref_renamed(alloc, x, from, to)?,
            term_renamed(alloc, t, from, to)?,
        )),
        Prog::Seq(a, b) => Ok(Prog::Seq(
            shared_prog(alloc, a, from, to)?,
            shared_prog(alloc, b, from, to)?,
        )),
        Prog::If(e, a, b) => Ok(Prog::If(
            shared_form(alloc, e, from, to)?,
            shared_prog(alloc, a, from, to)?,
            shared_prog(alloc, b, from, to)?,
        )),
        Prog::While(e, a) => Ok(Prog::While(
            shared_form(alloc, e, from, to)?,
            shared_prog(alloc, a, from, to)?,
        )),
        Prog::Local(s, t, a) => Ok(Prog::Local(
            s.copy(alloc)?,
            term_renamed(alloc, t, from, to)?,
            shared_prog(alloc, a, from, to)?,
        )),
        Prog::Call(p, ts, rs) => Ok(Prog::Call(
            p.copy(alloc)?,
            shared_terms(alloc, ts, from, to)?,
            Shared::new(alloc, refs_renamed(alloc, rs.items(), from, to)?)?,
        )),
        Prog::Choice(a, b) => Ok(Prog::Choice(
            shared_prog(alloc, a, from, to)?,
            shared_prog(alloc, b, from, to)?,
        )),
    }
}

#[cycle(form_renamed)]
fn shared_prog(
    alloc: Global,
    prog: &Shared<Prog>,
    from: &Var,
    to: &Name,
) -> Result<Shared<Prog>, NoMemory>
    ensures { IfOk result (λ a. (k : ℕ) → plain_prog a ≡ changed_prog (renamed from.now to.now) k (plain_prog prog.now)) }
{
    Shared::new(alloc, prog_renamed(alloc, prog.get(), from, to)?)
}
