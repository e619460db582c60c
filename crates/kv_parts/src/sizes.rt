// What the calls want of how deep trees are and how far their numbers go.

ghost use Rattle.std.specs.Prelude.{◌≡◌, ◌≤◌, OnOk};
ghost use Rattle.kv_trees.specs.Bridge.{plain_term, plain_terms, plain_form, plain_prog};
ghost use Rattle.kv_trees.specs.Variables.{form_binders, prog_binders};
ghost use Rattle.kv_subst.specs.Sizes.{ref_reach, refs_reach, term_reach, terms_reach, form_reach, prog_reach};

use crate::faults::Fault;
use kv_syn::{Form, Prog, Ref, Term};

/// At most a thousand binders stand in one another.
pub fn low(form: &Form) -> Result<(), Fault>
    ensures { OnOk result (form_binders (plain_form form.now) ≤ 1000) }
{
    if form.depth() <= 1000 {
        Ok(())
    } else {
        Err(Fault::Unread)
    }
}

/// The same of a program.
pub fn low_prog(prog: &Prog) -> Result<(), Fault>
    ensures { OnOk result (prog_binders (plain_prog prog.now) ≤ 1000) }
{
    if prog.depth() <= 1000 {
        Ok(())
    } else {
        Err(Fault::Unread)
    }
}

/// The term counts at most a thousand binders around it.
pub fn near(term: &Term) -> Result<(), Fault>
    ensures { OnOk result (term_reach (plain_term term.now) ≤ 1000) }
{
    if reach_of_term(term) <= 1000 {
        Ok(())
    } else {
        Err(Fault::Unread)
    }
}

/// The formula counts at most a thousand binders around it.
pub fn near_form(form: &Form) -> Result<(), Fault>
    ensures { OnOk result (form_reach (plain_form form.now) ≤ 1000) }
{
    if reach_of_form(form) <= 1000 {
        Ok(())
    } else {
        Err(Fault::Unread)
    }
}

fn reach_of_ref(place: &Ref) -> u64
    ensures { result ≡ ref_reach place.now }
{
    match place {
        Ref::Free(_) => 0,
        Ref::Bound(n) => u64::from(*n) + 1,
    }
}

fn reach_of_refs(places: &[Ref]) -> u64
    ensures { result ≡ refs_reach places.now }
{
    let mut most = 0u64;
    for place in places {
        most = most.max(reach_of_ref(place));
    }
    most
}

#[cycle(reach_of_term)]
fn reach_of_term(term: &Term) -> u64
    ensures { result ≡ term_reach (plain_term term.now) }
{
    match term {
        Term::Place(r) => reach_of_ref(r),
        Term::App(_, ts) => reach_of_terms(ts.items()),
    }
}

#[cycle(reach_of_term)]
fn reach_of_terms(terms: &[Term]) -> u64
    ensures { result ≡ terms_reach (plain_terms terms.now) }
{
    let mut most = 0u64;
    for term in terms {
        most = most.max(reach_of_term(term));
    }
    most
}

#[cycle(reach_of_form)]
fn reach_of_form(form: &Form) -> u64
    ensures { result ≡ form_reach (plain_form form.now) }
{
    match form {
        Form::True | Form::False => 0,
        Form::Atom(_, ts) => reach_of_terms(ts.items()),
        Form::Equal(s, t) => reach_of_term(s).max(reach_of_term(t)),
        Form::Not(f) => reach_of_form(f.get()),
        Form::And(f, g) | Form::Or(f, g) | Form::Imp(f, g) | Form::Iff(f, g) => {
            reach_of_form(f.get()).max(reach_of_form(g.get()))
        }
        Form::All(_, f) | Form::Ex(_, f) => reach_of_form(f.get()).saturating_sub(1),
        Form::After(a, f) | Form::Can(a, f) => reach_of_prog(a.get()).max(reach_of_form(f.get())),
    }
}

#[cycle(reach_of_form)]
fn reach_of_prog(prog: &Prog) -> u64
    ensures { result ≡ prog_reach (plain_prog prog.now) }
{
    match prog {
        Prog::Skip | Prog::Abort => 0,
        Prog::Assign(x, t) => reach_of_ref(x).max(reach_of_term(t)),
        Prog::Seq(a, b) | Prog::Choice(a, b) => {
            reach_of_prog(a.get()).max(reach_of_prog(b.get()))
        }
        Prog::If(e, a, b) => {
            let branches = reach_of_prog(a.get()).max(reach_of_prog(b.get()));
            reach_of_form(e.get()).max(branches)
        }
        Prog::While(e, a) => reach_of_form(e.get()).max(reach_of_prog(a.get())),
        Prog::Local(_, t, a) => { reach_of_term(t).max(reach_of_prog(a.get()).saturating_sub(1)) }
        Prog::Call(_, ts, rs) => reach_of_terms(ts.items()).max(reach_of_refs(rs.items())),
    }
}
