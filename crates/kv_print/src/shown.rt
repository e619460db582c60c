// Typed terms, formulas and programs as raw ones, with `$k` for bound variables, and their texts.

ghost use Rattle.std.specs.Prelude.{◌≡◌, ◌+◌, ◌^◌, map, IfOk, IsErr};
ghost use Rattle.kv_trees.specs.Bridge.{plain_form, plain_prog, plain_term, plain_terms};
ghost use Rattle.kv_raw.specs.RawBridge.{raw_form, raw_prog, raw_term, raw_terms};
ghost use Rattle.kv_print.specs.Shown as spec;
ghost use Rattle.kv_print.specs.Shown.{binder_name, shown_callee, shown_form, shown_prog, shown_ref, shown_term, shown_terms};

use crate::forms::{push_form, push_prog};
use crate::pieces::push_number;
use kv_syn::{
    Bytes, Callee, Form, List, Name, NoMemory, Plain, Prog, RawForm, RawProg, RawTerm, Ref, Shared,
    Term, Var,
};
use std::alloc::Global;

/// The text of a typed formula, laid out as those of a project are: the variable of a binder is `$k`, where k - 1 binders
/// stand round it, blocks of programs among them; an assumed procedure is written by its name. `NoMemory` too where
/// 2^32 binders stand inside one another.
pub fn form_text(alloc: Global, form: &Form) -> Result<Bytes, NoMemory>
    ensures { IfOk result (λ text. text ≡ spec.form_text (plain_form form.now)) }
{
    let raw = form_shown(alloc, form, 0)?;
    let mut text = Bytes::new(alloc);
    push_form(&mut text, &raw)?;
    Ok(text)
}

/// The text of a typed program that stands inside so many binders, whose variables are `$1`, `$2` and so on from outside.
/// `NoMemory` too where 2^32 binders stand inside one another, these among them.
pub fn prog_text(alloc: Global, prog: &Prog, around: u32) -> Result<Bytes, NoMemory>
    ensures { IfOk result (λ text. text ≡ spec.prog_text (plain_prog prog.now) around) }
{
    let raw = prog_shown(alloc, prog, around)?;
    let mut text = Bytes::new(alloc);
    push_prog(&mut text, &raw)?;
    Ok(text)
}

/// The variable of the binder that is the k-th from outside.
fn binder_name(alloc: Global, k: u32) -> Result<Name, NoMemory>
    ensures { IfOk result (λ name. name ≡ binder_name k) }
{
    let mut text = Bytes::from_bytes(alloc, b"$")?;
    push_number(alloc, &mut text, u64::from(k))?;
    Name::from_bytes(alloc, text.bytes())
}

/// A variable inside so many binders.
fn ref_shown(alloc: Global, place: &Ref, around: u32) -> Result<Name, NoMemory>
    ensures { IfOk result (λ name. name ≡ shown_ref around place.now) }
{
    match place {
        Ref::Free(var) => var.name.copy(alloc),
        Ref::Bound(i) => binder_name(alloc, around.saturating_sub(*i)),
    }
}

fn refs_shown(alloc: Global, refs: &[Ref], around: u32) -> Result<List<Name>, NoMemory>
    ensures { IfOk result (λ names. names ≡ map (shown_ref around) refs.now) }
{
    let mut names = List::new(alloc);
    for place in refs {
        names.push(ref_shown(alloc, place, around)?)?;
    }
    Ok(names)
}

/// The place of a further binder; `NoMemory` exactly where it is the 2^32nd.
fn one_more(around: u32) -> Result<u32, NoMemory>
    ensures value { IfOk result (λ place. place ≡ around + 1) }
    ensures refuses { IsErr result → around + 1 ≡ 2 ^ 32 }
{
    around.checked_add(1).ok_or(NoMemory)
}

/// The variable of the binder at that place.
fn var_shown(alloc: Global, sort: &Name, place: u32) -> Result<Var, NoMemory>
    ensures { IfOk result (λ var. var ≡ record { name = binder_name place; sort = sort.now }) }
{
    let sort = sort.copy(alloc)?;
    Ok(Var {
        name: binder_name(alloc, place)?,
        sort,
    })
}

/// What a call calls.
fn callee_shown(alloc: Global, callee: &Callee) -> Result<Name, NoMemory>
    ensures { IfOk result (λ name. name ≡ shown_callee callee.now) }
{
    match callee {
        Callee::Symbol(name) => name.copy(alloc),
        Callee::Assumed(name, _) => name.copy(alloc),
    }
}

#[cycle(term_shown)]
fn term_shown(alloc: Global, term: &Term, around: u32) -> Result<RawTerm, NoMemory>
    ensures { IfOk result (λ t. raw_term t ≡ shown_term around (plain_term term.now)) }
{
    match term {
        Term::Place(place) => Ok(RawTerm::App(
            ref_shown(alloc, place, around)?,
            Shared::new(alloc, List::new(alloc))?,
        )),
        Term::App(f, ts) => Ok(RawTerm::App(f.copy(alloc)?, shared_terms(alloc, ts, around)?)),
    }
}

#[cycle(term_shown)]
fn shared_terms(
    alloc: Global,
    terms: &Shared<List<Term>>,
    around: u32,
) -> Result<Shared<List<RawTerm>>, NoMemory>
    ensures { IfOk result (λ ts. raw_terms ts ≡ shown_terms around (plain_terms terms.now)) }
{
    Shared::new(alloc, terms_shown(alloc, terms.items(), around)?)
}

#[cycle(term_shown)]
fn terms_shown(alloc: Global, terms: &[Term], around: u32) -> Result<List<RawTerm>, NoMemory>
    ensures { IfOk result (λ ts. raw_terms ts ≡ shown_terms around (plain_terms terms.now)) }
{
    let mut shown = List::new(alloc);
    for term in terms {
        shown.push(term_shown(alloc, term, around)?)?;
    }
    Ok(shown)
}

#[cycle(form_shown)]
fn form_shown(alloc: Global, form: &Form, around: u32) -> Result<RawForm, NoMemory>
    ensures { IfOk result (λ f. raw_form f ≡ shown_form around (plain_form form.now)) }
{
    match form {
        Form::True => Ok(RawForm::True),
        Form::False => Ok(RawForm::False),
        Form::Atom(p, ts) => Ok(RawForm::Atom(p.copy(alloc)?, shared_terms(alloc, ts, around)?)),
        Form::Equal(s, t) => Ok(RawForm::Equal(
            term_shown(alloc, s, around)?,
            term_shown(alloc, t, around)?,
        )),
        Form::Not(f) => Ok(RawForm::Not(shared_form(alloc, f, around)?)),
        Form::And(f, g) => Ok(RawForm::And(
            shared_form(alloc, f, around)?,
            shared_form(alloc, g, around)?,
        )),
        Form::Or(f, g) => Ok(RawForm::Or(
            shared_form(alloc, f, around)?,
            shared_form(alloc, g, around)?,
        )),
        Form::Imp(f, g) => Ok(RawForm::Imp(
            shared_form(alloc, f, around)?,
            shared_form(alloc, g, around)?,
        )),
        Form::Iff(f, g) => Ok(RawForm::Iff(
            shared_form(alloc, f, around)?,
            shared_form(alloc, g, around)?,
        )),
        Form::All(s, f) => {
            let place = one_more(around)?;
            let var = var_shown(alloc, s, place)?;
            Ok(RawForm::All(var, shared_form(alloc, f, place)?))
        }
        Form::Ex(s, f) => {
            let place = one_more(around)?;
            let var = var_shown(alloc, s, place)?;
            Ok(RawForm::Ex(var, shared_form(alloc, f, place)?))
        }
        Form::After(a, f) => Ok(RawForm::After(
            shared_prog(alloc, a, around)?,
            shared_form(alloc, f, around)?,
        )),
        Form::Can(a, f) => Ok(RawForm::Can(
            shared_prog(alloc, a, around)?,
            shared_form(alloc, f, around)?,
        )),
    }
}

#[cycle(form_shown)]
fn shared_form(alloc: Global, form: &Shared<Form>, around: u32) -> Result<Shared<RawForm>, NoMemory>
    ensures { IfOk result (λ f. raw_form f ≡ shown_form around (plain_form form.now)) }
{
    Shared::new(alloc, form_shown(alloc, form.get(), around)?)
}

#[cycle(form_shown)]
fn prog_shown(alloc: Global, prog: &Prog, around: u32) -> Result<RawProg, NoMemory>
    ensures { IfOk result (λ a. raw_prog a ≡ shown_prog around (plain_prog prog.now)) }
{
    match prog {
        Prog::Skip => Ok(RawProg::Skip),
        Prog::Abort => Ok(RawProg::Abort),
        Prog::Assign(x, t) => Ok(RawProg::Assign(
            ref_shown(alloc, x, around)?,
            term_shown(alloc, t, around)?,
        )),
        Prog::Seq(a, b) => Ok(RawProg::Seq(
            shared_prog(alloc, a, around)?,
            shared_prog(alloc, b, around)?,
        )),
        Prog::If(e, a, b) => Ok(RawProg::If(
            shared_form(alloc, e, around)?,
            shared_prog(alloc, a, around)?,
            shared_prog(alloc, b, around)?,
        )),
        Prog::While(e, a) => Ok(RawProg::While(
            shared_form(alloc, e, around)?,
            shared_prog(alloc, a, around)?,
        )),
        Prog::Local(s, t, a) => {
            let place = one_more(around)?;
            let var = var_shown(alloc, s, place)?;
            let term = term_shown(alloc, t, around)?;
            Ok(RawProg::Local(var, term, shared_prog(alloc, a, place)?))
        }
        Prog::Call(p, ts, rs) => Ok(RawProg::Call(
            callee_shown(alloc, p)?,
            shared_terms(alloc, ts, around)?,
            Shared::new(alloc, refs_shown(alloc, rs.items(), around)?)?,
        )),
        Prog::Choice(a, b) => Ok(RawProg::Choice(
            shared_prog(alloc, a, around)?,
            shared_prog(alloc, b, around)?,
        )),
    }
}

#[cycle(form_shown)]
fn shared_prog(alloc: Global, prog: &Shared<Prog>, around: u32) -> Result<Shared<RawProg>, NoMemory>
    ensures { IfOk result (λ a. raw_prog a ≡ shown_prog around (plain_prog prog.now)) }
{
    Shared::new(alloc, prog_shown(alloc, prog.get(), around)?)
}
