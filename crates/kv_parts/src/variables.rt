// Opening, closing and renaming, and what variables a tree has.

use crate::faults::Fault;
use crate::setting::{Setting, opened};
use crate::sizes::{low, low_prog, near, near_form};
use kv_print::prog_text;
use kv_subst::{admissible, close_var, open, open_prog, rename};
use kv_syn::{Bytes, Form, Name, Plain, Prog, Ref, Shared, Term, Var, modifies, occurs};
use std::alloc::Global;

/// `FORMULA`: its text with types.
pub fn type_answer(setting: &Setting, text: &str) -> Result<Bytes, Fault> {
    let form = setting.formula(text)?;
    setting.shown(form)
}

/// `TERM`: its sort.
pub fn sort_answer(setting: &Setting, text: &str) -> Result<Bytes, Fault> {
    let (_, sort) = setting.term(text)?;
    Ok(Bytes::from_bytes(setting.alloc, sort.bytes())?)
}

/// `PROGRAM`: its text with types.
pub fn program_answer(setting: &Setting, text: &str) -> Result<Bytes, Fault> {
    let prog = setting.program(text)?;
    prog_shown(setting, prog.get())
}

/// `FORMULA`: how many nodes it has, and how deep it is.
pub fn size_answer(setting: &Setting, text: &str) -> Result<Bytes, Fault> {
    let form = setting.formula(text)?;
    let nodes = form.get().nodes();
    let depth = form.get().depth();
    let line = format!(in setting.alloc; "{nodes} nodes, {depth} deep")?;
    answer(setting.alloc, line.as_str())
}

/// `QUANTIFIED at TERM`: the body at the term.
pub fn open_answer(setting: &Setting, text: &str) -> Result<Bytes, Fault> {
    let (form, at) = text.split_once(" at ").ok_or(Fault::Unread)?;
    let form = setting.formula(form)?;
    let (at, _) = setting.term(at)?;
    match form.get() {
        Form::All(_, body) | Form::Ex(_, body) => body_answer(setting, body.get(), at.get()),
        _ => Err(Fault::Unread),
    }
}

/// The opening, unless `admissible` says otherwise.
fn body_answer(setting: &Setting, body: &Form, at: &Term) -> Result<Bytes, Fault> {
    let allowed = may_open(body, at)?;
    let form = body_at(setting.alloc, body, at);
    if allowed != form.is_ok() {
        return answer(setting.alloc, "admissible says otherwise");
    }
    setting.shown(form?)
}

fn may_open(body: &Form, at: &Term) -> Result<bool, Fault> {
    low(body)?;
    Ok(admissible(body, at))
}

fn body_at(alloc: Global, body: &Form, at: &Term) -> Result<Shared<Form>, Fault> {
    low(body)?;
    near(at)?;
    let form = open(alloc, body, at)?;
    Ok(Shared::new(alloc, form)?)
}

/// `BLOCK at TERM`: the block's body at the term.
pub fn enter_answer(setting: &Setting, text: &str) -> Result<Bytes, Fault> {
    let (prog, at) = text.split_once(" at ").ok_or(Fault::Unread)?;
    let prog = setting.program(prog)?;
    let (at, _) = setting.term(at)?;
    match prog.get() {
        Prog::Local(_, _, body) => block_answer(setting, body.get(), at.get()),
        _ => Err(Fault::Unread),
    }
}

fn block_answer(setting: &Setting, body: &Prog, at: &Term) -> Result<Bytes, Fault> {
    let prog = block_at(setting.alloc, body, at)?;
    prog_shown(setting, prog.get())
}

fn block_at(alloc: Global, body: &Prog, at: &Term) -> Result<Shared<Prog>, Fault> {
    low_prog(body)?;
    near(at)?;
    let prog = open_prog(alloc, body, at)?;
    Ok(Shared::new(alloc, prog)?)
}

/// The text of a program; the binders around it are `$1`, `$2` and so on from outside.
pub fn prog_shown(setting: &Setting, prog: &Prog) -> Result<Bytes, Fault> {
    let around = setting.context.bound.items().len().min(1_000) as u32;
    Ok(prog_text(setting.alloc, prog, around)?)
}

/// `NAME in FORMULA`: the formula closed at the variable, under a quantifier, and whether it opens to what it was.
pub fn close_answer(setting: &Setting, text: &str) -> Result<Bytes, Fault> {
    let (name, form) = text.split_once(" in ").ok_or(Fault::Unread)?;
    let var = setting.variable(name)?;
    let form = setting.formula(form)?;
    let body = closed(setting.alloc, form.get(), var)?;
    let again = opened(setting.alloc, body.get(), var)?;
    let back = again.get().same(form.get());
    let mut text = setting.shown(quantified(setting.alloc, var, body)?)?;
    text.append(if back {
        b", and back"
    } else {
        b", and not back"
    })?;
    Ok(text)
}

fn closed(alloc: Global, whole: &Form, var: &Var) -> Result<Shared<Form>, Fault> {
    low(whole)?;
    near_form(whole)?;
    let form = close_var(alloc, whole, var)?;
    Ok(Shared::new(alloc, form)?)
}

fn quantified(alloc: Global, var: &Var, body: Shared<Form>) -> Result<Shared<Form>, Fault> {
    let sort = var.sort.copy(alloc)?;
    Ok(Shared::new(alloc, Form::All(sort, body))?)
}

/// `NAME to NAME in FORMULA`: the formula with the second name for the first variable.
pub fn rename_answer(setting: &Setting, text: &str) -> Result<Bytes, Fault> {
    let (names, form) = text.split_once(" in ").ok_or(Fault::Unread)?;
    let (from, to) = names.split_once(" to ").ok_or(Fault::Unread)?;
    let from = setting.variable(from)?;
    let to = Name::from_bytes(setting.alloc, to.as_bytes())?;
    let form = setting.formula(form)?;
    let renamed = renamed(setting.alloc, form.get(), from, &to)?;
    setting.shown(renamed)
}

fn renamed(alloc: Global, form: &Form, from: &Var, to: &Name) -> Result<Shared<Form>, Fault> {
    let form = rename(alloc, form, from, to)?;
    Ok(Shared::new(alloc, form)?)
}

/// `NAME in FORMULA`: whether the variable is free in the formula.
pub fn occurs_answer(setting: &Setting, text: &str) -> Result<Bytes, Fault> {
    let (name, form) = text.split_once(" in ").ok_or(Fault::Unread)?;
    let var = setting.variable(name)?;
    let form = setting.formula(form)?;
    yes_or_no(setting.alloc, occurs(form.get(), var))
}

/// `VARIABLE in PROGRAM`: whether the program modifies the variable.
pub fn modifies_answer(setting: &Setting, text: &str) -> Result<Bytes, Fault> {
    let (name, prog) = text.split_once(" in ").ok_or(Fault::Unread)?;
    let (var, _) = setting.term(name)?;
    let prog = setting.program(prog)?;
    match var.get() {
        Term::Place(place) => yes_or_no(setting.alloc, modified(prog.get(), place)?),
        Term::App(..) => Err(Fault::Unread),
    }
}

fn modified(prog: &Prog, place: &Ref) -> Result<bool, Fault> {
    low_prog(prog)?;
    Ok(modifies(prog, place))
}

fn yes_or_no(alloc: Global, answer_is_yes: bool) -> Result<Bytes, Fault> {
    answer(alloc, if answer_is_yes { "yes" } else { "no" })
}

/// An answer of these words.
pub fn answer(alloc: Global, words: &str) -> Result<Bytes, Fault> {
    Ok(Bytes::from_bytes(alloc, words.as_bytes())?)
}
