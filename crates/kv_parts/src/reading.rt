// Terms, formulas and programs from their texts, by the readers of projects as far as these read them.

ghost use Rattle.std.specs.Prelude.{◌≤◌, IfOk, length};

use crate::faults::Fault;
use crate::programs;
use kv_lex::{Token, mark, tokens};
use kv_pexpr::eat_mark;
use kv_syn::{List, RawForm, RawProg, RawTerm, Shared};
use std::alloc::Global;

/// How many rules may stand in one another where a text has programs.
const FUEL: u32 = 2_000;

/// The formulas of a text, with commas between.
pub fn formulas(alloc: Global, text: &str) -> Result<List<Shared<RawForm>>, Fault> {
    let list = tokens(alloc, text.as_bytes())?;
    let mut forms = List::new(alloc);
    let mut rest = list.items();
    for _turn in 0..list.items().len() {
        if rest.is_empty() {
            return Ok(forms);
        }
        let (form, behind) = front(alloc, rest)?;
        forms.push(form)?;
        rest = eat_mark(behind, mark::COMMA).unwrap_or(behind);
    }
    if rest.is_empty() {
        Ok(forms)
    } else {
        Err(Fault::Unread)
    }
}

/// The one formula of a text.
pub fn formula(alloc: Global, text: &str) -> Result<Shared<RawForm>, Fault> {
    let mut forms = formulas(alloc, text)?;
    let form = forms.pop().ok_or(Fault::Unread)?;
    if forms.items().is_empty() {
        Ok(form)
    } else {
        Err(Fault::Unread)
    }
}

/// The formula that the tokens begin with, up to a comma or their end.
fn front(alloc: Global, tokens: &[Token]) -> Result<(Shared<RawForm>, &[Token]), Fault> {
    match whole(alloc, tokens) {
        Ok(found) => Ok(found),
        Err(Fault::Unread) => programs::form(alloc, tokens, FUEL),
        Err(fault) => Err(fault),
    }
}

/// The longest formula without programs, where a comma or the end of the tokens stands behind it.
fn whole(alloc: Global, tokens: &[Token]) -> Result<(Shared<RawForm>, &[Token]), Fault> {
    let (form, place) = formula_at(alloc, tokens)?;
    let rest = &tokens[place..];
    if rest.is_empty() || eat_mark(rest, mark::COMMA).is_some() {
        Ok((form, rest))
    } else {
        Err(Fault::Unread)
    }
}

fn formula_at(alloc: Global, tokens: &[Token]) -> Result<(Shared<RawForm>, usize), Fault>
    ensures { IfOk result (λ found. found.1 ≤ length tokens.now) }
{
    let (form, place) = kv_pexpr::formula(alloc, tokens, 0)?;
    Ok((Shared::new(alloc, form)?, place))
}

/// The program of a text.
pub fn program(alloc: Global, text: &str) -> Result<Shared<RawProg>, Fault> {
    let list = tokens(alloc, text.as_bytes())?;
    let (prog, rest) = programs::prog(alloc, list.items(), FUEL)?;
    if rest.is_empty() {
        Ok(prog)
    } else {
        Err(Fault::Unread)
    }
}

/// The term of a text.
pub fn term(alloc: Global, text: &str) -> Result<Shared<RawTerm>, Fault> {
    let list = tokens(alloc, text.as_bytes())?;
    let (term, place) = kv_pexpr::term(alloc, list.items(), 0)?;
    if place == list.items().len() {
        Ok(Shared::new(alloc, term)?)
    } else {
        Err(Fault::Unread)
    }
}
