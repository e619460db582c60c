// Signatures of units, and checks of projects.

use crate::faults::Fault;
use crate::setting::{Setting, unit_of};
use kv_flat::{FlatError, Flattened, flatten};
use kv_fresh::check;
use kv_print::reason_text;
use kv_punit::{Command, project};
use kv_query::reply;
use kv_sig::{Sig, SigError};
use kv_syn::{Bytes, List, Name, NoMemory, Plain, Profile, Row, Steps, Symbol};
use std::alloc::Global;
use std::sync::ledger::Ledger;

/// `ITEMS`: the symbols of the unit of these items, which the lines behind see, or its first fault.
pub fn unit_answer<L: Ledger>(
    setting: &mut Setting,
    items: &str,
    steps: &mut Steps<L>,
) -> Result<Bytes, Fault> {
    let unit = unit_of(setting.alloc, items)?;
    let below = List::new(setting.alloc);
    match flatten(setting.alloc, &unit, &below, steps) {
        Ok(Flattened { flat, .. }) => {
            setting.flat = flat;
            symbols_answer(setting)
        }
        Err(FlatError::Bad(reason)) => Ok(reason_text(setting.alloc, &reason)?),
        Err(FlatError::NoMemory) => Err(Fault::NoMemory),
    }
}

/// The symbols that the lines see, as items with their sorts.
pub fn symbols_answer(setting: &Setting) -> Result<Bytes, Fault> {
    let mut text = Bytes::from_bytes(setting.alloc, b"good")?;
    for symbol in setting.flat.sig.symbols() {
        text.append(b" ")?;
        push_symbol(&mut text, symbol)?;
    }
    Ok(text)
}

/// `ITEMS`: merges their signature into the one that the lines see.
pub fn merge_answer<L: Ledger>(
    setting: &mut Setting,
    items: &str,
    steps: &mut Steps<L>,
) -> Result<Bytes, Fault> {
    let other = signature(setting.alloc, items, steps)?;
    let outcome = setting.flat.sig.merge(&other);
    changed(setting, outcome)
}

/// `ITEMS`: adds their symbols to those that the lines see, up to the first that is refused.
pub fn add_answer<L: Ledger>(
    setting: &mut Setting,
    items: &str,
    steps: &mut Steps<L>,
) -> Result<Bytes, Fault> {
    let other = signature(setting.alloc, items, steps)?;
    let outcome = added(setting.alloc, &mut setting.flat.sig, other.symbols())?;
    changed(setting, outcome)
}

fn added(
    alloc: Global,
    sig: &mut Sig,
    symbols: &[Symbol],
) -> Result<Result<(), SigError>, NoMemory> {
    for symbol in symbols {
        if let Err(error) = sig.add(symbol.copy(alloc)?) {
            return Ok(Err(error));
        }
    }
    Ok(Ok(()))
}

/// `NAME`: the symbol of that name.
pub fn look_answer(setting: &Setting, name: &str) -> Result<Bytes, Fault> {
    let name = Name::from_bytes(setting.alloc, name.as_bytes())?;
    let mut text = Bytes::new(setting.alloc);
    match setting.flat.sig.look(&name) {
        Some(profile) => push_profile(&mut text, &name, profile)?,
        None => text.append(b"none")?,
    }
    Ok(text)
}

fn changed(setting: &Setting, outcome: Result<(), SigError>) -> Result<Bytes, Fault> {
    match outcome {
        Ok(()) => symbols_answer(setting),
        Err(SigError::Clash { name }) => {
            let mut text = Bytes::from_bytes(setting.alloc, b"clash ")?;
            text.append(name.bytes())?;
            Ok(text)
        }
        Err(SigError::NoMemory) => Err(Fault::NoMemory),
    }
}

fn signature<L: Ledger>(alloc: Global, items: &str, steps: &mut Steps<L>) -> Result<Sig, Fault> {
    let unit = unit_of(alloc, items)?;
    let below = List::new(alloc);
    match flatten(alloc, &unit, &below, steps) {
        Ok(flattened) => Ok(flattened.flat.sig),
        Err(FlatError::Bad(_)) => Err(Fault::Unread),
        Err(FlatError::NoMemory) => Err(Fault::NoMemory),
    }
}

fn push_symbol(text: &mut Bytes, symbol: &Symbol) -> Result<(), NoMemory> {
    push_profile(text, &symbol.name, &symbol.profile)
}

/// A symbol as an item, with sorts in place of parameters.
fn push_profile(text: &mut Bytes, name: &Name, profile: &Profile) -> Result<(), NoMemory> {
    match profile {
        Profile::Sort => push_head(text, b"sort ", name)?,
        Profile::Fun { args, result } => {
            push_head(text, b"fun ", name)?;
            text.append(b" : ")?;
            push_sorts(text, args.items(), b" -> ")?;
            text.append(result.bytes())?;
        }
        Profile::Pred { args } => {
            push_head(text, b"pred ", name)?;
            let colon: &[u8] = if args.items().is_empty() { b"" } else { b" : " };
            text.append(colon)?;
            push_sorts(text, args.items(), b"")?;
        }
        Profile::Proc { values, refs } => {
            push_head(text, b"proc ", name)?;
            text.append(b"(")?;
            push_sorts(text, values.items(), b"")?;
            let between: &[u8] = if refs.items().is_empty() { b";" } else { b"; " };
            text.append(between)?;
            push_sorts(text, refs.items(), b"")?;
            text.append(b")")?;
        }
    }
    text.append(b";")
}

fn push_head(text: &mut Bytes, word: &[u8], name: &Name) -> Result<(), NoMemory> {
    text.append(word)?;
    text.append(name.bytes())
}

/// Sorts with commas between and the end behind them, or nothing where there are none.
fn push_sorts(text: &mut Bytes, sorts: &[Name], end: &[u8]) -> Result<(), NoMemory> {
    let Some((first, others)) = sorts.split_first() else {
        return Ok(());
    };
    text.append(first.bytes())?;
    for sort in others {
        text.append(b", ")?;
        text.append(sort.bytes())?;
    }
    text.append(end)
}

/// `UNITS`: the states of a project of these, and how many of its scripts were replayed.
pub fn check_answer<L: Ledger>(
    alloc: Global,
    units: &str,
    steps: &mut Steps<L>,
) -> Result<Bytes, Fault> {
    let text = format!(in alloc; "project 1 {units}")?;
    let project = project(alloc, text.as_bytes())?;
    let checked = check(alloc, &project, steps)?;
    let replayed = count_replayed(checked.table.rows.items());
    let mut text = reply(alloc, &project, &checked, &Command::Status, steps)?;
    let line = format!(in alloc; "replayed {replayed}")?;
    text.append(line.as_bytes())?;
    Ok(text)
}

fn count_replayed(rows: &[Row]) -> usize {
    rows.iter().filter(|row| row.outcome.is_some()).count()
}
