// States and reasons by their words, and tables of them.

ghost use Rattle.std.specs.Prelude.{◌≡◌, ◌<◌, true, IfOk, OnOk};
ghost use Rattle.kv_syn.specs.Rows.{has_reason_row, has_state_rows, has_table_rows, has_unit_state_rows};

use crate::errors::CaseError;
use crate::shown::{as_text, printed, push_lines};
use kv_flat::Checked;
use kv_print::{reason_text, state_text};
use kv_punit::{Command, project};
use kv_query::reply;
use kv_session::accepted;
use kv_syn::{
    Bytes, Label, List, Name, Need, NoMemory, Path, Project, Reason, Row, State, Steps, Table,
    UnitState,
};
use kv_table::{reasons, rules};
use std::alloc::Global;
use std::marker::Brand;
use std::sync::ledger::{Blank, Ledger};

/// The text of a reason that is given by its word and its names.
pub fn reason_line(alloc: Global, words: &str) -> Result<String, CaseError> {
    let reason = reason_of(alloc, words)?;
    printed(alloc, reason_text(alloc, &reason))
}

/// The text of a state that is given by its words: a need is `UNIT NAME`.
pub fn state_line(alloc: Global, words: &str) -> Result<String, CaseError> {
    let state = state_of(alloc, words)?;
    printed(alloc, state_text(alloc, &state))
}

fn reason_of(alloc: Global, words: &str) -> Result<Reason, CaseError>
    ensures { IfOk result (λ reason. has_reason_row reason ≡ true) }
{
    let (word, rest) = first(words);
    let word = reasons().find(word).ok_or(CaseError::Unknown)?;
    let mut names = List::new(alloc);
    for name in rest.split(' ') {
        if !name.is_empty() {
            names.push(Label::from_bytes(alloc, name.as_bytes())?)?;
        }
    }
    Ok(Reason {
        word: word as u32,
        names,
    })
}

/// The first word, and the others.
fn first(words: &str) -> (&str, &str) {
    words.split_once(' ').unwrap_or((words, ""))
}

fn state_of(alloc: Global, words: &str) -> Result<State, CaseError>
    ensures { IfOk result (λ state. has_state_rows state ≡ true) }
{
    let (word, rest) = first(words);
    match word {
        "ill" => Ok(State::Ill(reason_of(alloc, rest)?)),
        "broken" => broken(alloc, rest),
        "open" => Ok(State::Open(rest.parse::<u64>().map_err(|_| CaseError::Unknown)?)),
        "proved" => Ok(State::Proved),
        "waiting" => waiting(alloc, rest),
        "cyclic" => Ok(State::Cyclic),
        "idle" => Ok(State::Idle),
        _ => Err(CaseError::Unknown),
    }
}

/// `PATH RULE REASON`, where the root's path is `0`.
fn broken(alloc: Global, words: &str) -> Result<State, CaseError>
    ensures { IfOk result (λ state. has_state_rows state ≡ true) }
{
    let (places, rest) = first(words);
    let (rule, rest) = first(rest);
    let path = path_of(alloc, places)?;
    let rule = rules().find(rule).ok_or(CaseError::Unknown)?;
    let reason = reason_of(alloc, rest)?;
    Ok(State::Broken(path, rule as u32, reason))
}

fn path_of(alloc: Global, places: &str) -> Result<Path, CaseError> {
    let mut path = List::new(alloc);
    if places != "0" {
        for place in places.split('.') {
            path.push(place.parse::<u32>().map_err(|_| CaseError::Unknown)?)?;
        }
    }
    Ok(path)
}

fn waiting(alloc: Global, words: &str) -> Result<State, CaseError>
    ensures { IfOk result (λ state. has_state_rows state ≡ true) }
{
    let (unit, name) = first(words);
    let unit = Name::from_bytes(alloc, unit.as_bytes())?;
    let name = Label::from_bytes(alloc, name.as_bytes())?;
    Ok(State::Waiting(Need { unit, name }))
}

/// The answers to `status` and to an edit for a table whose lines are `unit U STATE` and `row U N STATE`.
pub fn table_lines(alloc: Global, text: &[u8]) -> Result<String, CaseError> {
    let table = table_of(alloc, as_text(text))?;
    let mut out = String::new(alloc);
    let edit = accepted(alloc, &table)?;
    push_lines(&mut out, as_text(edit.bytes()))?;
    let answer = counted::<Brand>(alloc, table, Blank::new(1))?;
    push_lines(&mut out, as_text(answer.bytes()))?;
    Ok(out)
}

fn table_of(alloc: Global, text: &str) -> Result<Table, CaseError>
    ensures { IfOk result (λ table. has_table_rows table ≡ true) }
{
    let mut table = Table {
        units: List::new(alloc),
        rows: List::new(alloc),
    };
    for line in text.lines() {
        let (word, rest) = first(line);
        match word {
            "unit" => add_unit(alloc, &mut table, rest)?,
            _ => add_row(alloc, &mut table, rest)?,
        }
    }
    Ok(table)
}

fn add_unit(alloc: Global, table: &mut Table, words: &str) -> Result<(), CaseError>
    requires { has_table_rows table.old ≡ true }
    ensures { OnOk result (has_table_rows table.new ≡ true) }
{
    let (name, rest) = first(words);
    let name = Name::from_bytes(alloc, name.as_bytes())?;
    let state = unit_state_of(alloc, rest)?;
    table.units.push((name, state))?;
    Ok(())
}

fn unit_state_of(alloc: Global, words: &str) -> Result<UnitState, CaseError>
    ensures { IfOk result (λ state. has_unit_state_rows state ≡ true) }
{
    let (word, rest) = first(words);
    match word {
        "good" => Ok(UnitState::Good),
        "refined" => Ok(UnitState::Refined),
        "unrefined" => Ok(UnitState::Unrefined),
        "bad" => Ok(UnitState::Bad(reason_of(alloc, rest)?)),
        _ => Err(CaseError::Unknown),
    }
}

fn add_row(alloc: Global, table: &mut Table, words: &str) -> Result<(), CaseError>
    requires { has_table_rows table.old ≡ true }
    ensures { OnOk result (has_table_rows table.new ≡ true) }
{
    let (unit, rest) = first(words);
    let (name, rest) = first(rest);
    let unit = Name::from_bytes(alloc, unit.as_bytes())?;
    let name = Label::from_bytes(alloc, name.as_bytes())?;
    let state = state_of(alloc, rest)?;
    table.rows.push(Row {
        unit,
        name,
        state,
        outcome: None,
    })?;
    Ok(())
}

fn counted<L: Ledger>(alloc: Global, table: Table, blank: Blank) -> Result<Bytes, NoMemory>
    requires name { blank.name ≡ L.name }
    requires parts { blank.parts ≡ L.parts }
    requires some { 0 < L.parts }
    requires rows { has_table_rows table ≡ true }
{
    let project = Project {
        units: List::new(alloc),
    };
    let checked = Checked {
        flats: List::new(alloc),
        table,
    };
    let mut steps = Steps::<L>::start(blank);
    reply(alloc, &project, &checked, &Command::Status, &mut steps)
}
