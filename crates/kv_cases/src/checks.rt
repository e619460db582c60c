// Checks of projects, with the rows that have an outcome.

ghost use Rattle.std.specs.Prelude.{◌≡◌, ◌<◌};

use crate::errors::CaseError;
use crate::shown::{as_text, push_lines};
use kv_fresh::check;
use kv_punit::{Command, project};
use kv_query::reply;
use kv_syn::{Bytes, NoMemory, Project, Row, Steps};
use std::alloc::Global;
use std::fmt::Write;
use std::marker::Brand;
use std::sync::ledger::{Blank, Ledger};

/// The answer to `status`, and what the replays of the proofs found.
pub fn check_lines(alloc: Global, text: &[u8]) -> Result<String, CaseError> {
    match project(alloc, text) {
        Ok(project) => counted::<Brand>(alloc, &project, Blank::new(1)),
        Err(error) => Ok(error.to_string(alloc)?),
    }
}

fn counted<L: Ledger>(alloc: Global, project: &Project, blank: Blank) -> Result<String, CaseError>
    requires name { blank.name ≡ L.name }
    requires parts { blank.parts ≡ L.parts }
    requires some { 0 < L.parts }
{
    let mut steps = Steps::<L>::start(blank);
    let checked = check(alloc, project, &mut steps)?;
    let answer = reply(alloc, project, &checked, &Command::Status, &mut steps)?;
    let mut out = String::new(alloc);
    push_lines(&mut out, as_text(answer.bytes()))?;
    for row in checked.table.rows.items() {
        push_outcome(&mut out, row)?;
    }
    Ok(out)
}

/// Adds what a replay found, if the row has one.
fn push_outcome(out: &mut String, row: &Row) -> Result<(), CaseError> {
    let Some(outcome) = &row.outcome else {
        return Ok(());
    };
    let unit = as_text(row.unit.bytes());
    let name = as_text(row.name.bytes());
    let goals = outcome.goals;
    if outcome.closed {
        writeln!(out, "replay of {unit}.{name} closed")?;
    } else {
        writeln!(out, "replay of {unit}.{name} with {goals} goals")?;
    }
    Ok(())
}
