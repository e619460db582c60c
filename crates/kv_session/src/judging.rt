// Projects after an edit.

ghost use Rattle.std.specs.Prelude.{◌≡◌, IfOk};
ghost use Rattle.kv_fresh.specs.States.{table_of};
ghost use Rattle.kv_session.specs.Answers.{Gives};
ghost use Rattle.kv_session.specs.Edits as spec;
ghost use Rattle.kv_session.specs.Replies.{accepted_text};
ghost use Rattle.kv_syn.specs.ProjectBridge.{plain_project};

use crate::errors::EditError;
use crate::limits::within_limits;
use crate::replies::accepted;
use kv_fresh::check;
use kv_syn::{Bytes, Project, Steps};
use std::alloc::Global;
use std::sync::ledger::Ledger;

/// The answer to the edit that led to the project, by a check of it. Refuses a project that passes a limit.
pub fn judged<L: Ledger>(
    alloc: Global,
    project: &Project,
    steps: &mut Steps<L>,
) -> Result<Bytes, EditError>
    ensures gives { Gives (λ _. plain_project project.now) (spec.within_limits (plain_project project.now)) result }
    ensures text { IfOk result (λ text. text ≡ accepted_text (table_of (plain_project project.now))) }
{
    within_limits(alloc, project)?;
    let checked = check(alloc, project, steps)?;
    let text = accepted(alloc, &checked.table)?;
    Ok(text)
}
