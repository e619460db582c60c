// The limits of a project.

ghost use Rattle.std.specs.Prelude.{◌≡◌, IfOk};
ghost use Rattle.kv_session.specs.Answers.{Gives};
ghost use Rattle.kv_session.specs.Edits as spec;
ghost use Rattle.kv_syn.specs.ProjectBridge.{plain_project};

use crate::errors::{EditError, Limit, Refusal};
use kv_print::project_text;
use kv_punit::theorem_count;
use kv_syn::{NoMemory, Project};
use std::alloc::Global;

/// How many units a project may have.
const UNITS: usize = 500;

/// How many theorems a project may have.
const THEOREMS: u64 = 5_000;

/// How many bytes the canonical text of a project may have.
const TEXT: usize = 16_777_216;

/// Refuses a project with the first limit that it passes.
pub fn within_limits(alloc: Global, project: &Project) -> Result<(), EditError>
    ensures { Gives (λ _. plain_project project.now) (spec.within_limits (plain_project project.now)) result }
{
    if project.units.items().len() > UNITS {
        return Err(EditError::Refused(Refusal::Limit(Limit::Units)));
    }
    if theorem_count(project.units.items()) > THEOREMS {
        return Err(EditError::Refused(Refusal::Limit(Limit::Theorems)));
    }
    if is_long(alloc, project)? {
        return Err(EditError::Refused(Refusal::Limit(Limit::Text)));
    }
    Ok(())
}

/// Whether the canonical text of the project is longer than it may be.
#[tactic(auto, unfolding(crate::specs::Edits::is_long))]
fn is_long(alloc: Global, project: &Project) -> Result<bool, NoMemory>
    ensures { IfOk result (λ long. long ≡ spec.is_long (plain_project project.now)) }
{
    let text = project_text(alloc, project)?;
    Ok(text.bytes().len() > TEXT)
}
