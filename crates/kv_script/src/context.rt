// What the text of a step may name.

ghost use Rattle.std.specs.Prelude.{◌≡◌, IfOk};
ghost use Rattle.kv_goal.specs.Goals.{plain_goal};
ghost use Rattle.kv_script.specs.Answers.{context_of};

use kv_elab::Context;
use kv_goal::Goal;
use kv_syn::{List, NoMemory};
use std::alloc::Global;

/// The free variables and the assumed procedures of a goal, each name once.
pub fn context_of(alloc: Global, goal: &Goal) -> Result<Context, NoMemory>
    ensures { IfOk result (λ context. context ≡ context_of (plain_goal goal.now)) }
{
    Ok(Context {
        free: goal.variables(alloc)?,
        bound: List::new(alloc),
        assumed: goal.procedures(alloc)?,
    })
}
