// What a step answers at a goal.

ghost use Rattle.std.specs.Prelude.{◌≡◌, true, map, IfOk, IfErr};
ghost use Rattle.kv_elab.specs.Typed as typed;
ghost use Rattle.kv_goal.specs.Goals.{plain_goal};
ghost use Rattle.kv_prop.specs.Premises.{Gives, premises};
ghost use Rattle.kv_script.specs.Answers.{answer, typed_step, typed_text};
ghost use Rattle.kv_script.specs.Tallies.{plain_answer};
ghost use Rattle.kv_sig.specs.Steps.{plain_typed_text};
ghost use Rattle.kv_sig.specs.Views.{view_of};
ghost use Rattle.kv_syn.specs.Rows.{has_reason_row};
ghost use Rattle.kv_syn.specs.ScriptBridge.{plain_scripts, plain_step, plain_text};

use crate::context::context_of;
use crate::reasons::{bare, reason_of, typing_reason};
use kv_elab::{TypeError, elaborate, elaborate_term};
use kv_goal::Goal;
use kv_prop::apply_at;
use kv_sig::{Env, StepError};
use kv_syn::{List, NoMemory, Plain, Reason, Script, Step, StepText, TypedStep, TypedText};
use kv_table::reason;
use std::alloc::Global;

/// The premises of a step with these children, or the reason why it is refused: the first fault of its text, the first
/// refusal of its rule, or more children than premises.
pub fn answer(
    alloc: Global,
    env: &Env,
    goal: &Goal,
    step: &Step,
    children: &[Script],
) -> Result<Result<List<Goal>, Reason>, NoMemory>
    ensures rows { IfOk result (λ a. IfErr a (λ reason. has_reason_row reason ≡ true)) }
    ensures answer { IfOk result (λ a. plain_answer a ≡ answer (view_of env.now.flat.now) (plain_goal goal.now) (plain_step step.now) (plain_scripts children.now)) }
{
    let text = match typed_text(alloc, env, goal, &step.text) {
        Err(fault) => return Ok(Err(typing_reason(alloc, fault)?)),
        Ok(text) => text,
    };
    match premises(alloc, env, goal, step, text) {
        Err(error) => Ok(Err(reason_of(alloc, error)?)),
        Ok(premises) => {
            if premises.items().len() < children.len() {
                Ok(Err(bare(alloc, reason::SURPLUS)))
            } else {
                Ok(Ok(premises))
            }
        }
    }
}

/// The premises of a step with this text.
fn premises(
    alloc: Global,
    env: &Env,
    goal: &Goal,
    step: &Step,
    text: TypedText,
) -> Result<List<Goal>, StepError>
    ensures { Gives (map plain_goal) result (premises (view_of env.now.flat.now) (plain_goal goal.now) (typed_step (plain_step step.now) (plain_typed_text text))) }
{
    let typed = TypedStep {
        rule: step.rule,
        side: step.side,
        numbers: step.numbers.copy(alloc)?,
        text,
    };
    apply_at(alloc, env, goal, &typed)
}

/// The text of a step after typing, or its first fault. A term and a formula may name what is free in the goal.
fn typed_text(
    alloc: Global,
    env: &Env,
    goal: &Goal,
    text: &StepText,
) -> Result<TypedText, TypeError>
    ensures { typed.Gives plain_typed_text result (typed_text (view_of env.now.flat.now) (plain_goal goal.now) (plain_text text.now)) }
{
    match text {
        StepText::Nothing => Ok(TypedText::Nothing),
        StepText::Fresh(name) => Ok(TypedText::Fresh(name.copy(alloc)?)),
        StepText::OfTerm(term) => {
            let context = context_of(alloc, goal)?;
            let (term, _) = elaborate_term(alloc, &env.flat.sig, &context, term)?;
            Ok(TypedText::OfTerm(term))
        }
        StepText::OfForm(form) => {
            let context = context_of(alloc, goal)?;
            let form = elaborate(alloc, &env.flat.sig, &context, form)?;
            Ok(TypedText::OfForm(form))
        }
        StepText::OfLabel(label) => Ok(TypedText::OfLabel(label.copy(alloc)?)),
    }
}
