// Formulas at places of a sequent, counted from 1 on their side.

ghost use Rattle.std.specs.Prelude.{◌≡◌, ◌≤◌, Some, None, length, IfOk, MatchResult};
ghost use Rattle.kv_sig.specs.Places.{item_at};
ghost use Rattle.kv_sig.specs.Sequents.{side_of};
ghost use Rattle.kv_sig.specs.declared.refusals.StepError.{StepError};
ghost use Rattle.kv_trees.specs.Bridge.{plain_form};
ghost use Rattle.kv_trees.specs.Same.{form_eq};
ghost use Rattle.kv_goal.specs.Goals.{plain_goal};

use kv_goal::Goal;
use kv_sig::StepError;
use kv_syn::{Form, Plain, Side};

/// The formula at a place of a side; `Position` exactly where there is none.
pub(crate) fn at(goal: &Goal, side: Side, place: u32) -> Result<&Form, StepError>
    ensures answer { MatchResult result (λ form. item_at (side_of side (plain_goal goal.now)) place ≡ Some (plain_form form.now)) (λ error. (error ≡ StepError.Position) × (item_at (side_of side (plain_goal goal.now)) place ≡ None)) }
    ensures low { IfOk result (λ form. 1 ≤ place) }
    ensures high { IfOk result (λ form. place ≤ length (side_of side (plain_goal goal.now))) }
{
    if place == 0 {
        return Err(StepError::Position);
    }
    match goal.side(side).get((place - 1) as usize) {
        Some(known) => Ok(&known.get().form),
        None => Err(StepError::Position),
    }
}

/// Whether two formulas are equal.
pub(crate) fn are_same(one: &Form, two: &Form) -> bool
    ensures { result ≡ form_eq (plain_form one.now) (plain_form two.now) }
{
    one.same(two)
}
