// The rules for connectives.

ghost use Rattle.std.specs.Prelude.{map};
ghost use Rattle.kv_sig.specs.Sequents.{in_place, two_in_place, at_end, without};
ghost use Rattle.kv_trees.specs.Bridge.{plain_form};
ghost use Rattle.kv_trees.specs.Same.{form_eq};
ghost use Rattle.kv_trees.specs.Trees.{Form as Tree};
ghost use Rattle.kv_syn.specs.declared.scripts.Side.TheVariants.{L, R};
ghost use Rattle.kv_goal.specs.Goals.{plain_goal};
ghost use Rattle.kv_prop.specs.Premises.{at_place, or_shape, as_false, as_true, as_not, as_and, as_or, as_imp, as_iff, one, two, nothing, Gives};

use crate::drafts::{Draft, New, Part, one, two};
use crate::places::{are_same, at};
use kv_goal::Goal;
use kv_sig::StepError;
use kv_syn::{Form, List, Side};
use std::alloc::Global;

/// `close i j`: a formula on the left equals one on the right.
pub(crate) fn close(
    alloc: Global,
    goal: &Goal,
    left: u32,
    right: u32,
) -> Result<List<Goal>, StepError>
    ensures { Gives (map plain_goal) result (at_place L left (plain_goal goal.now) (λ a. at_place R right (plain_goal goal.now) (λ b. or_shape (form_eq a b) nothing))) }
{
    let assumed = at(goal, Side::L, left)?;
    let wanted = at(goal, Side::R, right)?;
    if are_same(assumed, wanted) {
        Ok(List::new(alloc))
    } else {
        Err(StepError::Shape)
    }
}

/// `falseL i`: `false` on the left.
pub(crate) fn false_left(alloc: Global, goal: &Goal, place: u32) -> Result<List<Goal>, StepError>
    ensures { Gives (map plain_goal) result (at_place L place (plain_goal goal.now) (λ f. as_false f nothing)) }
{
    let Form::False = at(goal, Side::L, place)? else {
        return Err(StepError::Shape);
    };
    Ok(List::new(alloc))
}

/// `trueR i`: `true` on the right.
pub(crate) fn true_right(alloc: Global, goal: &Goal, place: u32) -> Result<List<Goal>, StepError>
    ensures { Gives (map plain_goal) result (at_place R place (plain_goal goal.now) (λ f. as_true f nothing)) }
{
    let Form::True = at(goal, Side::R, place)? else {
        return Err(StepError::Shape);
    };
    Ok(List::new(alloc))
}

/// `notL i`: of a negation on the left, the formula below it is shown at the end of the right.
pub(crate) fn not_left(alloc: Global, goal: &Goal, place: u32) -> Result<List<Goal>, StepError>
    ensures { Gives (map plain_goal) result (at_place L place (plain_goal goal.now) (λ f. as_not f (λ a. one (at_end R a (without L place (plain_goal goal.now)))))) }
{
    let Form::Not(form) = at(goal, Side::L, place)? else {
        return Err(StepError::Shape);
    };
    let premise = Draft {
        left: Part::without(goal.left.items(), place),
        right: Part::at_end(goal.right.items(), New::Copied(form.get())),
    };
    one(alloc, &premise)
}

/// `notR i`: of a negation on the right, the formula below it is assumed at the end of the left.
pub(crate) fn not_right(alloc: Global, goal: &Goal, place: u32) -> Result<List<Goal>, StepError>
    ensures { Gives (map plain_goal) result (at_place R place (plain_goal goal.now) (λ f. as_not f (λ a. one (at_end L a (without R place (plain_goal goal.now)))))) }
{
    let Form::Not(form) = at(goal, Side::R, place)? else {
        return Err(StepError::Shape);
    };
    let premise = Draft {
        left: Part::at_end(goal.left.items(), New::Copied(form.get())),
        right: Part::without(goal.right.items(), place),
    };
    one(alloc, &premise)
}

/// `andL i`: of a conjunction on the left, both parts take its place.
pub(crate) fn and_left(alloc: Global, goal: &Goal, place: u32) -> Result<List<Goal>, StepError>
    ensures { Gives (map plain_goal) result (at_place L place (plain_goal goal.now) (λ f. as_and f (λ a b. one (two_in_place L place a b (plain_goal goal.now))))) }
{
    let Form::And(first, second) = at(goal, Side::L, place)? else {
        return Err(StepError::Shape);
    };
    let first = New::Copied(first.get());
    let second = New::Copied(second.get());
    one(
        alloc,
        &Draft::two_in_place(goal, Side::L, place, first, second),
    )
}

/// `orR i`: of a disjunction on the right, both parts take its place.
pub(crate) fn or_right(alloc: Global, goal: &Goal, place: u32) -> Result<List<Goal>, StepError>
    ensures { Gives (map plain_goal) result (at_place R place (plain_goal goal.now) (λ f. as_or f (λ a b. one (two_in_place R place a b (plain_goal goal.now))))) }
{
    let Form::Or(first, second) = at(goal, Side::R, place)? else {
        return Err(StepError::Shape);
    };
    let first = New::Copied(first.get());
    let second = New::Copied(second.get());
    one(
        alloc,
        &Draft::two_in_place(goal, Side::R, place, first, second),
    )
}

/// `andR i`: of a conjunction on the right, first the one part and then the other is shown in its place.
pub(crate) fn and_right(alloc: Global, goal: &Goal, place: u32) -> Result<List<Goal>, StepError>
    ensures { Gives (map plain_goal) result (at_place R place (plain_goal goal.now) (λ f. as_and f (λ a b. two (in_place R place a (plain_goal goal.now)) (in_place R place b (plain_goal goal.now))))) }
{
    let Form::And(first, second) = at(goal, Side::R, place)? else {
        return Err(StepError::Shape);
    };
    two(
        alloc,
        &Draft::in_place(goal, Side::R, place, New::Copied(first.get())),
        &Draft::in_place(goal, Side::R, place, New::Copied(second.get())),
    )
}

/// `orL i`: of a disjunction on the left, first the one part and then the other is assumed in its place.
pub(crate) fn or_left(alloc: Global, goal: &Goal, place: u32) -> Result<List<Goal>, StepError>
    ensures { Gives (map plain_goal) result (at_place L place (plain_goal goal.now) (λ f. as_or f (λ a b. two (in_place L place a (plain_goal goal.now)) (in_place L place b (plain_goal goal.now))))) }
{
    let Form::Or(first, second) = at(goal, Side::L, place)? else {
        return Err(StepError::Shape);
    };
    two(
        alloc,
        &Draft::in_place(goal, Side::L, place, New::Copied(first.get())),
        &Draft::in_place(goal, Side::L, place, New::Copied(second.get())),
    )
}

/// `impL i`: of an implication on the left, first its premise is shown at the end of the right, and then its conclusion takes
/// its place.
pub(crate) fn imp_left(alloc: Global, goal: &Goal, place: u32) -> Result<List<Goal>, StepError>
    ensures { Gives (map plain_goal) result (at_place L place (plain_goal goal.now) (λ f. as_imp f (λ a b. two (at_end R a (without L place (plain_goal goal.now))) (in_place L place b (plain_goal goal.now))))) }
{
    let Form::Imp(premise, conclusion) = at(goal, Side::L, place)? else {
        return Err(StepError::Shape);
    };
    let first = Draft {
        left: Part::without(goal.left.items(), place),
        right: Part::at_end(goal.right.items(), New::Copied(premise.get())),
    };
    let second = Draft::in_place(goal, Side::L, place, New::Copied(conclusion.get()));
    two(alloc, &first, &second)
}

/// `impR i`: of an implication on the right, its premise is assumed at the end of the left and its conclusion takes its place.
pub(crate) fn imp_right(alloc: Global, goal: &Goal, place: u32) -> Result<List<Goal>, StepError>
    ensures { Gives (map plain_goal) result (at_place R place (plain_goal goal.now) (λ f. as_imp f (λ a b. one (at_end L a (in_place R place b (plain_goal goal.now)))))) }
{
    let Form::Imp(premise, conclusion) = at(goal, Side::R, place)? else {
        return Err(StepError::Shape);
    };
    let premise = Draft {
        left: Part::at_end(goal.left.items(), New::Copied(premise.get())),
        right: Part::in_place(goal.right.items(), place, New::Copied(conclusion.get())),
    };
    one(alloc, &premise)
}

/// `iffL i`: of an equivalence on the left, both implications take its place.
pub(crate) fn iff_left(alloc: Global, goal: &Goal, place: u32) -> Result<List<Goal>, StepError>
    ensures { Gives (map plain_goal) result (at_place L place (plain_goal goal.now) (λ f. as_iff f (λ a b. one (two_in_place L place (Tree.Imp a b) (Tree.Imp b a) (plain_goal goal.now))))) }
{
    let Form::Iff(first, second) = at(goal, Side::L, place)? else {
        return Err(StepError::Shape);
    };
    let there = New::Imp(first, second);
    let back = New::Imp(second, first);
    one(
        alloc,
        &Draft::two_in_place(goal, Side::L, place, there, back),
    )
}

/// `iffR i`: of an equivalence on the right, first the one implication and then the other is shown in its place.
pub(crate) fn iff_right(alloc: Global, goal: &Goal, place: u32) -> Result<List<Goal>, StepError>
    ensures { Gives (map plain_goal) result (at_place R place (plain_goal goal.now) (λ f. as_iff f (λ a b. two (in_place R place (Tree.Imp a b) (plain_goal goal.now)) (in_place R place (Tree.Imp b a) (plain_goal goal.now))))) }
{
    let Form::Iff(first, second) = at(goal, Side::R, place)? else {
        return Err(StepError::Shape);
    };
    let there = New::Imp(first, second);
    let back = New::Imp(second, first);
    two(
        alloc,
        &Draft::in_place(goal, Side::R, place, there),
        &Draft::in_place(goal, Side::R, place, back),
    )
}

/// `dropL i`: a formula on the left goes.
pub(crate) fn drop_left(alloc: Global, goal: &Goal, place: u32) -> Result<List<Goal>, StepError>
    ensures { Gives (map plain_goal) result (at_place L place (plain_goal goal.now) (λ f. one (without L place (plain_goal goal.now)))) }
{
    at(goal, Side::L, place)?;
    one(alloc, &Draft::without(goal, Side::L, place))
}

/// `dropR i`: a formula on the right goes.
pub(crate) fn drop_right(alloc: Global, goal: &Goal, place: u32) -> Result<List<Goal>, StepError>
    ensures { Gives (map plain_goal) result (at_place R place (plain_goal goal.now) (λ f. one (without R place (plain_goal goal.now)))) }
{
    at(goal, Side::R, place)?;
    one(alloc, &Draft::without(goal, Side::R, place))
}

/// `cut F`: first F is shown at the end of the right, and then it is assumed at the end of the left.
pub(crate) fn cut(alloc: Global, goal: &Goal, form: &Form) -> Result<List<Goal>, StepError>
    ensures { Gives (map plain_goal) result (two (at_end R (plain_form form.now) (plain_goal goal.now)) (at_end L (plain_form form.now) (plain_goal goal.now))) }
{
    two(
        alloc,
        &Draft::at_end(goal, Side::R, New::Copied(form)),
        &Draft::at_end(goal, Side::L, New::Copied(form)),
    )
}
