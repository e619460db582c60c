// The rules for equations.

ghost use Rattle.std.specs.Prelude.{◌≡◌, map};
ghost use Rattle.kv_sig.specs.Sequents.{in_place};
ghost use Rattle.kv_trees.specs.Bridge.{plain_term};
ghost use Rattle.kv_trees.specs.Same.{term_eq};
ghost use Rattle.kv_trees.specs.Trees.{Form as Tree};
ghost use Rattle.kv_syn.specs.declared.scripts.Side.TheVariants.{L, R};
ghost use Rattle.kv_goal.specs.Goals.{plain_goal};
ghost use Rattle.kv_prop.specs.Premises.{at_place, elsewhere, is_left_place, or_shape, as_equal, changed, one, nothing, Gives};

use crate::drafts::{Draft, New, one};
use crate::places::at;
use crate::replacing::Replacing;
use kv_goal::Goal;
use kv_sig::StepError;
use kv_syn::{Form, List, Plain, Side, Term};
use std::alloc::Global;

/// `refl i`: an equation on the right has equal sides.
pub(crate) fn reflexive(alloc: Global, goal: &Goal, place: u32) -> Result<List<Goal>, StepError>
    ensures { Gives (map plain_goal) result (at_place R place (plain_goal goal.now) (λ f. as_equal f (λ t u. or_shape (term_eq t u) nothing))) }
{
    let Form::Equal(first, second) = at(goal, Side::R, place)? else {
        return Err(StepError::Shape);
    };
    if are_same_terms(first, second) {
        Ok(List::new(alloc))
    } else {
        Err(StepError::Shape)
    }
}

fn are_same_terms(one: &Term, two: &Term) -> bool
    ensures { result ≡ term_eq (plain_term one.now) (plain_term two.now) }
{
    one.same(two)
}

/// `swap S i`: an equation with its sides exchanged, in its place.
pub(crate) fn swap(
    alloc: Global,
    goal: &Goal,
    side: Side,
    place: u32,
) -> Result<List<Goal>, StepError>
    ensures { Gives (map plain_goal) result (at_place side place (plain_goal goal.now) (λ f. as_equal f (λ t u. one (in_place side place (Tree.Equal u t) (plain_goal goal.now))))) }
{
    let Form::Equal(first, second) = at(goal, side, place)? else {
        return Err(StepError::Shape);
    };
    let new = New::Equal(second, first);
    one(alloc, &Draft::in_place(goal, side, place, new))
}

/// `subst i S j`: by an equation on the left, its second side comes for its first one in another formula.
pub(crate) fn replace(
    alloc: Global,
    goal: &Goal,
    left: u32,
    side: Side,
    place: u32,
) -> Result<List<Goal>, StepError>
    ensures { Gives (map plain_goal) result (elsewhere left side place (at_place L left (plain_goal goal.now) (λ e. at_place side place (plain_goal goal.now) (λ f. as_equal e (λ t u. changed t u f (λ g. one (in_place side place g (plain_goal goal.now)))))))) }
{
    if is_left_place(left, side, place) {
        return Err(StepError::Position);
    }
    let equation = at(goal, Side::L, left)?;
    let form = at(goal, side, place)?;
    let Form::Equal(from, to) = equation else {
        return Err(StepError::Shape);
    };
    let replacing = Replacing::of(from, to, form)?;
    if replacing.stays() {
        return Err(StepError::Shape);
    }
    let new = New::Replaced(replacing);
    one(alloc, &Draft::in_place(goal, side, place, new))
}

/// Whether the place of a side is that one on the left.
fn is_left_place(left: u32, side: Side, place: u32) -> bool
    ensures { result ≡ is_left_place left side place }
{
    match side {
        Side::L => left == place,
        Side::R => false,
    }
}
