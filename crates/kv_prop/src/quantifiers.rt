// The rules for quantifiers.

ghost use Rattle.std.specs.Prelude.{◌≡◌, ◌≤◌, length, map, IfOk};
ghost use Rattle.std.specs.Option.{option_copied};
ghost use Rattle.kv_sig.specs.Sequents.{in_place, at_end, side_of};
ghost use Rattle.kv_sig.specs.Views.{view_of};
ghost use Rattle.kv_trees.specs.Bridge.{plain_term, plain_form};
ghost use Rattle.kv_syn.specs.declared.scripts.Side.TheVariants.{L, R};
ghost use Rattle.kv_goal.specs.Goals.{plain_goal};
ghost use Rattle.kv_prop.specs.Premises.{at_place, as_all, as_ex, at_new, at_term, sort_of, one, Gives};
ghost use Rattle.kv_trees.specs.Variables.{variable};

use crate::drafts::{Draft, New, one};
use crate::fresh::is_fresh;
use crate::opening::Opening;
use crate::places::at;
use kv_goal::Goal;
use kv_sig::{Env, StepError, same_name};
use kv_syn::{Form, List, Name, NoMemory, Plain, Profile, Ref, Side, Term, Var};
use std::alloc::Global;

/// `allR i as x`: for a universal formula on the right its body is shown at a new variable, in its place.
pub(crate) fn all_right(
    alloc: Global,
    env: &Env<'_>,
    goal: &Goal,
    place: u32,
    name: &Name,
) -> Result<List<Goal>, StepError>
    ensures { Gives (map plain_goal) result (at_place R place (plain_goal goal.now) (λ f. as_all f (λ sort a. at_new (view_of env.now.flat.now) (plain_goal goal.now) name.now sort a (λ b. one (in_place R place b (plain_goal goal.now)))))) }
{
    let Form::All(sort, body) = at(goal, Side::R, place)? else {
        return Err(StepError::Shape);
    };
    at_new(alloc, env, goal, Side::R, place, sort, body.get(), name)
}

/// `exL i as x`: of an existential formula on the left its body is assumed at a new variable, in its place.
pub(crate) fn ex_left(
    alloc: Global,
    env: &Env<'_>,
    goal: &Goal,
    place: u32,
    name: &Name,
) -> Result<List<Goal>, StepError>
    ensures { Gives (map plain_goal) result (at_place L place (plain_goal goal.now) (λ f. as_ex f (λ sort a. at_new (view_of env.now.flat.now) (plain_goal goal.now) name.now sort a (λ b. one (in_place L place b (plain_goal goal.now)))))) }
{
    let Form::Ex(sort, body) = at(goal, Side::L, place)? else {
        return Err(StepError::Shape);
    };
    at_new(alloc, env, goal, Side::L, place, sort, body.get(), name)
}

/// The body of a quantifier of that sort at a new variable, in its place.
fn at_new(
    alloc: Global,
    env: &Env<'_>,
    goal: &Goal,
    side: Side,
    place: u32,
    sort: &Name,
    body: &Form,
    name: &Name,
) -> Result<List<Goal>, StepError>
    requires low { 1 ≤ place }
    requires high { place ≤ length (side_of side (plain_goal goal.now)) }
    ensures { Gives (map plain_goal) result (at_new (view_of env.now.flat.now) (plain_goal goal.now) name.now sort.now (plain_form body.now) (λ b. one (in_place side place b (plain_goal goal.now)))) }
{
    if !is_fresh(env, goal, name) {
        return Err(StepError::NotFresh {
            name: name.copy(alloc)?,
        });
    }
    let term = variable(alloc, name, sort)?;
    let Some(opening) = Opening::of(body, &term)? else {
        return Err(StepError::Captured);
    };
    one(
        alloc,
        &Draft::in_place(goal, side, place, New::Opened(opening)),
    )
}

fn variable(alloc: Global, name: &Name, sort: &Name) -> Result<Term, NoMemory>
    ensures { IfOk result (λ term. plain_term term ≡ variable name.now sort.now) }
{
    Ok(Term::Place(Ref::Free(Var {
        name: name.copy(alloc)?,
        sort: sort.copy(alloc)?,
    })))
}

/// `allL i with t`: of a universal formula on the left its body is assumed at the term, at the end.
pub(crate) fn all_left(
    alloc: Global,
    env: &Env<'_>,
    goal: &Goal,
    place: u32,
    term: &Term,
) -> Result<List<Goal>, StepError>
    ensures { Gives (map plain_goal) result (at_place L place (plain_goal goal.now) (λ f. as_all f (λ sort a. at_term (view_of env.now.flat.now) (plain_term term.now) sort a (λ b. one (at_end L b (plain_goal goal.now)))))) }
{
    let Form::All(sort, body) = at(goal, Side::L, place)? else {
        return Err(StepError::Shape);
    };
    at_term(alloc, env, goal, Side::L, sort, body.get(), term)
}

/// `exR i with t`: for an existential formula on the right its body is shown at the term, at the end.
pub(crate) fn ex_right(
    alloc: Global,
    env: &Env<'_>,
    goal: &Goal,
    place: u32,
    term: &Term,
) -> Result<List<Goal>, StepError>
    ensures { Gives (map plain_goal) result (at_place R place (plain_goal goal.now) (λ f. as_ex f (λ sort a. at_term (view_of env.now.flat.now) (plain_term term.now) sort a (λ b. one (at_end R b (plain_goal goal.now)))))) }
{
    let Form::Ex(sort, body) = at(goal, Side::R, place)? else {
        return Err(StepError::Shape);
    };
    at_term(alloc, env, goal, Side::R, sort, body.get(), term)
}

/// The body of a quantifier of that sort at the term, at the end of the side.
fn at_term(
    alloc: Global,
    env: &Env<'_>,
    goal: &Goal,
    side: Side,
    sort: &Name,
    body: &Form,
    term: &Term,
) -> Result<List<Goal>, StepError>
    ensures { Gives (map plain_goal) result (at_term (view_of env.now.flat.now) (plain_term term.now) sort.now (plain_form body.now) (λ b. one (at_end side b (plain_goal goal.now)))) }
{
    let Some(got) = sort_of(env, term) else {
        return Err(StepError::Shape);
    };
    if !same_name(sort, got) {
        return Err(StepError::Sort {
            want: sort.copy(alloc)?,
            got: got.copy(alloc)?,
        });
    }
    let Some(opening) = Opening::of(body, term)? else {
        return Err(StepError::Captured);
    };
    one(alloc, &Draft::at_end(goal, side, New::Opened(opening)))
}

/// The sort of a term: that of its variable, or the result of its function.
fn sort_of<'a>(env: &Env<'a>, term: &'a Term) -> Option<&'a Name>
    ensures { option_copied result ≡ sort_of (view_of env.now.flat.now) (plain_term term.now) }
{
    match term {
        Term::Place(Ref::Free(x)) => Some(&x.sort),
        Term::Place(Ref::Bound(_)) => None,
        Term::App(f, _) => match env.flat.sig.look(f) {
            Some(Profile::Fun { result, .. }) => Some(result),
            _ => None,
        },
    }
}
