// Which rule a step names.

ghost use Rattle.std.specs.Prelude.{◌≡◌, map, IfOk, None};
ghost use Rattle.kv_sig.specs.Steps.{plain_typed_step, plain_typed_text};
ghost use Rattle.kv_sig.specs.Views.{View, view_of};
ghost use Rattle.kv_trees.specs.Bridge.{plain_form, plain_sequent, plain_term};
ghost use Rattle.kv_goal.specs.Goals.{plain_goal};
ghost use Rattle.kv_prop.specs.Premises.{premises, premises_of, Gives};
ghost use Rattle.kv_prop.specs.Rows.{Row, beside, number_rows, name_rows, term_rows, row_where, row_on};

use crate::{connectives, equality, lemmas, quantifiers};
use kv_goal::Goal;
use kv_sig::{Env, StepError};
use kv_syn::{List, Name, NoMemory, Sequent, Side, Term, TypedStep, TypedText};
use kv_table::{by_row, rule};
use std::alloc::Global;

/// The premises of a step at a sequent, in their order: what is left to show so that the sequent is shown. A step
/// that closes the sequent has none.
///
/// Refusals, the first one that applies: `Position` where a number is 0 or past its side, or a rewriting is on its own
/// equation; `Shape` where a formula isn't of the rule's form, or a rewriting would change nothing; `Sort` where a term
/// has another sort than the quantifier; `NoLabel` where no entry has the label; `NotFresh` where the new name isn't
/// new; `Captured` where a variable of the term would be captured; `Large` where a premise passes a limit of a sequent.
/// `NoMemory` comes also where a formula that a term is put into is deeper than 2,000,000,000, or the term counts more
/// binders around it.
pub fn apply(
    alloc: Global,
    env: &Env<'_>,
    sequent: &Sequent,
    step: &TypedStep,
) -> Result<List<Sequent>, StepError>
    ensures { Gives (map plain_sequent) result (premises (view_of env.now.flat.now) (plain_sequent sequent.now) (plain_typed_step step.now)) }
{
    let goal = Goal::of(alloc, sequent)?;
    let premises = apply_at(alloc, env, &goal, step)?;
    Ok(sequents(alloc, premises.items())?)
}

fn sequents(alloc: Global, goals: &[Goal]) -> Result<List<Sequent>, NoMemory>
    ensures { IfOk result (λ sequents. map plain_sequent sequents ≡ map plain_goal goals.now) }
{
    let mut sequents = List::new(alloc);
    for goal in goals {
        sequents.push(goal.sequent(alloc)?)?;
    }
    Ok(sequents)
}

/// The same at a goal, with goals for premises: only formulas that are new are built and measured.
pub fn apply_at(
    alloc: Global,
    env: &Env<'_>,
    goal: &Goal,
    step: &TypedStep,
) -> Result<List<Goal>, StepError>
    ensures { Gives (map plain_goal) result (premises (view_of env.now.flat.now) (plain_goal goal.now) (plain_typed_step step.now)) }
{
    match step.side {
        None => apply_plain(
            alloc,
            env,
            goal,
            step.rule,
            step.numbers.items(),
            &step.text,
        ),
        Some(side) => apply_on(
            alloc,
            goal,
            step.rule,
            side,
            step.numbers.items(),
            &step.text,
        ),
    }
}

/// The rules without a side.
fn apply_plain(
    alloc: Global,
    env: &Env<'_>,
    goal: &Goal,
    row: u32,
    numbers: &[u32],
    text: &TypedText,
) -> Result<List<Goal>, StepError>
    ensures { Gives (map plain_goal) result (premises_of (view_of env.now.flat.now) (plain_goal goal.now) (row_where row numbers.now (plain_typed_text text.now))) }
{
    match (text, numbers) {
        (TypedText::Nothing, [place]) => at_one(alloc, env, goal, row, *place),
        (TypedText::Nothing, [left, right]) => by_row!(rule, row; {
            CLOSE => connectives::close(alloc, goal, *left, *right),
        } else Err(StepError::Shape)),
        (TypedText::Fresh(name), [place]) => by_row!(rule, row; {
            ALL_R => quantifiers::all_right(alloc, env, goal, *place, name),
            EX_L => quantifiers::ex_left(alloc, env, goal, *place, name),
        } else Err(StepError::Shape)),
        (TypedText::OfTerm(term), [place]) => by_row!(rule, row; {
            ALL_L => quantifiers::all_left(alloc, env, goal, *place, term),
            EX_R => quantifiers::ex_right(alloc, env, goal, *place, term),
        } else Err(StepError::Shape)),
        (TypedText::OfForm(form), []) => by_row!(rule, row; {
            CUT => connectives::cut(alloc, goal, form),
        } else Err(StepError::Shape)),
        (TypedText::OfLabel(label), []) => by_row!(rule, row; {
            USE => lemmas::use_entry(alloc, env, goal, label),
        } else Err(StepError::Shape)),
        _ => Err(StepError::Shape),
    }
}

/// The rules with one number and nothing else.
fn at_one(
    alloc: Global,
    env: &Env<'_>,
    goal: &Goal,
    row: u32,
    place: u32,
) -> Result<List<Goal>, StepError>
    ensures { Gives (map plain_goal) result (premises_of (view_of env.now.flat.now) (plain_goal goal.now) (beside row number_rows (λ i. Row.other) place)) }
{
    by_row!(rule, row; {
        FALSE_L => connectives::false_left(alloc, goal, place),
        TRUE_R => connectives::true_right(alloc, goal, place),
        NOT_L => connectives::not_left(alloc, goal, place),
        NOT_R => connectives::not_right(alloc, goal, place),
        AND_L => connectives::and_left(alloc, goal, place),
        OR_R => connectives::or_right(alloc, goal, place),
        AND_R => connectives::and_right(alloc, goal, place),
        OR_L => connectives::or_left(alloc, goal, place),
        IMP_L => connectives::imp_left(alloc, goal, place),
        IMP_R => connectives::imp_right(alloc, goal, place),
        IFF_L => connectives::iff_left(alloc, goal, place),
        IFF_R => connectives::iff_right(alloc, goal, place),
        DROP_L => connectives::drop_left(alloc, goal, place),
        DROP_R => connectives::drop_right(alloc, goal, place),
        REFL => equality::reflexive(alloc, goal, place),
    } else Err(StepError::Shape))
}

/// The rules with a side.
fn apply_on(
    alloc: Global,
    goal: &Goal,
    row: u32,
    side: Side,
    numbers: &[u32],
    text: &TypedText,
) -> Result<List<Goal>, StepError>
    ensures { (v : View) → Gives (map plain_goal) result (premises_of v (plain_goal goal.now) (row_on row side numbers.now (plain_typed_text text.now))) }
{
    match (text, numbers) {
        (TypedText::Nothing, [place]) => by_row!(rule, row; {
            SWAP => equality::swap(alloc, goal, side, *place),
        } else Err(StepError::Shape)),
        (TypedText::Nothing, [left, place]) => by_row!(rule, row; {
            SUBST => equality::replace(alloc, goal, *left, side, *place),
        } else Err(StepError::Shape)),
        _ => Err(StepError::Shape),
    }
}
