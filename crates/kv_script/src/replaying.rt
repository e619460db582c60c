// Replay.

ghost use Rattle.std.specs.Prelude.{◌≡◌, ◌+◌, ◌<◌, ◌≤◌, true, ◌∷◌, drop, length, map, IfErr, IfOk, OnOk};
ghost use Rattle.kv_goal.specs.Goals.{plain_goal};
ghost use Rattle.kv_script.specs.Answers.{answer};
ghost use Rattle.kv_script.specs.Derives.{Derives};
ghost use Rattle.kv_script.specs.Events.{outcome_of, events, events_below, replay_events, visits};
ghost use Rattle.kv_script.specs.Tallies.{Told, plain_answer};
ghost use Rattle.kv_sig.specs.Views.{view_of};
ghost use Rattle.kv_trees.specs.Bridge.{plain_form};
ghost use Rattle.kv_syn.specs.Rows.{has_fault_rows, has_reason_row};
ghost use Rattle.kv_syn.specs.ScriptBridge.{plain_script, plain_scripts, plain_step};

use crate::answers::answer;
use crate::tally::Tally;
use kv_goal::Goal;
use kv_sig::Env;
use kv_syn::{Form, List, NoMemory, Outcome, Path, Plain, Reason, Script, Step, Steps};
use std::alloc::Global;
use std::mem;
use std::sync::ledger::Ledger;

/// Replays a script at the sequent with the goal alone on the right, and counts each step that is visited.
///
/// A step is visited where there is a sequent for it: the root's, or a premise of its parent. A refused step's
/// children aren't. A premise without a child, or with the child `open`, is an open goal. More children than
/// premises is a refusal too (`surplus`).
pub fn replay<L: Ledger>(
    alloc: Global,
    env: &Env,
    goal: &Form,
    script: &Script,
    steps: &mut Steps<L>,
) -> Result<Outcome, NoMemory>
    ensures rows { IfOk result (λ outcome. has_fault_rows outcome.broken ≡ true) }
    ensures outcome { IfOk result (λ outcome. outcome ≡ outcome_of (replay_events (view_of env.now.flat.now) (plain_form goal.now) (plain_script script.now))) }
    ensures derivable { IfOk result (λ outcome. Derives env.now.flat.now (plain_form goal.now) outcome) }
    ensures steps { OnOk result (steps.new ≡ steps.old + visits (replay_events (view_of env.now.flat.now) (plain_form goal.now) (plain_script script.now))) }
    ensures at_most { steps.new ≤ steps.old + visits (replay_events (view_of env.now.flat.now) (plain_form goal.now) (plain_script script.now)) }
{
    let root = Goal::of_form(alloc, goal)?;
    let mut path = List::new(alloc);
    let mut tally = Tally {
        goals: 0,
        broken: None,
        uses: List::new(alloc),
        looks: List::new(alloc),
    };
    replay_at(alloc, env, root, script, &mut path, &mut tally, steps)?;
    tally.outcome(alloc)
}

/// The answer to a step at a goal that isn't needed behind it.
fn answer_at(
    alloc: Global,
    env: &Env,
    goal: Goal,
    step: &Step,
    children: &[Script],
) -> Result<Result<List<Goal>, Reason>, NoMemory>
    ensures rows { IfOk result (λ a. IfErr a (λ reason. has_reason_row reason ≡ true)) }
    ensures answer { IfOk result (λ a. plain_answer a ≡ answer (view_of env.now.flat.now) (plain_goal goal) (plain_step step.now) (plain_scripts children.now)) }
{
    answer(alloc, env, &goal, step, children)
}

/// Replays a script at a goal.
#[cycle(replay)]
fn replay_at<L: Ledger>(
    alloc: Global,
    env: &Env,
    goal: Goal,
    script: &Script,
    path: &mut Path,
    tally: &mut Tally,
    steps: &mut Steps<L>,
) -> Result<(), NoMemory>
    requires { has_fault_rows tally.old.broken ≡ true }
    ensures rows { OnOk result (has_fault_rows tally.new.broken ≡ true) }
    ensures path { OnOk result (path.new ≡ path.old) }
    ensures told { OnOk result (Told tally.old tally.new (events (view_of env.now.flat.now) (plain_goal goal) path.old (plain_script script.now))) }
    ensures steps { OnOk result (steps.new ≡ steps.old + visits (events (view_of env.now.flat.now) (plain_goal goal) path.old (plain_script script.now))) }
    ensures at_most { steps.new ≤ steps.old + visits (events (view_of env.now.flat.now) (plain_goal goal) path.old (plain_script script.now)) }
{
    // (the proof reads off here that the count fits its type)
    let _goals = tally.goals;
    match script {
        Script::Hole => {
            tally.goal();
            Ok(())
        }
        Script::Node(step, children) => {
            steps.tick();
            tally.ask(alloc, &step.text)?;
            match answer_at(alloc, env, goal, step, children.items())? {
                Err(reason) => tally.refuse(alloc, path, step.rule, reason),
                Ok(premises) => {
                    tally.use_label(alloc, &step.text)?;
                    replay_below(alloc, env, premises, children.items(), path, tally, steps)
                }
            }
        }
    }
}

/// Takes the goal at that place, and leaves an empty one there.
fn taken(alloc: Global, premises: &mut List<Goal>, place: usize) -> Goal
    requires { place < length premises.old }
    ensures first { drop place premises.old ≡ result ∷ drop (place + 1) premises.new }
    ensures length { length premises.new ≡ length premises.old }
{
    let mut goal = Goal::empty(alloc);
    mem::swap(premises.item_mut(place), &mut goal);
    goal
}

/// Replays the children of a step at its premises, each of which goes with its child. A premise without a child is an open goal.
#[cycle(replay)]
fn replay_below<L: Ledger>(
    alloc: Global,
    env: &Env,
    mut premises: List<Goal>,
    children: &[Script],
    path: &mut Path,
    tally: &mut Tally,
    steps: &mut Steps<L>,
) -> Result<(), NoMemory>
    requires { has_fault_rows tally.old.broken ≡ true }
    ensures rows { OnOk result (has_fault_rows tally.new.broken ≡ true) }
    ensures path { OnOk result (path.new ≡ path.old) }
    ensures told { OnOk result (Told tally.old tally.new (events_below (view_of env.now.flat.now) path.old 0 (map plain_goal premises) (plain_scripts children.now))) }
    ensures steps { OnOk result (steps.new ≡ steps.old + visits (events_below (view_of env.now.flat.now) path.old 0 (map plain_goal premises) (plain_scripts children.now))) }
    ensures at_most { steps.new ≤ steps.old + visits (events_below (view_of env.now.flat.now) path.old 0 (map plain_goal premises) (plain_scripts children.now)) }
{
    // (the proof reads off here that the count fits its type)
    let _goals = tally.goals;
    let mut place = 0u32;
    let count = premises.items().len();
    for i in 0..count {
        place = place.saturating_add(1);
        let premise = taken(alloc, &mut premises, i);
        match children.get(i) {
            None => tally.goal(),
            Some(child) => {
                path.push(place)?;
                replay_at(alloc, env, premise, child, path, tally, steps)?;
                let _ = path.pop();
            }
        }
    }
    Ok(())
}
