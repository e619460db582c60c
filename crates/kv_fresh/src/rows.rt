// The rows of theorems and of idle proofs.

ghost use Rattle.std.specs.Prelude.{◌≡◌, ◌+◌, ◌≤◌, [], true, map, Ok, IfOk, IfErr, OnOk};
ghost use Rattle.kv_fresh.specs.Goals.{GoalIs};
ghost use Rattle.kv_fresh.specs.Indexes.{LeadsToFirst, told};
ghost use Rattle.kv_fresh.specs.States.{goal_of, idle_row, ill_row, nothing_around, replayed_row, row_of, script_or_open, shown, small_goal, view_over};
ghost use Rattle.kv_fresh.specs.Work.{theorem_work};
ghost use Rattle.kv_script.specs.Events.{outcome_of, replay_events, visits};
ghost use Rattle.kv_trees.specs.Bridge.{plain_form};
ghost use Rattle.kv_syn.specs.ProjectBridge.{plain_proof, plain_theorem};
ghost use Rattle.kv_syn.specs.Rows.{has_fault_rows, has_reason_row, has_row_rows, has_state_rows};
ghost use Rattle.kv_syn.specs.ScriptBridge.{plain_script};

use crate::indexes::proof_named;
use crate::reasons::bare;
use kv_elab::{Context, elaborate};
use kv_prop::{SEQUENT_DEPTH, SEQUENT_NODES};
use kv_script::{replay, typing_reason};
use kv_sig::{Env, Flat};
use kv_syn::{
    Form, Label, List, Name, NoMemory, Outcome, Plain, Proof, Reason, Row, Script, State, Steps,
    Theorem, Unit,
};
use kv_table::reason;
use std::alloc::Global;
use std::collections::HashMap;
use std::sync::ledger::Ledger;

/// A theorem's row: its state, and the outcome of its proof where it can be asked for. The proofs of its unit are
/// given by name. Counts the steps that the replay visits.
pub fn row<L: Ledger>(
    alloc: Global,
    unit: &Unit,
    flat: &Flat,
    proofs: &HashMap<&[u8], &Proof>,
    theorem: &Theorem,
    steps: &mut Steps<L>,
) -> Result<Row, NoMemory>
    requires index { LeadsToFirst (map plain_proof unit.now.proofs) proofs.now }
    requires entries { flat.now.entries ≡ [] }
    ensures row { IfOk result (λ row. row ≡ row_of unit.now.name flat.now.sig (map plain_proof unit.now.proofs) (plain_theorem theorem.now)) }
    ensures rows { IfOk result (λ row. has_row_rows row ≡ true) }
    ensures steps { OnOk result (steps.new ≡ steps.old + theorem_work flat.now.sig (map plain_proof unit.now.proofs) (plain_theorem theorem.now)) }
    ensures at_most { steps.new ≤ steps.old + theorem_work flat.now.sig (map plain_proof unit.now.proofs) (plain_theorem theorem.now) }
{
    match goal_of(alloc, flat, theorem)? {
        Ok(goal) => {
            let outcome = replayed(alloc, flat, &goal, proofs, &theorem.name, steps)?;
            replayed_row(alloc, &unit.name, &theorem.name, outcome)
        }
        Err(reason) => ill_row(alloc, &unit.name, &theorem.name, reason),
    }
}

/// The row of a theorem that can't be asked for.
pub fn ill_row(alloc: Global, unit: &Name, theorem: &Name, reason: Reason) -> Result<Row, NoMemory>
    requires { has_reason_row reason ≡ true }
    ensures row { IfOk result (λ row. row ≡ ill_row unit.now theorem.now reason) }
    ensures rows { IfOk result (λ row. has_row_rows row ≡ true) }
{
    Ok(Row {
        unit: unit.copy(alloc)?,
        name: Label::from_bytes(alloc, theorem.bytes())?,
        state: State::Ill(reason),
        outcome: None,
    })
}

/// The row of an idle proof.
pub fn idle_row(alloc: Global, unit: &Name, proof: &Proof) -> Result<Row, NoMemory>
    ensures row { IfOk result (λ row. row ≡ idle_row unit.now (plain_proof proof.now)) }
    ensures rows { IfOk result (λ row. has_row_rows row ≡ true) }
{
    Ok(Row {
        unit: unit.copy(alloc)?,
        name: proof.name.copy(alloc)?,
        state: State::Idle,
        outcome: None,
    })
}

/// The row of a theorem whose proof was replayed.
fn replayed_row(
    alloc: Global,
    unit: &Name,
    theorem: &Name,
    outcome: Outcome,
) -> Result<Row, NoMemory>
    requires { has_fault_rows outcome.broken ≡ true }
    ensures row { IfOk result (λ row. row ≡ replayed_row unit.now theorem.now outcome) }
    ensures rows { IfOk result (λ row. has_row_rows row ≡ true) }
{
    Ok(Row {
        unit: unit.copy(alloc)?,
        name: Label::from_bytes(alloc, theorem.bytes())?,
        state: state_of(alloc, &outcome)?,
        outcome: Some(outcome),
    })
}

/// The theorem's formula, or why it is ill: its fault of typing, or that it is too large.
fn goal_of(alloc: Global, flat: &Flat, theorem: &Theorem) -> Result<Result<Form, Reason>, NoMemory>
    ensures goal { IfOk result (λ goal. GoalIs goal (goal_of flat.now.sig (plain_theorem theorem.now))) }
    ensures rows { IfOk result (λ goal. IfErr goal (λ reason. has_reason_row reason ≡ true)) }
{
    let context = nothing_around(alloc);
    match elaborate(alloc, &flat.sig, &context, &theorem.form) {
        Ok(goal) => Ok(small_goal(alloc, goal)),
        Err(error) => Ok(Err(typing_reason(alloc, error)?)),
    }
}

/// A context without variables and procedures.
fn nothing_around(alloc: Global) -> Context
    ensures { result ≡ nothing_around }
{
    Context {
        free: List::new(alloc),
        bound: List::new(alloc),
        assumed: List::new(alloc),
    }
}

/// The formula, where it keeps the limits of a sequent.
fn small_goal(alloc: Global, goal: Form) -> Result<Form, Reason>
    ensures goal { GoalIs result (small_goal (Ok (plain_form goal))) }
    ensures rows { IfErr result (λ reason. has_reason_row reason ≡ true) }
{
    if goal.nodes() <= SEQUENT_NODES && goal.depth() <= SEQUENT_DEPTH {
        Ok(goal)
    } else {
        Err(bare(alloc, reason::LARGE))
    }
}

/// The replay of the theorem's proof. A theorem without one is as one whose script is `open`.
fn replayed<L: Ledger>(
    alloc: Global,
    flat: &Flat,
    goal: &Form,
    proofs: &HashMap<&[u8], &Proof>,
    name: &Name,
    steps: &mut Steps<L>,
) -> Result<Outcome, NoMemory>
    requires { flat.now.entries ≡ [] }
    ensures outcome { IfOk result (λ outcome. outcome ≡ outcome_of (replay_events (view_over flat.now.sig) (plain_form goal.now) (script_or_open (told proofs.now name.now)))) }
    ensures rows { IfOk result (λ outcome. has_fault_rows outcome.broken ≡ true) }
    ensures steps { OnOk result (steps.new ≡ steps.old + visits (replay_events (view_over flat.now.sig) (plain_form goal.now) (script_or_open (told proofs.now name.now)))) }
    ensures at_most { steps.new ≤ steps.old + visits (replay_events (view_over flat.now.sig) (plain_form goal.now) (script_or_open (told proofs.now name.now))) }
{
    let env = Env { flat, before: 0 };
    match proof_named(proofs, name) {
        Some(proof) => replay(alloc, &env, goal, &proof.script, steps),
        None => replay(alloc, &env, goal, &Script::Hole, steps),
    }
}

/// The state that the replay of a proof shows.
fn state_of(alloc: Global, outcome: &Outcome) -> Result<State, NoMemory>
    requires { has_fault_rows outcome.now.broken ≡ true }
    ensures state { IfOk result (λ state. state ≡ shown outcome.now.broken outcome.now.goals) }
    ensures rows { IfOk result (λ state. has_state_rows state ≡ true) }
{
    match &outcome.broken {
        Some(fault) => Ok(State::Broken(
            fault.path.copy(alloc)?,
            fault.rule,
            fault.reason.copy(alloc)?,
        )),
        None if outcome.goals > 0 => Ok(State::Open(outcome.goals)),
        None => Ok(State::Proved),
    }
}
