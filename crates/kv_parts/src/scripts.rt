// Scripts, and their replay.

ghost use Rattle.std.specs.Prelude.{◌≡◌, true};
ghost use Rattle.kv_syn.specs.Rows.{has_fault_rows};

use crate::faults::Fault;
use crate::setting::Setting;
use crate::steps::step_of;
use kv_print::state_text;
use kv_punit::{TextError, script};
use kv_script::replay;
use kv_syn::{
    Bytes, Label, List, Look, NoMemory, Outcome, Plain, Script, Shared, State, Step, Steps,
};
use std::alloc::Global;
use std::sync::ledger::Ledger;

/// `GOAL by SCRIPT`: whether the script closes the goal, how many goals are open, the first refused step, the labels
/// that were used, and what was asked for.
pub fn replay_answer<L: Ledger>(
    setting: &Setting,
    text: &str,
    steps: &mut Steps<L>,
) -> Result<Bytes, Fault> {
    let (goal, script) = text.split_once(" by ").ok_or(Fault::Unread)?;
    let goal = setting.formula(goal)?;
    let scripts = script_of(setting.alloc, script)?;
    let script = scripts.items().first().ok_or(Fault::Unread)?;
    let outcome = replay(setting.alloc, &setting.env(), goal.get(), script, steps)?;
    outcome_text(setting.alloc, &outcome)
}

/// The script of a text, alone in a list. Its first steps, with one child each, and a last one without may be such as no
/// project has yet.
fn script_of(alloc: Global, text: &str) -> Result<List<Script>, Fault> {
    let mut first = List::new(alloc);
    let mut rest = text;
    for _turn in 0..text.len() {
        if let Some(script) = read(alloc, rest)? {
            return behind(alloc, first, script);
        }
        let (step, after) = rest.split_once("; ").unwrap_or((rest, ""));
        first.push(step_of(alloc, step)?)?;
        rest = after;
        if rest.is_empty() {
            return behind(alloc, first, List::new(alloc));
        }
    }
    Err(Fault::Unread)
}

/// The script as a project spells it, alone in a list.
fn read(alloc: Global, text: &str) -> Result<Option<List<Script>>, Fault> {
    match script(alloc, text.as_bytes()) {
        Ok(script) => {
            let mut scripts = List::new(alloc);
            scripts.push(script)?;
            Ok(Some(scripts))
        }
        Err(TextError::NoMemory) => Err(Fault::NoMemory),
        Err(_) => Ok(None),
    }
}

/// The steps one below the other, with these scripts below the last.
fn behind(
    alloc: Global,
    mut steps: List<Step>,
    scripts: List<Script>,
) -> Result<List<Script>, Fault> {
    let mut below = scripts;
    for _turn in 0..steps.items().len() {
        if let Some(step) = steps.pop() {
            let mut nodes = List::new(alloc);
            nodes.push(Script::Node(step, Shared::new(alloc, below)?))?;
            below = nodes;
        }
    }
    Ok(below)
}

fn outcome_text(alloc: Global, outcome: &Outcome) -> Result<Bytes, Fault>
    requires { has_fault_rows outcome.now.broken ≡ true }
{
    let state = if outcome.closed {
        "closed"
    } else {
        "not closed"
    };
    let goals = outcome.goals;
    let line = format!(in alloc; "{state}, {goals} goals")?;
    let mut text = Bytes::from_bytes(alloc, line.as_bytes())?;
    push_refusal(alloc, &mut text, outcome)?;
    push_uses(&mut text, outcome.uses.items())?;
    push_looks(&mut text, outcome.looks.items())?;
    Ok(text)
}

/// The first refused step, if there is one.
fn push_refusal(alloc: Global, text: &mut Bytes, outcome: &Outcome) -> Result<(), NoMemory>
    requires { has_fault_rows outcome.now.broken ≡ true }
{
    match &outcome.broken {
        None => Ok(()),
        Some(fault) => {
            let path = fault.path.copy(alloc)?;
            let reason = fault.reason.copy(alloc)?;
            let state = state_text(alloc, &State::Broken(path, fault.rule, reason))?;
            text.append(b", ")?;
            text.append(state.bytes())
        }
    }
}

fn push_uses(text: &mut Bytes, uses: &[Label]) -> Result<(), NoMemory> {
    text.append(b"; uses")?;
    for label in uses {
        text.append(b" ")?;
        text.append(label.bytes())?;
    }
    Ok(())
}

fn push_looks(text: &mut Bytes, looks: &[Look]) -> Result<(), NoMemory> {
    text.append(b"; looks")?;
    for look in looks {
        text.append(asked(look))?;
        text.append(asked_of(look))?;
    }
    Ok(())
}

/// What a look asks for.
fn asked(look: &Look) -> &[u8] {
    match look {
        Look::Symbol(_) => b" symbol ",
        Look::Generation(_) => b" generation ",
        Look::Body(_) => b" body ",
        Look::Label(_) => b" label ",
        Look::Rules => b" rules",
    }
}

/// The name or the label that it asks of.
fn asked_of(look: &Look) -> &[u8] {
    match look {
        Look::Symbol(name) | Look::Generation(name) | Look::Body(name) => name.bytes(),
        Look::Label(label) => label.bytes(),
        Look::Rules => b"",
    }
}
