// Steps and scripts.
#![tactic(auto, using(crate::proofs::Spelling::spell_append))]

ghost use Rattle.std.specs.Prelude.{◌≡◌, ◌++◌, ◌<◌, IfOk, OnOk};
ghost use Rattle.kv_syn.specs.ScriptBridge.{plain_script, plain_scripts, plain_step, plain_text};
ghost use Rattle.kv_print.specs.Layout as spec;
ghost use Rattle.kv_print.specs.Pieces.{spell};
ghost use Rattle.kv_print.specs.Scripts.{children_pieces, number_pieces, place_pieces, script_pieces, side_pieces, step_pieces, text_pieces};
ghost use Rattle.kv_print.specs.Texts.{word};
ghost use Rattle.kv_table.specs.Rules.{rule_rows};

use crate::forms::{push_form, push_term};
use crate::pieces::push_number;
use kv_syn::{Bytes, NoMemory, Script, Side, Step, StepText};
use kv_table::{rule, rules};
use std::alloc::Global;

/// The canonical text of a script.
pub fn script_text(alloc: Global, script: &Script) -> Result<Bytes, NoMemory>
    ensures { IfOk result (λ text. text ≡ spec.script_text (plain_script script.now)) }
{
    let mut text = Bytes::new(alloc);
    push_script(alloc, &mut text, script)?;
    Ok(text)
}

/// A script.
#[cycle(scripts)]
pub fn push_script(alloc: Global, text: &mut Bytes, script: &Script) -> Result<(), NoMemory>
    ensures { OnOk result (text.new ≡ text.old ++ spell (script_pieces (plain_script script.now))) }
{
    match script {
        Script::Hole => text.append(b"open"),
        Script::Node(step, children) => {
            push_step(alloc, text, step)?;
            push_children(alloc, text, children.items())
        }
    }
}

/// The children of a step: one behind a semicolon, several in braces.
#[cycle(scripts)]
fn push_children(alloc: Global, text: &mut Bytes, children: &[Script]) -> Result<(), NoMemory>
    ensures { OnOk result (text.new ≡ text.old ++ spell (children_pieces (plain_scripts children.now))) }
{
    let Some((first, others)) = children.split_first() else {
        return Ok(());
    };
    if others.is_empty() {
        text.append(b"; ")?;
        return push_script(alloc, text, first);
    }
    text.append(b" { ")?;
    push_script(alloc, text, first)?;
    for child in others {
        text.append(b" | ")?;
        push_script(alloc, text, child)?;
    }
    text.append(b" }")
}

/// A step: its words with single spaces.
fn push_step(alloc: Global, text: &mut Bytes, step: &Step) -> Result<(), NoMemory>
    ensures { OnOk result (text.new ≡ text.old ++ spell (step_pieces (plain_step step.now))) }
{
    text.append(rules().name(step.rule as usize).as_bytes())?;
    push_places(alloc, text, step.side, step.numbers.items())?;
    push_text(text, step.rule, &step.text)
}

/// The numbers of a step and its side: the side stands before one number, and between two.
fn push_places(
    alloc: Global,
    text: &mut Bytes,
    side: Option<Side>,
    numbers: &[u32],
) -> Result<(), NoMemory>
    ensures { OnOk result (text.new ≡ text.old ++ spell (place_pieces side numbers.now)) }
{
    let Some(side) = side else {
        return push_numbers(alloc, text, numbers);
    };
    if numbers.len() < 2 {
        push_side(text, side)?;
        return push_numbers(alloc, text, numbers);
    }
    push_numbers(alloc, text, &numbers[..1])?;
    push_side(text, side)?;
    push_numbers(alloc, text, &numbers[1..])
}

fn push_side(text: &mut Bytes, side: Side) -> Result<(), NoMemory>
    ensures { OnOk result (text.new ≡ text.old ++ spell (side_pieces side)) }
{
    match side {
        Side::L => text.append(b" L"),
        Side::R => text.append(b" R"),
    }
}

/// Numbers, each behind a space.
fn push_numbers(alloc: Global, text: &mut Bytes, numbers: &[u32]) -> Result<(), NoMemory>
    ensures { OnOk result (text.new ≡ text.old ++ spell (number_pieces numbers.now)) }
{
    for number in numbers {
        text.append(b" ")?;
        push_number(alloc, text, u64::from(*number))?;
    }
    Ok(())
}

/// The text of a step by that rule.
fn push_text(text: &mut Bytes, rule: u32, step: &StepText) -> Result<(), NoMemory>
    ensures { OnOk result (text.new ≡ text.old ++ spell (text_pieces rule (plain_text step.now))) }
{
    match step {
        StepText::Nothing => Ok(()),
        StepText::Fresh(name) => {
            text.append(b" as ")?;
            text.append(name.bytes())
        }
        StepText::OfTerm(term) => {
            text.append(b" with ")?;
            push_term(text, term)
        }
        StepText::OfForm(form) => {
            if rule != rule::CUT {
                text.append(b" with")?;
            }
            text.append(b" ")?;
            push_form(text, form)
        }
        StepText::OfLabel(label) => {
            text.append(b" ")?;
            text.append(label.bytes())
        }
    }
}
