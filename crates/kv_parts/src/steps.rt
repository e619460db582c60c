// Steps at sequents.

ghost use Rattle.std.specs.Prelude.{◌<◌};

use crate::faults::Fault;
use crate::reading;
use crate::setting::Setting;
use kv_print::form_text;
use kv_prop::apply;
use kv_syn::{
    Bytes, Form, Label, List, Name, Plain, Sequent, Side, Step, StepText, TypedStep, TypedText,
};
use kv_table::{rule, rules};
use std::alloc::Global;

/// `SEQUENT by STEP`: the premises, a line each, or that the step shows the sequent.
pub fn step_answer(setting: &Setting, text: &str) -> Result<Bytes, Fault> {
    let (sequent, step) = text.split_once(" by ").ok_or(Fault::Unread)?;
    let before = setting.sequent(sequent)?;
    let step = step_of(setting.alloc, step)?;
    let premises = premises(setting, &before, &step)?;
    premises_text(setting.alloc, premises.items())
}

fn premises(setting: &Setting, before: &Sequent, step: &Step) -> Result<List<Sequent>, Fault> {
    let step = typed_step(setting, step)?;
    Ok(apply(setting.alloc, &setting.env(), before, &step)?)
}

fn premises_text(alloc: Global, premises: &[Sequent]) -> Result<Bytes, Fault> {
    let Some((first, others)) = premises.split_first() else {
        return Ok(Bytes::from_bytes(alloc, b"shown")?);
    };
    let mut text = Bytes::new(alloc);
    push_sequent(alloc, &mut text, first)?;
    for premise in others {
        text.append(b"\n")?;
        push_sequent(alloc, &mut text, premise)?;
    }
    Ok(text)
}

fn push_sequent(alloc: Global, text: &mut Bytes, sequent: &Sequent) -> Result<(), Fault> {
    if !sequent.left.items().is_empty() {
        push_forms(alloc, text, sequent.left.items())?;
        text.append(b" ")?;
    }
    text.append(b"|-")?;
    if !sequent.right.items().is_empty() {
        text.append(b" ")?;
        push_forms(alloc, text, sequent.right.items())?;
    }
    Ok(())
}

/// Formulas with commas between.
fn push_forms(alloc: Global, text: &mut Bytes, forms: &[Form]) -> Result<(), Fault> {
    for (place, form) in forms.iter().enumerate() {
        if place > 0 {
            text.append(b", ")?;
        }
        let shown = form_text(alloc, form)?;
        text.append(shown.bytes())?;
    }
    Ok(())
}

/// A step as its text spells it: the word of a rule, sides and numbers, and `as` with a name, `with` with a term, the
/// label of an entry to be used, or a formula. Unlike in a project, each rule may have each of them.
pub fn step_of(alloc: Global, text: &str) -> Result<Step, Fault> {
    let (word, mut rest) = first_word(text);
    let row = rules().find(word).ok_or(Fault::Unread)?;
    let mut side = None;
    let mut numbers = List::new(alloc);
    for _turn in 0..4 {
        let (word, behind) = first_word(rest);
        if let Ok(number) = word.parse::<u32>() {
            numbers.push(number)?;
        } else if word == "L" {
            side = Some(Side::L);
        } else if word == "R" {
            side = Some(Side::R);
        } else {
            break;
        }
        rest = behind;
    }
    step_with(alloc, row, side, numbers, rest)
}

fn step_with(
    alloc: Global,
    row: usize,
    side: Option<Side>,
    numbers: List<u32>,
    rest: &str,
) -> Result<Step, Fault>
    requires { row < 38 }
{
    let rule = row as u32;
    let text = text_of(alloc, rule, rest)?;
    Ok(Step {
        rule,
        side,
        numbers,
        text,
    })
}

fn text_of(alloc: Global, rule: u32, text: &str) -> Result<StepText, Fault> {
    if text.is_empty() {
        Ok(StepText::Nothing)
    } else if let Some(name) = text.strip_prefix("as ") {
        Ok(StepText::Fresh(Name::from_bytes(alloc, name.as_bytes())?))
    } else if let Some(term) = text.strip_prefix("with ") {
        let term = reading::term(alloc, term)?;
        Ok(StepText::OfTerm(term.get().copy(alloc)?))
    } else if rule == rule::USE {
        Ok(StepText::OfLabel(Label::from_bytes(alloc, text.as_bytes())?))
    } else {
        let form = reading::formula(alloc, text)?;
        Ok(StepText::OfForm(form.get().copy(alloc)?))
    }
}

fn first_word(text: &str) -> (&str, &str) {
    text.split_once(' ').unwrap_or((text, ""))
}

fn typed_step(setting: &Setting, step: &Step) -> Result<TypedStep, Fault> {
    let numbers = step.numbers.copy(setting.alloc)?;
    Ok(TypedStep {
        rule: step.rule,
        side: step.side,
        numbers,
        text: typed_text(setting, &step.text)?,
    })
}

fn typed_text(setting: &Setting, text: &StepText) -> Result<TypedText, Fault> {
    match text {
        StepText::Nothing => Ok(TypedText::Nothing),
        StepText::Fresh(name) => Ok(TypedText::Fresh(name.copy(setting.alloc)?)),
        StepText::OfTerm(term) => {
            let (term, _) = setting.typed_term(term)?;
            Ok(TypedText::OfTerm(term.get().copy(setting.alloc)?))
        }
        StepText::OfForm(form) => {
            let form = setting.typed(form)?;
            Ok(TypedText::OfForm(form.get().copy(setting.alloc)?))
        }
        StepText::OfLabel(label) => Ok(TypedText::OfLabel(label.copy(setting.alloc)?)),
    }
}
