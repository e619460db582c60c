// States and reasons.

ghost use Rattle.std.specs.Prelude.{◌≡◌, ◌++◌, true, IfOk, OnOk};
ghost use Rattle.kv_print.specs.Texts as spec;
ghost use Rattle.kv_syn.specs.Rows.{has_reason_row, has_state_rows};

use crate::pieces::{push_need, push_number, push_path, push_reason, push_word};
use kv_syn::{Bytes, NoMemory, Reason, State};
use kv_table::{rules, state as row};
use std::alloc::Global;

/// The text of a reason: its word, then its names, each after a space.
pub fn reason_text(alloc: Global, reason: &Reason) -> Result<Bytes, NoMemory>
    requires { has_reason_row reason.now ≡ true }
    ensures { IfOk result (λ text. text ≡ spec.reason_text reason.now) }
{
    let mut text = Bytes::new(alloc);
    push_reason(&mut text, reason)?;
    Ok(text)
}

/// The text of a state: its word, then what it speaks of.
pub fn state_text(alloc: Global, state: &State) -> Result<Bytes, NoMemory>
    requires { has_state_rows state.now ≡ true }
    ensures { IfOk result (λ text. text ≡ spec.state_text state.now) }
{
    let mut text = Bytes::new(alloc);
    push_state(alloc, &mut text, state)?;
    Ok(text)
}

#[tactic(auto, unfolding(kv_table::specs::States::state_rows))]
fn push_state(alloc: Global, text: &mut Bytes, state: &State) -> Result<(), NoMemory>
    requires { has_state_rows state.now ≡ true }
    ensures { OnOk result (text.new ≡ text.old ++ spec.state_text state.now) }
{
    match state {
        State::Ill(reason) => {
            push_word(text, row::ILL)?;
            text.append(b" ")?;
            push_reason(text, reason)
        }
        State::Broken(path, rule, reason) => {
            push_word(text, row::BROKEN)?;
            text.append(b" ")?;
            push_path(alloc, text, path)?;
            text.append(b" ")?;
            text.append(rules().name(*rule as usize).as_bytes())?;
            text.append(b" ")?;
            push_reason(text, reason)
        }
        State::Open(goals) => {
            push_word(text, row::OPEN)?;
            text.append(b" ")?;
            push_number(alloc, text, *goals)
        }
        State::Proved => push_word(text, row::PROVED),
        State::Waiting(need) => {
            push_word(text, row::WAITING)?;
            text.append(b" ")?;
            push_need(text, need)
        }
        State::Cyclic => push_word(text, row::CYCLIC),
        State::Idle => push_word(text, row::IDLE),
    }
}
