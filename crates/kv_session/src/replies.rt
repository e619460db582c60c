// What is answered to edits, and to texts that aren't read.

ghost use Rattle.std.specs.Prelude.{◌≡◌, ◌++◌, Some, IfOk, IsSome, OnOk, count_by, decimal};
ghost use Rattle.std.specs.Option.{option_map};
ghost use Rattle.kv_session.specs.Replies as spec;
ghost use Rattle.kv_syn.specs.declared.outcomes.Row.{Row as RowTree};

use crate::errors::{Limit, Refusal};
use kv_punit::{TextError, Which};
use kv_syn::{Bytes, NoMemory, Row, State, Table};
use std::alloc::Global;

/// The answer to an accepted edit, by the table after it: how many rows are valid, open and invalid.
pub fn accepted(alloc: Global, table: &Table) -> Result<Bytes, NoMemory>
    ensures { IfOk result (λ text. text ≡ spec.accepted_text table.now) }
{
    let rows = table.rows.items();
    let mut text = Bytes::from_bytes(alloc, b"ok valid ")?;
    push_number(alloc, &mut text, valid_count(rows))?;
    text.append(b" open ")?;
    push_number(alloc, &mut text, open_count(rows))?;
    text.append(b" invalid ")?;
    push_number(alloc, &mut text, invalid_count(rows))?;
    text.append(b"\n.\n")?;
    Ok(text)
}

/// The answer to a refused edit.
pub fn refused(alloc: Global, refusal: &Refusal) -> Result<Bytes, NoMemory>
    ensures { IfOk result (λ text. text ≡ spec.refused_text refusal.now) }
{
    let mut text = Bytes::new(alloc);
    push_refusal(&mut text, refusal)?;
    text.append(b"\n.\n")?;
    Ok(text)
}

/// The answer to a command that isn't read, by its fault: a byte from which no token reads, no syntax, or too many
/// steps in a script.
pub fn unread(alloc: Global, fault: &TextError) -> Result<Bytes, NoMemory>
    requires { IsSome (spec.fault_text fault.now) }
    ensures { IfOk result (λ text. spec.fault_text fault.now ≡ Some text) }
{
    let mut text = Bytes::new(alloc);
    push_fault(alloc, &mut text, fault)?;
    text.append(b"\n.\n")?;
    Ok(text)
}

fn push_refusal(text: &mut Bytes, refusal: &Refusal) -> Result<(), NoMemory>
    ensures { OnOk result (text.new ≡ text.old ++ spec.refusal_line refusal.now) }
{
    match refusal {
        Refusal::Exists(label) => {
            text.append(b"no exists ")?;
            text.append(label.bytes())
        }
        Refusal::Unknown(label) => {
            text.append(b"no unknown ")?;
            text.append(label.bytes())
        }
        Refusal::Limit(Limit::Units) => text.append(b"no limit units"),
        Refusal::Limit(Limit::Theorems) => text.append(b"no limit theorems"),
        Refusal::Limit(Limit::Text) => text.append(b"no limit text"),
    }
}

fn push_fault(alloc: Global, text: &mut Bytes, fault: &TextError) -> Result<(), NoMemory>
    requires { IsSome (spec.fault_line fault.now) }
    ensures { OnOk result (Some text.new ≡ option_map (λ line. text.old ++ line) (spec.fault_line fault.now)) }
{
    match fault {
        TextError::Token { place } => {
            text.append(b"no token ")?;
            push_number(alloc, text, *place)
        }
        TextError::Syntax => text.append(b"no syntax"),
        TextError::Limit {
            which: Which::Steps,
        } => text.append(b"no limit steps"),
        _ => unreachable!(),
    }
}

/// A number in decimal digits.
fn push_number(alloc: Global, text: &mut Bytes, number: usize) -> Result<(), NoMemory>
    ensures { OnOk result (text.new ≡ text.old ++ decimal number) }
{
    let digits = number.to_string(alloc)?;
    text.append(digits.as_bytes())
}

fn valid_count(rows: &[Row]) -> usize
    ensures { result ≡ count_by (λ (row : RowTree). spec.is_valid row.state) rows.now }
{
    rows.iter().filter(|row| is_valid(&row.state)).count()
}

fn open_count(rows: &[Row]) -> usize
    ensures { result ≡ count_by (λ (row : RowTree). spec.is_open row.state) rows.now }
{
    rows.iter().filter(|row| is_open(&row.state)).count()
}

fn invalid_count(rows: &[Row]) -> usize
    ensures { result ≡ count_by (λ (row : RowTree). spec.is_invalid row.state) rows.now }
{
    rows.iter().filter(|row| is_invalid(&row.state)).count()
}

fn is_valid(state: &State) -> bool
    ensures { result ≡ spec.is_valid state.now }
{
    matches!(state, State::Proved)
}

fn is_open(state: &State) -> bool
    ensures { result ≡ spec.is_open state.now }
{
    matches!(state, State::Open(_) | State::Waiting(_))
}

fn is_invalid(state: &State) -> bool
    ensures { result ≡ spec.is_invalid state.now }
{
    matches!(
        state,
        State::Ill(_) | State::Broken(_, _, _) | State::Cyclic | State::Idle
    )
}
