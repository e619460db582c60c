// The lines of an answer. Each call adds its text at the end.

ghost use Rattle.std.specs.Prelude.{◌≡◌, ◌++◌, true, OnOk};
ghost use Rattle.kv_query.specs.Replies as spec;
ghost use Rattle.kv_syn.specs.Rows.{has_row_rows, has_unit_state_rows};

use kv_print::{reason_text, state_text};
use kv_syn::{Bytes, Name, NoMemory, Row, State, UnitState};
use std::alloc::Global;

/// The line of a unit with its state.
pub fn push_unit(
    alloc: Global,
    text: &mut Bytes,
    name: &Name,
    state: &UnitState,
) -> Result<(), NoMemory>
    requires { has_unit_state_rows state.now ≡ true }
    ensures { OnOk result (text.new ≡ text.old ++ spec.unit_line (name.now, state.now)) }
{
    text.append(b"unit ")?;
    text.append(name.bytes())?;
    text.append(b" ")?;
    push_unit_state(alloc, text, state)?;
    text.append(b"\n")
}

fn push_unit_state(alloc: Global, text: &mut Bytes, state: &UnitState) -> Result<(), NoMemory>
    requires { has_unit_state_rows state.now ≡ true }
    ensures { OnOk result (text.new ≡ text.old ++ spec.unit_state_text state.now) }
{
    match state {
        UnitState::Good => text.append(b"ok"),
        UnitState::Refined => text.append(b"ok refined"),
        UnitState::Unrefined => text.append(b"ok unrefined"),
        UnitState::Bad(reason) => {
            text.append(b"bad ")?;
            let reason = reason_text(alloc, reason)?;
            text.append(reason.bytes())
        }
    }
}

/// The line of a row: `theorem U.N STATE`, or `proof U.N idle`.
pub fn push_row(alloc: Global, text: &mut Bytes, row: &Row) -> Result<(), NoMemory>
    requires { has_row_rows row.now ≡ true }
    ensures { OnOk result (text.new ≡ text.old ++ spec.row_line row.now) }
{
    text.append(row_word(&row.state))?;
    text.append(b" ")?;
    text.append(row.unit.bytes())?;
    text.append(b".")?;
    text.append(row.name.bytes())?;
    text.append(b" ")?;
    let state = state_text(alloc, &row.state)?;
    text.append(state.bytes())?;
    text.append(b"\n")
}

fn row_word(state: &State) -> &'static [u8]
    ensures { result.now ≡ spec.row_word state.now }
{
    match state {
        State::Idle => b"proof",
        _ => b"theorem",
    }
}
