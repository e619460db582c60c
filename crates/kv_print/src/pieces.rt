// The parts that texts are put together from. Each adds its bytes at the end.

ghost use Rattle.std.specs.Prelude.{◌≡◌, ◌<◌, ◌++◌, true, decimal, OnOk};
ghost use Rattle.kv_print.specs.Texts.{word, path_text, reason_text, need_text};
ghost use Rattle.kv_syn.specs.Rows.{has_reason_row};
ghost use Rattle.kv_table.specs.States.{state_count, state_rows};

use kv_syn::{Bytes, Need, NoMemory, Path, Reason};
use kv_table::{reasons, states};
use std::alloc::Global;

/// The word of a state, by its row.
pub fn push_word(text: &mut Bytes, row: u32) -> Result<(), NoMemory>
    requires { row < state_count }
    ensures { OnOk result (text.new ≡ text.old ++ word state_rows row) }
{
    text.append(states().name(row as usize).as_bytes())
}

/// A reason: its word, then its names, each after a space.
pub fn push_reason(text: &mut Bytes, reason: &Reason) -> Result<(), NoMemory>
    requires { has_reason_row reason.now ≡ true }
    ensures { OnOk result (text.new ≡ text.old ++ reason_text reason.now) }
{
    text.append(reasons().name(reason.word as usize).as_bytes())?;
    for name in reason.names.items() {
        text.append(b" ")?;
        text.append(name.bytes())?;
    }
    Ok(())
}

/// A number in decimal digits.
pub fn push_number(alloc: Global, text: &mut Bytes, number: u64) -> Result<(), NoMemory>
    ensures { OnOk result (text.new ≡ text.old ++ decimal number) }
{
    let digits = number.to_string(alloc)?;
    text.append(digits.as_bytes())
}

/// A path: its places with full stops between, or `0` for the root.
pub fn push_path(alloc: Global, text: &mut Bytes, path: &Path) -> Result<(), NoMemory>
    ensures { OnOk result (text.new ≡ text.old ++ path_text path.now) }
{
    let Some((first, others)) = path.items().split_first() else {
        return text.append(b"0");
    };
    push_number(alloc, text, u64::from(*first))?;
    for place in others {
        text.append(b".")?;
        push_number(alloc, text, u64::from(*place))?;
    }
    Ok(())
}

/// A theorem or obligation by its unit and name.
pub fn push_need(text: &mut Bytes, need: &Need) -> Result<(), NoMemory>
    ensures { OnOk result (text.new ≡ text.old ++ need_text need.now) }
{
    text.append(need.unit.bytes())?;
    text.append(b".")?;
    text.append(need.name.bytes())
}
