// Why a unit has no flat.

ghost use Rattle.std.specs.Prelude.{◌≡◌, ◌<◌, true, Some, Err, IfOk};
ghost use Rattle.kv_flat.specs.Faults.{Finds, has_fault_row};
ghost use Rattle.kv_flat.specs.Items.{fault_of};
ghost use Rattle.kv_table.specs.Reasons.{reason_count};

use kv_syn::{Label, List, Name, NoMemory, Reason};
use std::alloc::Global;
use thiserror::Error;

/// Why a unit has no flat.
#[derive(Debug, Drop, Error)]
pub enum FlatError {
    /// The unit's first fault.
    #[error("bad unit")]
    Bad(Reason),
    #[error("no memory")]
    NoMemory,
}

impl From<NoMemory> for FlatError {
    ghost use Rattle.std.specs.Prelude.{◌≡◌};
    ghost use Rattle.kv_flat.specs.declared.faults.FlatError.{FlatError};

    ghost from_gives = { λ _ error. error ≡ FlatError.NoMemory };

    fn from(_error: NoMemory) -> FlatError {
        FlatError::NoMemory
    }
}

/// The fault that speaks of that name.
pub fn fault(alloc: Global, word: u32, name: &Name) -> FlatError
    requires { word < reason_count }
    ensures fault { Finds (Some (fault_of word name.now)) (Err result) }
    ensures row { has_fault_row result ≡ true }
{
    match reason(alloc, word, name) {
        Ok(reason) => FlatError::Bad(reason),
        Err(NoMemory) => FlatError::NoMemory,
    }
}

/// A reason with one name.
fn reason(alloc: Global, word: u32, name: &Name) -> Result<Reason, NoMemory>
    ensures { IfOk result (λ reason. reason ≡ fault_of word name.now) }
{
    let mut names = List::new(alloc);
    names.push(Label::from_bytes(alloc, name.bytes())?)?;
    Ok(Reason { word, names })
}
