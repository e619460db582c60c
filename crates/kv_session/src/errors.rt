// Why an edit is refused.

use kv_syn::{Label, NoMemory};
use thiserror::Error;

/// A limit of a project.
#[derive(Clone, Copy, Debug, PartialEq, Eq)]
pub enum Limit {
    /// More than 500 units.
    Units,
    /// More than 5,000 theorems.
    Theorems,
    /// A text of more than 16,777,216 bytes.
    Text,
}

/// Why an edit is refused.
#[derive(Debug, Drop)]
pub enum Refusal {
    /// What it would add is there already: a unit, or a theorem of a unit.
    Exists(Label),
    /// The unit that it speaks of isn't there.
    Unknown(Label),
    /// The new project would pass that limit.
    Limit(Limit),
}

/// Why an edit isn't made.
#[derive(Debug, Drop, Error)]
pub enum EditError {
    #[error("refused")]
    Refused(Refusal),
    #[error("no memory")]
    NoMemory,
}

impl From<NoMemory> for EditError {
    ghost use Rattle.std.specs.Prelude.{◌≡◌};
    ghost use Rattle.kv_session.specs.declared.errors.EditError.{EditError};

    ghost from_gives = { λ _ error. error ≡ EditError.NoMemory };

    fn from(_error: NoMemory) -> EditError {
        EditError::NoMemory
    }
}
