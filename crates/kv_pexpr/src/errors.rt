// Why nothing was read.

use kv_names::NoMemory;
use thiserror::Error;

/// Why nothing was read.
#[derive(Clone, Copy, Debug, PartialEq, Eq, Error)]
pub enum ReadError {
    /// Nothing of the grammar begins there.
    #[error("syntax")]
    Syntax,
    #[error("no memory")]
    NoMemory,
}

impl From<NoMemory> for ReadError {
    ghost use Rattle.std.specs.Prelude.{◌≡◌};
    ghost use Rattle.kv_pexpr.specs.declared.errors.ReadError.{ReadError};

    ghost from_gives = { λ _ error. error ≡ ReadError.NoMemory };

    fn from(_error: NoMemory) -> ReadError {
        ReadError::NoMemory
    }
}
