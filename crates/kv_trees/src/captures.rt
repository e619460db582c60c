// Why an opening has no value.

use kv_names::NoMemory;
use thiserror::Error;

/// Why the opening of a binder's body has no value.
#[derive(Clone, Copy, Debug, PartialEq, Eq, Error)]
pub enum SubstError {
    /// The opening isn't admissible: a variable of the placed term would be captured.
    #[error("captured")]
    Captured,
    #[error("no memory")]
    NoMemory,
}

impl From<NoMemory> for SubstError {
    ghost use Rattle.std.specs.Prelude.{◌≡◌};
    ghost use Rattle.kv_trees.specs.declared.captures.SubstError.{SubstError};

    ghost from_gives = { λ _ error. error ≡ SubstError.NoMemory };

    fn from(_error: NoMemory) -> SubstError {
        SubstError::NoMemory
    }
}
