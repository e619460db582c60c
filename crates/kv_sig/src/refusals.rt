// Why a step is refused.

use kv_syn::{Label, Name, NoMemory};
use thiserror::Error;

/// Why a rule refuses a step at a sequent: the first of these that applies, in this order.
#[derive(Debug, Drop, Error)]
pub enum StepError {
    /// A number is 0 or past its list, or a rewriting is on its own equation.
    #[error("position")]
    Position,
    /// A formula isn't of the rule's form, or nothing would change.
    #[error("shape")]
    Shape,
    /// A term has another sort than is wanted.
    #[error("sort")]
    Sort { want: Name, got: Name },
    /// No entry has the label.
    #[error("label")]
    NoLabel { label: Label },
    /// The procedure has no body.
    #[error("body")]
    NoBody { name: Name },
    /// No generation clause has the sort.
    #[error("generation")]
    NoGeneration { sort: Name },
    /// The name isn't new.
    #[error("fresh")]
    NotFresh { name: Name },
    /// A variable would be captured.
    #[error("captured")]
    Captured,
    /// A premise passes a limit of a sequent.
    #[error("large")]
    Large,
    #[error("no memory")]
    NoMemory,
}

impl From<NoMemory> for StepError {
    ghost use Rattle.std.specs.Prelude.{◌≡◌};
    ghost use Rattle.kv_sig.specs.declared.refusals.StepError.{StepError};

    ghost from_gives = { λ _ error. error ≡ StepError.NoMemory };

    fn from(_error: NoMemory) -> StepError {
        StepError::NoMemory
    }
}
