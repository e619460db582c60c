// Why a tree has no type.

use kv_syn::{Name, NoMemory};
use thiserror::Error;

/// The first fault of a tree by names, from left to right.
#[derive(Debug, Drop, Error)]
pub enum TypeError {
    /// The name stands for nothing of the kind that is wanted.
    #[error("unknown")]
    Unknown { name: Name },
    /// The symbol takes another number of arguments.
    #[error("arity")]
    Arity { name: Name },
    /// A term has another sort than is wanted.
    #[error("sort")]
    Sort { want: Name, got: Name },
    /// A variable stands twice among the references of a call.
    #[error("duplicate")]
    Duplicate { name: Name },
    /// A condition has a box or a diamond.
    #[error("program")]
    Program,
    /// Memory ran out, or more than 2^32 binders stand in one another.
    #[error("no memory")]
    NoMemory,
}

impl From<NoMemory> for TypeError {
    ghost use Rattle.std.specs.Prelude.{◌≡◌};
    ghost use Rattle.kv_elab.specs.declared.errors.TypeError.{TypeError};

    ghost from_gives = { λ _ error. error ≡ TypeError.NoMemory };

    fn from(_error: NoMemory) -> TypeError {
        TypeError::NoMemory
    }
}
