// Why a text isn't read.

use kv_lex::LexError;
use kv_pexpr::ReadError;
use kv_syn::NoMemory;
use thiserror::Error;

/// Which count of a text passes its limit.
#[derive(Clone, Copy, Debug, PartialEq, Eq)]
pub enum Which {
    /// More than 50,000 steps in a script.
    Steps,
    /// More than 500 units in a project.
    Units,
    /// More than 5,000 theorems in a project.
    Theorems,
}

/// Why a text isn't read: the first of these faults that it has.
#[derive(Clone, Copy, Debug, PartialEq, Eq, Error)]
pub enum TextError {
    /// From that byte on no token reads.
    #[error("no token at byte {place}")]
    Token { place: usize },
    /// The text begins with `project` and a number other than 1.
    #[error("another version")]
    Version,
    /// The tokens aren't in the grammar.
    #[error("syntax")]
    Syntax,
    /// A count passes its limit.
    #[error("past a limit")]
    Limit { which: Which },
    #[error("no memory")]
    NoMemory,
}

impl From<NoMemory> for TextError {
    ghost use Rattle.std.specs.Prelude.{◌≡◌};
    ghost use Rattle.kv_punit.specs.declared.errors.TextError.{TextError};

    ghost from_gives = { λ _ error. error ≡ TextError.NoMemory };

    fn from(_error: NoMemory) -> TextError {
        TextError::NoMemory
    }
}

impl From<ReadError> for TextError {
    ghost use Rattle.std.specs.Prelude.{◌≡◌};
    ghost use Rattle.kv_punit.specs.Errors.{of_reader};

    ghost from_gives = { λ e error. error ≡ of_reader e };

    fn from(error: ReadError) -> TextError {
        match error {
            ReadError::Syntax => TextError::Syntax,
            ReadError::NoMemory => TextError::NoMemory,
        }
    }
}

impl From<LexError> for TextError {
    ghost use Rattle.std.specs.Prelude.{◌≡◌};
    ghost use Rattle.kv_punit.specs.Errors.{of_lexer};

    ghost from_gives = { λ e error. error ≡ of_lexer e };

    fn from(error: LexError) -> TextError {
        match error {
            LexError::Token { place } => TextError::Token { place },
            LexError::NoMemory => TextError::NoMemory,
        }
    }
}
