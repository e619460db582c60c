// Tokens, and why a text has none.

use kv_names::{Name, NoMemory};
use thiserror::Error;

/// What a token is.
#[derive(Debug, Drop)]
pub enum TokenKind {
    /// A keyword, by its row in the table of keywords.
    Word(u32),
    /// A name: at most 64 bytes, and no keyword.
    Ident(Name),
    /// The value of 1 to 9 digits.
    Number(u32),
    /// A mark, by its row, as the constants of `mark` name it.
    Mark(u32),
}

/// A token: its kind, the byte at which it begins, and the byte behind its last one.
#[derive(Debug, Drop)]
pub struct Token {
    pub kind: TokenKind,
    pub from: usize,
    pub to: usize,
}

/// Why a text has no list of tokens.
#[derive(Clone, Copy, Debug, PartialEq, Eq, Error)]
pub enum LexError {
    /// No token reads at this byte, and at each one before it a token, a blank or a comment does.
    #[error("no token {place}")]
    Token { place: usize },
    #[error("no memory")]
    NoMemory,
}

impl From<NoMemory> for LexError {
    ghost use Rattle.std.specs.Prelude.{◌≡◌};
    ghost use Rattle.kv_lex.specs.declared.token.LexError.{LexError};

    ghost from_gives = { λ _ error. error ≡ LexError.NoMemory };

    fn from(_error: NoMemory) -> LexError {
        LexError::NoMemory
    }
}
