//! Texts as tokens: keywords, names, numbers and marks.
#![tactic(auto)]

mod front;
mod kinds;
mod laws;
mod lexer;
pub mod mark;
mod token;

pub use laws::reading_is_exact;
pub use lexer::tokens;
pub use token::{LexError, Token, TokenKind};
