//! Readers of terms and formulas, over tokens, and of the first of some tokens.
#![tactic(auto)]

mod errors;
mod found;
mod grammar;
mod leaves;
mod levels;
mod readers;
mod terms;
mod tokens;
mod trees;

pub use errors::ReadError;
pub use readers::{formula, one_reading, term};
pub use tokens::{eat_mark, eat_name, eat_word};
