//! Sequents at hand: each formula with its size and its free names, which are told once, when it comes.
#![tactic(auto)]

mod goals;
mod known;
mod names;
mod note;
mod once;
mod sizes;

pub use goals::Goal;
pub use known::Known;
pub use note::Note;
pub use sizes::{Size, form_size, prog_size, term_size};
