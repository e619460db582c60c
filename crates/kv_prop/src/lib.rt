//! The rules for connectives, quantifiers, equality and entries: what a step makes of a sequent, or why it is refused.
#![tactic(auto)]

mod connectives;
mod drafts;
mod equality;
mod fresh;
mod laws;
mod lemmas;
mod limits;
mod opening;
mod places;
mod quantifiers;
mod replacing;
mod rules;

pub use laws::equal_answers_equal_premises;
pub use limits::{SEQUENT_DEPTH, SEQUENT_NODES};
pub use rules::{apply, apply_at};
