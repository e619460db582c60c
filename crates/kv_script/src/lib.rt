//! Replay of proof scripts.
#![tactic(auto)]

mod answers;
mod context;
mod laws;
mod looks;
mod once;
mod reasons;
mod replaying;
mod tally;

pub use laws::equal_answers_equal_replays;
pub use reasons::typing_reason;
pub use replaying::replay;
