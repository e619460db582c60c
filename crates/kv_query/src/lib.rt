//! Answers to queries.
#![tactic(auto)]

mod lines;
mod replies;

pub use replies::reply;
