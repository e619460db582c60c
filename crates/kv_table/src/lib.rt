//! The tables of words: keywords, rules, commands, states and reasons.
//!
//! A row of a table is counted from 0. The modules `keyword`, `rule`, `command`, `state` and
//! `reason` name the rows, for use in patterns.
#![tactic(auto)]

mod by_row;
pub mod command;
pub mod keyword;
mod names;
pub mod reason;
pub mod rule;
pub mod state;
mod tables;

pub use names::Names;
pub use tables::{commands, keywords, reasons, rules, states};
