//! Readers of projects, units, scripts and commands.
#![tactic(auto)]

mod commands;
mod errors;
mod items;
mod labels;
mod limits;
mod names;
mod projects;
mod readers;
mod scripts;
mod steps;
mod tokens;
mod trees;
mod units;
mod words;

pub use commands::Command;
pub use errors::{TextError, Which};
pub use limits::theorem_count;
pub use projects::{one_project, project};
pub use readers::{command, one_text, script, unit};
