//! How projects, scripts, states and reasons are written.
#![tactic(auto)]

mod forms;
mod items;
mod pieces;
mod projects;
mod scripts;
mod shown;
mod states;

pub use projects::project_text;
pub use scripts::script_text;
pub use shown::{form_text, prog_text};
pub use states::{reason_text, state_text};
