//! Typing: the typed tree of a tree by names, or its first fault.
#![tactic(auto)]

mod calls;
mod contexts;
mod errors;
mod forms;
mod names;
mod programs;
mod terms;

pub use contexts::Context;
pub use errors::TypeError;
pub use forms::{elaborate, elaborate_prog};
pub use programs::has_program;
pub use terms::elaborate_term;
