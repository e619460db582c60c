//! The plain check: the states of a whole project, from nothing but the project.
#![tactic(auto)]

mod checking;
mod indexes;
mod laws;
mod reasons;
mod rows;

pub use checking::check;
pub use laws::backing;
