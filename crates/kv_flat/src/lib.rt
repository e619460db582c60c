//! What the theorems of a unit see: its signature, entries, clauses and bodies.
#![tactic(auto)]

mod faults;
mod flats;
mod flattening;
mod items;

pub use faults::FlatError;
pub use flats::{Checked, FlatForm, FlatRow, Flats, Flattened, Judged};
pub use flattening::flatten;
