//! Names, lists, shared values and symbols: the small data that all other crates speak of.
#![tactic(auto)]

mod counter;
mod lists;
mod memory;
mod names;
mod plain;
mod shared;
mod symbols;

pub use counter::Steps;
pub use lists::List;
pub use memory::NoMemory;
pub use names::{Bytes, Label, Name};
pub use plain::Plain;
pub use shared::Shared;
pub use symbols::{Callee, Profile, Symbol, Var};
