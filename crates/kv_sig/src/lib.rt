//! Signatures, and what a theory holds.
#![tactic(auto)]

mod flats;
mod names;
mod profiles;
mod refusals;
mod sigs;

pub use flats::{Body, Env, Flat};
pub use names::same_name;
pub use refusals::StepError;
pub use sigs::{Sig, SigError};
