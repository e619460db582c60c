//! The calculus, laws of its derivations, and laws of typing.
#![tactic(auto)]

ghost use Rattle.kv_calc.specs.Laws.{Cutting, Dropping};

mod derivs;
mod typing;

pub use derivs::Deriv;
pub use typing::{typing_of_a_closing, typing_of_a_renaming, typing_of_an_opening};

/// A derivable sequent stays derivable with more formulas.
pub fn dropping()
    ensures { Dropping }
{}

/// What is derived with a formula that has a derivation of its own is derived without it.
pub fn cutting()
    ensures { Cutting }
{}
