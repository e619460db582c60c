// Derivations as trees.

use kv_syn::{List, Sequent, Shared, TypedStep};

/// A derivation: the sequent that it shows, the schema of which it is an instance there, by its row in the table of rules,
/// with the choices of the instance, and a derivation of each premise.
#[derive(Drop)]
pub struct Deriv {
    pub step: TypedStep,
    pub sequent: Sequent,
    pub children: Shared<List<Deriv>>,
}
