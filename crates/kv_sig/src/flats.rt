// What a theory holds, and what a rule sees of it.

use crate::sigs::Sig;
use kv_syn::{Entry, Gen, List, Name, Prog};

/// The body of a procedure. Its Bound numbers are the parameters, the last reference innermost.
#[derive(Drop)]
pub struct Body {
    pub name: Name,
    pub prog: Prog,
}

/// What is known in a unit: its symbols, the formulas that proofs may use, the generation clauses and the bodies of
/// its procedures, each in order.
#[derive(Drop)]
pub struct Flat {
    pub sig: Sig,
    pub entries: List<Entry>,
    pub gens: List<Gen>,
    pub bodies: List<Body>,
}

/// What a step of a proof sees: a flat, of whose entries the simplifier uses the first `before`.
#[derive(Clone, Copy)]
pub struct Env<'a> {
    pub flat: &'a Flat,
    pub before: usize,
}
