// Copies and comparisons of terms and sequents.

ghost use Rattle.std.specs.Prelude.{◌≡◌, ◌↔◌, IfOk, IsTrue};

use crate::trees::{Ref, Sequent, Term};
use kv_names::{List, NoMemory, Plain};
use std::alloc::Global;

impl Plain for Term {
    fn copy(&self, alloc: Global) -> Result<Term, NoMemory> {
        match self {
            Term::Place(r) => Ok(Term::Place(r.copy(alloc)?)),
            Term::App(f, ts) => Ok(Term::App(f.copy(alloc)?, ts.share()?)),
        }
    }

    fn same(&self, other: &Term) -> bool {
        same_term(self, other)
    }
}

#[cycle(same_term)]
fn same_term(x: &Term, y: &Term) -> bool
    ensures { IsTrue result ↔ (x.now ≡ y.now) }
{
    match (x, y) {
        (Term::Place(r), Term::Place(q)) => r.same(q),
        (Term::App(f, ts), Term::App(g, us)) => f.same(g) && same_terms(ts.items(), us.items()),
        _ => false,
    }
}

#[cycle(same_term)]
fn same_terms(xs: &[Term], ys: &[Term]) -> bool
    ensures { IsTrue result ↔ (xs.now ≡ ys.now) }
{
    if xs.len() != ys.len() {
        return false;
    }
    for i in 0..xs.len() {
        if !same_term(&xs[i], &ys[i]) {
            return false;
        }
    }
    true
}

impl Plain for Ref {
    fn copy(&self, alloc: Global) -> Result<Ref, NoMemory> {
        match self {
            Ref::Free(variable) => Ok(Ref::Free(variable.copy(alloc)?)),
            Ref::Bound(number) => Ok(Ref::Bound(number.copy(alloc)?)),
        }
    }

    fn same(&self, other: &Ref) -> bool {
        match (self, other) {
            (Ref::Free(variable), Ref::Free(variable_2)) => variable.same(variable_2),
            (Ref::Bound(number), Ref::Bound(number_2)) => number.same(number_2),
            _ => false,
        }
    }
}

impl Plain for Sequent {
    fn copy(&self, alloc: Global) -> Result<Sequent, NoMemory> {
        Ok(Sequent {
            left: self.left.copy(alloc)?,
            right: self.right.copy(alloc)?,
        })
    }

    fn same(&self, other: &Sequent) -> bool {
        self.left.same(&other.left) && self.right.same(&other.right)
    }
}
