// Copies and comparisons of raw terms.

ghost use Rattle.std.specs.Prelude.{◌≡◌, ◌↔◌, IfOk, IsTrue};

use crate::raws::RawTerm;
use kv_names::{List, NoMemory, Plain};
use std::alloc::Global;

impl Plain for RawTerm {
    fn copy(&self, alloc: Global) -> Result<RawTerm, NoMemory> {
        match self {
            RawTerm::App(f, ts) => Ok(RawTerm::App(f.copy(alloc)?, ts.share()?)),
        }
    }

    fn same(&self, other: &RawTerm) -> bool {
        same_raw_term(self, other)
    }
}

#[cycle(same_raw_term)]
fn same_raw_term(x: &RawTerm, y: &RawTerm) -> bool
    ensures { IsTrue result ↔ (x.now ≡ y.now) }
{
    match (x, y) {
        (RawTerm::App(f, ts), RawTerm::App(g, us)) => f.same(g)
            && same_raw_terms(ts.items(), us.items()),
    }
}

#[cycle(same_raw_term)]
fn same_raw_terms(xs: &[RawTerm], ys: &[RawTerm]) -> bool
    ensures { IsTrue result ↔ (xs.now ≡ ys.now) }
{
    if xs.len() != ys.len() {
        return false;
    }
    for i in 0..xs.len() {
        if !same_raw_term(&xs[i], &ys[i]) {
            return false;
        }
    }
    true
}
