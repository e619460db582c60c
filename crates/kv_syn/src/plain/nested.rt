// Copies and comparisons of scripts.

ghost use Rattle.std.specs.Prelude.{◌≡◌, ◌↔◌, IfOk, IsTrue};

use crate::scripts::Script;
use kv_names::{List, NoMemory, Plain};
use std::alloc::Global;

impl Plain for Script {
    fn copy(&self, alloc: Global) -> Result<Script, NoMemory> {
        match self {
            Script::Hole => Ok(Script::Hole),
            Script::Node(step, children) => Ok(Script::Node(step.copy(alloc)?, children.share()?)),
        }
    }

    fn same(&self, other: &Script) -> bool {
        same_script(self, other)
    }
}

#[cycle(same_script)]
fn same_script(x: &Script, y: &Script) -> bool
    ensures { IsTrue result ↔ (x.now ≡ y.now) }
{
    match (x, y) {
        (Script::Hole, Script::Hole) => true,
        (Script::Node(step, children), Script::Node(step_2, children_2)) => step.same(step_2)
            && same_scripts(children.items(), children_2.items()),
        _ => false,
    }
}

#[cycle(same_script)]
fn same_scripts(xs: &[Script], ys: &[Script]) -> bool
    ensures { IsTrue result ↔ (xs.now ≡ ys.now) }
{
    if xs.len() != ys.len() {
        return false;
    }
    for i in 0..xs.len() {
        if !same_script(&xs[i], &ys[i]) {
            return false;
        }
    }
    true
}
