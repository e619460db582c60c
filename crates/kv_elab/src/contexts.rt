// What stands round a tree.

use kv_syn::{List, Name, NoMemory, Plain, Profile, Var};
use std::alloc::Global;

/// What a tree's names may stand for beside symbols. The last of `bound` is the innermost binder.
#[derive(Drop)]
pub struct Context {
    pub free: List<Var>,
    pub bound: List<Var>,
    pub assumed: List<(Name, Profile)>,
}

impl Plain for Context {
    fn copy(&self, alloc: Global) -> Result<Context, NoMemory> {
        Ok(Context {
            free: self.free.copy(alloc)?,
            bound: self.bound.copy(alloc)?,
            assumed: self.assumed.copy(alloc)?,
        })
    }

    fn same(&self, other: &Context) -> bool {
        self.free.same(&other.free)
            && self.bound.same(&other.bound)
            && self.assumed.same(&other.assumed)
    }
}
