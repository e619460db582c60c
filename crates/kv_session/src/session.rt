// A project under the commands of an editor.

use kv_syn::Project;
use std::alloc::Global;

/// A project that takes the commands of an editor.
#[derive(Drop)]
pub struct Session {
    pub(crate) alloc: Global,
    pub(crate) project: Project,
}
