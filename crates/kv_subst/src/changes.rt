// What is done to the variables of a tree.

use kv_names::Var;
use kv_trees::Term;

/// A change of variables.
#[derive(Clone, Copy)]
pub(crate) enum Work<'a> {
    /// The variable of the binder around the tree becomes the term.
    Open(&'a Term),
    /// The variable becomes that of a new binder around the tree.
    Close(&'a Var),
}
