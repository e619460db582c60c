// Variables and symbols.

use crate::lists::List;
use crate::names::Name;

/// A variable with its sort.
#[derive(Drop)]
pub struct Var {
    pub name: Name,
    pub sort: Name,
}

/// What a symbol is, with the sorts that it takes and gives.
#[derive(Drop)]
pub enum Profile {
    Sort,
    Fun {
        args: List<Name>,
        result: Name,
    },
    Pred {
        args: List<Name>,
    },
    /// A procedure takes values and changes the variables that are given for its references.
    Proc {
        values: List<Name>,
        refs: List<Name>,
    },
}

/// A name with its profile.
#[derive(Drop)]
pub struct Symbol {
    pub name: Name,
    pub profile: Profile,
}

/// What a call calls.
#[derive(Drop)]
pub enum Callee {
    /// A procedure of the signature.
    Symbol(Name),
    /// A procedure that recursion induction has assumed, with its profile.
    Assumed(Name, Profile),
}
