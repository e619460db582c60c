//! Typed terms, formulas, programs and sequents: their copies, equality, counts and variables.
#![tactic(auto)]

mod captures;
mod counts;
mod plain;
mod trees;
mod variables;

pub use captures::SubstError;
pub use trees::{Form, Prog, Ref, Sequent, Term};
pub use variables::{
    form_mentions, form_names, is_var, modifies, modifies_any, occurs, prog_assigns, prog_mentions,
    prog_modifies, term_mentions,
};
