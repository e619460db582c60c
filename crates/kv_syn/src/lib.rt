//! Projects, scripts and states, with the names and trees that they are made of: the plain data that all other crates
//! speak of.
#![tactic(auto)]

mod outcomes;
mod plain;
mod projects;
mod scripts;
mod units;

pub use kv_names::{
    Bytes, Callee, Label, List, Name, NoMemory, Plain, Profile, Shared, Steps, Symbol, Var,
};
pub use kv_raw::{RawForm, RawProg, RawTerm};
pub use kv_trees::{
    Form, Prog, Ref, Sequent, SubstError, Term, form_mentions, is_var, modifies, modifies_any,
    occurs, prog_mentions, prog_modifies,
};
pub use outcomes::{Entry, Fault, Look, Need, Outcome, Reason, Row, State, Table, UnitState};
pub use projects::Project;
pub use scripts::{Path, Script, Side, Step, StepText, TypedStep, TypedText};
pub use units::{Cons, Data, Datum, Gen, Item, Kind, Map, Mod, Proof, Theorem, Unit};
