//! Terms, formulas and programs as they are read: their copies, equality and counts.
#![tactic(auto)]

mod plain;
mod raw_counts;
mod raws;

pub use raws::{RawForm, RawProg, RawTerm};
