// Flats and the results of a check.

use kv_sig::Flat;
use kv_syn::{Entry, List, Name, Reason, Table};

/// What the theorems of a unit see, and the obligations that the unit has to prove.
#[derive(Drop)]
pub struct Flattened {
    pub flat: Flat,
    pub obligations: List<Entry>,
}

/// How another unit may use this one. It is known of a bad unit too.
#[derive(Drop)]
pub enum FlatForm {
    Plain,
    /// A parameterised unit, with its parameter's name.
    Generic(Name),
    Module,
}

/// A unit's flat, or its first fault.
#[derive(Drop)]
pub enum Judged {
    Good(Flattened),
    Bad(Reason),
}

/// A unit with what it was judged to be.
#[derive(Drop)]
pub struct FlatRow {
    pub unit: Name,
    pub form: FlatForm,
    pub result: Judged,
}

/// The units of a project that were judged, in its order.
pub type Flats = List<FlatRow>;

/// What is known of a whole project.
#[derive(Drop)]
pub struct Checked {
    pub flats: Flats,
    pub table: Table,
}
