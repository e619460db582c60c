// What a check answers.

use crate::scripts::Path;
use kv_names::{Label, List, Name};
use kv_trees::Form;

/// A theorem or obligation of a unit, as what has to be proved first.
#[derive(Drop)]
pub struct Need {
    pub unit: Name,
    pub name: Label,
}

/// A formula that proofs may use by its label. `axiom` tells an axiom from a theorem, and `needs` what must be
/// proved before it counts.
#[derive(Drop)]
pub struct Entry {
    pub label: Label,
    pub form: Form,
    pub simp: bool,
    pub axiom: bool,
    pub needs: List<Need>,
}

/// Why something is refused: a row of the table of reasons, with the names that it speaks of.
#[derive(Debug, Drop)]
pub struct Reason {
    pub word: u32,
    pub names: List<Label>,
}

/// What is known of a theorem, an obligation or an idle proof.
#[derive(Drop)]
pub enum State {
    /// It can't be asked for.
    Ill(Reason),
    /// Its proof has a step that is refused: where, by which rule's row, and why.
    Broken(Path, u32, Reason),
    /// So many goals are open.
    Open(u64),
    Proved,
    /// It is closed, but that other one isn't.
    Waiting(Need),
    /// It is closed, but stands on itself.
    Cyclic,
    /// A proof of no theorem or obligation.
    Idle,
}

/// What is known of a unit. A module is refined where all its obligations are proved.
#[derive(Drop)]
pub enum UnitState {
    Good,
    Refined,
    Unrefined,
    Bad(Reason),
}

/// What a step asks of its environment.
#[derive(Drop)]
pub enum Look {
    Symbol(Name),
    Label(Label),
    Generation(Name),
    Body(Name),
    Rules,
}

/// A refused step: its place in the script, the row of its rule, and why.
#[derive(Drop)]
pub struct Fault {
    pub path: Path,
    pub rule: u32,
    pub reason: Reason,
}

/// What the replay of a script found. `goals` counts the open goals, and stands at its greatest value where there
/// are more. `broken` is the first refused step in preorder.
#[derive(Drop)]
pub struct Outcome {
    pub closed: bool,
    pub goals: u64,
    pub broken: Option<Fault>,
    pub uses: List<Label>,
    pub looks: List<Look>,
}

/// A theorem, obligation or idle proof with its state.
#[derive(Drop)]
pub struct Row {
    pub unit: Name,
    pub name: Label,
    pub state: State,
    pub outcome: Option<Outcome>,
}

/// The states of a whole project, in its order.
#[derive(Drop)]
pub struct Table {
    pub units: List<(Name, UnitState)>,
    pub rows: List<Row>,
}
