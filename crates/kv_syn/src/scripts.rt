// Proof scripts.

ghost use Rattle.std.specs.Prelude.{◌<◌};
ghost use Rattle.kv_table.specs.Rules.{rule_count};

use kv_names::{Label, List, Name, Shared};
use kv_raw::{RawForm, RawTerm};
use kv_trees::{Form, Term};

/// A side of a sequent.
#[derive(Clone, Copy, Debug, PartialEq, Eq)]
pub enum Side {
    L,
    R,
}

/// What a step has besides its rule, its side and its numbers, as the script spells it.
#[derive(Drop)]
pub enum StepText {
    Nothing,
    /// The name of a new variable.
    Fresh(Name),
    OfTerm(RawTerm),
    OfForm(RawForm),
    OfLabel(Label),
}

/// One step of a proof: the row of its rule in the table of rules, a side where the rule has one, the places of
/// formulas (counted from 1) or other numbers, and a text.
#[derive(Drop)]
pub struct Step {
    pub rule: u32,
    pub side: Option<Side>,
    pub numbers: List<u32>,
    pub text: StepText,
    ghost row: { rule < rule_count },
}

/// The text of a step after typing.
#[derive(Drop)]
pub enum TypedText {
    Nothing,
    Fresh(Name),
    OfTerm(Term),
    OfForm(Form),
    OfLabel(Label),
}

/// A step whose term or formula is typed.
#[derive(Drop)]
pub struct TypedStep {
    pub rule: u32,
    pub side: Option<Side>,
    pub numbers: List<u32>,
    pub text: TypedText,
}

/// A proof as a tree of steps, a child for each premise that is worked on. `Hole` is what `open` spells.
#[derive(Drop)]
pub enum Script {
    Hole,
    Node(Step, Shared<List<Script>>),
}

/// A place in a script: which child to take at each step from the root, counted from 1. The root's is empty.
pub type Path = List<u32>;
