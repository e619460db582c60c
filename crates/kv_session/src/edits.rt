// Edits.

ghost use Rattle.std.specs.Prelude.{◌≡◌, ◌<◌, true, Err, [], ◌∷◌, ◌++◌, IfOk, IsSomeAnd, OnErr, length, map, slice_get};
ghost use Rattle.kv_session.specs.Answers.{Finds, Gives, is_readable_edit, plain_edit};
ghost use Rattle.kv_fresh.specs.States.{table_of};
ghost use Rattle.kv_session.specs.Edits as spec;
ghost use Rattle.kv_session.specs.Replies.{accepted_text};
ghost use Rattle.kv_session.specs.Places.{changed_at, more_proofs, more_theorems, other_proof};
ghost use Rattle.kv_syn.specs.ProjectBridge.{plain_project, plain_proof, plain_theorem, plain_unit};
ghost use Rattle.kv_syn.specs.Readable.{is_readable_unit};

use crate::errors::{EditError, Refusal};
use crate::judging::judged;
use crate::lookup::{has_theorem, proof_place, unit_place};
use crate::places::{pop_proof, pop_theorem, push_proof, push_theorem, swap_proof};
use kv_syn::{Bytes, Label, Name, NoMemory, Project, Proof, Steps, Theorem, Unit};
use std::alloc::Global;
use std::sync::ledger::Ledger;

/// An edit of a project.
#[derive(Drop)]
pub enum Edit {
    /// Adds a unit at the end.
    Add(Unit),
    /// Adds a theorem at the end of the unit of that name.
    Theorem { unit: Name, theorem: Theorem },
    /// Puts a proof in the place of the one of its name in the unit of that name, or adds it at the end.
    Proof { unit: Name, proof: Proof },
}

/// Makes an edit and answers it, by a check of the whole project after it, or leaves the project as it was.
///
/// Errors, the first that applies: `Exists` where `Add` brings the name of a unit that is there, or `Theorem` that of
/// a theorem of its unit, `Unknown` where the unit of `Theorem` or `Proof` isn't there, and then the limits that the
/// new project would pass: units, theorems, text. `NoMemory` may come in place of each answer.
pub fn edit_project<L: Ledger>(
    alloc: Global,
    project: &mut Project,
    edit: Edit,
    steps: &mut Steps<L>,
) -> Result<Bytes, EditError>
    requires { is_readable_edit edit ≡ true }
    ensures answer { Gives (λ _. plain_project project.new) (spec.edited (plain_project project.old) (plain_edit edit)) result }
    ensures stays { OnErr result (project.new ≡ project.old) }
    ensures text { IfOk result (λ text. text ≡ accepted_text (table_of (plain_project project.new))) }
{
    match edit {
        Edit::Add(unit) => add(alloc, project, unit, steps),
        Edit::Theorem { unit, theorem } => add_theorem(alloc, project, &unit, theorem, steps),
        Edit::Proof { unit, proof } => put_proof(alloc, project, &unit, proof, steps),
    }
}

/// Adds a unit at the end, unless its name is there.
fn add<L: Ledger>(
    alloc: Global,
    project: &mut Project,
    unit: Unit,
    steps: &mut Steps<L>,
) -> Result<Bytes, EditError>
    requires { is_readable_unit unit ≡ true }
    ensures answer { Gives (λ _. plain_project project.new) (spec.edited (plain_project project.old) (spec.Edit.Add (plain_unit unit))) result }
    ensures stays { OnErr result (project.new ≡ project.old) }
    ensures text { IfOk result (λ text. text ≡ accepted_text (table_of (plain_project project.new))) }
{
    new_unit(alloc, project, &unit)?;
    insert_unit(alloc, project, unit, steps)
}

fn insert_unit<L: Ledger>(
    alloc: Global,
    project: &mut Project,
    unit: Unit,
    steps: &mut Steps<L>,
) -> Result<Bytes, EditError>
    requires { is_readable_unit unit ≡ true }
    ensures answer { Gives (λ _. plain_project project.new) (spec.within_limits (map plain_unit (project.old.units ++ unit ∷ []))) result }
    ensures stays { OnErr result (project.new ≡ project.old) }
    ensures text { IfOk result (λ text. text ≡ accepted_text (table_of (plain_project project.new))) }
{
    project.units.push(unit)?;
    let answer = judged(alloc, project, steps);
    if answer.is_err() {
        project.units.pop();
    }
    answer
}

/// Adds a theorem at the end of the unit of that name, unless the unit has one of the theorem's name.
fn add_theorem<L: Ledger>(
    alloc: Global,
    project: &mut Project,
    unit: &Name,
    theorem: Theorem,
    steps: &mut Steps<L>,
) -> Result<Bytes, EditError>
    ensures answer { Gives (λ _. plain_project project.new) (spec.edited (plain_project project.old) (spec.Edit.Theorem unit.now (plain_theorem theorem))) result }
    ensures stays { OnErr result (project.new ≡ project.old) }
    ensures text { IfOk result (λ text. text ≡ accepted_text (table_of (plain_project project.new))) }
{
    let place = theorem_place(alloc, project, unit, &theorem)?;
    insert_theorem(alloc, project, place, theorem, steps)
}

fn insert_theorem<L: Ledger>(
    alloc: Global,
    project: &mut Project,
    place: usize,
    theorem: Theorem,
    steps: &mut Steps<L>,
) -> Result<Bytes, EditError>
    requires { place < length project.old.units }
    ensures answer { Gives (λ _. plain_project project.new) (spec.within_limits (map plain_unit (changed_at place (more_theorems theorem) project.old.units))) result }
    ensures stays { OnErr result (project.new ≡ project.old) }
    ensures text { IfOk result (λ text. text ≡ accepted_text (table_of (plain_project project.new))) }
{
    push_theorem(&mut project.units, place, theorem)?;
    let answer = judged(alloc, project, steps);
    if answer.is_err() {
        pop_theorem(&mut project.units, place);
    }
    answer
}

/// Puts a proof in the place of the one of its name in the unit of that name, or adds it at the end.
fn put_proof<L: Ledger>(
    alloc: Global,
    project: &mut Project,
    unit: &Name,
    proof: Proof,
    steps: &mut Steps<L>,
) -> Result<Bytes, EditError>
    ensures answer { Gives (λ _. plain_project project.new) (spec.edited (plain_project project.old) (spec.Edit.Proof unit.now (plain_proof proof))) result }
    ensures stays { OnErr result (project.new ≡ project.old) }
    ensures text { IfOk result (λ text. text ≡ accepted_text (table_of (plain_project project.new))) }
{
    let place = known_unit(alloc, project, unit)?;
    let proofs = project.units.items()[place].proofs.items();
    match proof_place(proofs, &proof.name) {
        Some(at) => replace_proof(alloc, project, place, at, proof, steps),
        None => insert_proof(alloc, project, place, proof, steps),
    }
}

fn insert_proof<L: Ledger>(
    alloc: Global,
    project: &mut Project,
    place: usize,
    proof: Proof,
    steps: &mut Steps<L>,
) -> Result<Bytes, EditError>
    requires { place < length project.old.units }
    ensures answer { Gives (λ _. plain_project project.new) (spec.within_limits (map plain_unit (changed_at place (more_proofs proof) project.old.units))) result }
    ensures stays { OnErr result (project.new ≡ project.old) }
    ensures text { IfOk result (λ text. text ≡ accepted_text (table_of (plain_project project.new))) }
{
    push_proof(&mut project.units, place, proof)?;
    let answer = judged(alloc, project, steps);
    if answer.is_err() {
        pop_proof(&mut project.units, place);
    }
    answer
}

fn replace_proof<L: Ledger>(
    alloc: Global,
    project: &mut Project,
    place: usize,
    at: usize,
    mut proof: Proof,
    steps: &mut Steps<L>,
) -> Result<Bytes, EditError>
    requires { IsSomeAnd (slice_get project.old.units place) (λ unit. at < length unit.proofs) }
    ensures answer { Gives (λ _. plain_project project.new) (spec.within_limits (map plain_unit (changed_at place (other_proof at proof) project.old.units))) result }
    ensures stays { OnErr result (project.new ≡ project.old) }
    ensures text { IfOk result (λ text. text ≡ accepted_text (table_of (plain_project project.new))) }
{
    swap_proof(&mut project.units, place, at, &mut proof);
    let answer = judged(alloc, project, steps);
    if answer.is_err() {
        swap_proof(&mut project.units, place, at, &mut proof);
    }
    answer
}

/// Refuses a unit whose name is there.
fn new_unit(alloc: Global, project: &Project, unit: &Unit) -> Result<(), EditError>
    ensures { Gives (λ _. map plain_unit (project.now.units ++ unit.now ∷ [])) (spec.made (plain_project project.now) (spec.Edit.Add (plain_unit unit.now))) result }
{
    if unit_place(project.units.items(), &unit.name).is_none() {
        return Ok(());
    }
    let label = Label::from_bytes(alloc, unit.name.bytes())?;
    Err(EditError::Refused(Refusal::Exists(label)))
}

/// The place of the unit that a theorem goes to. Refuses one whose name is there.
fn theorem_place(
    alloc: Global,
    project: &Project,
    unit: &Name,
    theorem: &Theorem,
) -> Result<usize, EditError>
    ensures place { IfOk result (λ place. place < length project.now.units) }
    ensures gives { Gives (λ place. map plain_unit (changed_at place (more_theorems theorem.now) project.now.units)) (spec.made (plain_project project.now) (spec.Edit.Theorem unit.now (plain_theorem theorem.now))) result }
{
    let place = known_unit(alloc, project, unit)?;
    if !has_theorem(&project.units.items()[place], &theorem.name) {
        return Ok(place);
    }
    let label = dotted(alloc, unit, &theorem.name)?;
    Err(EditError::Refused(Refusal::Exists(label)))
}

/// The place of the unit of that name. `Unknown` where there is none.
fn known_unit(alloc: Global, project: &Project, unit: &Name) -> Result<usize, EditError>
    ensures place { IfOk result (λ place. place < length project.now.units) }
    ensures finds { Finds unit.now project.now.units result }
{
    if let Some(place) = unit_place(project.units.items(), unit) {
        return Ok(place);
    }
    let label = Label::from_bytes(alloc, unit.bytes())?;
    Err(EditError::Refused(Refusal::Unknown(label)))
}

/// The names with a full stop between.
fn dotted(alloc: Global, unit: &Name, name: &Name) -> Result<Label, NoMemory>
    ensures { IfOk result (λ label. label ≡ spec.dotted unit.now name.now) }
{
    let mut text = Bytes::from_bytes(alloc, unit.bytes())?;
    text.append(b".")?;
    text.append(name.bytes())?;
    Label::from_bytes(alloc, text.bytes())
}
