// The check of a project.

ghost use Rattle.std.specs.Prelude.{◌≡◌, ◌+◌, ◌≤◌, ◌++◌, ◌∷◌, [], map, true, Ok, Err, IfOk, OnOk};
ghost use Rattle.std.specs.List.{list_all};
ghost use Rattle.kv_flat.specs.Units.{signature_of};
ghost use Rattle.kv_script.specs.Reasons.{reason_with};
ghost use Rattle.kv_flat.specs.declared.flats.FlatForm.TheVariants.{Plain};
ghost use Rattle.kv_fresh.specs.Flats.{flat_row};
ghost use Rattle.kv_fresh.specs.States.{idle_rows, ill_row, table_of, theorem_rows};
ghost use Rattle.kv_fresh.specs.Tables.{with_theorems, with_unit};
ghost use Rattle.kv_fresh.specs.Work.{theorems_work, unit_work, work_of};
ghost use Rattle.kv_syn.specs.ProjectBridge.{plain_project, plain_proof, plain_theorem, plain_unit};
ghost use Rattle.kv_syn.specs.Projects as P;
ghost use Rattle.kv_syn.specs.Readable.{is_readable_unit};
ghost use Rattle.kv_syn.specs.Rows.{has_row_rows, has_table_rows, has_unit_state_rows};
ghost use Rattle.kv_table.specs.Reasons as word;

use crate::indexes::{proofs_by_name, theorem_names};
use crate::reasons::bare;
use crate::rows::{idle_row, ill_row, row};
use kv_flat::{Checked, FlatError, FlatForm, FlatRow, Judged, flatten};
use kv_sig::Flat;
use kv_syn::{List, Name, NoMemory, Plain, Project, Row, Steps, Table, Unit, UnitState};
use kv_table::reason;
use std::alloc::Global;
use std::sync::ledger::Ledger;

/// Flattens each unit and replays each proof: the flats of the units, and the table of their states. Counts one step
/// for each unit, and those that the replays visit.
pub fn check<L: Ledger>(
    alloc: Global,
    project: &Project,
    steps: &mut Steps<L>,
) -> Result<Checked, NoMemory>
    ensures flats { IfOk result (λ checked. checked.flats ≡ map flat_row (plain_project project.now)) }
    ensures table { IfOk result (λ checked. checked.table ≡ table_of (plain_project project.now)) }
    ensures rows { IfOk result (λ checked. has_table_rows checked.table ≡ true) }
    ensures steps { OnOk result (steps.new ≡ steps.old + work_of (plain_project project.now)) }
    ensures at_most { steps.new ≤ steps.old + work_of (plain_project project.now) }
{
    let mut checked = Checked {
        flats: List::new(alloc),
        table: Table {
            units: List::new(alloc),
            rows: List::new(alloc),
        },
    };
    for unit in project.units.items() {
        check_unit(alloc, unit, &mut checked, steps)?;
    }
    Ok(checked)
}

/// Judges a unit over those before it, and adds its rows: those of its theorems, then those of its idle proofs.
fn check_unit<L: Ledger>(
    alloc: Global,
    unit: &Unit,
    checked: &mut Checked,
    steps: &mut Steps<L>,
) -> Result<(), NoMemory>
    requires readable { is_readable_unit unit.now ≡ true }
    requires rows { has_table_rows checked.old.table ≡ true }
    ensures flats { OnOk result (checked.new.flats ≡ checked.old.flats ++ flat_row (plain_unit unit.now) ∷ []) }
    ensures table { OnOk result (checked.new.table ≡ with_unit checked.old.table (plain_unit unit.now)) }
    ensures rows { OnOk result (has_table_rows checked.new.table ≡ true) }
    ensures steps { OnOk result (steps.new ≡ steps.old + unit_work (plain_unit unit.now) (signature_of (plain_unit unit.now))) }
    ensures at_most { steps.new ≤ steps.old + unit_work (plain_unit unit.now) (signature_of (plain_unit unit.now)) }
{
    check_theorems(alloc, unit, checked, steps)?;
    push_idle_rows(alloc, unit, &mut checked.table.rows)
}

/// Judges a unit over those before it, and adds the rows of its theorems.
fn check_theorems<L: Ledger>(
    alloc: Global,
    unit: &Unit,
    checked: &mut Checked,
    steps: &mut Steps<L>,
) -> Result<(), NoMemory>
    requires readable { is_readable_unit unit.now ≡ true }
    requires rows { has_table_rows checked.old.table ≡ true }
    ensures flats { OnOk result (checked.new.flats ≡ checked.old.flats ++ flat_row (plain_unit unit.now) ∷ []) }
    ensures table { OnOk result (checked.new.table ≡ with_theorems checked.old.table (plain_unit unit.now)) }
    ensures rows { OnOk result (has_table_rows checked.new.table ≡ true) }
    ensures steps { OnOk result (steps.new ≡ steps.old + unit_work (plain_unit unit.now) (signature_of (plain_unit unit.now))) }
    ensures at_most { steps.new ≤ steps.old + unit_work (plain_unit unit.now) (signature_of (plain_unit unit.now)) }
{
    match flatten(alloc, unit, &checked.flats, steps) {
        Ok(flattened) => {
            push_rows(alloc, unit, &flattened.flat, &mut checked.table.rows, steps)?;
            let judged = Judged::Good(flattened);
            note(alloc, &unit.name, UnitState::Good, judged, checked)
        }
        Err(FlatError::Bad(reason)) => {
            push_ill_rows(alloc, unit, &mut checked.table.rows)?;
            let state = UnitState::Bad(reason.copy(alloc)?);
            note(alloc, &unit.name, state, Judged::Bad(reason), checked)
        }
        Err(FlatError::NoMemory) => Err(NoMemory),
    }
}

/// Adds a unit to the table and to the flats.
fn note(
    alloc: Global,
    unit: &Name,
    state: UnitState,
    judged: Judged,
    checked: &mut Checked,
) -> Result<(), NoMemory>
    requires state { has_unit_state_rows state ≡ true }
    requires rows { has_table_rows checked.old.table ≡ true }
    ensures units { OnOk result (checked.new.table.units ≡ checked.old.table.units ++ (unit.now, state) ∷ []) }
    ensures flats { OnOk result (checked.new.flats ≡ checked.old.flats ++ record { unit = unit.now; form = Plain; result = judged } ∷ []) }
    ensures same { checked.new.table.rows ≡ checked.old.table.rows }
    ensures rows { OnOk result (has_table_rows checked.new.table ≡ true) }
{
    checked.table.units.push((unit.copy(alloc)?, state))?;
    checked.flats.push(FlatRow {
        unit: unit.copy(alloc)?,
        form: FlatForm::Plain,
        result: judged,
    })
}

/// Adds the rows of the theorems of a unit that sees this flat.
fn push_rows<L: Ledger>(
    alloc: Global,
    unit: &Unit,
    flat: &Flat,
    rows: &mut List<Row>,
    steps: &mut Steps<L>,
) -> Result<(), NoMemory>
    requires rows { list_all has_row_rows rows.old ≡ true }
    requires entries { flat.now.entries ≡ [] }
    ensures added { OnOk result (rows.new ≡ rows.old ++ theorem_rows (plain_unit unit.now) (Ok flat.now.sig)) }
    ensures rows { OnOk result (list_all has_row_rows rows.new ≡ true) }
    ensures steps { OnOk result (steps.new ≡ steps.old + theorems_work flat.now.sig (map plain_proof unit.now.proofs) (map plain_theorem unit.now.theorems)) }
    ensures at_most { steps.new ≤ steps.old + theorems_work flat.now.sig (map plain_proof unit.now.proofs) (map plain_theorem unit.now.theorems) }
{
    let proofs = proofs_by_name(alloc, unit.proofs.items())?;
    for theorem in unit.theorems.items() {
        rows.push(row(alloc, unit, flat, &proofs, theorem, steps)?)?;
    }
    Ok(())
}

/// Adds the rows of the theorems of a bad unit.
fn push_ill_rows(alloc: Global, unit: &Unit, rows: &mut List<Row>) -> Result<(), NoMemory>
    requires { list_all has_row_rows rows.old ≡ true }
    ensures added { OnOk result (rows.new ≡ rows.old ++ map (λ (theorem : P.Theorem). ill_row unit.now.name theorem.name (reason_with word.UNIT [])) (plain_unit unit.now).theorems) }
    ensures rows { OnOk result (list_all has_row_rows rows.new ≡ true) }
{
    for theorem in unit.theorems.items() {
        let reason = bare(alloc, reason::UNIT);
        rows.push(ill_row(alloc, &unit.name, &theorem.name, reason)?)?;
    }
    Ok(())
}

/// Adds the rows of the idle proofs of a unit.
fn push_idle_rows(alloc: Global, unit: &Unit, rows: &mut List<Row>) -> Result<(), NoMemory>
    requires { list_all has_row_rows rows.old ≡ true }
    ensures added { OnOk result (rows.new ≡ rows.old ++ idle_rows (plain_unit unit.now)) }
    ensures rows { OnOk result (list_all has_row_rows rows.new ≡ true) }
{
    let theorems = theorem_names(alloc, unit.theorems.items())?;
    for proof in unit.proofs.items() {
        if theorems.contains(proof.name.bytes()) {
            continue;
        }
        rows.push(idle_row(alloc, &unit.name, proof)?)?;
    }
    Ok(())
}
