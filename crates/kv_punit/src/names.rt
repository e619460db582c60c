// Names that differ.

ghost use Rattle.std.specs.Prelude.{map, IfOk};
ghost use Rattle.std.specs.Bool.{Decides};
ghost use Rattle.kv_syn.specs.ProjectBridge.{plain_project, plain_proof, plain_theorem, plain_unit};
ghost use Rattle.kv_syn.specs.Projects as P;
ghost use Rattle.kv_punit.specs.Limits.{AreDifferent, HasDifferentNames, IsWellformed, unit_names};

use kv_syn::{NoMemory, Project, Proof, Theorem, Unit};
use std::alloc::Global;
use std::collections::HashSet;

/// Whether the names of the units differ, and in each unit those of the theorems and those of the proofs.
pub fn is_wellformed(alloc: Global, project: &Project) -> Result<bool, NoMemory>
    ensures { IfOk result (λ differ. Decides differ (IsWellformed (plain_project project.now))) }
{
    let units = project.units.items();
    if !units_differ(alloc, units)? {
        return Ok(false);
    }
    for unit in units {
        if !has_different_names(alloc, unit)? {
            return Ok(false);
        }
    }
    Ok(true)
}

/// Whether the names of the theorems differ, and those of the proofs.
fn has_different_names(alloc: Global, unit: &Unit) -> Result<bool, NoMemory>
    ensures { IfOk result (λ differ. Decides differ (HasDifferentNames (plain_unit unit.now))) }
{
    if !theorems_differ(alloc, unit.theorems.items())? {
        return Ok(false);
    }
    proofs_differ(alloc, unit.proofs.items())
}

fn units_differ(alloc: Global, units: &[Unit]) -> Result<bool, NoMemory>
    ensures { IfOk result (λ differ. Decides differ (AreDifferent (unit_names (map plain_unit units.now)))) }
{
    let mut names = Vec::new(alloc);
    for unit in units {
        names.push(unit.name.bytes())?;
    }
    are_different(alloc, &names)
}

fn theorems_differ(alloc: Global, theorems: &[Theorem]) -> Result<bool, NoMemory>
    ensures { IfOk result (λ differ. Decides differ (AreDifferent (map (λ (theorem : P.Theorem). theorem.name) (map plain_theorem theorems.now)))) }
{
    let mut names = Vec::new(alloc);
    for theorem in theorems {
        names.push(theorem.name.bytes())?;
    }
    are_different(alloc, &names)
}

fn proofs_differ(alloc: Global, proofs: &[Proof]) -> Result<bool, NoMemory>
    ensures { IfOk result (λ differ. Decides differ (AreDifferent (map (λ (proof : P.Proof). proof.name) (map plain_proof proofs.now)))) }
{
    let mut names = Vec::new(alloc);
    for proof in proofs {
        names.push(proof.name.bytes())?;
    }
    are_different(alloc, &names)
}

/// Whether no two names are equal. Each is looked up once, by its hash.
fn are_different(alloc: Global, names: &[&[u8]]) -> Result<bool, NoMemory>
    ensures { IfOk result (λ differ. Decides differ (AreDifferent (map (λ name. name.now) names.now))) }
{
    let mut seen = HashSet::new(alloc);
    for name in names {
        if !seen.insert(*name)? {
            return Ok(false);
        }
    }
    Ok(true)
}
