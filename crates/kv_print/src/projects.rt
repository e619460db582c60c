// Projects.
#![tactic(auto, using(crate::proofs::Spelling::spell_append))]

ghost use Rattle.std.specs.Prelude.{◌≡◌, ◌++◌, true, map, flat_map, IfOk, OnOk};
ghost use Rattle.std.specs.List.{list_all};
ghost use Rattle.kv_syn.specs.ProjectBridge.{plain_item, plain_kind, plain_project, plain_proof, plain_theorem, plain_unit};
ghost use Rattle.kv_syn.specs.Readable.{is_readable_item, is_readable_kind, is_readable_unit};
ghost use Rattle.kv_print.specs.Layout as spec;
ghost use Rattle.kv_print.specs.Layout.{item_pieces, kind_pieces, proof_pieces, theorem_pieces, unit_pieces};
ghost use Rattle.kv_print.specs.Pieces.{spell};

use crate::forms::push_form;
use crate::items::push_item;
use crate::scripts::push_script;
use kv_syn::{Bytes, Item, Kind, NoMemory, Project, Proof, Theorem, Unit};
use std::alloc::Global;

/// The canonical text of a project.
pub fn project_text(alloc: Global, project: &Project) -> Result<Bytes, NoMemory>
    ensures { IfOk result (λ text. text ≡ spec.project_text (plain_project project.now)) }
{
    let mut text = Bytes::from_bytes(alloc, b"project 1\n")?;
    push_units(alloc, &mut text, project.units.items())?;
    Ok(text)
}

fn push_units(alloc: Global, text: &mut Bytes, units: &[Unit]) -> Result<(), NoMemory>
    requires { list_all is_readable_unit units.now ≡ true }
    ensures { OnOk result (text.new ≡ text.old ++ spell (flat_map unit_pieces (map plain_unit units.now))) }
{
    for unit in units {
        push_unit(alloc, text, unit)?;
    }
    Ok(())
}

/// A unit up to its end, and then its theorems and its proofs.
fn push_unit(alloc: Global, text: &mut Bytes, unit: &Unit) -> Result<(), NoMemory>
    requires { is_readable_unit unit.now ≡ true }
    ensures { OnOk result (text.new ≡ text.old ++ spell (unit_pieces (plain_unit unit.now))) }
{
    text.append(b"unit ")?;
    text.append(unit.name.bytes())?;
    text.append(b" ")?;
    push_kind(text, &unit.kind)?;
    text.append(b"end\n")?;
    push_theorems(text, unit.theorems.items())?;
    push_proofs(alloc, text, unit.proofs.items())
}

/// The words of a kind behind the unit's name, and its items.
fn push_kind(text: &mut Bytes, kind: &Kind) -> Result<(), NoMemory>
    requires { is_readable_kind kind.now ≡ true }
    ensures { OnOk result (text.new ≡ text.old ++ spell (kind_pieces (plain_kind kind.now))) }
{
    match kind {
        Kind::Basic(items) => {
            text.append(b"basic\n")?;
            push_items(text, items.items())
        }
        _ => unreachable!(),
    }
}

/// Items, a line each.
pub fn push_items(text: &mut Bytes, items: &[Item]) -> Result<(), NoMemory>
    requires { list_all is_readable_item items.now ≡ true }
    ensures { OnOk result (text.new ≡ text.old ++ spell (flat_map item_pieces (map plain_item items.now))) }
{
    for item in items {
        push_item(text, item)?;
    }
    Ok(())
}

fn push_theorems(text: &mut Bytes, theorems: &[Theorem]) -> Result<(), NoMemory>
    ensures { OnOk result (text.new ≡ text.old ++ spell (flat_map theorem_pieces (map plain_theorem theorems.now))) }
{
    for theorem in theorems {
        push_theorem(text, theorem)?;
    }
    Ok(())
}

/// A theorem, on a line.
fn push_theorem(text: &mut Bytes, theorem: &Theorem) -> Result<(), NoMemory>
    ensures { OnOk result (text.new ≡ text.old ++ spell (theorem_pieces (plain_theorem theorem.now))) }
{
    text.append(b"theorem ")?;
    if theorem.simp {
        text.append(b"simp ")?;
    }
    text.append(theorem.name.bytes())?;
    text.append(b" : ")?;
    push_form(text, &theorem.form)?;
    text.append(b";\n")
}

fn push_proofs(alloc: Global, text: &mut Bytes, proofs: &[Proof]) -> Result<(), NoMemory>
    ensures { OnOk result (text.new ≡ text.old ++ spell (flat_map proof_pieces (map plain_proof proofs.now))) }
{
    for proof in proofs {
        push_proof(alloc, text, proof)?;
    }
    Ok(())
}

/// A proof, on a line.
fn push_proof(alloc: Global, text: &mut Bytes, proof: &Proof) -> Result<(), NoMemory>
    ensures { OnOk result (text.new ≡ text.old ++ spell (proof_pieces (plain_proof proof.now))) }
{
    text.append(b"proof ")?;
    text.append(proof.name.bytes())?;
    text.append(b" = ")?;
    push_script(alloc, text, &proof.script)?;
    text.append(b" qed\n")
}
