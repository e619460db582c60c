// Changes of a unit in its place, and how they are taken back.

ghost use Rattle.std.specs.Prelude.{◌≡◌, ◌<◌, List as Items, OnErr, OnOk, length, slice_get, IsSomeAnd};
ghost use Rattle.std.specs.List.{list_all};
ghost use Rattle.kv_session.specs.Places.{changed_at, more_proofs, more_theorems, other_proof};
ghost use Rattle.kv_syn.specs.Readable.{is_readable_unit};
ghost use Rattle.kv_syn.specs.declared.units.Proof.{Proof as ProofTree};
ghost use Rattle.kv_syn.specs.declared.units.Theorem.{Theorem as TheoremTree};
ghost use Rattle.kv_syn.specs.declared.units.Unit.{Unit as UnitTree};

use kv_syn::{List, NoMemory, Proof, Theorem, Unit};
use std::mem;

/// Adds a theorem at the end of the unit at that place.
pub fn push_theorem(units: &mut List<Unit>, place: usize, theorem: Theorem) -> Result<(), NoMemory>
    requires { place < length units.old }
    ensures ok { OnOk result (units.new ≡ changed_at place (more_theorems theorem) units.old) }
    ensures err { OnErr result (units.new ≡ units.old) }
    ensures readable { list_all is_readable_unit units.new ≡ list_all is_readable_unit units.old }
{
    units.item_mut(place).theorems.push(theorem)
}

/// Takes the theorem off again that was added last.
pub fn pop_theorem(units: &mut List<Unit>, place: usize)
    requires { place < length units.old }
    ensures undoes { (before : Items UnitTree) (theorem : TheoremTree) → units.old ≡ changed_at place (more_theorems theorem) before → units.new ≡ before }
    ensures readable { list_all is_readable_unit units.new ≡ list_all is_readable_unit units.old }
{
    units.item_mut(place).theorems.pop();
}

/// Adds a proof at the end of the unit at that place.
pub fn push_proof(units: &mut List<Unit>, place: usize, proof: Proof) -> Result<(), NoMemory>
    requires { place < length units.old }
    ensures ok { OnOk result (units.new ≡ changed_at place (more_proofs proof) units.old) }
    ensures err { OnErr result (units.new ≡ units.old) }
    ensures readable { list_all is_readable_unit units.new ≡ list_all is_readable_unit units.old }
{
    units.item_mut(place).proofs.push(proof)
}

/// Takes the proof off again that was added last.
pub fn pop_proof(units: &mut List<Unit>, place: usize)
    requires { place < length units.old }
    ensures undoes { (before : Items UnitTree) (proof : ProofTree) → units.old ≡ changed_at place (more_proofs proof) before → units.new ≡ before }
    ensures readable { list_all is_readable_unit units.new ≡ list_all is_readable_unit units.old }
{
    units.item_mut(place).proofs.pop();
}

/// Swaps a proof with one of the unit at that place. Done twice, it leaves all as it was.
pub fn swap_proof(units: &mut List<Unit>, place: usize, at: usize, proof: &mut Proof)
    requires { IsSomeAnd (slice_get units.old place) (λ unit. at < length unit.proofs) }
    ensures swaps { units.new ≡ changed_at place (other_proof at proof.old) units.old }
    ensures back { units.old ≡ changed_at place (other_proof at proof.new) units.new }
    ensures readable { list_all is_readable_unit units.new ≡ list_all is_readable_unit units.old }
{
    let unit = units.item_mut(place);
    mem::swap(unit.proofs.item_mut(at), proof);
}
