// Where a unit or a proof of a name stands, and whether a theorem has a name.

ghost use Rattle.std.specs.Prelude.{◌≡◌, position};
ghost use Rattle.kv_session.specs.Places.{has_theorem_named, is_proof_named, is_unit_named};

use kv_syn::{Label, Name, Proof, Unit};

/// The place of the unit of that name.
pub fn unit_place(units: &[Unit], name: &Name) -> Option<usize>
    ensures { result ≡ position (is_unit_named name.now) units.now }
{
    units
        .iter()
        .position(|unit| unit.name.bytes() == name.bytes())
}

/// The place of the proof of that name.
pub fn proof_place(proofs: &[Proof], name: &Label) -> Option<usize>
    ensures { result ≡ position (is_proof_named name.now) proofs.now }
{
    proofs
        .iter()
        .position(|proof| proof.name.bytes() == name.bytes())
}

/// Whether the unit has a theorem of that name.
pub fn has_theorem(unit: &Unit, name: &Name) -> bool
    ensures { result ≡ has_theorem_named name.now unit.now }
{
    unit.theorems
        .items()
        .iter()
        .any(|theorem| theorem.name.bytes() == name.bytes())
}
