// Look-ups by name in a unit.

ghost use Rattle.std.specs.Prelude.{◌≡◌, map, IfOk};
ghost use Rattle.std.specs.Option.{option_map};
ghost use Rattle.kv_fresh.specs.Indexes.{AreNamesOf, LeadsToFirst, told};
ghost use Rattle.kv_syn.specs.ProjectBridge.{plain_proof, plain_theorem};

use kv_syn::{Name, NoMemory, Proof, Theorem};
use std::alloc::Global;
use std::collections::{HashMap, HashSet};

/// From each name to the first of the proofs that has it.
pub fn proofs_by_name<'a>(
    alloc: Global,
    proofs: &'a [Proof],
) -> Result<HashMap<&'a [u8], &'a Proof>, NoMemory>
    ensures { IfOk result (λ index. LeadsToFirst (map plain_proof proofs.now) index) }
{
    let mut index = HashMap::new(alloc);
    for proof in proofs {
        if index.contains_key(proof.name.bytes()) {
            continue;
        }
        index.insert(proof.name.bytes(), proof)?;
    }
    Ok(index)
}

/// The proof that the index leads to from the name.
pub fn proof_named<'a>(index: &HashMap<&'a [u8], &'a Proof>, name: &Name) -> Option<&'a Proof>
    ensures { option_map (λ proof. plain_proof proof.now) result ≡ told index.now name.now }
{
    index.get(name.bytes()).copied()
}

/// The names of the theorems.
pub fn theorem_names<'a>(
    alloc: Global,
    theorems: &'a [Theorem],
) -> Result<HashSet<&'a [u8]>, NoMemory>
    ensures { IfOk result (λ names. AreNamesOf (map plain_theorem theorems.now) names) }
{
    let mut names = HashSet::new(alloc);
    for theorem in theorems {
        names.insert(theorem.name.bytes())?;
    }
    Ok(names)
}
