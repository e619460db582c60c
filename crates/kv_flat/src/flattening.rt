// Flattening a unit.

ghost use Rattle.std.specs.Prelude.{◌≡◌, ◌+◌, true, map, [], Ok, IfErr};
ghost use Rattle.std.specs.List.{list_all};
ghost use Rattle.kv_flat.specs.Faults.{has_fault_row};
ghost use Rattle.kv_flat.specs.Items.{with_items};
ghost use Rattle.kv_flat.specs.Units.{Flattens, signature_of};
ghost use Rattle.kv_syn.specs.ProjectBridge.{plain_item, plain_unit};
ghost use Rattle.kv_syn.specs.Readable.{is_readable_unit, is_readable_item};

use crate::faults::FlatError;
use crate::flats::{Flats, Flattened};
use crate::items::declare;
use kv_sig::{Flat, Sig};
use kv_syn::{Item, Kind, List, Steps, Unit};
use std::alloc::Global;
use std::sync::ledger::Ledger;

/// What the theorems of the unit see, over the units that it uses: so far the symbols of its items. `Bad` has the
/// first fault of the items. Counts one step.
pub fn flatten<L: Ledger>(
    alloc: Global,
    unit: &Unit,
    _below: &Flats,
    steps: &mut Steps<L>,
) -> Result<Flattened, FlatError>
    requires { is_readable_unit unit.now ≡ true }
    ensures flat { Flattens (signature_of (plain_unit unit.now)) result }
    ensures bad { IfErr result (λ error. has_fault_row error ≡ true) }
    ensures steps { steps.new ≡ steps.old + 1 }
{
    steps.tick();
    match &unit.kind {
        Kind::Basic(items) => basic(alloc, items.items()),
        _ => unreachable!(),
    }
}

fn basic(alloc: Global, items: &[Item]) -> Result<Flattened, FlatError>
    requires { list_all is_readable_item items.now ≡ true }
    ensures flat { Flattens (with_items (Ok []) (map plain_item items.now)) result }
    ensures bad { IfErr result (λ error. has_fault_row error ≡ true) }
{
    let mut sig = Sig::new(alloc);
    for item in items {
        declare(alloc, item, &mut sig)?;
    }
    let flat = Flat {
        sig,
        entries: List::new(alloc),
        gens: List::new(alloc),
        bodies: List::new(alloc),
    };
    Ok(Flattened {
        flat,
        obligations: List::new(alloc),
    })
}
