// Projects.

ghost use Rattle.std.specs.Prelude.{◌≡◌, true};
ghost use Rattle.std.specs.List.{list_all};
ghost use Rattle.kv_syn.specs.Readable.{is_readable_unit};

use crate::units::Unit;
use kv_names::List;

/// A project: its units in order, each of a form that the texts of projects have so far.
#[derive(Drop)]
pub struct Project {
    pub units: List<Unit>,
    ghost readable: { list_all is_readable_unit units ≡ true },
}
