// What stands behind the states.

ghost use Rattle.kv_fresh.specs.Backing.{Backing};

/// Wherever a theorem is shown as proved, its formula alone on the right has a derivation from the theory of its unit.
/// No other row is shown as proved, so none of an idle proof.
pub fn backing()
    ensures { Backing }
{}
