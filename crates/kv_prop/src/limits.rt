// How large a sequent may be.

ghost use Rattle.std.specs.Prelude.{◌≡◌};
ghost use Rattle.kv_prop.specs.Limits.{is_small};

use kv_goal::Size;

/// How many nodes the formulas of a sequent may have together.
pub const SEQUENT_NODES: u64 = 50_000;

/// How deep a formula of a sequent may be.
pub const SEQUENT_DEPTH: u32 = 400;

/// Whether a sequent of that size keeps the limits.
pub(crate) fn fits(size: Size) -> bool
    ensures { result ≡ is_small size.nodes size.depth }
{
    size.nodes <= SEQUENT_NODES && size.depth <= SEQUENT_DEPTH
}
