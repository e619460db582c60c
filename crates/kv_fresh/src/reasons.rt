// Reasons.

ghost use Rattle.std.specs.Prelude.{◌≡◌, []};
ghost use Rattle.kv_script.specs.Reasons.{reason_with};

use kv_syn::{List, Reason};
use std::alloc::Global;

/// A reason without names.
pub fn bare(alloc: Global, word: u32) -> Reason
    ensures { result ≡ reason_with word [] }
{
    Reason {
        word,
        names: List::new(alloc),
    }
}
