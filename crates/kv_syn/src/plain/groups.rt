// Copies of several values at once, so that what copies many fields has one place where memory may run out.

ghost use Rattle.std.specs.Prelude.{◌≡◌, IfOk};

use kv_names::{NoMemory, Plain};
use std::alloc::Global;

/// Copies of the two. `NoMemory` where an allocation fails.
pub fn copy_two<A: Plain + Drop, B: Plain + Drop>(
    alloc: Global,
    a: &A,
    b: &B,
) -> Result<(A, B), NoMemory>
    ensures { IfOk result (λ x. (x.0 ≡ a.now) × (x.1 ≡ b.now)) }
{
    Ok((a.copy(alloc)?, b.copy(alloc)?))
}

/// Copies of the three. `NoMemory` where an allocation fails.
pub fn copy_three<A: Plain + Drop, B: Plain + Drop, C: Plain + Drop>(
    alloc: Global,
    a: &A,
    b: &B,
    c: &C,
) -> Result<(A, B, C), NoMemory>
    ensures { IfOk result (λ x. (x.0 ≡ a.now) × (x.1 ≡ b.now) × (x.2 ≡ c.now)) }
{
    Ok((a.copy(alloc)?, b.copy(alloc)?, c.copy(alloc)?))
}

/// Copies of the four. `NoMemory` where an allocation fails.
pub fn copy_four<A: Plain + Drop, B: Plain + Drop, C: Plain + Drop, D: Plain + Drop>(
    alloc: Global,
    a: &A,
    b: &B,
    c: &C,
    d: &D,
) -> Result<(A, B, C, D), NoMemory>
    ensures { IfOk result (λ x. (x.0 ≡ a.now) × (x.1 ≡ b.now) × (x.2 ≡ c.now) × (x.3 ≡ d.now)) }
{
    Ok((
        a.copy(alloc)?,
        b.copy(alloc)?,
        c.copy(alloc)?,
        d.copy(alloc)?,
    ))
}
