// What a name stands for.

ghost use Rattle.std.specs.Prelude.{◌≡◌, IfOk};
ghost use Rattle.std.specs.List.{find};
ghost use Rattle.std.specs.Option.{option_copied, option_map};
ghost use Rattle.std.specs.Str.{bytes_eq};
ghost use Rattle.kv_elab.specs.Scopes.{bound_of, place_of};

use crate::contexts::Context;
use kv_sig::same_name;
use kv_syn::{Name, NoMemory, Plain, Ref, Var};
use std::alloc::Global;

/// The innermost binder of that name, with the number of binders inside it.
fn bound_place<'a>(bound: &'a [Var], name: &Name) -> Option<(usize, &'a Var)>
    ensures { option_map (λ p. (p.0, p.1.now)) result ≡ bound_of bound.now name.now }
{
    let mut left = bound.len();
    let mut found = None;
    for variable in bound {
        left -= 1;
        if same_name(&variable.name, name) {
            found = Some((left, variable));
        }
    }
    found
}

/// The first variable of that name.
fn free_place<'a>(free: &'a [Var], name: &Name) -> Option<&'a Var>
    ensures { option_copied result ≡ find (λ x. bytes_eq x.name name.now) free.now }
{
    for variable in free {
        if same_name(&variable.name, name) {
            return Some(variable);
        }
    }
    None
}

/// The variable of that name, with its sort: the innermost binder, else the first free variable. A number of binders
/// that a reference can't hold counts as want of memory.
pub fn variable(
    alloc: Global,
    context: &Context,
    name: &Name,
) -> Result<Option<(Ref, Name)>, NoMemory>
    ensures { IfOk result (λ place. place ≡ place_of context.now name.now) }
{
    match bound_place(context.bound.items(), name) {
        Some((number, binder)) => match u32::try_from(number) {
            Ok(number) => Ok(Some((Ref::Bound(number), binder.sort.copy(alloc)?))),
            Err(_) => Err(NoMemory),
        },
        None => match free_place(context.free.items(), name) {
            Some(found) => Ok(Some((Ref::Free(found.copy(alloc)?), found.sort.copy(alloc)?))),
            None => Ok(None),
        },
    }
}
