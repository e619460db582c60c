// The names of a list, each once.

ghost use Rattle.std.specs.Prelude.{◌≡◌, IfOk};
ghost use Rattle.kv_goal.specs.Once.{procedures_once, variables_once};

use kv_syn::{List, Name, NoMemory, Plain, Profile, Var};
use std::alloc::Global;
use std::collections::HashSet;

/// Each variable where its name comes first. Each is looked up once, by its hash.
pub(crate) fn variables_once(alloc: Global, all: &[Var]) -> Result<List<Var>, NoMemory>
    ensures { IfOk result (λ free. free ≡ variables_once all.now) }
{
    let mut names = HashSet::new(alloc);
    let mut free = List::new(alloc);
    for variable in all {
        if names.insert(variable.name.bytes())? {
            free.push(variable.copy(alloc)?)?;
        }
    }
    Ok(free)
}

/// Each procedure where its name comes first. Each is looked up once, by its hash.
pub(crate) fn procedures_once(
    alloc: Global,
    all: &[(Name, Profile)],
) -> Result<List<(Name, Profile)>, NoMemory>
    ensures { IfOk result (λ assumed. assumed ≡ procedures_once all.now) }
{
    let mut names = HashSet::new(alloc);
    let mut assumed = List::new(alloc);
    for procedure in all {
        if names.insert(procedure.0.bytes())? {
            assumed.push(procedure.copy(alloc)?)?;
        }
    }
    Ok(assumed)
}
