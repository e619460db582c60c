// The items of a list, each once.

ghost use Rattle.std.specs.Prelude.{◌≡◌, IfOk};
ghost use Rattle.kv_script.specs.Keys.{look_of};
ghost use Rattle.kv_script.specs.Once.{looks_once, names_once};

use kv_syn::{Label, List, Look, NoMemory, Plain};
use std::alloc::Global;
use std::collections::HashSet;

/// Each label where it comes first. Each is looked up once, by its hash.
pub fn labels_once(alloc: Global, labels: &[Label]) -> Result<List<Label>, NoMemory>
    ensures { IfOk result (λ seen. seen ≡ names_once labels.now) }
{
    let mut before = HashSet::new(alloc);
    let mut seen = List::new(alloc);
    for label in labels {
        if before.insert(label.bytes())? {
            seen.push(label.copy(alloc)?)?;
        }
    }
    Ok(seen)
}

/// What a look asks for, borrowed.
#[derive(PartialEq, Eq, Hash, Drop)]
enum Asked<'a> {
    Symbol(&'a [u8]),
    Label(&'a [u8]),
    Generation(&'a [u8]),
    Body(&'a [u8]),
    Rules,
}

fn key_of(look: &Look) -> Asked
    ensures { look_of result ≡ look.now }
{
    match look {
        Look::Symbol(name) => Asked::Symbol(name.bytes()),
        Look::Label(label) => Asked::Label(label.bytes()),
        Look::Generation(sort) => Asked::Generation(sort.bytes()),
        Look::Body(name) => Asked::Body(name.bytes()),
        Look::Rules => Asked::Rules,
    }
}

/// Each look where it comes first. Each is looked up once, by its hash.
pub fn looks_once(alloc: Global, looks: &[Look]) -> Result<List<Look>, NoMemory>
    ensures { IfOk result (λ seen. seen ≡ looks_once looks.now) }
{
    let mut before = HashSet::new(alloc);
    let mut seen = List::new(alloc);
    for look in looks {
        if before.insert(key_of(look))? {
            seen.push(look_copy(alloc, look)?)?;
        }
    }
    Ok(seen)
}

fn look_copy(alloc: Global, look: &Look) -> Result<Look, NoMemory>
    ensures { IfOk result (λ copy. copy ≡ look.now) }
{
    Ok(match look {
        Look::Symbol(name) => Look::Symbol(name.copy(alloc)?),
        Look::Label(label) => Look::Label(label.copy(alloc)?),
        Look::Generation(sort) => Look::Generation(sort.copy(alloc)?),
        Look::Body(name) => Look::Body(name.copy(alloc)?),
        Look::Rules => Look::Rules,
    })
}
