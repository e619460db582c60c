// Items: the symbol that each declares, and its first fault.

ghost use Rattle.std.specs.Prelude.{◌≡◌, ◌++◌, true, [], Some, map, IfOk, IfErr};
ghost use Rattle.std.specs.Borrow.{Bor};
ghost use Rattle.kv_sig.specs.Signatures.{added};
ghost use Rattle.kv_flat.specs.Faults.{Declares, Finds, has_fault_row};
ghost use Rattle.kv_flat.specs.Items.{fault_behind, is_sort, or_clash, parameters_fault, sort_fault, sorts_fault, sorts_of, symbol_of, with_item};
ghost use Rattle.kv_syn.specs.ProjectBridge.{plain_item};
ghost use Rattle.kv_syn.specs.Readable.{is_readable_item};
ghost use Rattle.kv_names.specs.declared.symbols.Var.{Var as VarTree};

use crate::faults::{FlatError, fault};
use kv_sig::{Sig, SigError};
use kv_syn::{Item, List, Name, NoMemory, Plain, Profile, Symbol, Var};
use kv_table::reason;
use std::alloc::Global;
use std::collections::HashSet;

/// Adds the symbol that an item declares, or tells the item's first fault: its name comes first, and then what stands
/// behind it, from left to right.
pub fn declare(alloc: Global, item: &Item, sig: &mut Sig) -> Result<(), FlatError>
    requires { is_readable_item item.now ≡ true }
    ensures item { Declares (with_item sig.old (plain_item item.now)) sig.new result }
    ensures row { IfErr result (λ error. has_fault_row error ≡ true) }
{
    let symbol = symbol_of(alloc, item)?;
    add(alloc, symbol, sig)?;
    check_behind(alloc, item, sig)
}

/// The symbol that an item declares.
fn symbol_of(alloc: Global, item: &Item) -> Result<Symbol, NoMemory>
    requires { is_readable_item item.now ≡ true }
    ensures { IfOk result (λ symbol. symbol_of (plain_item item.now) ≡ Some symbol) }
{
    match item {
        Item::Sort(name) => symbol(alloc, name, Profile::Sort),
        Item::Fun { name, args, result } => {
            let args = args.copy(alloc)?;
            let result = result.copy(alloc)?;
            symbol(alloc, name, Profile::Fun { args, result })
        }
        Item::Pred { name, args } => {
            let args = args.copy(alloc)?;
            symbol(alloc, name, Profile::Pred { args })
        }
        Item::Proc {
            name,
            values,
            refs,
            ..
        } => {
            let values = sorts_of(alloc, values.items())?;
            let refs = sorts_of(alloc, refs.items())?;
            symbol(alloc, name, Profile::Proc { values, refs })
        }
        _ => unreachable!(),
    }
}

/// The symbol of that name and profile.
fn symbol(alloc: Global, name: &Name, profile: Profile) -> Result<Symbol, NoMemory>
    ensures { IfOk result (λ symbol. symbol ≡ record { name = name.now; profile = profile }) }
{
    Ok(Symbol {
        name: name.copy(alloc)?,
        profile,
    })
}

/// The sorts of parameters.
fn sorts_of(alloc: Global, parameters: &[Var]) -> Result<List<Name>, NoMemory>
    ensures { IfOk result (λ sorts. sorts ≡ sorts_of parameters.now) }
{
    let mut sorts = List::new(alloc);
    for parameter in parameters {
        sorts.push(parameter.sort.copy(alloc)?)?;
    }
    Ok(sorts)
}

/// Adds a symbol, or tells the clash of its name.
fn add(alloc: Global, symbol: Symbol, sig: &mut Sig) -> Result<(), FlatError>
    ensures symbol { Declares (or_clash (added sig.old symbol)) sig.new result }
    ensures row { IfErr result (λ error. has_fault_row error ≡ true) }
{
    match sig.add(symbol) {
        Ok(()) => Ok(()),
        Err(SigError::Clash { name }) => Err(fault(alloc, reason::CLASH, &name)),
        Err(SigError::NoMemory) => Err(FlatError::NoMemory),
    }
}

/// Tells the first fault behind an item's name.
fn check_behind(alloc: Global, item: &Item, sig: &Sig) -> Result<(), FlatError>
    ensures fault { Finds (fault_behind sig.now (plain_item item.now)) result }
    ensures row { IfErr result (λ error. has_fault_row error ≡ true) }
{
    match item {
        Item::Fun { args, result, .. } => {
            check_sorts(alloc, args.items(), sig)?;
            check_sort(alloc, result, sig)
        }
        Item::Pred { args, .. } => check_sorts(alloc, args.items(), sig),
        Item::Proc { values, refs, .. } => {
            let parameters = parameters(alloc, values.items(), refs.items())?;
            check_parameters(alloc, &parameters, sig)
        }
        _ => Ok(()),
    }
}

/// Tells the first fault of sorts.
fn check_sorts(alloc: Global, sorts: &[Name], sig: &Sig) -> Result<(), FlatError>
    ensures fault { Finds (sorts_fault sig.now sorts.now) result }
    ensures row { IfErr result (λ error. has_fault_row error ≡ true) }
{
    for sort in sorts {
        check_sort(alloc, sort, sig)?;
    }
    Ok(())
}

/// Tells the fault of a sort that isn't there.
fn check_sort(alloc: Global, sort: &Name, sig: &Sig) -> Result<(), FlatError>
    ensures fault { Finds (sort_fault sig.now sort.now) result }
    ensures row { IfErr result (λ error. has_fault_row error ≡ true) }
{
    if is_sort(sig, sort) {
        Ok(())
    } else {
        Err(fault(alloc, reason::UNKNOWN, sort))
    }
}

fn is_sort(sig: &Sig, name: &Name) -> bool
    ensures { result ≡ is_sort sig.now name.now }
{
    matches!(sig.look(name), Some(Profile::Sort))
}

/// All parameters of a procedure, in order.
fn parameters<'a>(
    alloc: Global,
    values: &'a [Var],
    refs: &'a [Var],
) -> Result<Vec<&'a Var>, NoMemory>
    ensures { IfOk result (λ parameters. map (λ (x : Bor VarTree). x.now) parameters.items ≡ values.now ++ refs.now) }
{
    let parameters: Vec<&Var> = values.iter().chain(refs.iter()).collect(alloc)?;
    Ok(parameters)
}

/// Tells the first fault of parameters. Each name is looked up once, by its hash.
fn check_parameters(alloc: Global, parameters: &[&Var], sig: &Sig) -> Result<(), FlatError>
    ensures fault { Finds (parameters_fault sig.now [] (map (λ (x : Bor VarTree). x.now) parameters.now)) result }
    ensures row { IfErr result (λ error. has_fault_row error ≡ true) }
{
    let mut before = HashSet::new(alloc);
    for parameter in parameters {
        let Ok(is_new) = before.insert(parameter.name.bytes()) else {
            return Err(FlatError::NoMemory);
        };
        if !is_new {
            return Err(fault(alloc, reason::DUPLICATE, &parameter.name));
        }
        check_sort(alloc, &parameter.sort, sig)?;
    }
    Ok(())
}
