// Variables that are written, and calls.

ghost use Rattle.std.specs.Prelude.{◌≡◌, [], Some, length};
ghost use Rattle.std.specs.List.{list_any};
ghost use Rattle.std.specs.Option.{option_copied};
ghost use Rattle.std.specs.Str.{bytes_eq};
ghost use Rattle.kv_trees.specs.Bridge.{plain_prog};
ghost use Rattle.kv_raw.specs.RawBridge.{raw_terms};
ghost use Rattle.kv_raw.specs.RawTrees.{RawProg as ProgTree};
ghost use Rattle.kv_elab.specs.Scopes.{place_of, assumed_of};
ghost use Rattle.kv_elab.specs.Typed.{Gives, and_then};
ghost use Rattle.kv_elab.specs.Elab.{terms_count, elab_args, elab_place, elab_ref, elab_refs, elab_call, elab_prog};

use crate::contexts::Context;
use crate::errors::TypeError;
use crate::names::variable;
use crate::terms::{count, typed_args};
use kv_sig::{Sig, same_name};
use kv_syn::{Callee, List, Name, Plain, Profile, Prog, RawTerm, Ref, Shared};
use std::alloc::Global;

/// The variable of that name, with its sort.
pub fn typed_place(alloc: Global, context: &Context, name: &Name) -> Result<(Ref, Name), TypeError>
    ensures { Gives (λ place. place) result (elab_place name.now (place_of context.now name.now)) }
{
    match variable(alloc, context, name)? {
        Some(place) => Ok(place),
        None => Err(TypeError::Unknown {
            name: name.copy(alloc)?,
        }),
    }
}

fn stands_in(names: &[Name], name: &Name) -> bool
    ensures { result ≡ list_any (λ other. bytes_eq other name.now) names.now }
{
    names.iter().any(|other| same_name(other, name))
}

/// A reference of a call, where these names come before it.
fn typed_ref(
    alloc: Global,
    context: &Context,
    before: &[Name],
    want: &Name,
    name: &Name,
) -> Result<Ref, TypeError>
    ensures { Gives (λ place. place) result (and_then (elab_place name.now (place_of context.now name.now)) (elab_ref before.now want.now name.now)) }
{
    let (place, got) = typed_place(alloc, context, name)?;
    if stands_in(before, name) {
        Err(TypeError::Duplicate {
            name: name.copy(alloc)?,
        })
    } else if same_name(want, &got) {
        Ok(place)
    } else {
        Err(TypeError::Sort {
            want: want.copy(alloc)?,
            got,
        })
    }
}

/// The references of a call, of these sorts in order.
fn typed_refs(
    alloc: Global,
    context: &Context,
    wants: &[Name],
    names: &[Name],
) -> Result<List<Ref>, TypeError>
    requires { length wants.now ≡ length names.now }
    ensures { Gives (λ places. places) result (elab_refs context.now [] wants.now names.now) }
{
    let mut typed = List::new(alloc);
    for i in 0..names.len() {
        typed.push(typed_ref(alloc, context, &names[..i], &wants[i], &names[i])?)?;
    }
    Ok(typed)
}

/// The profile of the first assumed procedure of that name.
fn assumed_profile<'a>(assumed: &'a [(Name, Profile)], name: &Name) -> Option<&'a Profile>
    ensures { option_copied result ≡ assumed_of assumed.now name.now }
{
    for (other, profile) in assumed {
        if same_name(other, name) {
            return Some(profile);
        }
    }
    None
}

fn call_of(
    alloc: Global,
    sig: &Sig,
    context: &Context,
    callee: Callee,
    profile: &Profile,
    name: &Name,
    args: &[RawTerm],
    names: &[Name],
) -> Result<Prog, TypeError>
    ensures { Gives plain_prog result (elab_call name.now (Some (callee, profile.now)) (terms_count (raw_terms args.now)) (length names.now) (λ wants. elab_args sig.now context.now wants (raw_terms args.now)) (λ wants. elab_refs context.now [] wants names.now)) }
{
    match profile {
        Profile::Proc { values, refs } => {
            if count(args) != values.items().len() || names.len() != refs.items().len() {
                return Err(TypeError::Arity {
                    name: name.copy(alloc)?,
                });
            }
            let typed = typed_args(alloc, sig, context, values.items(), args)?;
            let places = typed_refs(alloc, context, refs.items(), names)?;
            Ok(Prog::Call(
                callee,
                Shared::new(alloc, typed)?,
                Shared::new(alloc, places)?,
            ))
        }
        _ => Err(TypeError::Unknown {
            name: name.copy(alloc)?,
        }),
    }
}

/// The call of the assumed procedure of that name, else of the symbol.
pub fn typed_call(
    alloc: Global,
    sig: &Sig,
    context: &Context,
    name: &Name,
    args: &[RawTerm],
    names: &[Name],
) -> Result<Prog, TypeError>
    ensures { Gives plain_prog result (elab_prog sig.now context.now (ProgTree.Call name.now (raw_terms args.now) names.now)) }
{
    match assumed_profile(context.assumed.items(), name) {
        Some(profile) => {
            let callee = Callee::Assumed(name.copy(alloc)?, profile.copy(alloc)?);
            call_of(alloc, sig, context, callee, profile, name, args, names)
        }
        None => match sig.look(name) {
            Some(profile) => {
                let callee = Callee::Symbol(name.copy(alloc)?);
                call_of(alloc, sig, context, callee, profile, name, args, names)
            }
            None => Err(TypeError::Unknown {
                name: name.copy(alloc)?,
            }),
        },
    }
}
