// Typing of terms.

ghost use Rattle.std.specs.Prelude.{◌≡◌, IfOk, length};
ghost use Rattle.kv_trees.specs.Bridge.{plain_term, plain_terms};
ghost use Rattle.kv_raw.specs.RawBridge.{raw_term, raw_terms};
ghost use Rattle.kv_sig.specs.Typing.{IsTerm};
ghost use Rattle.kv_elab.specs.Lawful.{sorts_of, IsLawful};
ghost use Rattle.kv_elab.specs.Typed.{Gives, and_then};
ghost use Rattle.kv_elab.specs.Elab.{terms_count, of_sort, elab_term, elab_args};

use crate::contexts::Context;
use crate::errors::TypeError;
use crate::names::variable;
use kv_sig::{Sig, same_name};
use kv_syn::{List, Name, Plain, Profile, RawTerm, Shared, Term};
use std::alloc::Global;

/// The typed term with its sort, or the first fault.
pub fn elaborate_term(
    alloc: Global,
    sig: &Sig,
    context: &Context,
    raw: &RawTerm,
) -> Result<(Term, Name), TypeError>
    ensures value { Gives (λ p. (plain_term p.0, p.1)) result (elab_term sig.now context.now (raw_term raw.now)) }
    ensures typed { IfOk result (λ p. IsLawful sig.now context.now → IsTerm sig.now (sorts_of context.now) (plain_term p.0) p.1) }
{
    typed_term(alloc, sig, context, raw)
}

/// How many terms these are.
pub fn count(terms: &[RawTerm]) -> usize
    ensures length { result ≡ length terms.now }
    ensures count { result ≡ terms_count (raw_terms terms.now) }
{
    terms.len()
}

#[cycle(typed_term)]
fn typed_term(
    alloc: Global,
    sig: &Sig,
    context: &Context,
    raw: &RawTerm,
) -> Result<(Term, Name), TypeError>
    ensures { Gives (λ p. (plain_term p.0, p.1)) result (elab_term sig.now context.now (raw_term raw.now)) }
{
    match raw {
        RawTerm::App(name, args) => match variable(alloc, context, name)? {
            Some(place) => {
                if count(args.items()) == 0 {
                    Ok((Term::Place(place.0), place.1))
                } else {
                    Err(TypeError::Unknown {
                        name: name.copy(alloc)?,
                    })
                }
            }
            None => match sig.look(name) {
                Some(
                    Profile::Fun {
                        args: wants,
                        result,
                    },
                ) => {
                    if count(args.items()) != wants.items().len() {
                        return Err(TypeError::Arity {
                            name: name.copy(alloc)?,
                        });
                    }
                    let typed = typed_args(alloc, sig, context, wants.items(), args.items())?;
                    Ok((
                        Term::App(name.copy(alloc)?, Shared::new(alloc, typed)?),
                        result.copy(alloc)?,
                    ))
                }
                _ => Err(TypeError::Unknown {
                    name: name.copy(alloc)?,
                }),
            },
        },
    }
}

/// The terms, of these sorts in order.
#[cycle(typed_term)]
pub fn typed_args(
    alloc: Global,
    sig: &Sig,
    context: &Context,
    wants: &[Name],
    args: &[RawTerm],
) -> Result<List<Term>, TypeError>
    requires { length wants.now ≡ length args.now }
    ensures { Gives plain_terms result (elab_args sig.now context.now wants.now (raw_terms args.now)) }
{
    let mut typed = List::new(alloc);
    for i in 0..args.len() {
        typed.push(term_of_sort(alloc, sig, context, &wants[i], &args[i])?)?;
    }
    Ok(typed)
}

/// The term, of this sort.
#[cycle(typed_term)]
pub fn term_of_sort(
    alloc: Global,
    sig: &Sig,
    context: &Context,
    want: &Name,
    raw: &RawTerm,
) -> Result<Term, TypeError>
    ensures { Gives plain_term result (and_then (elab_term sig.now context.now (raw_term raw.now)) (of_sort want.now)) }
{
    let (term, got) = typed_term(alloc, sig, context, raw)?;
    if same_name(want, &got) {
        Ok(term)
    } else {
        Err(TypeError::Sort {
            want: want.copy(alloc)?,
            got,
        })
    }
}
