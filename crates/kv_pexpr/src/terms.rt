// Terms.

ghost use Rattle.std.specs.Prelude.{◌≡◌, length};
ghost use Rattle.kv_pexpr.specs.Gives.{kinds, seen_term, seen_terms, Gives, IsHighTerm, AreHighTerms};
ghost use Rattle.kv_pexpr.specs.Parse as spec;

use crate::errors::ReadError;
use crate::found::Found;
use crate::tokens::{eat_mark, eat_name};
use crate::trees::application;
use kv_lex::{Token, mark};
use kv_names::List;
use kv_raw::RawTerm;
use std::alloc::Global;

/// Terms with commas between.
#[cycle(terms)]
fn terms(
    alloc: Global,
    tokens: &[Token],
    brackets: u32,
    height: u32,
) -> Result<Found<'_, List<RawTerm>>, ReadError>
    ensures reads { Gives seen_terms result (spec.terms (spec.term height brackets) (length tokens.now) (kinds tokens.now)) }
    ensures high { AreHighTerms height result }
{
    let mut args = List::new(alloc);
    let mut most = 0u32;
    let mut rest = tokens;
    for _turn in 0..tokens.len() {
        let next = term_within(alloc, rest, brackets, height)?;
        args.push(next.tree)?;
        most = most.max(next.height);
        match eat_mark(next.rest, mark::COMMA) {
            Some(after) => rest = after,
            None => {
                return Ok(Found {
                    tree: args,
                    height: most,
                    rest: next.rest,
                });
            }
        }
    }
    Err(ReadError::Syntax)
}

/// Arguments in brackets.
#[cycle(terms)]
fn arguments(
    alloc: Global,
    tokens: &[Token],
    brackets: u32,
    height: u32,
) -> Result<Found<'_, List<RawTerm>>, ReadError>
    ensures reads { Gives seen_terms result (spec.arguments (spec.term height) brackets (kinds tokens.now)) }
    ensures high { AreHighTerms height result }
{
    if brackets == 0 {
        return Err(ReadError::Syntax);
    }
    let Some(inner) = eat_mark(tokens, mark::OPEN) else {
        return Err(ReadError::Syntax);
    };
    let found = terms(alloc, inner, brackets - 1, height)?;
    match eat_mark(found.rest, mark::CLOSE) {
        Some(rest) => Ok(Found {
            tree: found.tree,
            height: found.height,
            rest,
        }),
        None => Err(ReadError::Syntax),
    }
}

/// The longest term of at most this height, in which at most so many pairs of brackets stand open around one place.
#[cycle(terms)]
pub fn term_within(
    alloc: Global,
    tokens: &[Token],
    brackets: u32,
    height: u32,
) -> Result<Found<'_, RawTerm>, ReadError>
    ensures reads { Gives seen_term result (spec.term height brackets (kinds tokens.now)) }
    ensures high { IsHighTerm height result }
{
    if height == 0 {
        return Err(ReadError::Syntax);
    }
    let (name, rest) = eat_name(alloc, tokens)?;
    match arguments(alloc, rest, brackets, height - 1) {
        Ok(args) => {
            let tree = application(alloc, name, args.tree)?;
            Ok(Found {
                tree,
                height: args.height + 1,
                rest: args.rest,
            })
        }
        Err(ReadError::NoMemory) => Err(ReadError::NoMemory),
        Err(ReadError::Syntax) => {
            let tree = application(alloc, name, List::new(alloc))?;
            Ok(Found {
                tree,
                height: 1,
                rest,
            })
        }
    }
}
