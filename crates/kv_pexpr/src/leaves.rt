// Equations and atoms, and the variables of quantifiers: what holds no formula.

ghost use Rattle.std.specs.Prelude.{◌≡◌, ◌-◌, ◌<◌};
ghost use Rattle.kv_pexpr.specs.Gives.{kinds, seen, Gives, IsHigh};
ghost use Rattle.kv_pexpr.specs.Parse as spec;

use crate::errors::ReadError;
use crate::found::Found;
use crate::terms::term_within;
use crate::tokens::{eat_mark, eat_name};
use crate::trees::atom_of;
use kv_lex::{Token, mark};
use kv_names::Var;
use kv_raw::RawForm;
use std::alloc::Global;

/// An equation, or a term alone as an atom.
pub fn equation(
    alloc: Global,
    tokens: &[Token],
    brackets: u32,
    height: u32,
) -> Result<Found<'_, RawForm>, ReadError>
    requires { 0 < height }
    ensures reads { Gives seen result (spec.equation brackets (height - 1) (kinds tokens.now)) }
    ensures high { IsHigh height result }
{
    let left = term_within(alloc, tokens, brackets, height)?;
    if left.height < height
        && let Some(after) = eat_mark(left.rest, mark::EQUAL)
    {
        match term_within(alloc, after, brackets, height - 1) {
            Ok(right) => {
                return Ok(Found {
                    height: left.height.max(right.height) + 1,
                    tree: RawForm::Equal(left.tree, right.tree),
                    rest: right.rest,
                });
            }
            Err(ReadError::NoMemory) => return Err(ReadError::NoMemory),
            Err(ReadError::Syntax) => {}
        }
    }
    Ok(Found {
        tree: atom_of(left.tree),
        height: left.height,
        rest: left.rest,
    })
}

/// A variable, a colon, its sort and a dot.
pub fn bound_var(alloc: Global, tokens: &[Token]) -> Result<(Var, &[Token]), ReadError>
    ensures { Gives (λ found. (found.0, kinds found.1.now)) result (spec.bound_var (kinds tokens.now)) }
{
    let (name, rest) = eat_name(alloc, tokens)?;
    let Some(rest) = eat_mark(rest, mark::COLON) else {
        return Err(ReadError::Syntax);
    };
    let (sort, rest) = eat_name(alloc, rest)?;
    match eat_mark(rest, mark::DOT) {
        Some(rest) => Ok((Var { name, sort }, rest)),
        None => Err(ReadError::Syntax),
    }
}
