// The first of some tokens.

ghost use Rattle.std.specs.Prelude.{◌≡◌};
ghost use Rattle.std.specs.Option.{option_map};
ghost use Rattle.kv_pexpr.specs.Gives.{kinds, Gives};
ghost use Rattle.kv_pexpr.specs.Parse as spec;

use crate::errors::ReadError;
use kv_lex::{Token, TokenKind};
use kv_names::{Name, Plain};
use std::alloc::Global;

/// The tokens behind the mark, if it comes first.
pub fn eat_mark(tokens: &[Token], mark: u32) -> Option<&[Token]>
    ensures { option_map (λ rest. kinds rest.now) result ≡ spec.eat_mark mark (kinds tokens.now) }
{
    let (first, rest) = tokens.split_first()?;
    match &first.kind {
        TokenKind::Mark(m) if *m == mark => Some(rest),
        _ => None,
    }
}

/// The tokens behind the keyword, if it comes first.
pub fn eat_word(tokens: &[Token], word: u32) -> Option<&[Token]>
    ensures { option_map (λ rest. kinds rest.now) result ≡ spec.eat_word word (kinds tokens.now) }
{
    let (first, rest) = tokens.split_first()?;
    match &first.kind {
        TokenKind::Word(w) if *w == word => Some(rest),
        _ => None,
    }
}

/// A copy of the name that comes first, and the tokens behind it.
pub fn eat_name(alloc: Global, tokens: &[Token]) -> Result<(Name, &[Token]), ReadError>
    ensures { Gives (λ found. (found.0, kinds found.1.now)) result (spec.eat_name (kinds tokens.now)) }
{
    let Some((first, rest)) = tokens.split_first() else {
        return Err(ReadError::Syntax);
    };
    match &first.kind {
        TokenKind::Ident(name) => Ok((name.copy(alloc)?, rest)),
        _ => Err(ReadError::Syntax),
    }
}
