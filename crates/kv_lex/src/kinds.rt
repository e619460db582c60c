// The token at the front of a text.

ghost use Rattle.std.specs.Prelude.{ℕ, ◌≡◌, ◌≤◌, ◌∷◌, IfOk, IsTrue, Option, length};
ghost use Rattle.std.specs.Option.{option_map};
ghost use Rattle.std.specs.Str.{chars, all_ascii_digits};
ghost use Rattle.kv_lex.specs.Tokens as spec;
ghost use Rattle.kv_lex.specs.Marks.{mark_rows};

use crate::front::{first, past_count, past_digits, past_name, until};
use crate::token::TokenKind;
use kv_names::{Name, NoMemory};
use kv_table::{Names, keywords};
use std::alloc::Global;
use unicode_ident::is_xid_start;

/// The greatest number of bytes of a name.
const MAX_NAME: usize = 64;

/// The greatest number of digits of a number.
const MAX_DIGITS: usize = 9;

/// A token's kind, and the text behind the token.
pub(crate) type Found<'a> = (TokenKind, &'a str);

/// The marks, by row.
#[tactic(auto, unfolding(crate::specs::Marks::mark_rows))]
fn marks() -> Names<18>
    ensures { result ≡ mark_rows }
{
    Names::new(&[
        "(", ")", "[", "]", "{", "}", "<", ">", ",", ";", ":", ":=", ".", "=", "=>", "->", "<->",
        "|",
    ])
}

/// The keyword that the text is, or the name; None where it is too long for a name.
fn word(alloc: Global, text: &str) -> Result<Option<TokenKind>, NoMemory>
    ensures { IfOk result (λ kind. kind ≡ spec.word text.now) }
{
    if let Some(row) = keywords().find(text) {
        return Ok(Some(TokenKind::Word(row as u32)));
    }
    if text.len() > MAX_NAME {
        return Ok(None);
    }
    Ok(Some(TokenKind::Ident(Name::from_bytes(alloc, text.as_bytes())?)))
}

/// The number that these digits are; None where there are too many.
fn number(digits: &str) -> Option<TokenKind>
    requires digits { IsTrue (all_ascii_digits digits.now) }
    requires some { 1 ≤ length digits.now }
    ensures { result ≡ spec.number digits.now }
{
    if digits.len() > MAX_DIGITS {
        return None;
    }
    match digits.parse::<u32>() {
        Ok(value) => Some(TokenKind::Number(value)),
        Err(_) => unreachable!(),
    }
}

/// A token's kind, where there is one, with the text behind the token.
fn with_rest(kind: Option<TokenKind>, rest: &str) -> Option<Found<'_>>
    ensures { option_map (λ found. (found.0, chars found.1.now)) result ≡ spec.with_rest (chars rest.entry.now) kind }
{
    match kind {
        Some(kind) => Some((kind, rest)),
        None => None,
    }
}

/// The mark that the first `count` characters are, and the text behind it.
fn mark_of(text: &str, count: usize) -> Option<Found<'_>>
    ensures { option_map (λ found. (found.0, chars found.1.now)) result ≡ spec.mark_of count (chars text.now) }
{
    let rest = past_count(text, count);
    let row = marks().find(until(text, rest))?;
    Some((TokenKind::Mark(row as u32), rest))
}

/// The longest mark at the front of the text, and the text behind it.
fn mark(text: &str) -> Option<Found<'_>>
    ensures { option_map (λ found. (found.0, chars found.1.now)) result ≡ spec.mark (chars text.now) }
{
    mark_of(text, 3)
        .or_else(|| mark_of(text, 2))
        .or_else(|| mark_of(text, 1))
}

/// The token at the front of the text, and the text behind it; None where no token reads there.
pub(crate) fn token(alloc: Global, text: &str) -> Result<Option<Found<'_>>, NoMemory>
    ensures { IfOk result (λ read. option_map (λ found. (found.0, chars found.1.now)) read ≡ spec.token_at (chars text.now)) }
{
    let Some((c, after)) = first(text) else {
        return Ok(None);
    };
    if is_xid_start(c) {
        let rest = past_name(after);
        let kind = word(alloc, until(text, rest))?;
        return Ok(with_rest(kind, rest));
    }
    if c.is_ascii_digit() {
        let rest = past_digits(after);
        return Ok(with_rest(number(until(text, rest)), rest));
    }
    Ok(mark(text))
}
