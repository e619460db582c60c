// The tokens of a whole text.

ghost use Rattle.std.specs.Prelude.{◌≡◌, ◌≤◌, IfOk, length, take};
ghost use Rattle.std.specs.Str.Lossy.{utf8_valid_len};
ghost use Rattle.kv_lex.specs.Tokens.{lexed, Gives};
ghost use Rattle.kv_lex.specs.Spelling.{StandIn};

use crate::front::skip;
use crate::kinds::token;
use crate::token::{LexError, Token};
use kv_names::List;
use std::alloc::Global;

/// The longest front of the bytes that is UTF-8.
fn valid_front(bytes: &[u8]) -> &str
    ensures { result.now ≡ take (utf8_valid_len bytes.now) bytes.now }
{
    let valid = match str::from_utf8(bytes) {
        Ok(_) => bytes.len(),
        Err(error) => error.valid_up_to(),
    };
    match str::from_utf8(&bytes[..valid]) {
        Ok(text) => text,
        Err(_) => unreachable!(),
    }
}

/// The tokens of the text, in order. `Token { place }` exactly where no token reads at the byte
/// `place`, while tokens, blanks and comments fill what stands before it. A byte that isn't part of
/// valid UTF-8 reads as no token, in a comment either.
pub fn tokens(alloc: Global, text: &[u8]) -> Result<List<Token>, LexError>
    ensures read { Gives result (lexed text.now) }
    ensures spelt { IfOk result (λ tokens. StandIn text.now 0 tokens) }
    ensures few { IfOk result (λ tokens. length tokens ≤ length text.now) }
{
    let valid = valid_front(text);
    let mut tokens = List::new(alloc);
    let mut rest = skip(valid);
    while !rest.is_empty() {
        let from = valid.len() - rest.len();
        let Some((kind, after)) = token(alloc, rest)? else {
            return Err(LexError::Token { place: from });
        };
        let to = valid.len() - after.len();
        tokens.push(Token { kind, from, to })?;
        rest = skip(after);
    }
    if valid.len() < text.len() {
        return Err(LexError::Token { place: valid.len() });
    }
    Ok(tokens)
}
