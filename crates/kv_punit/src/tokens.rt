// The first of some tokens.

ghost use Rattle.std.specs.Prelude.{◌≡◌};
ghost use Rattle.kv_pexpr.specs.Gives.{kinds, Gives};
ghost use Rattle.kv_pexpr.specs.Parse as forms;
ghost use Rattle.kv_punit.specs.Parse as spec;

use kv_lex::{Token, TokenKind};
use kv_pexpr::{ReadError, eat_mark, eat_word};

/// The tokens behind the mark. `Syntax` where it doesn't come first.
pub fn mark(tokens: &[Token], mark: u32) -> Result<&[Token], ReadError>
    ensures { Gives (λ rest. kinds rest.now) result (forms.eat_mark mark (kinds tokens.now)) }
{
    match eat_mark(tokens, mark) {
        Some(rest) => Ok(rest),
        None => Err(ReadError::Syntax),
    }
}

/// The tokens behind the keyword. `Syntax` where it doesn't come first.
pub fn word(tokens: &[Token], word: u32) -> Result<&[Token], ReadError>
    ensures { Gives (λ rest. kinds rest.now) result (forms.eat_word word (kinds tokens.now)) }
{
    match eat_word(tokens, word) {
        Some(rest) => Ok(rest),
        None => Err(ReadError::Syntax),
    }
}

/// The number that comes first, and the tokens behind it.
pub fn number(tokens: &[Token]) -> Result<(u32, &[Token]), ReadError>
    ensures { Gives (λ found. (found.0, kinds found.1.now)) result (spec.eat_number (kinds tokens.now)) }
{
    let Some((first, rest)) = tokens.split_first() else {
        return Err(ReadError::Syntax);
    };
    match &first.kind {
        TokenKind::Number(n) => Ok((*n, rest)),
        _ => Err(ReadError::Syntax),
    }
}

/// `Syntax` where tokens are left.
pub fn end(tokens: &[Token]) -> Result<(), ReadError>
    ensures { Gives (λ _. tt) result (spec.end (kinds tokens.now)) }
{
    if tokens.is_empty() {
        Ok(())
    } else {
        Err(ReadError::Syntax)
    }
}
