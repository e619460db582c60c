// Labels.

ghost use Rattle.std.specs.Prelude.{◌≡◌};
ghost use Rattle.std.specs.Option.{option_map};
ghost use Rattle.kv_pexpr.specs.Gives.{kinds, Gives};
ghost use Rattle.kv_punit.specs.Grammar.{has_colon};
ghost use Rattle.kv_punit.specs.Parse as spec;

use kv_lex::{Token, mark as row};
use kv_pexpr::{ReadError, eat_mark, eat_name};
use kv_syn::{Bytes, Label};
use std::alloc::Global;

/// The name of a proof: a label without `:`.
pub fn proof_label(alloc: Global, tokens: &[Token]) -> Result<(Label, &[Token]), ReadError>
    ensures { Gives (λ found. (found.0, kinds found.1.now)) result (spec.proof_label (kinds tokens.now)) }
{
    let (label, rest) = label(alloc, tokens)?;
    if has_colon(&label) {
        return Err(ReadError::Syntax);
    }
    Ok((label, rest))
}

fn has_colon(label: &Label) -> bool
    ensures { result ≡ has_colon label.now }
{
    label.bytes().iter().any(|byte| *byte == b':')
}

/// A label: names with `.` or `:` between them, as many as there are.
fn label(alloc: Global, tokens: &[Token]) -> Result<(Label, &[Token]), ReadError>
    ensures { Gives (λ found. (found.0, kinds found.1.now)) result (spec.label (kinds tokens.now)) }
{
    let (text, rest) = label_text(alloc, tokens)?;
    Ok((Label::from_bytes(alloc, text.bytes())?, rest))
}

/// The bytes of a label.
fn label_text(alloc: Global, tokens: &[Token]) -> Result<(Bytes, &[Token]), ReadError>
    ensures { Gives (λ found. (found.0, kinds found.1.now)) result (spec.label (kinds tokens.now)) }
{
    let (first, mut rest) = eat_name(alloc, tokens)?;
    let mut text = Bytes::from_bytes(alloc, first.bytes())?;
    for _turn in 0..tokens.len() {
        let Some((between, after)) = separator(rest) else {
            return Ok((text, rest));
        };
        let (next, behind) = eat_name(alloc, after)?;
        text.append(between)?;
        text.append(next.bytes())?;
        rest = behind;
    }
    Ok((text, rest))
}

/// The mark between two names of a label, and the tokens behind it.
fn separator(tokens: &[Token]) -> Option<(&'static [u8], &[Token])>
    ensures { option_map (λ found. (found.0.now, kinds found.1.now)) result ≡ spec.separator (kinds tokens.now) }
{
    if let Some(rest) = eat_mark(tokens, row::DOT) {
        return Some((b".", rest));
    }
    let rest = eat_mark(tokens, row::COLON)?;
    Some((b":", rest))
}
