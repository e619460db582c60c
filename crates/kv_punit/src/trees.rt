// The longest term and the longest formula of some tokens.

ghost use Rattle.std.specs.Prelude.{◌≡◌, List, IfOk};
ghost use Rattle.kv_lex.specs.declared.token.TokenKind.{TokenKind as KindTree};
ghost use Rattle.kv_raw.specs.RawBridge.{raw_form, raw_term};
ghost use Rattle.kv_raw.specs.RawTrees.{RawForm as RawTree};
ghost use Rattle.kv_pexpr.specs.Gives.{kinds, Gives};
ghost use Rattle.kv_pexpr.specs.Grammar.{ReadsForm, Stops};
ghost use Rattle.kv_punit.specs.Gives.{seen, IsThat};
ghost use Rattle.kv_punit.specs.Parse as spec;

use kv_lex::Token;
use kv_pexpr::ReadError;
use kv_syn::{RawForm, RawTerm};
use std::alloc::Global;

/// The longest formula, and the tokens behind it.
pub fn form(alloc: Global, tokens: &[Token]) -> Result<(RawForm, &[Token]), ReadError>
    ensures reads { Gives (seen raw_form) result (spec.longest_form (kinds tokens.now)) }
    ensures found { IfOk result (λ found. ReadsForm (kinds tokens.now) (raw_form found.0) (kinds found.1.now)) }
    ensures only { (f : RawTree) (us : List KindTree) → ReadsForm (kinds tokens.now) f us → Stops us → IsThat (seen raw_form) result (f, us) }
{
    let (form, place) = kv_pexpr::formula(alloc, tokens, 0)?;
    Ok((form, &tokens[place..]))
}

/// The longest term, and the tokens behind it.
pub fn term(alloc: Global, tokens: &[Token]) -> Result<(RawTerm, &[Token]), ReadError>
    ensures { Gives (seen raw_term) result (spec.longest_term (kinds tokens.now)) }
{
    let (term, place) = kv_pexpr::term(alloc, tokens, 0)?;
    Ok((term, &tokens[place..]))
}
