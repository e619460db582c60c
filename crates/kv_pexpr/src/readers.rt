// The longest term and the longest formula at a place.

ghost use Rattle.std.specs.Prelude.{◌≡◌, ◌<◌, ◌≤◌, length, drop, IfOk};
ghost use Rattle.kv_raw.specs.RawBridge.{raw_form, raw_term};
ghost use Rattle.kv_pexpr.specs.Grammar.{ReadsForm, ReadsTerm, Stops, TermStops};
ghost use Rattle.kv_pexpr.specs.Gives.{kinds, seen, seen_term, Gives};
ghost use Rattle.kv_pexpr.specs.Parse as spec;
ghost use Rattle.kv_pexpr.specs.Readings.{OneTree, OneReading, IsLongest, IsOnly};

use crate::errors::ReadError;
use crate::found::Found;
use crate::grammar::read;
use crate::levels::Level;
use crate::terms::term_within;
use kv_lex::Token;
use kv_raw::{RawForm, RawTerm};
use std::alloc::Global;

/// How high a tree of a text may be.
pub const TREE_HEIGHT: u32 = 150;

/// How many pairs of brackets may stand open around one place.
pub const OPEN_BRACKETS: u32 = 150;

/// How deep the rules nest at most: each turn takes a bracket or a level of height.
const FUEL: u32 = 300;

/// The longest formula that begins at a place of the tokens, and the place behind it.
///
/// A formula is a tree of at most 150 levels, and no place in it stands inside more than 150 pairs of brackets. What
/// could go on but doesn't read within these limits is left unread: an operator that no formula follows, an equality sign
/// that no term follows, brackets behind a name that hold no arguments. `Syntax` comes exactly where no formula begins
/// there. A formula behind which no operator, no equality sign and no opening bracket stands, as one that takes all the
/// tokens, is the one that is found. Boxes and diamonds aren't read yet.
pub fn formula(alloc: Global, tokens: &[Token], at: usize) -> Result<(RawForm, usize), ReadError>
    requires { at ≤ length tokens.now }
    ensures found { IfOk result (λ found. ReadsForm (kinds (drop at tokens.now)) (raw_form found.0) (kinds (drop found.1 tokens.now))) }
    ensures within { IfOk result (λ found. (at < found.1) × (found.1 ≤ length tokens.now)) }
    ensures longest { IsLongest ReadsForm tokens.now at result }
    ensures only { IsOnly raw_form ReadsForm Stops tokens.now at result }
{
    let found = longest_formula(alloc, &tokens[at..])?;
    let rest = found.rest.len();
    Ok((found.tree, tokens.len() - rest))
}

/// The longest term that begins at a place of the tokens, and the place behind it.
///
/// The limits are those of `formula`; brackets behind a name that hold no arguments within them are left unread.
/// `Syntax` comes exactly where no term begins there. A term behind which no opening bracket stands, as one that takes
/// all the tokens, is the one that is found.
pub fn term(alloc: Global, tokens: &[Token], at: usize) -> Result<(RawTerm, usize), ReadError>
    requires { at ≤ length tokens.now }
    ensures found { IfOk result (λ found. ReadsTerm (kinds (drop at tokens.now)) (raw_term found.0) (kinds (drop found.1 tokens.now))) }
    ensures within { IfOk result (λ found. (at < found.1) × (found.1 ≤ length tokens.now)) }
    ensures longest { IsLongest ReadsTerm tokens.now at result }
    ensures only { IsOnly raw_term ReadsTerm TermStops tokens.now at result }
{
    let found = longest_term(alloc, &tokens[at..])?;
    let rest = found.rest.len();
    Ok((found.tree, tokens.len() - rest))
}

/// The longest formula that the tokens begin with.
fn longest_formula(alloc: Global, tokens: &[Token]) -> Result<Found<'_, RawForm>, ReadError>
    ensures reads { Gives seen result (spec.read FUEL Level.Form OPEN_BRACKETS TREE_HEIGHT (kinds tokens.now)) }
    ensures found { IfOk result (λ found. ReadsForm (kinds tokens.now) (raw_form found.tree) (kinds found.rest.now)) }
{
    read(alloc, tokens, FUEL, Level::Form, OPEN_BRACKETS, TREE_HEIGHT)
}

/// The longest term that the tokens begin with.
fn longest_term(alloc: Global, tokens: &[Token]) -> Result<Found<'_, RawTerm>, ReadError>
    ensures reads { Gives seen_term result (spec.term TREE_HEIGHT OPEN_BRACKETS (kinds tokens.now)) }
    ensures found { IfOk result (λ found. ReadsTerm (kinds tokens.now) (raw_term found.tree) (kinds found.rest.now)) }
{
    term_within(alloc, tokens, OPEN_BRACKETS, TREE_HEIGHT)
}

/// One text is one formula, and one term: two readings of the same tokens are one tree where they leave the same tokens
/// behind them, and are one altogether where nothing stands behind either that could carry it on.
pub fn one_reading()
    ensures tree { OneTree ReadsForm }
    ensures whole { OneReading ReadsForm Stops }
    ensures term_tree { OneTree ReadsTerm }
    ensures term_whole { OneReading ReadsTerm TermStops }
{}
