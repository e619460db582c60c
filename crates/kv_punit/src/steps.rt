// Steps of a script: the word of a rule, and what the rule takes.

ghost use Rattle.std.specs.Prelude.{◌≡◌, ◌<◌, [], ◌∷◌, IfOk, IfSome, Some};
ghost use Rattle.kv_syn.specs.ScriptBridge.{plain_step, plain_text};
ghost use Rattle.kv_table.specs.Names.{row_of};
ghost use Rattle.kv_table.specs.Rules.{rule_count, rule_rows};
ghost use Rattle.kv_pexpr.specs.Gives.{kinds, Gives};
ghost use Rattle.kv_punit.specs.Gives.{seen};
ghost use Rattle.kv_punit.specs.Parse as spec;
ghost use Rattle.kv_punit.specs.Steps as grammar;

use crate::tokens::{number, word};
use crate::trees::{form, term};
use crate::words::row_of;
use kv_lex::{Token, TokenKind};
use kv_pexpr::{ReadError, eat_name};
use kv_syn::{List, Side, Step, StepText};
use kv_table::{keyword, rule, rules};
use std::alloc::Global;

/// What stands behind the word of a rule.
#[derive(Clone, Copy, Debug, PartialEq, Eq)]
pub enum Takes {
    /// A number.
    One,
    /// Two numbers.
    Two,
    /// A number, `as` and a name.
    Name,
    /// A number, `with` and a term.
    Term,
    /// A formula.
    Form,
    /// A side and a number.
    Side,
    /// A side between two numbers.
    TwoSided,
}

/// A step: the word of a rule, and what the rule takes.
pub fn step(alloc: Global, tokens: &[Token]) -> Result<(Step, &[Token]), ReadError>
    ensures { Gives (seen plain_step) result (spec.step (kinds tokens.now)) }
{
    let (row, rest) = rule_row(tokens)?;
    match taken_by(row) {
        Some(what) => behind_rule(alloc, row, what, rest),
        None => Err(ReadError::Syntax),
    }
}

/// What the rule takes, if texts have the rule.
#[tactic(auto, unfolding(crate::specs::Steps::takes))]
fn taken_by(row: u32) -> Option<Takes>
    ensures { result ≡ grammar.takes row }
{
    match row {
        rule::FALSE_L | rule::TRUE_R | rule::NOT_L | rule::NOT_R => Some(Takes::One),
        rule::AND_L | rule::OR_R | rule::AND_R | rule::OR_L => Some(Takes::One),
        rule::IMP_L | rule::IMP_R | rule::IFF_L | rule::IFF_R => Some(Takes::One),
        rule::DROP_L | rule::DROP_R | rule::REFL => Some(Takes::One),
        rule::CLOSE => Some(Takes::Two),
        rule::ALL_R | rule::EX_L => Some(Takes::Name),
        rule::ALL_L | rule::EX_R => Some(Takes::Term),
        rule::CUT => Some(Takes::Form),
        rule::SWAP => Some(Takes::Side),
        rule::SUBST => Some(Takes::TwoSided),
        _ => None,
    }
}

/// The step of the rule with what comes first.
fn behind_rule(
    alloc: Global,
    row: u32,
    what: Takes,
    tokens: &[Token],
) -> Result<(Step, &[Token]), ReadError>
    requires { row < rule_count }
    ensures { Gives (seen plain_step) result (spec.behind_rule row what (kinds tokens.now)) }
{
    match what {
        Takes::One => one_number(alloc, row, tokens),
        Takes::Two => two_numbers(alloc, row, tokens),
        Takes::Name => number_and_name(alloc, row, tokens),
        Takes::Term => number_and_term(alloc, row, tokens),
        Takes::Form => formula(alloc, row, tokens),
        Takes::Side => side_and_number(alloc, row, tokens),
        Takes::TwoSided => side_between(alloc, row, tokens),
    }
}

/// The step of the rule with the number that comes first.
fn one_number(alloc: Global, row: u32, tokens: &[Token]) -> Result<(Step, &[Token]), ReadError>
    requires { row < rule_count }
    ensures { Gives (seen plain_step) result (spec.one_number row (kinds tokens.now)) }
{
    let (place, rest) = number(tokens)?;
    let places = one(alloc, place)?;
    Ok((step_with(row, None, places, StepText::Nothing), rest))
}

/// The step of the rule with the two numbers that come first.
fn two_numbers(alloc: Global, row: u32, tokens: &[Token]) -> Result<(Step, &[Token]), ReadError>
    requires { row < rule_count }
    ensures { Gives (seen plain_step) result (spec.two_numbers row (kinds tokens.now)) }
{
    let (left, rest) = number(tokens)?;
    let (right, rest) = number(rest)?;
    let places = two(alloc, left, right)?;
    Ok((step_with(row, None, places, StepText::Nothing), rest))
}

/// The step of the rule with a number, and behind `as` a new name.
fn number_and_name(alloc: Global, row: u32, tokens: &[Token]) -> Result<(Step, &[Token]), ReadError>
    requires { row < rule_count }
    ensures { Gives (seen plain_step) result (spec.number_and_name row (kinds tokens.now)) }
{
    let (place, rest) = number(tokens)?;
    let rest = word(rest, keyword::AS)?;
    let (name, rest) = eat_name(alloc, rest)?;
    let places = one(alloc, place)?;
    Ok((step_with(row, None, places, StepText::Fresh(name)), rest))
}

/// The step of the rule with a number, and behind `with` the longest term.
fn number_and_term(alloc: Global, row: u32, tokens: &[Token]) -> Result<(Step, &[Token]), ReadError>
    requires { row < rule_count }
    ensures { Gives (seen plain_step) result (spec.number_and_term row (kinds tokens.now)) }
{
    let (place, rest) = number(tokens)?;
    let rest = word(rest, keyword::WITH)?;
    let (term, rest) = term(alloc, rest)?;
    let places = one(alloc, place)?;
    Ok((step_with(row, None, places, StepText::OfTerm(term)), rest))
}

/// The step of the rule with the longest formula.
fn formula(alloc: Global, row: u32, tokens: &[Token]) -> Result<(Step, &[Token]), ReadError>
    requires { row < rule_count }
    ensures { Gives (seen plain_step) result (spec.formula row (kinds tokens.now)) }
{
    let (form, rest) = form(alloc, tokens)?;
    let places = List::new(alloc);
    Ok((step_with(row, None, places, StepText::OfForm(form)), rest))
}

/// The step of the rule with a side and a number.
fn side_and_number(alloc: Global, row: u32, tokens: &[Token]) -> Result<(Step, &[Token]), ReadError>
    requires { row < rule_count }
    ensures { Gives (seen plain_step) result (spec.side_and_number row (kinds tokens.now)) }
{
    let (side, rest) = side(tokens)?;
    let (place, rest) = number(rest)?;
    let places = one(alloc, place)?;
    Ok((step_with(row, Some(side), places, StepText::Nothing), rest))
}

/// The step of the rule with a side between two numbers.
fn side_between(alloc: Global, row: u32, tokens: &[Token]) -> Result<(Step, &[Token]), ReadError>
    requires { row < rule_count }
    ensures { Gives (seen plain_step) result (spec.side_between row (kinds tokens.now)) }
{
    let (equation, rest) = number(tokens)?;
    let (side, rest) = side(rest)?;
    let (place, rest) = number(rest)?;
    let places = two(alloc, equation, place)?;
    Ok((step_with(row, Some(side), places, StepText::Nothing), rest))
}

/// The step of these parts.
fn step_with(rule: u32, side: Option<Side>, numbers: List<u32>, text: StepText) -> Step
    requires { rule < rule_count }
    ensures { plain_step result ≡ grammar.step_with rule side numbers (plain_text text) }
{
    Step {
        rule,
        side,
        numbers,
        text,
    }
}

/// One number as a list.
fn one(alloc: Global, number: u32) -> Result<List<u32>, ReadError>
    ensures { Gives (λ list. list) result (Some (number ∷ [])) }
{
    let mut numbers = List::new(alloc);
    numbers.push(number)?;
    Ok(numbers)
}

/// Two numbers as a list.
fn two(alloc: Global, first: u32, second: u32) -> Result<List<u32>, ReadError>
    ensures { Gives (λ list. list) result (Some (first ∷ second ∷ [])) }
{
    let mut numbers = List::new(alloc);
    numbers.push(first)?;
    numbers.push(second)?;
    Ok(numbers)
}

/// The side that comes first, and the tokens behind it.
fn side(tokens: &[Token]) -> Result<(Side, &[Token]), ReadError>
    ensures { Gives (λ found. (found.0, kinds found.1.now)) result (spec.eat_side (kinds tokens.now)) }
{
    let Some((first, rest)) = tokens.split_first() else {
        return Err(ReadError::Syntax);
    };
    let TokenKind::Ident(name) = &first.kind else {
        return Err(ReadError::Syntax);
    };
    match side_named(name.bytes()) {
        Some(side) => Ok((side, rest)),
        None => Err(ReadError::Syntax),
    }
}

/// The side that is called so.
fn side_named(name: &[u8]) -> Option<Side>
    ensures { result ≡ spec.side_named name.now }
{
    if name == b"L".as_slice() {
        Some(Side::L)
    } else if name == b"R".as_slice() {
        Some(Side::R)
    } else {
        None
    }
}

/// The row of the rule whose name comes first, and the tokens behind it.
fn rule_row(tokens: &[Token]) -> Result<(u32, &[Token]), ReadError>
    ensures reads { Gives (λ found. (found.0, kinds found.1.now)) result (spec.eat_rule (kinds tokens.now)) }
    ensures within { IfOk result (λ found. found.0 < rule_count) }
{
    let Some((first, rest)) = tokens.split_first() else {
        return Err(ReadError::Syntax);
    };
    let TokenKind::Ident(name) = &first.kind else {
        return Err(ReadError::Syntax);
    };
    match rule_of(name.bytes()) {
        Some(row) => Ok((row, rest)),
        None => Err(ReadError::Syntax),
    }
}

/// The row of the rule that the text is.
#[tactic(auto, unfolding(kv_table::specs::Rules::rule_rows))]
fn rule_of(text: &[u8]) -> Option<u32>
    ensures value { result ≡ row_of rule_rows text.now }
    ensures within { IfSome result (λ row. row < rule_count) }
{
    row_of(&rules(), text)
}
