// Items: what a unit declares.

ghost use Rattle.std.specs.Prelude.{◌≡◌, true, List, [], Some, None, IfOk, length};
ghost use Rattle.std.specs.Option.{option_map};
ghost use Rattle.kv_lex.specs.declared.token.TokenKind.{TokenKind as KindTree};
ghost use Rattle.kv_syn.specs.ProjectBridge.{plain_item};
ghost use Rattle.kv_syn.specs.Readable.{is_readable_item};
ghost use Rattle.kv_pexpr.specs.Gives.{kinds, Gives};
ghost use Rattle.kv_punit.specs.Gives.{seen};
ghost use Rattle.kv_punit.specs.Parse as spec;

use crate::tokens::mark;
use kv_lex::{Token, TokenKind, mark as row};
use kv_pexpr::{ReadError, eat_mark, eat_name};
use kv_syn::{Item, List, Name, Var};
use kv_table::keyword;
use std::alloc::Global;

/// What the first keyword of an item says that it declares.
#[derive(Clone, Copy, Debug, PartialEq, Eq)]
pub enum Declares {
    Sort,
    Function,
    Predicate,
    Procedure,
}

/// What comes first, if it is an item, and the tokens behind its keyword.
pub fn eat_declares(tokens: &[Token]) -> Option<(Declares, &[Token])>
    ensures { option_map (λ found. (found.0, kinds found.1.now)) result ≡ spec.eat_declares (kinds tokens.now) }
{
    let (first, rest) = tokens.split_first()?;
    match &first.kind {
        TokenKind::Word(keyword::SORT) => Some((Declares::Sort, rest)),
        TokenKind::Word(keyword::FUN) => Some((Declares::Function, rest)),
        TokenKind::Word(keyword::PRED) => Some((Declares::Predicate, rest)),
        TokenKind::Word(keyword::PROC) => Some((Declares::Procedure, rest)),
        _ => None,
    }
}

/// An item behind its keyword, with its semicolon.
pub fn item(
    alloc: Global,
    declares: Declares,
    tokens: &[Token],
) -> Result<(Item, &[Token]), ReadError>
    ensures reads { Gives (seen plain_item) result (spec.item declares (kinds tokens.now)) }
    ensures readable { IfOk result (λ found. is_readable_item found.0 ≡ true) }
{
    let (name, rest) = eat_name(alloc, tokens)?;
    let (item, rest) = declaration(alloc, declares, name, rest)?;
    Ok((item, mark(rest, row::SEMICOLON)?))
}

/// What stands between the name and the semicolon.
fn declaration(
    alloc: Global,
    declares: Declares,
    name: Name,
    tokens: &[Token],
) -> Result<(Item, &[Token]), ReadError>
    ensures reads { Gives (seen plain_item) result (spec.declaration declares name (kinds tokens.now)) }
    ensures readable { IfOk result (λ found. is_readable_item found.0 ≡ true) }
{
    match declares {
        Declares::Sort => Ok((Item::Sort(name), tokens)),
        Declares::Function => function(alloc, name, tokens),
        Declares::Predicate => predicate(alloc, name, tokens),
        Declares::Procedure => procedure(alloc, name, tokens),
    }
}

/// A colon, the sorts of the arguments and an arrow, if there are arguments, and the sort of the result.
fn function(alloc: Global, name: Name, tokens: &[Token]) -> Result<(Item, &[Token]), ReadError>
    ensures reads { Gives (seen plain_item) result (spec.function name (kinds tokens.now)) }
    ensures readable { IfOk result (λ found. is_readable_item found.0 ≡ true) }
{
    let tokens = mark(tokens, row::COLON)?;
    let (args, rest) = arguments(alloc, tokens)?;
    let (result, rest) = eat_name(alloc, rest)?;
    Ok((Item::Fun { name, args, result }, rest))
}

/// The sorts of a function's arguments, and the tokens behind their arrow; none and the same tokens without one.
fn arguments(alloc: Global, tokens: &[Token]) -> Result<(List<Name>, &[Token]), ReadError>
    ensures { Gives (λ found. (found.0, kinds found.1.now)) result (spec.arguments (kinds tokens.now)) }
{
    let (args, rest) = names(alloc, tokens)?;
    match eat_mark(rest, row::ARROW) {
        Some(rest) => Ok((args, rest)),
        None => Ok((List::new(alloc), tokens)),
    }
}

/// A colon and the sorts of the arguments, if there are any.
fn predicate(alloc: Global, name: Name, tokens: &[Token]) -> Result<(Item, &[Token]), ReadError>
    ensures reads { Gives (seen plain_item) result (spec.predicate name (kinds tokens.now)) }
    ensures readable { IfOk result (λ found. is_readable_item found.0 ≡ true) }
{
    match eat_mark(tokens, row::COLON) {
        Some(rest) => {
            let (args, rest) = names(alloc, rest)?;
            Ok((Item::Pred { name, args }, rest))
        }
        None => {
            let args = List::new(alloc);
            Ok((Item::Pred { name, args }, tokens))
        }
    }
}

/// In brackets: the values, a semicolon and the references.
fn procedure(alloc: Global, name: Name, tokens: &[Token]) -> Result<(Item, &[Token]), ReadError>
    ensures reads { Gives (seen plain_item) result (spec.procedure name (kinds tokens.now)) }
    ensures readable { IfOk result (λ found. is_readable_item found.0 ≡ true) }
{
    let rest = mark(tokens, row::OPEN)?;
    let (values, rest) = parameters(alloc, rest)?;
    let rest = mark(rest, row::SEMICOLON)?;
    let (refs, rest) = parameters(alloc, rest)?;
    let rest = mark(rest, row::CLOSE)?;
    let body = None;
    Ok((
        Item::Proc {
            name,
            values,
            refs,
            body,
        },
        rest,
    ))
}

/// Names with commas between, one at least.
fn names(alloc: Global, tokens: &[Token]) -> Result<(List<Name>, &[Token]), ReadError>
    ensures { Gives (λ found. (found.0, kinds found.1.now)) result (spec.names (kinds tokens.now)) }
{
    let mut names = List::new(alloc);
    let mut rest = tokens;
    for _turn in 0..tokens.len() {
        let (name, after) = eat_name(alloc, rest)?;
        names.push(name)?;
        match eat_mark(after, row::COMMA) {
            Some(after) => rest = after,
            None => return Ok((names, after)),
        }
    }
    Err(ReadError::Syntax)
}

/// Parameters with commas between, or none where no name comes.
fn parameters(alloc: Global, tokens: &[Token]) -> Result<(List<Var>, &[Token]), ReadError>
    ensures { Gives (λ found. (found.0, kinds found.1.now)) result (spec.parameters (kinds tokens.now)) }
{
    if !is_name(tokens) {
        return Ok((List::new(alloc), tokens));
    }
    some_parameters(alloc, tokens)
}

/// Parameters with commas between, one at least.
fn some_parameters(alloc: Global, tokens: &[Token]) -> Result<(List<Var>, &[Token]), ReadError>
    ensures { Gives (λ found. (found.0, kinds found.1.now)) result (spec.listed spec.parameter (length tokens.now) [] (kinds tokens.now)) }
{
    let mut parameters = List::new(alloc);
    let mut rest = tokens;
    for _turn in 0..tokens.len() {
        let (parameter, after) = parameter(alloc, rest)?;
        parameters.push(parameter)?;
        match eat_mark(after, row::COMMA) {
            Some(after) => rest = after,
            None => return Ok((parameters, after)),
        }
    }
    Err(ReadError::Syntax)
}

/// A name, a colon and a sort.
fn parameter(alloc: Global, tokens: &[Token]) -> Result<(Var, &[Token]), ReadError>
    ensures { Gives (λ found. (found.0, kinds found.1.now)) result (spec.parameter (kinds tokens.now)) }
{
    let (name, rest) = eat_name(alloc, tokens)?;
    let rest = mark(rest, row::COLON)?;
    let (sort, rest) = eat_name(alloc, rest)?;
    Ok((Var { name, sort }, rest))
}

/// Whether a name comes first.
fn is_name(tokens: &[Token]) -> bool
    ensures { result ≡ spec.begins_with_name (kinds tokens.now) }
{
    match tokens.first() {
        Some(first) => matches!(first.kind, TokenKind::Ident(_)),
        None => false,
    }
}
