// Formulas with boxes and diamonds, and programs, which the texts of projects don't have yet. Operands stand in brackets,
// as they are printed; what has no program in it is read as in a project.

use crate::faults::Fault;
use kv_lex::{Token, TokenKind, mark};
use kv_pexpr::{eat_mark, eat_name, eat_word};
use kv_syn::{List, Name, RawForm, RawProg, RawTerm, Shared, Var};
use kv_table::keyword;
use std::alloc::Global;

/// What stands between two formulas.
#[derive(Clone, Copy)]
enum Operator {
    And,
    Or,
    Imp,
    Iff,
}

/// What was read, and the tokens behind it.
type Front<'a, T> = Result<(Shared<T>, &'a [Token]), Fault>;

/// The formula that the tokens begin with. So many rules may stand in one another.
#[cycle(form)]
pub fn form(alloc: Global, tokens: &[Token], fuel: u32) -> Front<'_, RawForm> {
    let fuel = fuel.checked_sub(1).ok_or(Fault::Unread)?;
    let (left, rest) = una(alloc, tokens, fuel)?;
    let Some((operator, behind)) = eat_operator(rest) else {
        return Ok((left, rest));
    };
    let (right, rest) = una(alloc, behind, fuel)?;
    Ok((joined(alloc, operator, left, right)?, rest))
}

#[cycle(form)]
fn una(alloc: Global, tokens: &[Token], fuel: u32) -> Front<'_, RawForm> {
    let fuel = fuel.checked_sub(1).ok_or(Fault::Unread)?;
    let (first, rest) = tokens.split_first().ok_or(Fault::Unread)?;
    match &first.kind {
        TokenKind::Word(keyword::NOT) => {
            let (body, rest) = una(alloc, rest, fuel)?;
            Ok((Shared::new(alloc, RawForm::Not(body))?, rest))
        }
        TokenKind::Word(keyword::ALL) => {
            let (var, rest) = binder(alloc, rest)?;
            let (body, rest) = una(alloc, past(rest, mark::DOT)?, fuel)?;
            Ok((Shared::new(alloc, RawForm::All(var, body))?, rest))
        }
        TokenKind::Word(keyword::EX) => {
            let (var, rest) = binder(alloc, rest)?;
            let (body, rest) = una(alloc, past(rest, mark::DOT)?, fuel)?;
            Ok((Shared::new(alloc, RawForm::Ex(var, body))?, rest))
        }
        TokenKind::Mark(mark::OPEN_SQUARE) => {
            let (prog, rest) = prog(alloc, rest, fuel)?;
            let (body, rest) = una(alloc, past(rest, mark::CLOSE_SQUARE)?, fuel)?;
            Ok((Shared::new(alloc, RawForm::After(prog, body))?, rest))
        }
        TokenKind::Mark(mark::LESS) => {
            let (prog, rest) = prog(alloc, rest, fuel)?;
            let (body, rest) = una(alloc, past(rest, mark::GREATER)?, fuel)?;
            Ok((Shared::new(alloc, RawForm::Can(prog, body))?, rest))
        }
        TokenKind::Mark(mark::OPEN) => {
            let (form, rest) = form(alloc, rest, fuel)?;
            Ok((form, past(rest, mark::CLOSE)?))
        }
        _ => leaf(alloc, tokens),
    }
}

/// The program that the tokens begin with.
#[cycle(form)]
pub fn prog(alloc: Global, tokens: &[Token], fuel: u32) -> Front<'_, RawProg> {
    let fuel = fuel.checked_sub(1).ok_or(Fault::Unread)?;
    let (first, rest) = statement(alloc, tokens, fuel)?;
    let Some(behind) = eat_mark(rest, mark::SEMICOLON) else {
        return Ok((first, rest));
    };
    let (second, rest) = prog(alloc, behind, fuel)?;
    Ok((Shared::new(alloc, RawProg::Seq(first, second))?, rest))
}

#[cycle(form)]
fn statement(alloc: Global, tokens: &[Token], fuel: u32) -> Front<'_, RawProg> {
    let fuel = fuel.checked_sub(1).ok_or(Fault::Unread)?;
    let (first, rest) = tokens.split_first().ok_or(Fault::Unread)?;
    match &first.kind {
        TokenKind::Word(keyword::SKIP) => Ok((Shared::new(alloc, RawProg::Skip)?, rest)),
        TokenKind::Word(keyword::ABORT) => Ok((Shared::new(alloc, RawProg::Abort)?, rest)),
        TokenKind::Word(keyword::IF) => {
            let (test, rest) = form(alloc, rest, fuel)?;
            let (then, rest) = block(alloc, past_word(rest, keyword::THEN)?, fuel)?;
            let (other, rest) = block(alloc, past_word(rest, keyword::ELSE)?, fuel)?;
            Ok((Shared::new(alloc, RawProg::If(test, then, other))?, rest))
        }
        TokenKind::Word(keyword::WHILE) => {
            let (test, rest) = form(alloc, rest, fuel)?;
            let (body, rest) = block(alloc, past_word(rest, keyword::DO)?, fuel)?;
            Ok((Shared::new(alloc, RawProg::While(test, body))?, rest))
        }
        TokenKind::Word(keyword::VAR) => {
            let (var, rest) = binder(alloc, rest)?;
            let (value, rest) = term(alloc, past(rest, mark::ASSIGN)?)?;
            let (body, rest) = block(alloc, past_word(rest, keyword::IN)?, fuel)?;
            Ok((Shared::new(alloc, RawProg::Local(var, value, body))?, rest))
        }
        TokenKind::Mark(mark::OPEN_BRACE) => {
            let (one, rest) = block(alloc, tokens, fuel)?;
            let Some(behind) = eat_word(rest, keyword::OR) else {
                return Ok((one, rest));
            };
            let (two, rest) = block(alloc, behind, fuel)?;
            Ok((Shared::new(alloc, RawProg::Choice(one, two))?, rest))
        }
        _ => simple(alloc, tokens),
    }
}

/// A program in braces.
#[cycle(form)]
fn block(alloc: Global, tokens: &[Token], fuel: u32) -> Front<'_, RawProg> {
    let fuel = fuel.checked_sub(1).ok_or(Fault::Unread)?;
    let (prog, rest) = prog(alloc, past(tokens, mark::OPEN_BRACE)?, fuel)?;
    Ok((prog, past(rest, mark::CLOSE_BRACE)?))
}

/// An assignment or a call.
fn simple(alloc: Global, tokens: &[Token]) -> Front<'_, RawProg> {
    let (name, rest) = eat_name(alloc, tokens)?;
    if let Some(rest) = eat_mark(rest, mark::ASSIGN) {
        let (value, rest) = term(alloc, rest)?;
        return Ok((Shared::new(alloc, RawProg::Assign(name, value))?, rest));
    }
    let (values, rest) = terms(alloc, past(rest, mark::OPEN)?)?;
    let (refs, rest) = names(alloc, past(rest, mark::SEMICOLON)?)?;
    let rest = past(rest, mark::CLOSE)?;
    let values = Shared::new(alloc, values)?;
    let refs = Shared::new(alloc, refs)?;
    Ok((Shared::new(alloc, RawProg::Call(name, values, refs))?, rest))
}

/// Terms with commas between, up to a semicolon.
fn terms(alloc: Global, tokens: &[Token]) -> Result<(List<RawTerm>, &[Token]), Fault> {
    let mut terms = List::new(alloc);
    let mut rest = tokens;
    for _turn in 0..tokens.len() {
        if eat_mark(rest, mark::SEMICOLON).is_some() {
            return Ok((terms, rest));
        }
        let (value, behind) = term(alloc, rest)?;
        terms.push(value)?;
        rest = eat_mark(behind, mark::COMMA).unwrap_or(behind);
    }
    Err(Fault::Unread)
}

/// Names with commas between, up to a closing bracket.
fn names(alloc: Global, tokens: &[Token]) -> Result<(List<Name>, &[Token]), Fault> {
    let mut names = List::new(alloc);
    let mut rest = tokens;
    for _turn in 0..tokens.len() {
        if eat_mark(rest, mark::CLOSE).is_some() {
            return Ok((names, rest));
        }
        let (name, behind) = eat_name(alloc, rest)?;
        names.push(name)?;
        rest = eat_mark(behind, mark::COMMA).unwrap_or(behind);
    }
    Err(Fault::Unread)
}

/// A variable with its sort.
fn binder(alloc: Global, tokens: &[Token]) -> Result<(Var, &[Token]), Fault> {
    let (name, rest) = eat_name(alloc, tokens)?;
    let (sort, rest) = eat_name(alloc, past(rest, mark::COLON)?)?;
    Ok((Var { name, sort }, rest))
}

fn term(alloc: Global, tokens: &[Token]) -> Result<(RawTerm, &[Token]), Fault> {
    let (term, place) = kv_pexpr::term(alloc, tokens, 0)?;
    Ok((term, &tokens[place..]))
}

/// A word, an atom or an equation.
fn leaf(alloc: Global, tokens: &[Token]) -> Front<'_, RawForm> {
    let end = leaf_end(alloc, tokens)?;
    let front = tokens.get(..end).ok_or(Fault::Unread)?;
    let rest = tokens.get(end..).ok_or(Fault::Unread)?;
    let (form, _) = kv_pexpr::formula(alloc, front, 0)?;
    Ok((Shared::new(alloc, form)?, rest))
}

/// How many tokens the word, the atom or the equation has.
fn leaf_end(alloc: Global, tokens: &[Token]) -> Result<usize, Fault> {
    if eat_word(tokens, keyword::TRUE).is_some() || eat_word(tokens, keyword::FALSE).is_some() {
        return Ok(1);
    }
    let (_, rest) = term(alloc, tokens)?;
    let rest = match eat_mark(rest, mark::EQUAL) {
        Some(behind) => term(alloc, behind)?.1,
        None => rest,
    };
    Ok(tokens.len().saturating_sub(rest.len()))
}

fn joined(
    alloc: Global,
    operator: Operator,
    left: Shared<RawForm>,
    right: Shared<RawForm>,
) -> Result<Shared<RawForm>, Fault> {
    let form = match operator {
        Operator::And => RawForm::And(left, right),
        Operator::Or => RawForm::Or(left, right),
        Operator::Imp => RawForm::Imp(left, right),
        Operator::Iff => RawForm::Iff(left, right),
    };
    Ok(Shared::new(alloc, form)?)
}

fn eat_operator(tokens: &[Token]) -> Option<(Operator, &[Token])> {
    let (first, rest) = tokens.split_first()?;
    match &first.kind {
        TokenKind::Word(keyword::AND) => Some((Operator::And, rest)),
        TokenKind::Word(keyword::OR) => Some((Operator::Or, rest)),
        TokenKind::Mark(mark::ARROW) => Some((Operator::Imp, rest)),
        TokenKind::Mark(mark::DOUBLE_ARROW) => Some((Operator::Iff, rest)),
        _ => None,
    }
}

fn past(tokens: &[Token], row: u32) -> Result<&[Token], Fault> {
    eat_mark(tokens, row).ok_or(Fault::Unread)
}

fn past_word(tokens: &[Token], row: u32) -> Result<&[Token], Fault> {
    eat_word(tokens, row).ok_or(Fault::Unread)
}
