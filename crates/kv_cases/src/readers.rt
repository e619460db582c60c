// What the readers of tokens, formulas and terms find.

use crate::errors::CaseError;
use crate::shown::{as_text, push_lines};
use kv_lex::{Token, TokenKind, tokens};
use kv_pexpr::{formula, term};
use kv_print::script_text;
use kv_punit::script;
use kv_syn::{Bytes, NoMemory, RawForm, RawTerm, Script, StepText};
use kv_table::keywords;
use std::alloc::Global;
use std::fmt::Write;

/// The tokens of a text, each with its first byte and the byte behind it.
pub fn token_lines(alloc: Global, text: &[u8]) -> Result<String, CaseError> {
    let mut out = String::new(alloc);
    match tokens(alloc, text) {
        Ok(list) => {
            for token in list.items() {
                push_token(&mut out, token, text)?;
            }
        }
        Err(error) => write!(out, "{error}")?,
    }
    Ok(out)
}

fn push_token(out: &mut String, token: &Token, text: &[u8]) -> Result<(), CaseError> {
    write!(out, "{} to {}: ", token.from, token.to)?;
    match &token.kind {
        TokenKind::Word(row) => writeln!(out, "word {row} {}", word(*row))?,
        TokenKind::Ident(name) => writeln!(out, "name {}", as_text(name.bytes()))?,
        TokenKind::Number(value) => writeln!(out, "number {value}")?,
        TokenKind::Mark(row) => writeln!(out, "mark {row} {}", spelled(text, token))?,
    }
    Ok(())
}

/// The keyword of that row.
fn word(row: u32) -> &'static str {
    if row < 49 {
        keywords().name(row as usize)
    } else {
        "none"
    }
}

/// The text that a token stands for.
fn spelled<'a>(text: &'a [u8], token: &Token) -> &'a str {
    as_text(text.get(token.from..token.to).unwrap_or(&[]))
}

/// The longest formula of the text that begins at a token, and the place behind it.
pub fn formula_line(alloc: Global, text: &[u8], at: usize) -> Result<String, CaseError> {
    match tokens(alloc, text) {
        Ok(list) => formula_at(alloc, list.items(), at),
        Err(error) => Ok(error.to_string(alloc)?),
    }
}

fn formula_at(alloc: Global, tokens: &[Token], at: usize) -> Result<String, CaseError> {
    if at > tokens.len() {
        return Err(CaseError::Unknown);
    }
    match formula(alloc, tokens, at) {
        Ok((form, place)) => placed(alloc, place, form_text(alloc, form)),
        Err(error) => Ok(error.to_string(alloc)?),
    }
}

/// The longest term of the text that begins at a token, and the place behind it.
pub fn term_line(alloc: Global, text: &[u8], at: usize) -> Result<String, CaseError> {
    match tokens(alloc, text) {
        Ok(list) => term_at(alloc, list.items(), at),
        Err(error) => Ok(error.to_string(alloc)?),
    }
}

fn term_at(alloc: Global, tokens: &[Token], at: usize) -> Result<String, CaseError> {
    if at > tokens.len() {
        return Err(CaseError::Unknown);
    }
    match term(alloc, tokens, at) {
        Ok((term, place)) => placed(alloc, place, term_text(alloc, term)),
        Err(error) => Ok(error.to_string(alloc)?),
    }
}

/// A place, and the text of what was read up to it.
fn placed(
    alloc: Global,
    place: usize,
    text: Result<String, CaseError>,
) -> Result<String, CaseError> {
    let text = text?;
    format!(in alloc; "{place}: {text}").map_err(CaseError::from)
}

/// The canonical text of a formula, which is printed as that of a step.
pub fn form_text(alloc: Global, form: RawForm) -> Result<String, CaseError> {
    step_text(alloc, b"cut true", "cut ", StepText::OfForm(form))
}

/// The canonical text of a term, which is printed as that of a step.
fn term_text(alloc: Global, term: RawTerm) -> Result<String, CaseError> {
    step_text(
        alloc,
        b"exR 1 with c",
        "exR 1 with ",
        StepText::OfTerm(term),
    )
}

/// What is printed behind these words in the step with another text.
fn step_text(alloc: Global, step: &[u8], words: &str, text: StepText) -> Result<String, CaseError> {
    match script(alloc, step) {
        Ok(script) => behind(alloc, words, script_text(alloc, &with_text(script, text))),
        Err(_) => Err(CaseError::NoMemory),
    }
}

/// The script whose first step has another text.
fn with_text(script: Script, text: StepText) -> Script {
    match script {
        Script::Hole => Script::Hole,
        Script::Node(mut step, children) => {
            step.text = text;
            Script::Node(step, children)
        }
    }
}

fn behind(alloc: Global, words: &str, text: Result<Bytes, NoMemory>) -> Result<String, CaseError> {
    let text = text?;
    let mut out = String::new(alloc);
    let line = as_text(text.bytes());
    push_lines(&mut out, line.strip_prefix(words).unwrap_or(line))?;
    Ok(out)
}
