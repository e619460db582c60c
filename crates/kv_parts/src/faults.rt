// Why a line has no answer.

use kv_elab::TypeError;
use kv_lex::LexError;
use kv_pexpr::ReadError;
use kv_punit::TextError;
use kv_sig::StepError;
use kv_syn::{Bytes, NoMemory, SubstError};
use std::alloc::{AllocError, Global};
use thiserror::Error;

/// Why a line has no answer.
#[derive(Debug, Drop, Error)]
pub enum Fault {
    /// A text of the line isn't in the grammar, or is too deep for the call.
    #[error("not read")]
    Unread,
    #[error("typing")]
    Typing(#[from] TypeError),
    #[error("opening")]
    Opening(#[from] SubstError),
    #[error("step")]
    Step(#[from] StepError),
    #[error("no memory")]
    NoMemory,
}

impl From<NoMemory> for Fault {
    fn from(_error: NoMemory) -> Fault {
        Fault::NoMemory
    }
}

impl From<AllocError> for Fault {
    fn from(_error: AllocError) -> Fault {
        Fault::NoMemory
    }
}

impl From<LexError> for Fault {
    fn from(error: LexError) -> Fault {
        match error {
            LexError::Token { .. } => Fault::Unread,
            LexError::NoMemory => Fault::NoMemory,
        }
    }
}

impl From<ReadError> for Fault {
    fn from(error: ReadError) -> Fault {
        match error {
            ReadError::Syntax => Fault::Unread,
            ReadError::NoMemory => Fault::NoMemory,
        }
    }
}

impl From<TextError> for Fault {
    fn from(error: TextError) -> Fault {
        match error {
            TextError::NoMemory => Fault::NoMemory,
            _ => Fault::Unread,
        }
    }
}

/// The text of a fault: its word, and the names that it speaks of.
pub fn fault_text(alloc: Global, fault: &Fault) -> Result<Bytes, NoMemory> {
    match fault {
        Fault::Unread => words(alloc, "not read", &[]),
        Fault::Typing(fault) => typing_text(alloc, fault),
        Fault::Opening(SubstError::Captured) => words(alloc, "captured", &[]),
        Fault::Step(fault) => step_text(alloc, fault),
        Fault::Opening(SubstError::NoMemory) | Fault::NoMemory => words(alloc, "no memory", &[]),
    }
}

fn typing_text(alloc: Global, fault: &TypeError) -> Result<Bytes, NoMemory> {
    match fault {
        TypeError::Unknown { name } => words(alloc, "unknown", &[name.bytes()]),
        TypeError::Arity { name } => words(alloc, "arity", &[name.bytes()]),
        TypeError::Sort { want, got } => words(alloc, "sort", &[want.bytes(), got.bytes()]),
        TypeError::Duplicate { name } => words(alloc, "duplicate", &[name.bytes()]),
        TypeError::Program => words(alloc, "program", &[]),
        TypeError::NoMemory => words(alloc, "no memory", &[]),
    }
}

fn step_text(alloc: Global, fault: &StepError) -> Result<Bytes, NoMemory> {
    match fault {
        StepError::Position => words(alloc, "position", &[]),
        StepError::Shape => words(alloc, "shape", &[]),
        StepError::Sort { want, got } => words(alloc, "sort", &[want.bytes(), got.bytes()]),
        StepError::NoLabel { label } => words(alloc, "label", &[label.bytes()]),
        StepError::NoBody { name } => words(alloc, "body", &[name.bytes()]),
        StepError::NoGeneration { sort } => words(alloc, "generation", &[sort.bytes()]),
        StepError::NotFresh { name } => words(alloc, "fresh", &[name.bytes()]),
        StepError::Captured => words(alloc, "captured", &[]),
        StepError::Large => words(alloc, "large", &[]),
        StepError::NoMemory => words(alloc, "no memory", &[]),
    }
}

/// The word, and the names behind it.
fn words(alloc: Global, word: &str, names: &[&[u8]]) -> Result<Bytes, NoMemory> {
    let mut text = Bytes::from_bytes(alloc, word.as_bytes())?;
    for name in names {
        text.append(b" ")?;
        text.append(name)?;
    }
    Ok(text)
}
