// Cases, and the bytes that their lines spell.

ghost use Rattle.std.specs.Prelude.{◌<◌};

use crate::errors::CaseError;
use std::alloc::{AllocError, Global};

/// What stands before each line of the block below a case.
pub const INDENT: &str = "  ";

/// A case: the word at the start of its line, what stands behind it, and the indented lines below.
#[derive(Clone, Copy)]
pub struct Case<'a> {
    pub word: &'a str,
    pub rest: &'a str,
    pub block: &'a [&'a str],
}

impl<'a> Case<'a> {
    /// The case of a line and of what stands below it.
    pub fn new(line: &'a str, block: &'a [&'a str]) -> Case<'a> {
        let (word, rest) = line.split_once(' ').unwrap_or((line, ""));
        Case { word, rest, block }
    }

    /// The bytes that are spelled behind the word, or else by the block.
    pub fn text(&self, alloc: Global) -> Result<Vec<u8>, CaseError> {
        let mut text = Vec::new(alloc);
        push_line(&mut text, self.rest)?;
        for line in self.block {
            push_block_line(alloc, &mut text, line.strip_prefix(INDENT).unwrap_or(line))?;
        }
        Ok(text)
    }
}

/// The numbers among the words.
pub fn numbers(alloc: Global, words: &str) -> Result<Vec<u64>, CaseError> {
    let mut numbers = Vec::new(alloc);
    for word in words.split(' ') {
        if let Ok(number) = word.parse::<u64>() {
            numbers.push(number)?;
        }
    }
    Ok(numbers)
}

/// Adds a line of a block with its line feed, unless it ends in a backslash. `repeat COUNT TEXT` adds the text so often,
/// with the copy's number for each `@`, and `nest COUNT SEED TEXT` adds the seed, put so often for each `@` of the text;
/// neither adds a line feed.
fn push_block_line(alloc: Global, text: &mut Vec<u8>, line: &str) -> Result<(), CaseError> {
    if let Some(rest) = line.strip_prefix("repeat ") {
        let (count, part) = counted(rest)?;
        return push_repeated(alloc, text, count, &spelled(alloc, part)?);
    }
    if let Some(rest) = line.strip_prefix("nest ") {
        let (count, rest) = counted(rest)?;
        let (seed, part) = rest.split_once(' ').ok_or(CaseError::Unknown)?;
        let seed = spelled(alloc, seed)?;
        return push_nested(alloc, text, count, seed, &spelled(alloc, part)?);
    }
    push_line(text, line)?;
    if !line.ends_with('\\') {
        text.push(b'\n')?;
    }
    Ok(())
}

/// The number that comes first, and what stands behind it.
fn counted(rest: &str) -> Result<(usize, &str), CaseError> {
    let (count, part) = rest.split_once(' ').ok_or(CaseError::Unknown)?;
    let count = count.parse::<usize>().map_err(|_| CaseError::Unknown)?;
    Ok((count, part))
}

fn spelled(alloc: Global, line: &str) -> Result<Vec<u8>, CaseError> {
    let mut text = Vec::new(alloc);
    push_line(&mut text, line)?;
    Ok(text)
}

fn push_repeated(
    alloc: Global,
    text: &mut Vec<u8>,
    count: usize,
    part: &[u8],
) -> Result<(), CaseError> {
    if part.contains(&b'@') {
        return push_numbered(alloc, text, count, part);
    }
    for _ in 0..count {
        text.extend_from_slice(part)?;
    }
    Ok(())
}

fn push_numbered(
    alloc: Global,
    text: &mut Vec<u8>,
    count: usize,
    part: &[u8],
) -> Result<(), CaseError> {
    for copy in 0..count {
        push_filled(text, part, copy.to_string(alloc)?.as_bytes())?;
    }
    Ok(())
}

fn push_nested(
    alloc: Global,
    text: &mut Vec<u8>,
    count: usize,
    seed: Vec<u8>,
    part: &[u8],
) -> Result<(), CaseError> {
    let mut nested = seed;
    for _ in 0..count {
        let mut outer = Vec::new(alloc);
        push_filled(&mut outer, part, &nested)?;
        nested = outer;
    }
    text.extend_from_slice(&nested)?;
    Ok(())
}

/// Adds the bytes of the part, with the filling for each `@`.
fn push_filled(text: &mut Vec<u8>, part: &[u8], filling: &[u8]) -> Result<(), CaseError> {
    for byte in part {
        if *byte == b'@' {
            text.extend_from_slice(filling)?;
        } else {
            text.push(*byte)?;
        }
    }
    Ok(())
}

/// Adds the bytes of a line. A backslash stands before `n`, `r`, `t` and `s` for a line feed, a carriage return, a tab and
/// a space, and before `xHH` for that byte.
fn push_line(text: &mut Vec<u8>, line: &str) -> Result<(), AllocError> {
    let mut parts = line.split('\\');
    if let Some(first) = parts.next() {
        text.extend_from_slice(first.as_bytes())?;
    }
    for part in parts {
        push_escaped(text, part.as_bytes())?;
    }
    Ok(())
}

/// Adds what stands behind a backslash.
fn push_escaped(text: &mut Vec<u8>, part: &[u8]) -> Result<(), AllocError> {
    match part {
        [b'n', rest @ ..] => push_both(text, b'\n', rest),
        [b'r', rest @ ..] => push_both(text, b'\r', rest),
        [b't', rest @ ..] => push_both(text, b'\t', rest),
        [b's', rest @ ..] => push_both(text, b' ', rest),
        [b'x', high, low, rest @ ..] => push_both(text, 16 * digit(*high) + digit(*low), rest),
        rest => text.extend_from_slice(rest),
    }
}

fn push_both(text: &mut Vec<u8>, byte: u8, rest: &[u8]) -> Result<(), AllocError> {
    text.push(byte)?;
    text.extend_from_slice(rest)
}

/// The value of a hexadecimal digit.
fn digit(byte: u8) -> u8
    ensures { result < 16 }
{
    match byte {
        b'0'..=b'9' => byte - b'0',
        b'a'..=b'f' => byte - b'a' + 10,
        _ => 0,
    }
}
