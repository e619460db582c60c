// How answers are shown.

use crate::errors::CaseError;
use kv_syn::{Bytes, NoMemory};
use std::alloc::Global;
use std::fmt::Write;

/// How long a line is shown whole.
const LINE: usize = 300;

/// How much of a longer line is shown.
const FRONT: usize = 60;

/// How many lines are shown.
const LINES: usize = 40;

/// The bytes as text.
pub fn as_text(bytes: &[u8]) -> &str {
    str::from_utf8(bytes).unwrap_or("no text")
}

/// The text that was printed.
pub fn printed(alloc: Global, text: Result<Bytes, NoMemory>) -> Result<String, CaseError> {
    let text = text?;
    let mut out = String::new(alloc);
    push_lines(&mut out, as_text(text.bytes()))?;
    Ok(out)
}

/// Adds the lines of a text; of a long line, and of many lines, the front and how long they are.
pub fn push_lines(out: &mut String, text: &str) -> Result<(), CaseError> {
    for line in text.lines().take(LINES) {
        push_line(out, line)?;
    }
    if text.lines().count() > LINES {
        writeln!(out, ".. {} lines", text.lines().count())?;
    }
    Ok(())
}

fn push_line(out: &mut String, line: &str) -> Result<(), CaseError> {
    if line.len() <= LINE {
        out.push_str(line)?;
    } else {
        push_front(out, line.as_bytes())?;
    }
    out.push_str("\n")?;
    Ok(())
}

/// Adds the front of long bytes, and how long they are.
fn push_front(out: &mut String, bytes: &[u8]) -> Result<(), CaseError> {
    out.push_str(as_text(&bytes[..FRONT.min(bytes.len())]))?;
    write!(out, " .. {} bytes", bytes.len())?;
    Ok(())
}

/// Adds the bytes in quotes, with line feeds and what isn't ASCII after a backslash; of many, how long they are.
pub fn push_quoted(out: &mut String, bytes: &[u8]) -> Result<(), CaseError> {
    if bytes.len() > LINE {
        write!(out, "{} bytes", bytes.len())?;
        return Ok(());
    }
    out.push_str("\"")?;
    for byte in bytes {
        match byte {
            b'\n' => out.push_str("\\n")?,
            b'\r' => out.push_str("\\r")?,
            b'\t' => out.push_str("\\t")?,
            b' '..=b'~' => out.push(char::from(*byte))?,
            _ => write!(out, "\\x{byte:02x}")?,
        }
    }
    out.push_str("\"")?;
    Ok(())
}

/// The answers with their numbers, those that follow one another and are equal on one line.
pub fn grouped(alloc: Global, answers: &[String]) -> Result<String, CaseError> {
    let mut out = String::new(alloc);
    let mut from = 0;
    for (i, answer) in answers.iter().enumerate() {
        let goes_on = answers
            .get(i + 1)
            .is_some_and(|next| next.as_str() == answer.as_str());
        if !goes_on {
            push_group(&mut out, from, i, answer)?;
            from = i + 1;
        }
    }
    Ok(out)
}

fn push_group(out: &mut String, from: usize, to: usize, answer: &str) -> Result<(), CaseError> {
    if from == to {
        writeln!(out, "{from}: {answer}")?;
    } else {
        writeln!(out, "{from} to {to}: {answer}")?;
    }
    Ok(())
}
