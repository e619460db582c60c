// Sources, sinks and stores in memory, and the commands that a source gives.

ghost use Rattle.std.specs.Prelude.{◌≡◌, ◌≢◌, ◌≤◌, None};

use crate::errors::CaseError;
use crate::setup::{Setup, at_least_one, capacity_of};
use crate::shown::{grouped, push_quoted};
use kv_io::{
    Failed, Lines, LoadError, MemSink, MemSource, MemStore, Next, Sink, Source, Store, next_command,
};
use kv_syn::Bytes;
use std::alloc::Global;
use std::fmt::Write;

/// How many reads of a source are shown.
const READS: usize = 12;

/// How many bytes a read of a source has room for.
const READ_ROOM: usize = 4;

/// What the first reads of a source give.
pub fn source_lines(alloc: Global, setup: &Setup, text: &[u8]) -> Result<String, CaseError> {
    let mut source = MemSource::make(alloc, text, &setup.fails.reads, setup.first_most())?;
    let mut answers = Vec::new(alloc);
    for _ in 0..READS {
        let mut buffer = [0; READ_ROOM];
        let mut out = String::new(alloc);
        match source.read(&mut buffer) {
            Ok(count) => push_quoted(&mut out, &buffer[..count])?,
            Err(Failed) => out.push_str("failed")?,
        }
        answers.push(out)?;
    }
    grouped(alloc, &answers)
}

/// What a sink answers to the lines, each a piece, and what it took.
pub fn sink_lines(alloc: Global, setup: &Setup, text: &[u8]) -> Result<String, CaseError> {
    let mut sink = MemSink::make(alloc, &setup.fails.writes, setup.first_most(), setup.room)?;
    let mut out = String::new(alloc);
    for piece in text.split(|byte| *byte == b'\n') {
        match sink.write(piece) {
            Ok(count) => writeln!(out, "took {count}")?,
            Err(Failed) => writeln!(out, "failed")?,
        }
    }
    push_quoted(&mut out, sink.content())?;
    Ok(out)
}

/// What a store of the file answers to the lines, each `load` or `save TEXT`.
pub fn store_lines(alloc: Global, setup: &Setup, text: &[u8]) -> Result<String, CaseError> {
    let file = setup.file.as_deref();
    let capacity = capacity_of(file, setup.room);
    let mut store = MemStore::make(alloc, file, &setup.fails.stores, capacity)?;
    store.choose("a.kiv")?;
    let mut out = String::new(alloc);
    for line in text.split(|byte| *byte == b'\n') {
        match line.strip_prefix(b"save ") {
            Some(bytes) => push_saved(&mut out, &mut store, bytes)?,
            None => push_loaded(&mut out, store.load(alloc))?,
        }
    }
    Ok(out)
}

fn push_saved(out: &mut String, store: &mut MemStore, bytes: &[u8]) -> Result<(), CaseError>
    requires { store.old.chosen ≢ None }
    ensures { store.new.chosen ≡ store.old.chosen }
{
    match store.save(bytes) {
        Ok(()) => out.push_str("saved, and holds ")?,
        Err(Failed) => out.push_str("failed, and holds ")?,
    }
    match store.content() {
        Some(bytes) => push_quoted(out, bytes)?,
        None => out.push_str("what isn't told")?,
    }
    out.push_str("\n")?;
    Ok(())
}

fn push_loaded(
    out: &mut String,
    loaded: Result<Option<Bytes>, LoadError>,
) -> Result<(), CaseError> {
    match loaded {
        Ok(Some(bytes)) => push_quoted(out, bytes.bytes())?,
        Ok(None) => out.push_str("no file")?,
        Err(LoadError::Failed) => out.push_str("failed")?,
        Err(LoadError::TooLong) => out.push_str("too long")?,
        Err(LoadError::NoMemory) => out.push_str("no memory")?,
    }
    out.push_str("\n")?;
    Ok(())
}

/// The commands of a source of the text, and its end twice, for each of the setup's numbers of bytes a read.
pub fn command_lines(alloc: Global, setup: &Setup, text: &[u8]) -> Result<String, CaseError> {
    let mut out = commands_by(alloc, setup, text, setup.first_most())?;
    for most in setup.most.iter().skip(1) {
        let next = commands_by(alloc, setup, text, at_least_one(*most))?;
        if next.as_str() != out.as_str() {
            writeln!(out, "at most {most} bytes a read:")?;
            out.push_str(&next)?;
        }
    }
    Ok(out)
}

fn commands_by(alloc: Global, setup: &Setup, text: &[u8], most: usize) -> Result<String, CaseError>
    requires { 1 ≤ most }
{
    let mut source = MemSource::make(alloc, text, &setup.fails.reads, most)?;
    let mut lines = Lines::new(alloc);
    let mut answers = Vec::new(alloc);
    let mut has_ended = false;
    for _ in 0..u64::MAX {
        let next = next_command(&mut source, &mut lines);
        let is_end = !matches!(next, Next::Command(_));
        answers.push(next_text(alloc, &next)?)?;
        if is_end && has_ended {
            break;
        }
        has_ended = has_ended || is_end;
    }
    grouped(alloc, &answers)
}

fn next_text(alloc: Global, next: &Next) -> Result<String, CaseError> {
    let mut out = String::new(alloc);
    match next {
        Next::Command(command) => push_quoted(&mut out, command.bytes())?,
        Next::End => out.push_str("end")?,
        Next::Cut => out.push_str("cut")?,
        Next::TooLong => out.push_str("too long")?,
        Next::ReadFault => out.push_str("read fault")?,
        Next::NoMemory => out.push_str("no memory")?,
    }
    Ok(out)
}
