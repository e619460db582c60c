// Whole runs over an outside in memory.

ghost use Rattle.std.specs.Prelude.{◌≡◌, ◌<◌, ◌≤◌, None};

use crate::errors::CaseError;
use crate::setup::{Fails, Setup, at_least_one, capacity_of};
use crate::shown::{as_text, grouped, push_lines, push_quoted};
use kv_io::{MemSink, MemSource, MemStore};
use kv_syn::Steps;
use kv_top::{Status, code, message, run};
use std::alloc::Global;
use std::fmt::Write;
use std::marker::Brand;
use std::sync::ledger::{Blank, Ledger};

/// What a run leaves behind: its status, its output, and the file where it is there and told.
#[derive(Drop)]
struct Ran {
    status: Status,
    output: Vec<u8>,
    held: Option<Vec<u8>>,
}

/// An outside that a run begins with.
#[derive(Clone, Copy)]
struct Outside<'a> {
    file: Option<&'a [u8]>,
    input: &'a [u8],
    fails: &'a Fails,
    most: usize,
    room: usize,
}

/// A run with the words over each of the setup's outsides, and whether all of them give the same.
pub fn run_lines(alloc: Global, setup: &Setup, words: &str) -> Result<String, CaseError> {
    let mut out = String::new(alloc);
    let words = words_of(alloc, words)?;
    let first = run_over(alloc, &words, outside_of(setup, setup.first_most()))?;
    push_ran(&mut out, setup, &first)?;
    for most in setup.most.iter().skip(1) {
        let next = run_over(alloc, &words, outside_of(setup, at_least_one(*most)))?;
        if is_same(&next, &first) {
            writeln!(out, "the same at most {most} bytes a call")?;
        } else {
            writeln!(out, "at most {most} bytes a call:")?;
            push_ran(&mut out, setup, &next)?;
        }
    }
    Ok(out)
}

/// `KIND COUNT WORDS`: runs in which one call of that kind fails, each of so many, or over each front of the file.
pub fn each_lines(alloc: Global, setup: &Setup, rest: &str) -> Result<String, CaseError> {
    let (kind, rest) = rest.split_once(' ').ok_or(CaseError::Unknown)?;
    let (count, words) = rest.split_once(' ').ok_or(CaseError::Unknown)?;
    let count = count.parse::<u32>().map_err(|_| CaseError::Unknown)?;
    let words = words_of(alloc, words)?;
    let mut answers = Vec::new(alloc);
    for call in 0..count {
        answers.push(each_line(alloc, setup, kind, call, &words)?)?;
    }
    grouped(alloc, &answers)
}

fn each_line(
    alloc: Global,
    setup: &Setup,
    kind: &str,
    call: u32,
    words: &[String],
) -> Result<String, CaseError> {
    let mut fails = Fails::none(alloc);
    let mut file = setup.file.as_deref();
    if kind == "front" {
        file = file.and_then(|bytes| bytes.get(..call as usize));
    } else {
        fails.set(kind, vec![in alloc; u64::from(call)]?)?;
    }
    let outside = Outside {
        file,
        input: &setup.input,
        fails: &fails,
        most: setup.first_most(),
        room: setup.room,
    };
    let ran = run_over(alloc, words, outside)?;
    let mut out = String::new(alloc);
    write!(out, "{} ", message(ran.status))?;
    push_quoted(&mut out, &ran.output)?;
    Ok(out)
}

fn outside_of(setup: &Setup, most: usize) -> Outside<'_>
    requires { 1 ≤ most }
    ensures { 1 ≤ result.most }
{
    Outside {
        file: setup.file.as_deref(),
        input: &setup.input,
        fails: &setup.fails,
        most,
        room: setup.room,
    }
}

fn words_of(alloc: Global, words: &str) -> Result<Vec<String>, CaseError> {
    let mut all = Vec::new(alloc);
    for word in words.split(' ') {
        if !word.is_empty() {
            all.push(String::from_str(alloc, word)?)?;
        }
    }
    Ok(all)
}

fn run_over(alloc: Global, words: &[String], outside: Outside) -> Result<Ran, CaseError>
    requires { 1 ≤ outside.most }
{
    let Outside {
        file,
        input,
        fails,
        most,
        room,
    } = outside;
    let mut store = MemStore::make(alloc, file, &fails.stores, capacity_of(file, room))?;
    let mut input = MemSource::make(alloc, input, &fails.reads, most)?;
    let mut output = MemSink::make(alloc, &fails.writes, most, room)?;
    let status = called(alloc, words, &mut store, &mut input, &mut output);
    Ok(Ran {
        status,
        output: output.content().to_vec(alloc)?,
        held: match store.content() {
            Some(bytes) => Some(bytes.to_vec(alloc)?),
            None => None,
        },
    })
}

/// A call with the words, which counts its steps in a ledger of its own.
fn called(
    alloc: Global,
    words: &[String],
    store: &mut MemStore,
    input: &mut MemSource,
    output: &mut MemSink,
) -> Status
    requires { store.old.chosen ≡ None }
{
    counted::<Brand>(alloc, words, store, input, output, Blank::new(1))
}

fn counted<L: Ledger>(
    alloc: Global,
    words: &[String],
    store: &mut MemStore,
    input: &mut MemSource,
    output: &mut MemSink,
    blank: Blank,
) -> Status
    requires name { blank.name ≡ L.name }
    requires parts { blank.parts ≡ L.parts }
    requires some { 0 < L.parts }
    requires fresh { store.old.chosen ≡ None }
{
    let mut steps = Steps::<L>::start(blank);
    run(alloc, words, store, input, output, &mut steps)
}

fn is_same(one: &Ran, other: &Ran) -> bool {
    one.status == other.status && one.output == other.output && one.held == other.held
}

/// Adds the output, the status, and the file behind the run where it isn't as before.
fn push_ran(out: &mut String, setup: &Setup, ran: &Ran) -> Result<(), CaseError> {
    push_lines(out, as_text(&ran.output))?;
    writeln!(out, "status {} {}", code(ran.status), message(ran.status))?;
    if ran.held == setup.file {
        return Ok(());
    }
    match &ran.held {
        Some(bytes) => {
            writeln!(out, "stored")?;
            push_lines(out, as_text(bytes))
        }
        None => Ok(writeln!(out, "nothing told of the file")?),
    }
}
