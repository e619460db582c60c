//! The program over the real input, output and file.
#![tactic(auto)]

ghost use Rattle.std.specs.Prelude.{◌≡◌, ◌<◌};

use kv_io::{FileStore, StdSink, StdSource};
use kv_syn::Steps;
use kv_top::{Status, code, message, run};
use std::env;
use std::io::{self, BufReader};
use std::marker::Brand;
use std::process::ExitCode;
use std::sync::ledger::{Blank, Ledger};

/// Runs the program over the real outside, and counts its steps in a ledger of its own.
fn run_counted<L: Ledger>(rt: &HostRuntime, blank: Blank) -> Status
    requires name { blank.name ≡ L.name }
    requires parts { blank.parts ≡ L.parts }
    requires some { 0 < L.parts }
{
    let alloc = rt.alloc();
    let mut steps = Steps::<L>::start(blank);
    let Ok(words) = words(rt) else {
        return Status::Usage;
    };
    let Ok(files) = rt.clone() else {
        return Status::NoMemory;
    };
    let mut output = StdSink::new(io::writer(rt));
    let Ok(reader) = BufReader::new(alloc, rt.stdin().lock()) else {
        return Status::NoMemory;
    };
    let mut input = StdSource::new(reader);
    let mut store = FileStore::new(alloc, files);
    run(
        alloc,
        &words,
        &mut store,
        &mut input,
        &mut output,
        &mut steps,
    )
}

/// The words behind the program's name.
fn words(rt: &HostRuntime) -> io::Result<Vec<String>> {
    Ok(env::args(rt)?.skip(1).collect(rt.alloc())?)
}

fn main(rt: HostRuntime) -> ExitCode {
    let status = run_counted::<Brand>(&rt, Blank::new(1));
    if status != Status::Done {
        let _ = eprintln!(rt; "kivd: {}", message(status));
    }
    ExitCode::from(code(status))
}
