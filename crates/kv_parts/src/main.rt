//! Reads cases from the standard input, a line each, and writes a transcript: each line, and below it its answer. The
//! answer's lines begin with `= `. A word at the start of a line says what is asked; a line of `#` asks nothing.
#![tactic(auto)]

ghost use Rattle.std.specs.Prelude.{◌≡◌, ◌<◌};

mod faults;
mod programs;
mod reading;
mod scripts;
mod setting;
mod sizes;
mod steps;
mod tables;
mod texts;
mod units;
mod variables;

use faults::{Fault, fault_text};
use kv_syn::{Bytes, Steps};
use setting::Setting;
use std::alloc::Global;
use std::io::{self, BufRead, BufReader, Write};
use std::marker::Brand;
use std::sync::ledger::{Blank, Ledger};
use texts::Texts;

/// An answer is shortened to its ends where it has more bytes than this.
const LONGEST: usize = 240;

fn run<L: Ledger>(rt: &HostRuntime, blank: Blank) -> io::Result<()>
    requires name { blank.name ≡ L.name }
    requires parts { blank.parts ≡ L.parts }
    requires some { 0 < L.parts }
{
    let alloc = rt.alloc();
    let mut steps = Steps::<L>::start(blank);
    let mut setting = Setting::new(alloc);
    let mut texts = Texts::new(alloc);
    for line in BufReader::new(alloc, rt.stdin().lock())?.lines(alloc) {
        let line = line?;
        println!(rt; "{line}")?;
        let answer = answer_line(&mut setting, &mut texts, line.as_str(), &mut steps);
        write_answer(rt, alloc, answer)?;
    }
    Ok(())
}

fn answer_line<L: Ledger>(
    setting: &mut Setting,
    texts: &mut Texts,
    line: &str,
    steps: &mut Steps<L>,
) -> Result<Bytes, Fault> {
    let (word, rest) = line.split_once(' ').unwrap_or((line, ""));
    if word == "text" {
        texts.put(setting.alloc, rest)?;
        return Ok(Bytes::new(setting.alloc));
    }
    let rest = texts.expanded(setting.alloc, rest)?;
    answer(setting, word, rest.as_str(), steps)
}

fn answer<L: Ledger>(
    setting: &mut Setting,
    word: &str,
    rest: &str,
    steps: &mut Steps<L>,
) -> Result<Bytes, Fault> {
    match word {
        "" | "#" => Ok(Bytes::new(setting.alloc)),
        "variables" | "binders" | "assumed" | "entry" => declared(setting, word, rest),
        "unit" => units::unit_answer(setting, rest, steps),
        "merge" => units::merge_answer(setting, rest, steps),
        "add" => units::add_answer(setting, rest, steps),
        "check" => units::check_answer(setting.alloc, rest, steps),
        "replay" => scripts::replay_answer(setting, rest, steps),
        _ => asked(setting, word, rest),
    }
}

fn declared(setting: &mut Setting, word: &str, rest: &str) -> Result<Bytes, Fault> {
    match word {
        "variables" => setting.put_free(rest)?,
        "binders" => setting.put_binders(rest)?,
        "assumed" => setting.put_assumed(rest)?,
        _ => setting.put_entry(rest)?,
    }
    Ok(Bytes::new(setting.alloc))
}

fn asked(setting: &Setting, word: &str, rest: &str) -> Result<Bytes, Fault> {
    match word {
        "symbols" => units::symbols_answer(setting),
        "look" => units::look_answer(setting, rest),
        "table" => tables::table_answer(setting.alloc, rest),
        "find" => tables::find_answer(setting.alloc, rest),
        "type" => variables::type_answer(setting, rest),
        "sort" => variables::sort_answer(setting, rest),
        "program" => variables::program_answer(setting, rest),
        "size" => variables::size_answer(setting, rest),
        "open" => variables::open_answer(setting, rest),
        "enter" => variables::enter_answer(setting, rest),
        "close" => variables::close_answer(setting, rest),
        "rename" => variables::rename_answer(setting, rest),
        "occurs" => variables::occurs_answer(setting, rest),
        "modifies" => variables::modifies_answer(setting, rest),
        "step" => steps::step_answer(setting, rest),
        _ => Err(Fault::Unread),
    }
}

fn write_answer(rt: &HostRuntime, alloc: Global, answer: Result<Bytes, Fault>) -> io::Result<()> {
    let text = match answer {
        Ok(text) => text,
        Err(fault) => text_of(alloc, &fault)?,
    };
    for line in text.bytes().split(|byte| *byte == b'\n') {
        write_line(rt, line)?;
    }
    Ok(())
}

fn text_of(alloc: Global, fault: &Fault) -> io::Result<Bytes> {
    fault_text(alloc, fault).map_err(|_| io::Error::from(io::ErrorKind::OutOfMemory))
}

fn write_line(rt: &HostRuntime, line: &[u8]) -> io::Result<()> {
    if line.is_empty() {
        return Ok(());
    }
    let mut output = io::writer(rt);
    output.write_all(b"= ")?;
    if line.len() <= LONGEST {
        output.write_all(line)?;
    } else {
        output.write_all(front(line))?;
        output.write_all(b" .. ")?;
        output.write_all(back(line))?;
    }
    output.write_all(b"\n")
}

/// The first bytes of a line that is shortened.
fn front(line: &[u8]) -> &[u8] {
    line.get(..LONGEST / 2).unwrap_or(line)
}

/// Its last bytes.
fn back(line: &[u8]) -> &[u8] {
    let from = line.len().saturating_sub(LONGEST / 2);
    line.get(from..).unwrap_or(line)
}

fn main(rt: HostRuntime) -> io::Result<()> {
    run::<Brand>(&rt, Blank::new(1))
}
