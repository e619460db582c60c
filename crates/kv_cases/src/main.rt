//! Reads cases from the input, and writes each with its answer: what the readers read, what runs over an outside in memory
//! write and leave behind.
//!
//! A case is a line whose first word says what is asked, and the lines below it that begin with two spaces. Each line is
//! written again, and the lines of the answer stand below it, each behind `= `. Lines that begin with `#` say what
//! follows.
#![tactic(auto)]

mod checks;
mod devices;
mod errors;
mod readers;
mod runs;
mod setup;
mod shown;
mod states;
mod texts;
mod wholes;

use crate::errors::CaseError;
use crate::setup::Setup;
use crate::texts::{Case, INDENT};
use anyhow::Result;
use std::alloc::Global;
use std::io;

/// The answer to a case, whose lines stand one below the other.
fn answer(alloc: Global, setup: &mut Setup, case: Case) -> Result<String, CaseError> {
    if setup.take(alloc, case)? {
        return Ok(String::new(alloc));
    }
    let answer = asked(alloc, setup, case);
    setup.forget(alloc);
    answer
}

fn asked(alloc: Global, setup: &Setup, case: Case) -> Result<String, CaseError> {
    let text = case.text(alloc)?;
    match case.word {
        "run" => runs::run_lines(alloc, setup, case.rest),
        "each" => runs::each_lines(alloc, setup, case.rest),
        "check" => checks::check_lines(alloc, &text),
        "tokens" => readers::token_lines(alloc, &text),
        "formula" => readers::formula_line(alloc, &text, setup.at),
        "term" => readers::term_line(alloc, &text, setup.at),
        "unit" => wholes::unit_lines(alloc, &text),
        "script" => wholes::script_line(alloc, &text),
        "command" => wholes::command_lines(alloc, &text),
        "project" => wholes::project_lines(alloc, &text),
        "fronts" => wholes::front_lines(alloc, &text),
        "next_command" => devices::command_lines(alloc, setup, &text),
        "source" => devices::source_lines(alloc, setup, &text),
        "sink" => devices::sink_lines(alloc, setup, &text),
        "store" => devices::store_lines(alloc, setup, &text),
        "reason" => states::reason_line(alloc, case.rest),
        "state" => states::state_line(alloc, case.rest),
        "table" => states::table_lines(alloc, &text),
        _ => Err(CaseError::Unknown),
    }
}

/// Writes a line with the block below it, and the answer, if it is a case.
fn show<'a>(
    rt: &HostRuntime,
    setup: &mut Setup,
    line: &'a str,
    block: &'a [&'a str],
) -> Result<()> {
    println!(rt; "{line}")?;
    for line in block {
        println!(rt; "{line}")?;
    }
    if line.is_empty() || line.starts_with('#') {
        return Ok(());
    }
    let answer = answer(rt.alloc(), setup, Case::new(line, block))?;
    for line in answer.lines() {
        println!(rt; "= {line}")?;
    }
    Ok(())
}

/// The lines at the front that begin with the indent.
fn block<'a>(lines: &'a [&'a str]) -> &'a [&'a str] {
    let length = lines
        .iter()
        .take_while(|line| line.starts_with(INDENT))
        .count();
    lines.get(..length).unwrap_or(lines)
}

fn main(rt: HostRuntime) -> Result<()> {
    let alloc = rt.alloc();
    let text = io::read_to_string(alloc, rt.stdin().lock())?;
    let lines: Vec<&str> = text.lines().collect(alloc)?;
    let mut setup = Setup::new(alloc);
    for (i, line) in lines.iter().enumerate() {
        if !line.starts_with(INDENT) {
            show(&rt, &mut setup, line, block(&lines[i + 1..]))?;
        }
    }
    Ok(())
}
