// What the readers of whole texts find.

ghost use Rattle.std.specs.Prelude.{◌≡◌, true, IfOk};
ghost use Rattle.kv_punit.specs.Commands.{has_readable_unit};
ghost use Rattle.kv_syn.specs.Readable.{is_readable_unit};

use crate::errors::CaseError;
use crate::readers::form_text;
use crate::shown::{as_text, grouped, printed};
use kv_print::{project_text, script_text};
use kv_punit::{Command, TextError, command, project, script, unit};
use kv_syn::{Bytes, List, Name, NoMemory, Plain, Project, Proof, Shared, Theorem, Unit};
use std::alloc::Global;

/// The canonical text of the project, or why there is none.
pub fn project_lines(alloc: Global, text: &[u8]) -> Result<String, CaseError> {
    match project(alloc, text) {
        Ok(project) => printed(alloc, project_text(alloc, &project)),
        Err(error) => fault(alloc, error),
    }
}

/// What reading says of each front of the text of a project.
pub fn front_lines(alloc: Global, text: &[u8]) -> Result<String, CaseError> {
    let mut answers = Vec::new(alloc);
    for size in 0..text.len() + 1 {
        answers.push(match project(alloc, &text[..size]) {
            Ok(_) => String::from_str(alloc, "a project")?,
            Err(error) => fault(alloc, error)?,
        })?;
    }
    grouped(alloc, &answers)
}

/// The canonical text of a project of that unit, or why there is none.
pub fn unit_lines(alloc: Global, text: &[u8]) -> Result<String, CaseError> {
    match unit(alloc, text) {
        Ok(unit) => printed(alloc, unit_text(alloc, &unit)),
        Err(error) => fault(alloc, error),
    }
}

fn unit_text(alloc: Global, unit: &Unit) -> Result<Bytes, NoMemory>
    requires { is_readable_unit unit.now ≡ true }
{
    let mut units = List::new(alloc);
    units.push(unit.copy(alloc)?)?;
    project_text(alloc, &Project { units })
}

/// The canonical text of the script, or why there is none.
pub fn script_line(alloc: Global, text: &[u8]) -> Result<String, CaseError> {
    match script(alloc, text) {
        Ok(script) => printed(alloc, script_text(alloc, &script)),
        Err(error) => fault(alloc, error),
    }
}

/// The command's word and the canonical text of its parts, or why there is none.
pub fn command_lines(alloc: Global, text: &[u8]) -> Result<String, CaseError> {
    match command(alloc, text) {
        Ok(command) => read_line(alloc, Shared::new(alloc, command)),
        Err(error) => fault(alloc, error),
    }
}

// (a command that is read where it lies is cheap to prove, and one on the stack isn't)
fn read_line(alloc: Global, command: Result<Shared<Command>, NoMemory>) -> Result<String, CaseError>
    requires { IfOk command (λ command. has_readable_unit command ≡ true) }
{
    let command = command?;
    command_text(alloc, command.get())
}

fn command_text(alloc: Global, command: &Command) -> Result<String, CaseError>
    requires { has_readable_unit command.now ≡ true }
{
    match command {
        Command::Add(unit) => add_line(alloc, unit),
        Command::Theorem { unit, theorem } => theorem_line(alloc, unit, theorem),
        Command::Proof { unit, proof } => proof_line(alloc, unit, proof),
        Command::Status => Ok(String::from_str(alloc, "status")?),
        Command::Save => Ok(String::from_str(alloc, "save")?),
        _ => Ok(String::from_str(alloc, "another command")?),
    }
}

fn add_line(alloc: Global, unit: &Unit) -> Result<String, CaseError>
    requires { is_readable_unit unit.now ≡ true }
{
    let text = printed(alloc, unit_text(alloc, unit))?;
    format!(in alloc; "add {text}").map_err(CaseError::from)
}

fn theorem_line(alloc: Global, unit: &Name, theorem: &Theorem) -> Result<String, CaseError> {
    let text = form_text(alloc, theorem.form.copy(alloc)?)?;
    let mark = if theorem.simp { "simp " } else { "" };
    let unit = as_text(unit.bytes());
    let name = as_text(theorem.name.bytes());
    format!(in alloc; "theorem {unit} {mark}{name} : {text}").map_err(CaseError::from)
}

fn proof_line(alloc: Global, unit: &Name, proof: &Proof) -> Result<String, CaseError> {
    let text = printed(alloc, script_text(alloc, &proof.script))?;
    let unit = as_text(unit.bytes());
    let name = as_text(proof.name.bytes());
    format!(in alloc; "proof {unit} {name} = {text}").map_err(CaseError::from)
}

/// Why a text isn't read.
fn fault(alloc: Global, error: TextError) -> Result<String, CaseError> {
    match error {
        TextError::Limit { which } => format!(in alloc; "{error}: {which:?}"),
        _ => error.to_string(alloc),
    }
    .map_err(CaseError::from)
}
