// Texts of one unit, one script or one command.

ghost use Rattle.std.specs.Prelude.{◌≡◌, true, IfOk};
ghost use Rattle.kv_syn.specs.ProjectBridge.{plain_unit};
ghost use Rattle.kv_syn.specs.Projects as P;
ghost use Rattle.kv_syn.specs.Readable.{is_readable_unit};
ghost use Rattle.kv_syn.specs.ScriptBridge.{plain_script};
ghost use Rattle.kv_syn.specs.Scripts as S;
ghost use Rattle.kv_punit.specs.Commands as C;
ghost use Rattle.kv_punit.specs.Commands.{plain_command, has_readable_unit, HasShortScript};
ghost use Rattle.kv_punit.specs.Grammar.{IsCommand};
ghost use Rattle.kv_punit.specs.Readings.{IsOne, ReadsCommand, ReadsScript, ReadsUnit};
ghost use Rattle.kv_punit.specs.ReadsAs.{IsRefused};
ghost use Rattle.kv_punit.specs.FirstFault.{Answers, command_faults, script_faults, unit_faults};
ghost use Rattle.kv_punit.specs.Settles.{Limits};

use crate::commands::{Command, lone_command};
use crate::errors::{TextError, Which};
use crate::limits::is_short;
use crate::scripts::lone_script;
use crate::units::lone_head;
use kv_lex::tokens;
use kv_syn::{Name, Proof, Script, Unit};
use std::alloc::Global;

/// The unit of a text, which has no theorems and proofs.
///
/// Errors, the first that the text has: `Token` at the first byte from which no token reads, `Syntax` where it isn't
/// in the grammar. `NoMemory` says nothing of the text.
pub fn unit(alloc: Global, text: &[u8]) -> Result<Unit, TextError>
    ensures reads { IfOk result (λ unit. ReadsUnit text.now (plain_unit unit)) }
    ensures refuses { IsRefused result → (unit : P.Unit) → ReadsUnit text.now unit → ⊥ }
    ensures faults { Answers unit_faults text.now result }
    ensures readable { IfOk result (λ unit. is_readable_unit unit ≡ true) }
{
    let list = tokens(alloc, text)?;
    let unit = lone_head(alloc, list.items())?;
    Ok(unit)
}

/// The script of a text.
///
/// Errors, the first that the text has: `Token` at the first byte from which no token reads, `Syntax` where it isn't
/// in the grammar, `Limit` where it has more than 50,000 steps. `NoMemory` says nothing of the text.
pub fn script(alloc: Global, text: &[u8]) -> Result<Script, TextError>
    ensures reads { IfOk result (λ script. ReadsScript text.now (plain_script script)) }
    ensures refuses { IsRefused result → (script : S.Script) → ReadsScript text.now script → ⊥ }
    ensures faults { Answers script_faults text.now result }
{
    let list = tokens(alloc, text)?;
    let script = lone_script(alloc, list.items())?;
    if !is_short(&script) {
        return Err(TextError::Limit {
            which: Which::Steps,
        });
    }
    Ok(script)
}

/// The command of a text, with nothing behind its arguments.
///
/// Errors, the first that the text has: `Token` at the first byte from which no token reads, `Syntax` where it isn't
/// in the grammar, as where it has no token, `Limit` where its script has more than 50,000 steps. `NoMemory` says
/// nothing of the text.
pub fn command(alloc: Global, text: &[u8]) -> Result<Command, TextError>
    ensures reads { IfOk result (λ command. ReadsCommand text.now (plain_command command)) }
    ensures refuses { IsRefused result → (command : C.Command) → ReadsCommand text.now command → ⊥ }
    ensures faults { Answers command_faults text.now result }
    ensures readable { IfOk result (λ command. has_readable_unit command ≡ true) }
{
    let list = tokens(alloc, text)?;
    let command = lone_command(alloc, list.items())?;
    short_command(command)
}

/// The command, unless its script has more steps than it may have.
fn short_command(command: Command) -> Result<Command, TextError>
    ensures { Limits command result }
{
    match command {
        Command::Proof { unit, proof } => short_proof(unit, proof),
        other => Ok(other),
    }
}

/// The command that puts a proof, unless its script has more steps than it may have.
fn short_proof(unit: Name, proof: Proof) -> Result<Command, TextError>
    ensures { Limits (Command.Proof unit proof) result }
{
    if !is_short(&proof.script) {
        return Err(TextError::Limit {
            which: Which::Steps,
        });
    }
    Ok(Command::Proof { unit, proof })
}

/// One text is one unit, one script, one command.
pub fn one_text()
    ensures unit { IsOne ReadsUnit }
    ensures script { IsOne ReadsScript }
    ensures command { IsOne ReadsCommand }
{}
