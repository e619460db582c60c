// Commands.

ghost use Rattle.std.specs.Prelude.{◌≡◌, true, IfOk};
ghost use Rattle.kv_pexpr.specs.Gives.{kinds, Gives};
ghost use Rattle.kv_table.specs.Names.{row_of};
ghost use Rattle.kv_table.specs.Commands.{command_rows};
ghost use Rattle.kv_table.specs.Commands as words;
ghost use Rattle.kv_punit.specs.Commands.{has_readable_unit, plain_command};
ghost use Rattle.kv_punit.specs.Gives.{Finds};
ghost use Rattle.kv_punit.specs.Grammar.{IsArguments, IsCommand};
ghost use Rattle.kv_punit.specs.Parse as spec;

use crate::tokens::end;
use crate::units::{lone_head, lone_proof, lone_statement};
use crate::words::{row_of, text_of};
use kv_lex::Token;
use kv_pexpr::{ReadError, eat_name};
use kv_syn::{Label, Name, Path, Proof, Theorem, Unit};
use kv_table::{command, commands};
use std::alloc::Global;

/// A command of an editor. The edits come first, then the queries.
#[derive(Drop)]
pub enum Command {
    /// Adds a unit at the end. Its lists of theorems and proofs are empty.
    Add(Unit),
    /// Replaces the unit of that name. The lists of theorems and proofs here are empty.
    Put(Unit),
    Drop(Name),
    Theorem { unit: Name, theorem: Theorem },
    Change { unit: Name, theorem: Theorem },
    Forget { unit: Name, name: Name },
    Proof { unit: Name, proof: Proof },
    Unproof { unit: Name, name: Label },
    Prune { unit: Name, name: Label, path: Path },
    Status,
    State { unit: Name, name: Label },
    Goals { unit: Name, name: Label },
    Needs { unit: Name, name: Label },
    Above(Name),
    Graph,
    Flat(Name),
    Obligations(Name),
    Text,
    Seal,
    Save,
}

/// The command that all the tokens spell.
pub fn lone_command(alloc: Global, tokens: &[Token]) -> Result<Command, ReadError>
    ensures reads { Finds plain_command (IsCommand (kinds tokens.now)) result }
    ensures readable { IfOk result (λ command. has_readable_unit command ≡ true) }
{
    let (row, rest) = command_row(tokens)?;
    arguments(alloc, row, rest)
}

/// The row of the command whose word comes first, and the tokens behind it.
fn command_row(tokens: &[Token]) -> Result<(u32, &[Token]), ReadError>
    ensures { Gives (λ found. (found.0, kinds found.1.now)) result (spec.eat_command (kinds tokens.now)) }
{
    let Some((first, rest)) = tokens.split_first() else {
        return Err(ReadError::Syntax);
    };
    let Some(text) = text_of(&first.kind) else {
        return Err(ReadError::Syntax);
    };
    match command_of(text) {
        Some(row) => Ok((row, rest)),
        None => Err(ReadError::Syntax),
    }
}

/// The row of the command whose word the text is.
#[tactic(auto, unfolding(kv_table::specs::Commands::command_rows))]
fn command_of(text: &[u8]) -> Option<u32>
    ensures { result ≡ row_of command_rows text.now }
{
    row_of(&commands(), text)
}

/// The command of that row, with these arguments.
fn arguments(alloc: Global, row: u32, tokens: &[Token]) -> Result<Command, ReadError>
    ensures reads { Finds plain_command (IsArguments row (kinds tokens.now)) result }
    ensures readable { IfOk result (λ command. has_readable_unit command ≡ true) }
{
    match row {
        command::ADD => adding(alloc, tokens),
        command::THEOREM => stating(alloc, tokens),
        command::PROOF => proving(alloc, tokens),
        command::STATUS => status(tokens),
        command::SAVE => save(tokens),
        _ => Err(ReadError::Syntax),
    }
}

/// A unit to add.
fn adding(alloc: Global, tokens: &[Token]) -> Result<Command, ReadError>
    ensures reads { Finds plain_command (IsArguments words.ADD (kinds tokens.now)) result }
    ensures readable { IfOk result (λ command. has_readable_unit command ≡ true) }
{
    let unit = lone_head(alloc, tokens)?;
    Ok(Command::Add(unit))
}

/// A theorem to add to a unit.
fn stating(alloc: Global, tokens: &[Token]) -> Result<Command, ReadError>
    ensures reads { Finds plain_command (IsArguments words.THEOREM (kinds tokens.now)) result }
    ensures readable { IfOk result (λ command. has_readable_unit command ≡ true) }
{
    let (unit, rest) = eat_name(alloc, tokens)?;
    let theorem = lone_statement(alloc, rest)?;
    Ok(Command::Theorem { unit, theorem })
}

/// A proof to put into a unit.
fn proving(alloc: Global, tokens: &[Token]) -> Result<Command, ReadError>
    ensures reads { Finds plain_command (IsArguments words.PROOF (kinds tokens.now)) result }
    ensures readable { IfOk result (λ command. has_readable_unit command ≡ true) }
{
    let (unit, rest) = eat_name(alloc, tokens)?;
    let proof = lone_proof(alloc, rest)?;
    Ok(Command::Proof { unit, proof })
}

/// The command `status`, which has no arguments.
fn status(tokens: &[Token]) -> Result<Command, ReadError>
    ensures reads { Finds plain_command (IsArguments words.STATUS (kinds tokens.now)) result }
    ensures readable { IfOk result (λ command. has_readable_unit command ≡ true) }
{
    end(tokens)?;
    Ok(Command::Status)
}

/// The command `save`, which has no arguments.
fn save(tokens: &[Token]) -> Result<Command, ReadError>
    ensures reads { Finds plain_command (IsArguments words.SAVE (kinds tokens.now)) result }
    ensures readable { IfOk result (λ command. has_readable_unit command ≡ true) }
{
    end(tokens)?;
    Ok(Command::Save)
}
