// The commands of an input, answered in order.

ghost use Rattle.std.specs.Prelude.{◌≡◌, ◌≢◌, ◌≤◌, None, Err};
ghost use Rattle.kv_io.specs.Outside.{Rose};
ghost use Rattle.kv_session.specs.Sessions.{project_of};
ghost use Rattle.kv_session.specs.Spellable.{IsSpellable};
ghost use Rattle.kv_top.specs.Runs.{IsServed, Serves};
ghost use Rattle.kv_top.specs.Serving.{Saves, Takes};

use crate::status::Status;
use crate::writing::write_all;
use kv_io::{Lines, Next, Sink, Source, Store, next_command};
use kv_session::Session;
use kv_syn::Steps;
use std::alloc::Global;
use std::sync::ledger::Ledger;

/// Saves the text of the session's project, if that is asked.
fn save<S: Store>(session: &Session, asked: bool, store: &mut S) -> Result<(), Status>
    requires { S.chosen store.old ≢ None }
    ensures chosen { S.chosen store.new ≡ S.chosen store.old }
    ensures saves { Saves asked (project_of session.now) (S.held store.old) (S.held store.new) result }
    ensures later { S.faults store.old ≤ S.faults store.new }
    ensures cause { result ≡ Err Status.StoreFault → Rose (S.faults store.old) (S.faults store.new) }
{
    if !asked {
        return Ok(());
    }
    let Ok(text) = session.text() else {
        return Err(Status::NoMemory);
    };
    match store.save(text.bytes()) {
        Ok(()) => Ok(()),
        Err(_) => Err(Status::StoreFault),
    }
}

/// Answers one command, at a project that a text can spell. Where the command asks for it, the project is saved before the
/// answer is written.
fn answer_one<O: Sink, S: Store, L: Ledger>(
    session: &mut Session,
    command: &[u8],
    store: &mut S,
    output: &mut O,
    steps: &mut Steps<L>,
) -> Result<(), Status>
    requires chosen { S.chosen store.old ≢ None }
    requires spelt { IsSpellable (project_of session.old) }
    ensures chosen { S.chosen store.new ≡ S.chosen store.old }
    ensures spelt { IsSpellable (project_of session.new) }
    ensures takes { Takes (project_of session.old) command.now (project_of session.new)
        (record { wrote = O.wrote output.old; held = S.held store.old })
        (record { wrote = O.wrote output.new; held = S.held store.new }) result }
    ensures stores_later { S.faults store.old ≤ S.faults store.new }
    ensures writes_later { O.faults output.old ≤ O.faults output.new }
    ensures store_fault { result ≡ Err Status.StoreFault → Rose (S.faults store.old) (S.faults store.new) }
    ensures write_fault { result ≡ Err Status.WriteFault → Rose (O.faults output.old) (O.faults output.new) }
{
    let Ok(answer) = session.step(command, steps) else {
        return Err(Status::NoMemory);
    };
    if let Err(status) = save(session, answer.save, store) {
        return Err(status);
    }
    match write_all(output, answer.bytes.bytes()) {
        Ok(()) => Ok(()),
        Err(_) => Err(Status::WriteFault),
    }
}

/// Answers the commands of the input in order, from the session's project on, which a text can spell, until one of them
/// fails, the source fails or the input ends.
pub fn serve<I: Source, O: Sink, S: Store, L: Ledger>(
    alloc: Global,
    session: &mut Session,
    store: &mut S,
    input: &mut I,
    output: &mut O,
    steps: &mut Steps<L>,
) -> Status
    requires chosen { S.chosen store.old ≢ None }
    requires spelt { IsSpellable (project_of session.old) }
    ensures chosen { S.chosen store.new ≡ S.chosen store.old }
    ensures serves { Serves (project_of session.old) (I.left input.old) (I.left input.new)
        (record { wrote = O.wrote output.old; held = S.held store.old })
        (record { wrote = O.wrote output.new; held = S.held store.new }) result }
    ensures among { IsServed result }
    ensures read_fault { result ≡ Status.ReadFault → Rose (I.faults input.old) (I.faults input.new) }
    ensures store_fault { result ≡ Status.StoreFault → Rose (S.faults store.old) (S.faults store.new) }
    ensures write_fault { result ≡ Status.WriteFault → Rose (O.faults output.old) (O.faults output.new) }
{
    let mut lines = Lines::new(alloc);
    'commands: loop {
        match next_command(input, &mut lines) {
            Next::Command(command) => {
                if let Err(status) = answer_one(session, command.bytes(), store, output, steps) {
                    return status;
                }
            }
            Next::End => return Status::Done,
            Next::Cut => return Status::Cut,
            Next::TooLong => return Status::TooLong,
            Next::ReadFault => return Status::ReadFault,
            Next::NoMemory => return Status::NoMemory,
        }
    }
}
