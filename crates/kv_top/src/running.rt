// The top call.

ghost use Rattle.std.specs.Prelude.{◌≡◌, ◌≢◌, ◌<◌, ◌≤◌, ◌↔◌, None, Some, Err, map, string_bytes, [], ◌∷◌, IfErr, IfOk, IfSome};
ghost use Rattle.kv_io.specs.Outside.{Rose};
ghost use Rattle.kv_session.specs.Spellable.{IsSpellable};
ghost use Rattle.kv_syn.specs.ProjectBridge.{plain_project};
ghost use Rattle.kv_top.specs.Calls.{Calls, HasBacking, IsQuiet, IsStatusOf, IsWhole};
ghost use Rattle.kv_top.specs.Files.{IsUnloaded, LoadSays, ReadSays, Shows, answer_of, status_of};
ghost use Rattle.kv_top.specs.Runs.{IsServed, Serves};
ghost use Rattle.kv_top.specs.Statuses.{IsAmong};
ghost use Rattle.kv_top.specs.Words.{asked_file, asked_mode};

use crate::serving::serve;
use crate::status::Status;
use crate::words::{Mode, mode_of};
use crate::writing::write_all;
use kv_fresh::check;
use kv_io::{LoadError, Sink, Source, Store};
use kv_punit::{Command, TextError, project};
use kv_query::reply;
use kv_session::Session;
use kv_syn::{Bytes, NoMemory, Project, Steps};
use std::alloc::Global;
use std::sync::ledger::Ledger;

/// Does what the words ask for. `check FILE` loads the project of that file and writes the answer to `status`. `run FILE`
/// loads it and answers the commands of the input in order: it writes each answer before it takes a further command, and
/// at `save` it saves the canonical text before it writes the answer.
///
/// The status is the first of these that applies: `Usage` where the words are others, `StoreFault` where the file
/// couldn't be loaded, `NoProject` where it isn't there, `TooLong` where it has more than 16,777,216 bytes,
/// `Refused` where it isn't a project. Then per command `ReadFault` where the input couldn't be read, `TooLong` where
/// the command or the input is too long, `Cut` where the input ends inside it, `StoreFault` where the project couldn't
/// be saved, and `WriteFault` where the answer couldn't be written whole. Else it is `Done`. `NoMemory` may come in
/// place of each.
pub fn run<I: Source, O: Sink, S: Store, L: Ledger>(
    alloc: Global,
    words: &[String],
    store: &mut S,
    input: &mut I,
    output: &mut O,
    steps: &mut Steps<L>,
) -> Status
    requires chosen { S.chosen store.old ≡ None }
    ensures usage { (result ≡ Status.Usage) ↔ (asked_mode (map string_bytes words.now) ≡ None) }
    ensures among { IfSome (asked_mode (map string_bytes words.now)) (λ mode. IsStatusOf mode result) }
    ensures says { IfSome (asked_mode (map string_bytes words.now)) (λ mode. Calls mode (I.left input.old) (I.left input.new)
        (record { wrote = O.wrote output.old; held = S.held store.old })
        (record { wrote = O.wrote output.new; held = S.held store.new }) result) }
    ensures backed { HasBacking (S.held store.old) }
    ensures read_fault { result ≡ Status.ReadFault → Rose (I.faults input.old) (I.faults input.new) }
    ensures store_fault { result ≡ Status.StoreFault → Rose (S.faults store.old) (S.faults store.new) }
    ensures write_fault { result ≡ Status.WriteFault → Rose (O.faults output.old) (O.faults output.new) }
    ensures complete { IfSome (asked_mode (map string_bytes words.now)) (λ mode.
        IsWhole mode (I.left input.old) (S.held store.old)
        → (mode ≡ Mode.Run → IsQuiet (I.faults input.old) (I.faults input.new))
        → IsQuiet (S.faults store.old) (S.faults store.new)
        → IsQuiet (O.faults output.old) (O.faults output.new)
        → IsAmong result (Status.Done ∷ Status.NoMemory ∷ [])) }
    ensures chosen { result ≢ Status.Usage → result ≢ Status.NoMemory → S.chosen store.new ≡ asked_file (map string_bytes words.now) }
    ensures input { asked_mode (map string_bytes words.now) ≢ Some Mode.Run → input.new ≡ input.old }
    ensures held { asked_mode (map string_bytes words.now) ≢ Some Mode.Run → S.held store.new ≡ S.held store.old }
    ensures nothing { asked_mode (map string_bytes words.now) ≢ Some Mode.Run
        → IsAmong result (Status.Usage ∷ Status.NoMemory ∷ Status.StoreFault ∷ Status.Refused ∷ Status.TooLong ∷ Status.NoProject ∷ [])
        → output.new ≡ output.old }
    ensures nothing_read { IsAmong result (Status.Usage ∷ Status.Refused ∷ Status.NoProject ∷ []) → input.new ≡ input.old }
    ensures nothing_written { IsAmong result (Status.Usage ∷ Status.Refused ∷ Status.NoProject ∷ []) → output.new ≡ output.old }
    ensures nothing_saved { IsAmong result (Status.Usage ∷ Status.Refused ∷ Status.NoProject ∷ []) → S.held store.new ≡ S.held store.old }
{
    let [word, file] = words else {
        return Status::Usage;
    };
    let Some(mode) = mode_of(word.as_str()) else {
        return Status::Usage;
    };
    if store.choose(file.as_str()).is_err() {
        return Status::NoMemory;
    }
    call(alloc, mode, store, input, output, steps)
}

/// Does what the mode asks for with the file that was chosen.
fn call<I: Source, O: Sink, S: Store, L: Ledger>(
    alloc: Global,
    mode: Mode,
    store: &mut S,
    input: &mut I,
    output: &mut O,
    steps: &mut Steps<L>,
) -> Status
    requires chosen { S.chosen store.old ≢ None }
    ensures among { IsStatusOf mode result }
    ensures says { Calls mode (I.left input.old) (I.left input.new)
        (record { wrote = O.wrote output.old; held = S.held store.old })
        (record { wrote = O.wrote output.new; held = S.held store.new }) result }
    ensures read_fault { result ≡ Status.ReadFault → Rose (I.faults input.old) (I.faults input.new) }
    ensures store_fault { result ≡ Status.StoreFault → Rose (S.faults store.old) (S.faults store.new) }
    ensures write_fault { result ≡ Status.WriteFault → Rose (O.faults output.old) (O.faults output.new) }
    ensures chosen { S.chosen store.new ≡ S.chosen store.old }
    ensures input { mode ≡ Mode.Check → input.new ≡ input.old }
    ensures held { mode ≡ Mode.Check → S.held store.new ≡ S.held store.old }
    ensures nothing { mode ≡ Mode.Check
        → IsAmong result (Status.NoMemory ∷ Status.StoreFault ∷ Status.Refused ∷ Status.TooLong ∷ Status.NoProject ∷ [])
        → output.new ≡ output.old }
    ensures nothing_read { IsAmong result (Status.Refused ∷ Status.NoProject ∷ []) → input.new ≡ input.old }
    ensures nothing_written { IsAmong result (Status.Refused ∷ Status.NoProject ∷ []) → output.new ≡ output.old }
    ensures nothing_saved { IsAmong result (Status.Refused ∷ Status.NoProject ∷ []) → S.held store.new ≡ S.held store.old }
{
    match load(alloc, store) {
        Ok(project) => match mode {
            Mode::Check => show(alloc, &project, output, steps),
            Mode::Run => answer_all(alloc, &project, store, input, output, steps),
        },
        Err(status) => status,
    }
}

/// Answers the commands of the input, from that project on, which a text can spell.
fn answer_all<I: Source, O: Sink, S: Store, L: Ledger>(
    alloc: Global,
    project: &Project,
    store: &mut S,
    input: &mut I,
    output: &mut O,
    steps: &mut Steps<L>,
) -> Status
    requires chosen { S.chosen store.old ≢ None }
    requires spelt { IsSpellable (plain_project project.now) }
    ensures chosen { S.chosen store.new ≡ S.chosen store.old }
    ensures serves { Serves (plain_project project.now) (I.left input.old) (I.left input.new)
        (record { wrote = O.wrote output.old; held = S.held store.old })
        (record { wrote = O.wrote output.new; held = S.held store.new }) result }
    ensures among { IsServed result }
    ensures read_fault { result ≡ Status.ReadFault → Rose (I.faults input.old) (I.faults input.new) }
    ensures store_fault { result ≡ Status.StoreFault → Rose (S.faults store.old) (S.faults store.new) }
    ensures write_fault { result ≡ Status.WriteFault → Rose (O.faults output.old) (O.faults output.new) }
{
    let Ok(mut session) = Session::open(alloc, project, steps) else {
        return Status::NoMemory;
    };
    serve(alloc, &mut session, store, input, output, steps)
}

/// The project in the store.
fn load<S: Store>(alloc: Global, store: &mut S) -> Result<Project, Status>
    requires { S.chosen store.old ≢ None }
    ensures held { S.held store.new ≡ S.held store.old }
    ensures among { IfErr result (λ status. IsUnloaded status) }
    ensures says { IfSome (S.held store.old) (λ file. LoadSays file result) }
    ensures spelt { IfOk result (λ project. IsSpellable (plain_project project)) }
    ensures later { S.faults store.old ≤ S.faults store.new }
    ensures store_fault { result ≡ Err Status.StoreFault → Rose (S.faults store.old) (S.faults store.new) }
    ensures chosen { S.chosen store.new ≡ S.chosen store.old }
{
    match store.load(alloc) {
        Ok(Some(bytes)) => read(alloc, bytes.bytes()),
        Ok(None) => Err(Status::NoProject),
        Err(LoadError::Failed) => Err(Status::StoreFault),
        Err(LoadError::TooLong) => Err(Status::TooLong),
        Err(LoadError::NoMemory) => Err(Status::NoMemory),
    }
}

/// The project of these bytes.
fn read(alloc: Global, bytes: &[u8]) -> Result<Project, Status>
    ensures says { ReadSays bytes.now result }
    ensures spelt { IfOk result (λ project. IsSpellable (plain_project project)) }
{
    match project(alloc, bytes) {
        Ok(project) => Ok(project),
        Err(fault) => Err(status_of(fault)),
    }
}

/// The status for a text that isn't read.
fn status_of(fault: TextError) -> Status
    ensures { result ≡ status_of fault }
{
    match fault {
        TextError::NoMemory => Status::NoMemory,
        TextError::Token { .. }
        | TextError::Version
        | TextError::Syntax
        | TextError::Limit { .. } => { Status::Refused }
    }
}

/// Writes the answer to `status`.
fn show<O: Sink, L: Ledger>(
    alloc: Global,
    project: &Project,
    output: &mut O,
    steps: &mut Steps<L>,
) -> Status
    ensures shows { Shows (plain_project project.now) (O.wrote output.old) (O.wrote output.new) result }
    ensures write_fault { result ≡ Status.WriteFault → Rose (O.faults output.old) (O.faults output.new) }
    ensures nothing { result ≡ Status.NoMemory → output.new ≡ output.old }
{
    match answer(alloc, project, steps) {
        Ok(answer) => match write_all(output, answer.bytes()) {
            Ok(()) => Status::Done,
            Err(_) => Status::WriteFault,
        },
        Err(NoMemory) => Status::NoMemory,
    }
}

/// The answer to `status`, by a check of the whole project.
#[tactic(auto, unfolding(crate::specs::Files::answer_of))]
fn answer<L: Ledger>(
    alloc: Global,
    project: &Project,
    steps: &mut Steps<L>,
) -> Result<Bytes, NoMemory>
    ensures { IfOk result (λ answer. answer ≡ answer_of (plain_project project.now)) }
{
    let checked = check(alloc, project, steps)?;
    reply(alloc, project, &checked, &Command::Status, steps)
}
