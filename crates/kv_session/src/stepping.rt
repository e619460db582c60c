// Answers to the commands of an editor.
#![tactic(auto, unfolding(crate::specs::Sessions::project_of, crate::specs::Sessions::text_of))]

ghost use Rattle.std.specs.Prelude.{◌≡◌, List, ℕ, true, false, Ok, IfOk, OnErr, codes};
ghost use Rattle.kv_fresh.specs.States.{table_of};
ghost use Rattle.kv_punit.specs.Commands.{plain_command, has_readable_unit};
ghost use Rattle.kv_punit.specs.Readings.{ReadsCommand};
ghost use Rattle.kv_query.specs.Replies.{status_text};
ghost use Rattle.kv_session.specs.Answers.{is_readable_edit, plain_edit};
ghost use Rattle.kv_session.specs.Sessions.{IsAnswered, IsEdited, project_of, text_of};
ghost use Rattle.kv_session.specs.Spellable.{IsSpellable, IsSpellableEdit};
ghost use Rattle.kv_syn.specs.ProjectBridge.{plain_project};

use crate::edits::{Edit, edit_project};
use crate::errors::EditError;
use crate::replies::{refused, unread};
use crate::session::Session;
use kv_fresh::check;
use kv_print::project_text;
use kv_punit::{Command, TextError, command};
use kv_query::reply;
use kv_syn::{Bytes, NoMemory, Plain, Project, Steps};
use std::alloc::Global;
use std::sync::ledger::Ledger;

/// What is answered to a command, and whether the project is to be stored before that.
#[derive(Drop)]
pub struct Answer {
    pub bytes: Bytes,
    pub save: bool,
}

impl Session {
    /// A session that stands for the project.
    pub fn open<L: Ledger>(
        alloc: Global,
        project: &Project,
        _steps: &mut Steps<L>,
    ) -> Result<Session, NoMemory>
        ensures { IfOk result (λ session. project_of session ≡ plain_project project.now) }
    {
        let project = project.copy(alloc)?;
        Ok(Session { alloc, project })
    }

    /// The project that the session stands for.
    pub fn project(&self) -> &Project
        ensures { plain_project result.now ≡ project_of self.now }
    {
        &self.project
    }

    /// The canonical text of the project.
    pub fn text(&self) -> Result<Bytes, NoMemory>
        ensures { IfOk result (λ text. text ≡ text_of (project_of self.now)) }
    {
        project_text(self.alloc, &self.project)
    }

    /// Answers the text of a command, at a project that a text can spell. An edit that is accepted changes the project,
    /// to one that a text can spell; everything is checked anew. After `NoMemory` the session stands for the same
    /// project.
    pub fn step<L: Ledger>(&mut self, text: &[u8], steps: &mut Steps<L>) -> Result<Answer, NoMemory>
        requires { IsSpellable (project_of self.old) }
        ensures answered { IfOk result (λ answer. IsAnswered (project_of self.old) text.now answer.bytes answer.save (project_of self.new)) }
        ensures spelt { IsSpellable (project_of self.new) }
        ensures stays { OnErr result (project_of self.new ≡ project_of self.old) }
    {
        match command(self.alloc, text) {
            Ok(command) => self.obey(command, steps),
            Err(TextError::NoMemory) => Err(NoMemory),
            Err(fault) => silent(unread(self.alloc, &fault)),
        }
    }

    /// Does what a command asks for.
    fn obey<L: Ledger>(
        &mut self,
        command: Command,
        steps: &mut Steps<L>,
    ) -> Result<Answer, NoMemory>
        requires readable { has_readable_unit command ≡ true }
        requires spelt { (text : List ℕ) × ReadsCommand text (plain_command command) }
        requires project { IsSpellable (project_of self.old) }
        ensures spelt { IsSpellable (project_of self.new) }
        ensures answered { IfOk result (λ answer. (text : List ℕ) → ReadsCommand text (plain_command command)
            → IsAnswered (project_of self.old) text answer.bytes answer.save (project_of self.new)) }
        ensures stays { OnErr result (project_of self.new ≡ project_of self.old) }
    {
        match command {
            Command::Add(unit) => self.edit(Edit::Add(unit), steps),
            Command::Theorem { unit, theorem } => self.edit(Edit::Theorem { unit, theorem }, steps),
            Command::Proof { unit, proof } => self.edit(Edit::Proof { unit, proof }, steps),
            Command::Status => self.status(steps),
            Command::Save => saved(self.alloc),
            _ => unreachable!(),
        }
    }

    /// Makes an edit, and checks the project after it.
    fn edit<L: Ledger>(&mut self, edit: Edit, steps: &mut Steps<L>) -> Result<Answer, NoMemory>
        requires readable { is_readable_edit edit ≡ true }
        requires spelt { IsSpellableEdit (plain_edit edit) }
        requires project { IsSpellable (project_of self.old) }
        ensures spelt { IsSpellable (project_of self.new) }
        ensures edited { IfOk result (λ answer. IsEdited (project_of self.old) (plain_edit edit) answer.bytes (project_of self.new)) }
        ensures unsaved { IfOk result (λ answer. answer.save ≡ false) }
        ensures stays { OnErr result (project_of self.new ≡ project_of self.old) }
    {
        match edit_project(self.alloc, &mut self.project, edit, steps) {
            Ok(bytes) => Ok(Answer { bytes, save: false }),
            Err(EditError::Refused(refusal)) => silent(refused(self.alloc, &refusal)),
            Err(EditError::NoMemory) => Err(NoMemory),
        }
    }

    /// The states of the project.
    fn status<L: Ledger>(&self, steps: &mut Steps<L>) -> Result<Answer, NoMemory>
        ensures states { IfOk result (λ answer. answer.bytes ≡ status_text (table_of (project_of self.now))) }
        ensures unsaved { IfOk result (λ answer. answer.save ≡ false) }
    {
        let checked = check(self.alloc, &self.project, steps)?;
        silent(reply(self.alloc, &self.project, &checked, &Command::Status, steps))
    }
}

/// An answer with these bytes, for which nothing is stored.
fn silent(bytes: Result<Bytes, NoMemory>) -> Result<Answer, NoMemory>
    ensures bytes { IfOk result (λ answer. bytes ≡ Ok answer.bytes) }
    ensures unsaved { IfOk result (λ answer. answer.save ≡ false) }
{
    Ok(Answer {
        bytes: bytes?,
        save: false,
    })
}

/// The answer to `save`.
fn saved(alloc: Global) -> Result<Answer, NoMemory>
    ensures { IfOk result (λ answer. (answer.bytes ≡ codes "saved\n.\n") × (answer.save ≡ true)) }
{
    Ok(Answer {
        bytes: Bytes::from_bytes(alloc, b"saved\n.\n")?,
        save: true,
    })
}
