// What a replay has found so far.

ghost use Rattle.std.specs.Prelude.{◌≡◌, ◌+◌, ◌-◌, ◌^◌, ◌++◌, min, true, IfOk, OnOk};
ghost use Rattle.kv_syn.specs.Rows.{is_rule_row, has_reason_row, has_fault_rows};
ghost use Rattle.kv_script.specs.Answers.{text_looks};
ghost use Rattle.kv_script.specs.Events.{uses_of};
ghost use Rattle.kv_script.specs.Tallies.{or_first, tally_outcome};
ghost use Rattle.kv_syn.specs.ScriptBridge.{plain_text};

use crate::looks::push_looks;
use crate::once::{labels_once, looks_once};
use kv_syn::{Fault, Label, List, Look, NoMemory, Outcome, Path, Plain, Reason, StepText};
use std::alloc::Global;

/// What was found so far: the open goals, the first refused step, and the labels that were used and what was asked, as
/// often as it was.
#[derive(Drop)]
pub struct Tally {
    pub goals: u64,
    pub broken: Option<Fault>,
    pub uses: List<Label>,
    pub looks: List<Look>,
}

impl Tally {
    /// One more open goal.
    pub fn goal(&mut self)
        ensures goals { self.new.goals ≡ min (self.old.goals + 1) (2 ^ 64 - 1) }
        ensures broken { self.new.broken ≡ self.old.broken }
        ensures uses { self.new.uses ≡ self.old.uses }
        ensures looks { self.new.looks ≡ self.old.looks }
    {
        self.goals = self.goals.saturating_add(1);
    }

    /// A refused step. The first one stays.
    pub fn refuse(
        &mut self,
        alloc: Global,
        path: &Path,
        rule: u32,
        reason: Reason,
    ) -> Result<(), NoMemory>
        requires rule { is_rule_row rule ≡ true }
        requires reason { has_reason_row reason ≡ true }
        requires broken { has_fault_rows self.old.broken ≡ true }
        ensures rows { OnOk result (has_fault_rows self.new.broken ≡ true) }
        ensures goals { self.new.goals ≡ self.old.goals }
        ensures uses { self.new.uses ≡ self.old.uses }
        ensures looks { self.new.looks ≡ self.old.looks }
        ensures broken { OnOk result (self.new.broken ≡ or_first self.old.broken (Some (record { path = path.now; rule = rule; reason = reason }))) }
    {
        if self.broken.is_none() {
            let path = path.copy(alloc)?;
            self.broken = Some(Fault { path, rule, reason });
        }
        Ok(())
    }

    /// The text of a step asks for what it names.
    pub fn ask(&mut self, alloc: Global, text: &StepText) -> Result<(), NoMemory>
        ensures goals { self.new.goals ≡ self.old.goals }
        ensures broken { self.new.broken ≡ self.old.broken }
        ensures uses { self.new.uses ≡ self.old.uses }
        ensures looks { OnOk result (self.new.looks ≡ self.old.looks ++ text_looks (plain_text text.now)) }
    {
        push_looks(alloc, text, &mut self.looks)
    }

    /// A step that wasn't refused uses the label that its text is.
    pub fn use_label(&mut self, alloc: Global, text: &StepText) -> Result<(), NoMemory>
        ensures goals { self.new.goals ≡ self.old.goals }
        ensures broken { self.new.broken ≡ self.old.broken }
        ensures looks { self.new.looks ≡ self.old.looks }
        ensures uses { OnOk result (self.new.uses ≡ self.old.uses ++ uses_of (plain_text text.now)) }
    {
        match text {
            StepText::OfLabel(label) => self.uses.push(label.copy(alloc)?),
            _ => Ok(()),
        }
    }

    /// The outcome of the whole replay: each label and each look once.
    pub fn outcome(self, alloc: Global) -> Result<Outcome, NoMemory>
        ensures { IfOk result (λ outcome. outcome ≡ tally_outcome self) }
    {
        let Tally {
            goals,
            broken,
            uses,
            looks,
        } = self;
        Ok(Outcome {
            closed: goals == 0 && broken.is_none(),
            goals,
            broken,
            uses: labels_once(alloc, uses.items())?,
            looks: looks_once(alloc, looks.items())?,
        })
    }
}
