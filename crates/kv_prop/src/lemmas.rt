// The rule for entries.

ghost use Rattle.std.specs.Prelude.{◌≡◌, map};
ghost use Rattle.std.specs.List.{find};
ghost use Rattle.std.specs.Option.{option_copied};
ghost use Rattle.std.specs.Str.{bytes_eq};
ghost use Rattle.kv_sig.specs.Sequents.{at_end};
ghost use Rattle.kv_sig.specs.Views.{formula_of, view_of};
ghost use Rattle.kv_syn.specs.declared.scripts.Side.TheVariants.{L};
ghost use Rattle.kv_goal.specs.Goals.{plain_goal};
ghost use Rattle.kv_prop.specs.Premises.{or_label, one, Gives};

use crate::drafts::{Draft, New, one};
use kv_goal::Goal;
use kv_sig::{Env, StepError};
use kv_syn::{Entry, Label, List, Plain, Side};
use std::alloc::Global;

/// `use LABEL`: the entry's formula is assumed at the end of the left.
pub(crate) fn use_entry(
    alloc: Global,
    env: &Env<'_>,
    goal: &Goal,
    label: &Label,
) -> Result<List<Goal>, StepError>
    ensures { Gives (map plain_goal) result (or_label label.now (formula_of env.now.flat.now.entries label.now) (λ f. one (at_end L f (plain_goal goal.now)))) }
{
    let Some(entry) = entry_of(env.flat.entries.items(), label) else {
        return Err(StepError::NoLabel {
            label: label.copy(alloc)?,
        });
    };
    one(
        alloc,
        &Draft::at_end(goal, Side::L, New::Copied(&entry.form)),
    )
}

/// The first entry with the label.
fn entry_of<'a>(entries: &'a [Entry], label: &Label) -> Option<&'a Entry>
    ensures { option_copied result ≡ find (λ entry. bytes_eq entry.label label.now) entries.now }
{
    for entry in entries {
        if entry.label.bytes() == label.bytes() {
            return Some(entry);
        }
    }
    None
}
