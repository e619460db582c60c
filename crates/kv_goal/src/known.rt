// Formulas with what is told of them.

ghost use Rattle.std.specs.Prelude.{◌≡◌, IfOk};
ghost use Rattle.kv_trees.specs.Bridge.{plain_form};
ghost use Rattle.kv_trees.specs.Count.{form_nodes, form_depth};
ghost use Rattle.kv_goal.specs.Measures.{Measures};
ghost use Rattle.kv_goal.specs.Notes.{Describes};

use crate::note::Note;
use crate::sizes::Size;
use kv_syn::{Form, NoMemory, Shared};
use std::alloc::Global;

/// A formula with what is told of it once. A sequent shares it with those that are made of it.
#[derive(Drop)]
pub struct Known {
    pub form: Form,
    pub note: Note,
    ghost right: { Describes note (plain_form form) },
}

impl Known {
    /// The formula with what is told of it.
    pub fn of(alloc: Global, form: Form) -> Result<Shared<Known>, NoMemory>
        ensures { IfOk result (λ known. plain_form known.form ≡ plain_form form) }
    {
        let note = Note::of(alloc, &form)?;
        Shared::new(alloc, Known { form, note })
    }

    /// How large the formula is.
    pub fn size(&self) -> Size
        ensures { Measures result (form_nodes (plain_form self.now.form)) (form_depth (plain_form self.now.form)) }
    {
        self.note.size
    }
}
