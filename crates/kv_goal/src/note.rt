// What is told of a formula once.

ghost use Rattle.std.specs.Prelude.{IfOk};
ghost use Rattle.kv_trees.specs.Bridge.{plain_form};
ghost use Rattle.kv_goal.specs.Notes.{Describes};

use crate::names::{push_assumed_form, push_free_form};
use crate::once::{procedures_once, variables_once};
use crate::sizes::{Size, form_size};
use kv_syn::{Form, List, Name, NoMemory, Profile, Var};
use std::alloc::Global;

/// What steps ask of a formula again and again: its size, and its free names.
#[derive(Drop)]
pub struct Note {
    pub size: Size,
    /// The free variables, of those of one name the first.
    pub free: List<Var>,
    /// The assumed procedures, of those of one name the first.
    pub assumed: List<(Name, Profile)>,
}

impl Note {
    /// What is told of the formula.
    pub fn of(alloc: Global, form: &Form) -> Result<Note, NoMemory>
        ensures { IfOk result (λ note. Describes note (plain_form form.now)) }
    {
        let mut free = List::new(alloc);
        push_free_form(alloc, form, &mut free)?;
        let mut assumed = List::new(alloc);
        push_assumed_form(alloc, form, &mut assumed)?;
        Ok(Note {
            size: form_size(form),
            free: variables_once(alloc, free.items())?,
            assumed: procedures_once(alloc, assumed.items())?,
        })
    }
}
