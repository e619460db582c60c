// Copies and comparisons of steps and scripts.

use crate::scripts::{Side, Step, StepText, TypedStep, TypedText};
use kv_names::{NoMemory, Plain};
use std::alloc::Global;

impl Plain for Side {
    fn copy(&self, _alloc: Global) -> Result<Side, NoMemory> {
        Ok(*self)
    }

    fn same(&self, other: &Side) -> bool {
        matches!((self, other), (Side::L, Side::L) | (Side::R, Side::R))
    }
}

impl Plain for StepText {
    fn copy(&self, alloc: Global) -> Result<StepText, NoMemory> {
        match self {
            StepText::Nothing => Ok(StepText::Nothing),
            StepText::Fresh(name) => Ok(StepText::Fresh(name.copy(alloc)?)),
            StepText::OfTerm(term) => Ok(StepText::OfTerm(term.copy(alloc)?)),
            StepText::OfForm(form) => Ok(StepText::OfForm(form.copy(alloc)?)),
            StepText::OfLabel(label) => Ok(StepText::OfLabel(label.copy(alloc)?)),
        }
    }

    fn same(&self, other: &StepText) -> bool {
        match (self, other) {
            (StepText::Nothing, StepText::Nothing) => true,
            (StepText::Fresh(name), StepText::Fresh(name_2)) => name.same(name_2),
            (StepText::OfTerm(term), StepText::OfTerm(term_2)) => term.same(term_2),
            (StepText::OfForm(form), StepText::OfForm(form_2)) => form.same(form_2),
            (StepText::OfLabel(label), StepText::OfLabel(label_2)) => label.same(label_2),
            _ => false,
        }
    }
}

impl Plain for Step {
    fn copy(&self, alloc: Global) -> Result<Step, NoMemory> {
        Ok(Step {
            rule: self.rule.copy(alloc)?,
            side: self.side.copy(alloc)?,
            numbers: self.numbers.copy(alloc)?,
            text: self.text.copy(alloc)?,
        })
    }

    fn same(&self, other: &Step) -> bool {
        self.rule.same(&other.rule)
            && self.side.same(&other.side)
            && self.numbers.same(&other.numbers)
            && self.text.same(&other.text)
    }
}

impl Plain for TypedText {
    fn copy(&self, alloc: Global) -> Result<TypedText, NoMemory> {
        match self {
            TypedText::Nothing => Ok(TypedText::Nothing),
            TypedText::Fresh(name) => Ok(TypedText::Fresh(name.copy(alloc)?)),
            TypedText::OfTerm(term) => Ok(TypedText::OfTerm(term.copy(alloc)?)),
            TypedText::OfForm(form) => Ok(TypedText::OfForm(form.copy(alloc)?)),
            TypedText::OfLabel(label) => Ok(TypedText::OfLabel(label.copy(alloc)?)),
        }
    }

    fn same(&self, other: &TypedText) -> bool {
        match (self, other) {
            (TypedText::Nothing, TypedText::Nothing) => true,
            (TypedText::Fresh(name), TypedText::Fresh(name_2)) => name.same(name_2),
            (TypedText::OfTerm(term), TypedText::OfTerm(term_2)) => term.same(term_2),
            (TypedText::OfForm(form), TypedText::OfForm(form_2)) => form.same(form_2),
            (TypedText::OfLabel(label), TypedText::OfLabel(label_2)) => label.same(label_2),
            _ => false,
        }
    }
}

impl Plain for TypedStep {
    fn copy(&self, alloc: Global) -> Result<TypedStep, NoMemory> {
        Ok(TypedStep {
            rule: self.rule.copy(alloc)?,
            side: self.side.copy(alloc)?,
            numbers: self.numbers.copy(alloc)?,
            text: self.text.copy(alloc)?,
        })
    }

    fn same(&self, other: &TypedStep) -> bool {
        self.rule.same(&other.rule)
            && self.side.same(&other.side)
            && self.numbers.same(&other.numbers)
            && self.text.same(&other.text)
    }
}
