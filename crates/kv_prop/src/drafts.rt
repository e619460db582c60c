// What a premise is made of, and how large it would be, before it is built.

ghost use Rattle.std.specs.Prelude.{◌≡◌, ◌++◌, ◌≤◌, [], ◌∷◌, map, length, IfOk, OnOk};
ghost use Rattle.kv_sig.specs.Places.{with_item, with_items, without_item};
ghost use Rattle.kv_sig.specs.Sequents.{side_of, with_side, in_place, two_in_place, at_end, without};
ghost use Rattle.kv_trees.specs.Bridge.{plain_form};
ghost use Rattle.kv_trees.specs.Count.{form_nodes, form_depth, forms_nodes, forms_depth};
ghost use Rattle.kv_goal.specs.Goals.{plain_goal, plain_known};
ghost use Rattle.kv_prop.specs.Drafts.{form_of, forms_of, part_of, draft_of};
ghost use Rattle.kv_goal.specs.Measures.{Measures};
ghost use Rattle.kv_prop.specs.Premises.{fits, one, two, Gives};

use crate::limits::fits;
use crate::opening::Opening;
use crate::replacing::Replacing;
use kv_goal::{Goal, Known, Size, form_size, term_size};
use kv_sig::StepError;
use kv_syn::{Form, List, NoMemory, Plain, Shared, Side, Term};
use std::alloc::Global;

/// A formula that a premise has in addition to those of the sequent.
#[derive(Clone, Copy)]
pub(crate) enum New<'a> {
    Copied(&'a Form),
    Imp(&'a Shared<Form>, &'a Shared<Form>),
    Equal(&'a Term, &'a Term),
    /// The body of a binder at the term.
    Opened(Opening<'a>),
    /// A formula with a term in place of another one.
    Replaced(Replacing<'a>),
}

impl New<'_> {
    fn size(&self) -> Size
        ensures { Measures result (form_nodes (form_of self.now)) (form_depth (form_of self.now)) }
    {
        match self {
            New::Copied(form) => form_size(form),
            New::Imp(one, two) => Size::over(form_size(one.get()), form_size(two.get())),
            New::Equal(one, two) => Size::over(term_size(one), term_size(two)),
            New::Opened(opening) => opening.size(),
            New::Replaced(replacing) => replacing.size(),
        }
    }

    fn built(&self, alloc: Global) -> Result<Form, NoMemory>
        ensures { IfOk result (λ form. plain_form form ≡ form_of self.now) }
    {
        match self {
            New::Copied(form) => form.copy(alloc),
            New::Imp(one, two) => Ok(Form::Imp(one.share()?, two.share()?)),
            New::Equal(one, two) => Ok(Form::Equal(one.copy(alloc)?, two.copy(alloc)?)),
            New::Opened(opening) => opening.form(alloc),
            New::Replaced(replacing) => replacing.form(alloc),
        }
    }
}

/// A side of a premise: formulas of the sequent, at most two new ones, and again some of the sequent.
#[derive(Clone, Copy)]
pub(crate) struct Part<'a> {
    front: &'a [Shared<Known>],
    first: Option<New<'a>>,
    second: Option<New<'a>>,
    back: &'a [Shared<Known>],
}

impl<'a> Part<'a> {
    /// The formulas as they are.
    pub fn whole(forms: &'a [Shared<Known>]) -> Part<'a>
        ensures { part_of result ≡ map plain_known forms.now }
    {
        Part {
            front: &[],
            first: None,
            second: None,
            back: forms,
        }
    }

    /// The formulas with one more at the end.
    pub fn at_end(forms: &'a [Shared<Known>], new: New<'a>) -> Part<'a>
        ensures { part_of result ≡ map plain_known forms.now ++ form_of new.entry ∷ [] }
    {
        Part {
            front: forms,
            first: Some(new),
            second: None,
            back: &[],
        }
    }

    /// The formulas with another one at a place.
    pub fn in_place(forms: &'a [Shared<Known>], place: u32, new: New<'a>) -> Part<'a>
        requires low { 1 ≤ place }
        requires high { place ≤ length forms.now }
        ensures { part_of result ≡ with_item (map plain_known forms.now) place (form_of new.entry) }
    {
        Part {
            front: &forms[..place as usize - 1],
            first: Some(new),
            second: None,
            back: &forms[place as usize..],
        }
    }

    /// The formulas with two others at a place.
    pub fn two_in_place(
        forms: &'a [Shared<Known>],
        place: u32,
        first: New<'a>,
        second: New<'a>,
    ) -> Part<'a>
        requires low { 1 ≤ place }
        requires high { place ≤ length forms.now }
        ensures { part_of result ≡ with_items (map plain_known forms.now) place (form_of first.entry ∷ form_of second.entry ∷ []) }
    {
        Part {
            front: &forms[..place as usize - 1],
            first: Some(first),
            second: Some(second),
            back: &forms[place as usize..],
        }
    }

    /// The formulas without the one at a place.
    pub fn without(forms: &'a [Shared<Known>], place: u32) -> Part<'a>
        requires low { 1 ≤ place }
        requires high { place ≤ length forms.now }
        ensures { part_of result ≡ without_item (map plain_known forms.now) place }
    {
        Part {
            front: &forms[..place as usize - 1],
            first: None,
            second: None,
            back: &forms[place as usize..],
        }
    }

    #[tactic(auto, using(crate::proofs::Sums::nodes_of_both, crate::proofs::Sums::depth_of_both))]
    fn size(&self) -> Size
        ensures { Measures result (forms_nodes (part_of self.now)) (forms_depth (part_of self.now)) }
    {
        let first = new_size(&self.first);
        let second = new_size(&self.second);
        let back = known_size(self.back);
        known_size(self.front).and(first.and(second.and(back)))
    }

    fn built(&self, alloc: Global) -> Result<List<Shared<Known>>, NoMemory>
        ensures { IfOk result (λ forms. map plain_known forms ≡ part_of self.now) }
    {
        let mut forms = List::new(alloc);
        push_shared(&mut forms, self.front)?;
        push_new(alloc, &mut forms, &self.first)?;
        push_new(alloc, &mut forms, &self.second)?;
        push_shared(&mut forms, self.back)?;
        Ok(forms)
    }
}

/// How large the new formula is, where there is one.
fn new_size(new: &Option<New<'_>>) -> Size
    ensures { Measures result (forms_nodes (forms_of new.now)) (forms_depth (forms_of new.now)) }
{
    match new {
        None => Size::none(),
        Some(form) => form.size(),
    }
}

/// How large the formulas are together.
fn known_size(forms: &[Shared<Known>]) -> Size
    ensures { Measures result (forms_nodes (map plain_known forms.now)) (forms_depth (map plain_known forms.now)) }
{
    let mut size = Size::none();
    for form in forms {
        size = size.and(form.get().size());
    }
    size
}

/// Adds the formulas at the end.
fn push_shared(all: &mut List<Shared<Known>>, forms: &[Shared<Known>]) -> Result<(), NoMemory>
    ensures { OnOk result (all.new ≡ all.old ++ forms.now) }
{
    for form in forms {
        all.push(form.share()?)?;
    }
    Ok(())
}

/// Adds the new formula at the end, where there is one.
fn push_new(
    alloc: Global,
    forms: &mut List<Shared<Known>>,
    new: &Option<New<'_>>,
) -> Result<(), NoMemory>
    ensures { OnOk result (map plain_known forms.new ≡ map plain_known forms.old ++ forms_of new.now) }
{
    match new {
        None => Ok(()),
        Some(form) => forms.push(Known::of(alloc, form.built(alloc)?)?),
    }
}

/// A premise that isn't built yet.
#[derive(Clone, Copy)]
pub(crate) struct Draft<'a> {
    pub left: Part<'a>,
    pub right: Part<'a>,
}

impl<'a> Draft<'a> {
    /// The sequent with one side changed.
    pub fn on_side(goal: &'a Goal, side: Side, part: Part<'a>) -> Draft<'a>
        ensures { draft_of result ≡ with_side side (part_of part.entry) (plain_goal goal.now) }
    {
        match side {
            Side::L => Draft {
                left: part,
                right: Part::whole(goal.right.items()),
            },
            Side::R => Draft {
                left: Part::whole(goal.left.items()),
                right: part,
            },
        }
    }

    /// The sequent with another formula in place of one.
    pub fn in_place(goal: &'a Goal, side: Side, place: u32, new: New<'a>) -> Draft<'a>
        requires low { 1 ≤ place }
        requires high { place ≤ length (side_of side (plain_goal goal.now)) }
        ensures { draft_of result ≡ in_place side place (form_of new.entry) (plain_goal goal.now) }
    {
        let part = Part::in_place(goal.side(side), place, new);
        Draft::on_side(goal, side, part)
    }

    /// The sequent with two formulas in place of one.
    pub fn two_in_place(
        goal: &'a Goal,
        side: Side,
        place: u32,
        first: New<'a>,
        second: New<'a>,
    ) -> Draft<'a>
        requires low { 1 ≤ place }
        requires high { place ≤ length (side_of side (plain_goal goal.now)) }
        ensures { draft_of result ≡ two_in_place side place (form_of first.entry) (form_of second.entry) (plain_goal goal.now) }
    {
        let part = Part::two_in_place(goal.side(side), place, first, second);
        Draft::on_side(goal, side, part)
    }

    /// The sequent with one formula more at the end of a side.
    pub fn at_end(goal: &'a Goal, side: Side, new: New<'a>) -> Draft<'a>
        ensures { draft_of result ≡ at_end side (form_of new.entry) (plain_goal goal.now) }
    {
        Draft::on_side(goal, side, Part::at_end(goal.side(side), new))
    }

    /// The sequent without one of its formulas.
    pub fn without(goal: &'a Goal, side: Side, place: u32) -> Draft<'a>
        requires low { 1 ≤ place }
        requires high { place ≤ length (side_of side (plain_goal goal.now)) }
        ensures { draft_of result ≡ without side place (plain_goal goal.now) }
    {
        Draft::on_side(goal, side, Part::without(goal.side(side), place))
    }

    /// Whether the premise keeps the limits of a sequent.
    fn fits(&self) -> bool
        ensures { result ≡ fits (draft_of self.now) }
    {
        let left = self.left.size();
        let right = self.right.size();
        fits(left.and(right))
    }

    fn built(&self, alloc: Global) -> Result<Goal, NoMemory>
        ensures { IfOk result (λ goal. plain_goal goal ≡ draft_of self.now) }
    {
        Ok(Goal {
            left: self.left.built(alloc)?,
            right: self.right.built(alloc)?,
        })
    }
}

/// The premise alone, where it keeps the limits.
pub(crate) fn one(alloc: Global, premise: &Draft<'_>) -> Result<List<Goal>, StepError>
    ensures { Gives (map plain_goal) result (one (draft_of premise.now)) }
{
    if !premise.fits() {
        return Err(StepError::Large);
    }
    let mut premises = List::new(alloc);
    premises.push(premise.built(alloc)?)?;
    Ok(premises)
}

/// Both premises, where both keep the limits.
pub(crate) fn two(
    alloc: Global,
    first: &Draft<'_>,
    second: &Draft<'_>,
) -> Result<List<Goal>, StepError>
    ensures { Gives (map plain_goal) result (two (draft_of first.now) (draft_of second.now)) }
{
    if !(first.fits() && second.fits()) {
        return Err(StepError::Large);
    }
    let mut premises = List::new(alloc);
    premises.push(first.built(alloc)?)?;
    premises.push(second.built(alloc)?)?;
    Ok(premises)
}
