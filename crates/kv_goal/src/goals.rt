// Sequents at hand.

ghost use Rattle.std.specs.Prelude.{◌≡◌, [], ◌∷◌, ◌++◌, map, IfOk, OnOk};
ghost use Rattle.std.specs.List.{list_any};
ghost use Rattle.std.specs.Str.{bytes_eq};
ghost use Rattle.kv_sig.specs.FreeNames.{free_form, free_forms, free_sequent, assumed_form, assumed_forms, assumed_sequent};
ghost use Rattle.kv_sig.specs.Sequents.{sequent, side_of};
ghost use Rattle.kv_trees.specs.Bridge.{plain_form, plain_sequent};
ghost use Rattle.kv_goal.specs.ByName.{variables_by_name, procedures_by_name, variables_each, procedures_each};
ghost use Rattle.kv_goal.specs.Once.{variables_once, procedures_once};
ghost use Rattle.kv_goal.specs.Goals.{plain_known, plain_goal};

use crate::known::Known;
use crate::once::{procedures_once, variables_once};
use kv_sig::same_name;
use kv_syn::{Form, List, Name, NoMemory, Plain, Profile, Sequent, Shared, Side, Var};
use std::alloc::Global;

/// A sequent with what is told of each of its formulas. What is told is shared with the sequents that are made of it.
#[derive(Drop)]
pub struct Goal {
    pub left: List<Shared<Known>>,
    pub right: List<Shared<Known>>,
}

impl Goal {
    /// The goal without formulas. It takes no memory yet.
    pub fn empty(alloc: Global) -> Goal {
        Goal {
            left: List::new(alloc),
            right: List::new(alloc),
        }
    }

    /// The formula alone on the right.
    pub fn of_form(alloc: Global, form: &Form) -> Result<Goal, NoMemory>
        ensures { IfOk result (λ goal. plain_goal goal ≡ sequent [] (plain_form form.now ∷ [])) }
    {
        let mut right = List::new(alloc);
        right.push(Known::of(alloc, form.copy(alloc)?)?)?;
        Ok(Goal {
            left: List::new(alloc),
            right,
        })
    }

    /// The sequent, with what is told of its formulas.
    pub fn of(alloc: Global, sequent: &Sequent) -> Result<Goal, NoMemory>
        ensures { IfOk result (λ goal. plain_goal goal ≡ plain_sequent sequent.now) }
    {
        Ok(Goal {
            left: known_forms(alloc, sequent.left.items())?,
            right: known_forms(alloc, sequent.right.items())?,
        })
    }

    /// The sequent alone.
    pub fn sequent(&self, alloc: Global) -> Result<Sequent, NoMemory>
        ensures { IfOk result (λ sequent. plain_sequent sequent ≡ plain_goal self.now) }
    {
        Ok(Sequent {
            left: forms(alloc, self.left.items())?,
            right: forms(alloc, self.right.items())?,
        })
    }

    /// Lends the formulas of a side, in order.
    pub fn side(&self, side: Side) -> &[Shared<Known>]
        ensures { map plain_known result.now ≡ side_of side (plain_goal self.now) }
    {
        match side {
            Side::L => self.left.items(),
            Side::R => self.right.items(),
        }
    }

    /// Whether a free variable has the name.
    pub fn has_variable(&self, name: &Name) -> bool
        ensures { result ≡ list_any (λ y. bytes_eq y.name name.now) (free_sequent (plain_goal self.now)) }
    {
        have_variable(self.left.items(), name) || have_variable(self.right.items(), name)
    }

    /// Whether an assumed procedure has the name.
    pub fn has_procedure(&self, name: &Name) -> bool
        ensures { result ≡ list_any (λ p. bytes_eq p.0 name.now) (assumed_sequent (plain_goal self.now)) }
    {
        have_procedure(self.left.items(), name) || have_procedure(self.right.items(), name)
    }

    /// The free variables, of those of one name the first.
    pub fn variables(&self, alloc: Global) -> Result<List<Var>, NoMemory>
        ensures { IfOk result (λ free. free ≡ variables_by_name (plain_goal self.now)) }
    {
        let mut all = List::new(alloc);
        push_variables(alloc, self.left.items(), &mut all)?;
        push_variables(alloc, self.right.items(), &mut all)?;
        variables_once(alloc, all.items())
    }

    /// The assumed procedures, of those of one name the first.
    pub fn procedures(&self, alloc: Global) -> Result<List<(Name, Profile)>, NoMemory>
        ensures { IfOk result (λ assumed. assumed ≡ procedures_by_name (plain_goal self.now)) }
    {
        let mut all = List::new(alloc);
        push_procedures(alloc, self.left.items(), &mut all)?;
        push_procedures(alloc, self.right.items(), &mut all)?;
        procedures_once(alloc, all.items())
    }
}

fn known_forms(alloc: Global, forms: &[Form]) -> Result<List<Shared<Known>>, NoMemory>
    ensures { IfOk result (λ knowns. map plain_known knowns ≡ map plain_form forms.now) }
{
    let mut knowns = List::new(alloc);
    for form in forms {
        knowns.push(Known::of(alloc, form.copy(alloc)?)?)?;
    }
    Ok(knowns)
}

fn forms(alloc: Global, knowns: &[Shared<Known>]) -> Result<List<Form>, NoMemory>
    ensures { IfOk result (λ forms. map plain_form forms ≡ map plain_known knowns.now) }
{
    let mut forms = List::new(alloc);
    for known in knowns {
        forms.push(known.get().form.copy(alloc)?)?;
    }
    Ok(forms)
}

/// Whether a free variable of the formulas has the name.
fn have_variable(knowns: &[Shared<Known>], name: &Name) -> bool
    ensures { result ≡ list_any (λ y. bytes_eq y.name name.now) (free_forms (map plain_known knowns.now)) }
{
    for known in knowns {
        if has_variable(known.get(), name) {
            return true;
        }
    }
    false
}

fn has_variable(known: &Known, name: &Name) -> bool
    ensures { result ≡ list_any (λ y. bytes_eq y.name name.now) (free_form (plain_known known.now)) }
{
    is_variable(known.note.free.items(), name)
}

fn is_variable(variables: &[Var], name: &Name) -> bool
    ensures { result ≡ list_any (λ y. bytes_eq y.name name.now) variables.now }
{
    for variable in variables {
        if same_name(&variable.name, name) {
            return true;
        }
    }
    false
}

/// Whether an assumed procedure of the formulas has the name.
fn have_procedure(knowns: &[Shared<Known>], name: &Name) -> bool
    ensures { result ≡ list_any (λ p. bytes_eq p.0 name.now) (assumed_forms (map plain_known knowns.now)) }
{
    for known in knowns {
        if has_procedure(known.get(), name) {
            return true;
        }
    }
    false
}

fn has_procedure(known: &Known, name: &Name) -> bool
    ensures { result ≡ list_any (λ p. bytes_eq p.0 name.now) (assumed_form (plain_known known.now)) }
{
    is_procedure(known.note.assumed.items(), name)
}

fn is_procedure(procedures: &[(Name, Profile)], name: &Name) -> bool
    ensures { result ≡ list_any (λ p. bytes_eq p.0 name.now) procedures.now }
{
    for procedure in procedures {
        if same_name(&procedure.0, name) {
            return true;
        }
    }
    false
}

fn push_variables(
    alloc: Global,
    knowns: &[Shared<Known>],
    all: &mut List<Var>,
) -> Result<(), NoMemory>
    ensures { OnOk result (all.new ≡ all.old ++ variables_each (map plain_known knowns.now)) }
{
    for known in knowns {
        push_variables_of(alloc, known.get(), all)?;
    }
    Ok(())
}

fn push_variables_of(alloc: Global, known: &Known, all: &mut List<Var>) -> Result<(), NoMemory>
    ensures { OnOk result (all.new ≡ all.old ++ variables_once (free_form (plain_known known.now))) }
{
    push_copies(alloc, known.note.free.items(), all)
}

fn push_procedures(
    alloc: Global,
    knowns: &[Shared<Known>],
    all: &mut List<(Name, Profile)>,
) -> Result<(), NoMemory>
    ensures { OnOk result (all.new ≡ all.old ++ procedures_each (map plain_known knowns.now)) }
{
    for known in knowns {
        push_procedures_of(alloc, known.get(), all)?;
    }
    Ok(())
}

fn push_procedures_of(
    alloc: Global,
    known: &Known,
    all: &mut List<(Name, Profile)>,
) -> Result<(), NoMemory>
    ensures { OnOk result (all.new ≡ all.old ++ procedures_once (assumed_form (plain_known known.now))) }
{
    push_copies(alloc, known.note.assumed.items(), all)
}

/// Adds copies of the items at the end.
fn push_copies<T: Plain + Drop>(
    alloc: Global,
    items: &[T],
    all: &mut List<T>,
) -> Result<(), NoMemory>
    ensures { OnOk result (all.new ≡ all.old ++ items.now) }
{
    for item in items {
        all.push(item.copy(alloc)?)?;
    }
    Ok(())
}
