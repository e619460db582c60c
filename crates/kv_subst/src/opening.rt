// Opening and closing.

ghost use Rattle.std.specs.Prelude.{◌≡◌, ◌+◌, ◌-◌, ◌<◌, ◌^◌, ◌↔◌, None, IfOk, IsErrOf};
ghost use Rattle.kv_trees.specs.Bridge.{plain_term, plain_form, plain_prog};
ghost use Rattle.kv_trees.specs.Trees.{Term as TermTree};
ghost use Rattle.kv_trees.specs.declared.trees.Ref.{Ref};
ghost use Rattle.kv_trees.specs.Variables.{form_binders, prog_binders};
ghost use Rattle.kv_subst.specs.Changing.{changed_form, changed_prog};
ghost use Rattle.kv_subst.specs.Opening.{opened, open_form, open_prog, close_form};
ghost use Rattle.kv_subst.specs.Sizes.{term_reach, form_reach};
ghost use Rattle.kv_subst.specs.Gives.{Gives};

use crate::capture::{admissible, admissible_at_var, prog_admissible};
use crate::changes::Work;
use crate::forms::{form_changed, prog_changed};
use kv_names::{NoMemory, Plain, Var};
use kv_trees::{Form, Prog, Ref, SubstError, Term};
use std::alloc::Global;

/// The body of a binder at the term, be that admissible or not.
pub fn form_opened(alloc: Global, body: &Form, at: &Term) -> Result<Form, NoMemory>
    requires { form_binders (plain_form body.now) + term_reach (plain_term at.now) < 2 ^ 32 }
    ensures { IfOk result (λ f. plain_form f ≡ changed_form (opened (plain_term at.now)) 0 (plain_form body.now)) }
{
    form_changed(alloc, body, &Work::Open(at), 0)
}

fn prog_opened(alloc: Global, body: &Prog, at: &Term) -> Result<Prog, NoMemory>
    requires { prog_binders (plain_prog body.now) + term_reach (plain_term at.now) < 2 ^ 32 }
    ensures { IfOk result (λ a. plain_prog a ≡ changed_prog (opened (plain_term at.now)) 0 (plain_prog body.now)) }
{
    prog_changed(alloc, body, &Work::Open(at), 0)
}

/// The body of a binder at the term; `Captured` exactly where that isn't admissible.
pub fn open(alloc: Global, body: &Form, at: &Term) -> Result<Form, SubstError>
    requires { form_binders (plain_form body.now) + term_reach (plain_term at.now) < 2 ^ 32 - 1 }
    ensures value { Gives plain_form result (open_form (plain_form body.now) (plain_term at.now)) }
    ensures captured { IsErrOf result SubstError.Captured ↔ (open_form (plain_form body.now) (plain_term at.now) ≡ None) }
{
    if !admissible(body, at) {
        return Err(SubstError::Captured);
    }
    Ok(form_opened(alloc, body, at)?)
}

/// The body of a block at the term; `Captured` exactly where that isn't admissible.
pub fn open_prog(alloc: Global, body: &Prog, at: &Term) -> Result<Prog, SubstError>
    requires { prog_binders (plain_prog body.now) + term_reach (plain_term at.now) < 2 ^ 32 - 1 }
    ensures value { Gives plain_prog result (open_prog (plain_prog body.now) (plain_term at.now)) }
    ensures captured { IsErrOf result SubstError.Captured ↔ (open_prog (plain_prog body.now) (plain_term at.now) ≡ None) }
{
    if !prog_admissible(body, at) {
        return Err(SubstError::Captured);
    }
    Ok(prog_opened(alloc, body, at)?)
}

/// The body of a binder at the variable; `Captured` exactly where that isn't admissible.
pub fn open_var(alloc: Global, body: &Form, at: &Var) -> Result<Form, SubstError>
    requires { form_binders (plain_form body.now) < 2 ^ 32 - 1 }
    ensures value { Gives plain_form result (open_form (plain_form body.now) (TermTree.Place (Ref.Free at.now))) }
    ensures captured { IsErrOf result SubstError.Captured ↔ (open_form (plain_form body.now) (TermTree.Place (Ref.Free at.now)) ≡ None) }
{
    if !admissible_at_var(body, at) {
        return Err(SubstError::Captured);
    }
    let term = Term::Place(Ref::Free(at.copy(alloc)?));
    Ok(form_opened(alloc, body, &term)?)
}

/// The body whose opening at the variable is the formula.
pub fn close_var(alloc: Global, form: &Form, var: &Var) -> Result<Form, NoMemory>
    requires { form_binders (plain_form form.now) + form_reach (plain_form form.now) < 2 ^ 32 }
    ensures { IfOk result (λ f. plain_form f ≡ close_form var.now (plain_form form.now)) }
{
    form_changed(alloc, form, &Work::Close(var), 0)
}
