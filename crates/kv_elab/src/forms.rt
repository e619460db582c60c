// Typing of formulas and programs.

ghost use Rattle.std.specs.Prelude.{◌≡◌, [], OnOk, IfOk};
ghost use Rattle.kv_trees.specs.Bridge.{plain_form, plain_prog};
ghost use Rattle.kv_raw.specs.RawBridge.{raw_term, raw_terms, raw_form, raw_prog};
ghost use Rattle.kv_raw.specs.RawTrees.{RawForm as FormTree, RawProg as ProgTree};
ghost use Rattle.kv_sig.specs.Typing.{IsForm, IsProg};
ghost use Rattle.kv_sig.specs.FreeNames.{IsClosed};
ghost use Rattle.kv_elab.specs.Scopes.{under};
ghost use Rattle.kv_names.specs.declared.symbols.Var.{Var as VarValue};
ghost use Rattle.kv_elab.specs.declared.contexts.Context.{Context as ContextValue};
ghost use Rattle.kv_elab.specs.Typed.{Gives};
ghost use Rattle.kv_elab.specs.Lawful.{sorts_of, IsLawful, IsWithin};
ghost use Rattle.kv_elab.specs.Elab.{elab_sort, elab_condition, elab_form, elab_prog};

use crate::calls::{typed_call, typed_place};
use crate::contexts::Context;
use crate::errors::TypeError;
use crate::names::variable;
use crate::programs::has_program;
use crate::terms::{count, elaborate_term, term_of_sort, typed_args};
use kv_sig::Sig;
use kv_syn::{Form, Name, NoMemory, Plain, Profile, Prog, RawForm, RawProg, RawTerm, Shared, Var};
use std::alloc::Global;

/// The typed formula, or the first fault from left to right.
pub fn elaborate(
    alloc: Global,
    sig: &Sig,
    context: &Context,
    raw: &RawForm,
) -> Result<Form, TypeError>
    ensures value { Gives plain_form result (elab_form sig.now context.now (raw_form raw.now)) }
    ensures typed { IfOk result (λ form. IsLawful sig.now context.now → IsForm sig.now (sorts_of context.now) (plain_form form)) }
    ensures names { IfOk result (λ form. IsWithin context.now (plain_form form)) }
    ensures closed { IfOk result (λ form. context.now.free ≡ [] → context.now.assumed ≡ [] → IsClosed (plain_form form)) }
{
    form_in(alloc, sig, context, raw)
}

fn form_in(alloc: Global, sig: &Sig, context: &Context, raw: &RawForm) -> Result<Form, TypeError>
    ensures { Gives plain_form result (elab_form sig.now context.now (raw_form raw.now)) }
{
    let mut scope = context.copy(alloc)?;
    typed_form(alloc, sig, &mut scope, raw)
}

/// The typed program, or the first fault from left to right.
pub fn elaborate_prog(
    alloc: Global,
    sig: &Sig,
    context: &Context,
    raw: &RawProg,
) -> Result<Prog, TypeError>
    ensures value { Gives plain_prog result (elab_prog sig.now context.now (raw_prog raw.now)) }
    ensures typed { IfOk result (λ prog. IsLawful sig.now context.now → IsProg sig.now (sorts_of context.now) (plain_prog prog)) }
{
    prog_in(alloc, sig, context, raw)
}

fn prog_in(alloc: Global, sig: &Sig, context: &Context, raw: &RawProg) -> Result<Prog, TypeError>
    ensures { Gives plain_prog result (elab_prog sig.now context.now (raw_prog raw.now)) }
{
    let mut scope = context.copy(alloc)?;
    typed_prog(alloc, sig, &mut scope, raw)
}

fn typed_atom(
    alloc: Global,
    sig: &Sig,
    context: &Context,
    name: &Name,
    args: &[RawTerm],
) -> Result<Form, TypeError>
    ensures { Gives plain_form result (elab_form sig.now context.now (FormTree.Atom name.now (raw_terms args.now))) }
{
    match variable(alloc, context, name)? {
        Some(_) => Err(TypeError::Unknown {
            name: name.copy(alloc)?,
        }),
        None => match sig.look(name) {
            Some(Profile::Pred { args: wants }) => {
                if count(args) != wants.items().len() {
                    return Err(TypeError::Arity {
                        name: name.copy(alloc)?,
                    });
                }
                let typed = typed_args(alloc, sig, context, wants.items(), args)?;
                Ok(Form::Atom(name.copy(alloc)?, Shared::new(alloc, typed)?))
            }
            _ => Err(TypeError::Unknown {
                name: name.copy(alloc)?,
            }),
        },
    }
}

fn typed_equation(
    alloc: Global,
    sig: &Sig,
    context: &Context,
    left: &RawTerm,
    right: &RawTerm,
) -> Result<Form, TypeError>
    ensures { Gives plain_form result (elab_form sig.now context.now (FormTree.Equal (raw_term left.now) (raw_term right.now))) }
{
    let (term, sort) = elaborate_term(alloc, sig, context, left)?;
    Ok(Form::Equal(term, term_of_sort(alloc, sig, context, &sort, right)?))
}

fn typed_assignment(
    alloc: Global,
    sig: &Sig,
    context: &Context,
    name: &Name,
    value: &RawTerm,
) -> Result<Prog, TypeError>
    ensures { Gives plain_prog result (elab_prog sig.now context.now (ProgTree.Assign name.now (raw_term value.now))) }
{
    let (place, sort) = typed_place(alloc, context, name)?;
    Ok(Prog::Assign(place, term_of_sort(alloc, sig, context, &sort, value)?))
}

/// The sort of that name.
fn typed_sort(alloc: Global, sig: &Sig, name: &Name) -> Result<Name, TypeError>
    ensures { Gives (λ sort. sort) result (elab_sort sig.now name.now) }
{
    match sig.look(name) {
        Some(Profile::Sort) => Ok(name.copy(alloc)?),
        _ => Err(TypeError::Unknown {
            name: name.copy(alloc)?,
        }),
    }
}

/// Goes inside a binder.
fn enter(scope: &mut Context, binder: Var) -> Result<(), NoMemory>
    ensures { OnOk result (scope.new ≡ under scope.old binder) }
{
    scope.bound.push(binder)
}

/// Goes out of the innermost binder.
fn leave(scope: &mut Context)
    ensures { (outer : ContextValue) (binder : VarValue) → scope.old ≡ under outer binder → scope.new ≡ outer }
{
    scope.bound.pop();
}

#[cycle(typed_form)]
fn typed_form(
    alloc: Global,
    sig: &Sig,
    scope: &mut Context,
    raw: &RawForm,
) -> Result<Form, TypeError>
    ensures value { Gives plain_form result (elab_form sig.now scope.old (raw_form raw.now)) }
    ensures kept { OnOk result (scope.new ≡ scope.old) }
{
    match raw {
        RawForm::True => Ok(Form::True),
        RawForm::False => Ok(Form::False),
        RawForm::Atom(p, ts) => typed_atom(alloc, sig, scope, p, ts.items()),
        RawForm::Equal(s, t) => typed_equation(alloc, sig, scope, s, t),
        RawForm::Not(f) => Ok(Form::Not(shared_form(alloc, sig, scope, f)?)),
        RawForm::And(f, g) => Ok(Form::And(
            shared_form(alloc, sig, scope, f)?,
            shared_form(alloc, sig, scope, g)?,
        )),
        RawForm::Or(f, g) => Ok(Form::Or(
            shared_form(alloc, sig, scope, f)?,
            shared_form(alloc, sig, scope, g)?,
        )),
        RawForm::Imp(f, g) => Ok(Form::Imp(
            shared_form(alloc, sig, scope, f)?,
            shared_form(alloc, sig, scope, g)?,
        )),
        RawForm::Iff(f, g) => Ok(Form::Iff(
            shared_form(alloc, sig, scope, f)?,
            shared_form(alloc, sig, scope, g)?,
        )),
        RawForm::All(x, f) => Ok(Form::All(
            typed_sort(alloc, sig, &x.sort)?,
            form_under(alloc, sig, scope, x, f)?,
        )),
        RawForm::Ex(x, f) => Ok(Form::Ex(
            typed_sort(alloc, sig, &x.sort)?,
            form_under(alloc, sig, scope, x, f)?,
        )),
        RawForm::After(a, f) => Ok(Form::After(
            shared_prog(alloc, sig, scope, a)?,
            shared_form(alloc, sig, scope, f)?,
        )),
        RawForm::Can(a, f) => Ok(Form::Can(
            shared_prog(alloc, sig, scope, a)?,
            shared_form(alloc, sig, scope, f)?,
        )),
    }
}

#[cycle(typed_form)]
fn shared_form(
    alloc: Global,
    sig: &Sig,
    scope: &mut Context,
    raw: &Shared<RawForm>,
) -> Result<Shared<Form>, TypeError>
    ensures value { Gives plain_form result (elab_form sig.now scope.old (raw_form raw.now)) }
    ensures kept { OnOk result (scope.new ≡ scope.old) }
{
    Ok(Shared::new(alloc, typed_form(alloc, sig, scope, raw.get())?)?)
}

#[cycle(typed_form)]
fn form_under(
    alloc: Global,
    sig: &Sig,
    scope: &mut Context,
    binder: &Var,
    raw: &Shared<RawForm>,
) -> Result<Shared<Form>, TypeError>
    ensures value { Gives plain_form result (elab_form sig.now (under scope.old binder.now) (raw_form raw.now)) }
    ensures kept { OnOk result (scope.new ≡ scope.old) }
{
    enter(scope, binder.copy(alloc)?)?;
    let typed = typed_form(alloc, sig, scope, raw.get())?;
    leave(scope);
    Ok(Shared::new(alloc, typed)?)
}

#[cycle(typed_form)]
fn condition(
    alloc: Global,
    sig: &Sig,
    scope: &mut Context,
    raw: &Shared<RawForm>,
) -> Result<Shared<Form>, TypeError>
    ensures value { Gives plain_form result (elab_condition (raw_form raw.now) (elab_form sig.now scope.old (raw_form raw.now))) }
    ensures kept { OnOk result (scope.new ≡ scope.old) }
{
    if has_program(raw.get()) {
        return Err(TypeError::Program);
    }
    shared_form(alloc, sig, scope, raw)
}

#[cycle(typed_form)]
fn typed_prog(
    alloc: Global,
    sig: &Sig,
    scope: &mut Context,
    raw: &RawProg,
) -> Result<Prog, TypeError>
    ensures value { Gives plain_prog result (elab_prog sig.now scope.old (raw_prog raw.now)) }
    ensures kept { OnOk result (scope.new ≡ scope.old) }
{
    match raw {
        RawProg::Skip => Ok(Prog::Skip),
        RawProg::Abort => Ok(Prog::Abort),
        RawProg::Assign(x, t) => typed_assignment(alloc, sig, scope, x, t),
        RawProg::Seq(a, b) => Ok(Prog::Seq(
            shared_prog(alloc, sig, scope, a)?,
            shared_prog(alloc, sig, scope, b)?,
        )),
        RawProg::If(e, a, b) => Ok(Prog::If(
            condition(alloc, sig, scope, e)?,
            shared_prog(alloc, sig, scope, a)?,
            shared_prog(alloc, sig, scope, b)?,
        )),
        RawProg::While(e, a) => Ok(Prog::While(
            condition(alloc, sig, scope, e)?,
            shared_prog(alloc, sig, scope, a)?,
        )),
        RawProg::Local(x, t, a) => {
            let sort = typed_sort(alloc, sig, &x.sort)?;
            let value = term_of_sort(alloc, sig, scope, &sort, t)?;
            Ok(Prog::Local(sort, value, prog_under(alloc, sig, scope, x, a)?))
        }
        RawProg::Call(p, ts, rs) => typed_call(alloc, sig, scope, p, ts.items(), rs.items()),
        RawProg::Choice(a, b) => Ok(Prog::Choice(
            shared_prog(alloc, sig, scope, a)?,
            shared_prog(alloc, sig, scope, b)?,
        )),
    }
}

#[cycle(typed_form)]
fn shared_prog(
    alloc: Global,
    sig: &Sig,
    scope: &mut Context,
    raw: &Shared<RawProg>,
) -> Result<Shared<Prog>, TypeError>
    ensures value { Gives plain_prog result (elab_prog sig.now scope.old (raw_prog raw.now)) }
    ensures kept { OnOk result (scope.new ≡ scope.old) }
{
    Ok(Shared::new(alloc, typed_prog(alloc, sig, scope, raw.get())?)?)
}

#[cycle(typed_form)]
fn prog_under(
    alloc: Global,
    sig: &Sig,
    scope: &mut Context,
    binder: &Var,
    raw: &Shared<RawProg>,
) -> Result<Shared<Prog>, TypeError>
    ensures value { Gives plain_prog result (elab_prog sig.now (under scope.old binder.now) (raw_prog raw.now)) }
    ensures kept { OnOk result (scope.new ≡ scope.old) }
{
    enter(scope, binder.copy(alloc)?)?;
    let typed = typed_prog(alloc, sig, scope, raw.get())?;
    leave(scope);
    Ok(Shared::new(alloc, typed)?)
}
