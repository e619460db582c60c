// Formulas and programs with other variables.

ghost use Rattle.std.specs.Prelude.{◌≡◌, ◌<◌, ◌^◌, IfOk};
ghost use Rattle.kv_trees.specs.Bridge.{plain_form, plain_prog};
ghost use Rattle.kv_subst.specs.Changing.{changed_form, changed_prog};
ghost use Rattle.kv_subst.specs.Tops.{form_top, prog_top};
ghost use Rattle.kv_subst.specs.Work.{change_of, most_of};

use crate::changes::Work;
use crate::places::{ref_changed, refs_changed};
use crate::terms::{shared_terms, term_changed};
use kv_names::{NoMemory, Plain, Shared};
use kv_trees::{Form, Prog};
use std::alloc::Global;

#[cycle(form_changed)]
pub(crate) fn form_changed(
    alloc: Global,
    form: &Form,
    work: &Work<'_>,
    depth: u32,
) -> Result<Form, NoMemory>
    requires { form_top (most_of work.now) depth (plain_form form.now) < 2 ^ 32 }
    ensures { IfOk result (λ f. plain_form f ≡ changed_form (change_of work.now) depth (plain_form form.now)) }
{
    match form {
        Form::True => Ok(Form::True),
        Form::False => Ok(Form::False),
        Form::Atom(p, ts) => Ok(Form::Atom(p.copy(alloc)?, shared_terms(alloc, ts, work, depth)?)),
        Form::Equal(s, t) => Ok(Form::Equal(
            term_changed(alloc, s, work, depth)?,
            term_changed(alloc, t, work, depth)?,
        )),
        Form::Not(f) => Ok(Form::Not(shared_form(alloc, f, work, depth)?)),
        Form::And(f, g) => Ok(Form::And(
            shared_form(alloc, f, work, depth)?,
            shared_form(alloc, g, work, depth)?,
        )),
        Form::Or(f, g) => Ok(Form::Or(
            shared_form(alloc, f, work, depth)?,
            shared_form(alloc, g, work, depth)?,
        )),
        Form::Imp(f, g) => Ok(Form::Imp(
            shared_form(alloc, f, work, depth)?,
            shared_form(alloc, g, work, depth)?,
        )),
        Form::Iff(f, g) => Ok(Form::Iff(
            shared_form(alloc, f, work, depth)?,
            shared_form(alloc, g, work, depth)?,
        )),
        Form::All(s, f) => Ok(Form::All(s.copy(alloc)?, shared_form(alloc, f, work, depth + 1)?)),
        Form::Ex(s, f) => Ok(Form::Ex(s.copy(alloc)?, shared_form(alloc, f, work, depth + 1)?)),
        Form::After(a, f) => Ok(Form::After(
            shared_prog(alloc, a, work, depth)?,
            shared_form(alloc, f, work, depth)?,
        )),
        Form::Can(a, f) => Ok(Form::Can(
            shared_prog(alloc, a, work, depth)?,
            shared_form(alloc, f, work, depth)?,
        )),
    }
}

#[cycle(form_changed)]
fn shared_form(
    alloc: Global,
    form: &Shared<Form>,
    work: &Work<'_>,
    depth: u32,
) -> Result<Shared<Form>, NoMemory>
    requires { form_top (most_of work.now) depth (plain_form form.now) < 2 ^ 32 }
    ensures { IfOk result (λ f. plain_form f ≡ changed_form (change_of work.now) depth (plain_form form.now)) }
{
    Shared::new(alloc, form_changed(alloc, form.get(), work, depth)?)
}

#[cycle(form_changed)]
pub(crate) fn prog_changed(
    alloc: Global,
    prog: &Prog,
    work: &Work<'_>,
    depth: u32,
) -> Result<Prog, NoMemory>
    requires { prog_top (most_of work.now) depth (plain_prog prog.now) < 2 ^ 32 }
    ensures { IfOk result (λ a. plain_prog a ≡ changed_prog (change_of work.now) depth (plain_prog prog.now)) }
{
    match prog {
        Prog::Skip => Ok(Prog::Skip),
        Prog::Abort => Ok(Prog::Abort),
        Prog::Assign(x, t) => Ok(Prog::Assign(
            ref_changed(alloc, x, work, depth)?,
            term_changed(alloc, t, work, depth)?,
        )),
        Prog::Seq(a, b) => Ok(Prog::Seq(
            shared_prog(alloc, a, work, depth)?,
            shared_prog(alloc, b, work, depth)?,
        )),
        Prog::If(e, a, b) => Ok(Prog::If(
            shared_form(alloc, e, work, depth)?,
            shared_prog(alloc, a, work, depth)?,
            shared_prog(alloc, b, work, depth)?,
        )),
        Prog::While(e, a) => Ok(Prog::While(
            shared_form(alloc, e, work, depth)?,
            shared_prog(alloc, a, work, depth)?,
        )),
        Prog::Local(s, t, a) => Ok(Prog::Local(
            s.copy(alloc)?,
            term_changed(alloc, t, work, depth)?,
            shared_prog(alloc, a, work, depth + 1)?,
        )),
        Prog::Call(p, ts, rs) => Ok(Prog::Call(
            p.copy(alloc)?,
            shared_terms(alloc, ts, work, depth)?,
            Shared::new(alloc, refs_changed(alloc, rs.items(), work, depth)?)?,
        )),
        Prog::Choice(a, b) => Ok(Prog::Choice(
            shared_prog(alloc, a, work, depth)?,
            shared_prog(alloc, b, work, depth)?,
        )),
    }
}

#[cycle(form_changed)]
fn shared_prog(
    alloc: Global,
    prog: &Shared<Prog>,
    work: &Work<'_>,
    depth: u32,
) -> Result<Shared<Prog>, NoMemory>
    requires { prog_top (most_of work.now) depth (plain_prog prog.now) < 2 ^ 32 }
    ensures { IfOk result (λ a. plain_prog a ≡ changed_prog (change_of work.now) depth (plain_prog prog.now)) }
{
    Shared::new(alloc, prog_changed(alloc, prog.get(), work, depth)?)
}
