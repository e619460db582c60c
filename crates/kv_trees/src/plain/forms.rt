// Copies and comparisons of formulas and programs.

ghost use Rattle.std.specs.Prelude.{◌≡◌, ◌↔◌, IfOk, IsTrue};

use crate::trees::{Form, Prog};
use kv_names::{NoMemory, Plain};
use std::alloc::Global;

impl Plain for Form {
    fn copy(&self, alloc: Global) -> Result<Form, NoMemory> {
        match self {
            Form::True => Ok(Form::True),
            Form::False => Ok(Form::False),
            Form::Atom(p, ts) => Ok(Form::Atom(p.copy(alloc)?, ts.copy(alloc)?)),
            Form::Equal(t, u) => Ok(Form::Equal(t.copy(alloc)?, u.copy(alloc)?)),
            Form::Not(f) => Ok(Form::Not(f.share()?)),
            Form::And(f, g) => Ok(Form::And(f.share()?, g.share()?)),
            Form::Or(f, g) => Ok(Form::Or(f.share()?, g.share()?)),
            Form::Imp(f, g) => Ok(Form::Imp(f.share()?, g.share()?)),
            Form::Iff(f, g) => Ok(Form::Iff(f.share()?, g.share()?)),
            Form::All(s, f) => Ok(Form::All(s.copy(alloc)?, f.share()?)),
            Form::Ex(s, f) => Ok(Form::Ex(s.copy(alloc)?, f.share()?)),
            Form::After(a, f) => Ok(Form::After(a.share()?, f.share()?)),
            Form::Can(a, f) => Ok(Form::Can(a.share()?, f.share()?)),
        }
    }

    fn same(&self, other: &Form) -> bool {
        same_form(self, other)
    }
}

impl Plain for Prog {
    fn copy(&self, alloc: Global) -> Result<Prog, NoMemory> {
        match self {
            Prog::Skip => Ok(Prog::Skip),
            Prog::Abort => Ok(Prog::Abort),
            Prog::Assign(x, t) => Ok(Prog::Assign(x.copy(alloc)?, t.copy(alloc)?)),
            Prog::Seq(a, b) => Ok(Prog::Seq(a.share()?, b.share()?)),
            Prog::If(e, a, b) => Ok(Prog::If(e.share()?, a.share()?, b.share()?)),
            Prog::While(e, a) => Ok(Prog::While(e.share()?, a.share()?)),
            Prog::Local(s, t, a) => Ok(Prog::Local(s.copy(alloc)?, t.copy(alloc)?, a.share()?)),
            Prog::Call(p, ts, rs) => Ok(Prog::Call(
                p.copy(alloc)?,
                ts.copy(alloc)?,
                rs.copy(alloc)?,
            )),
            Prog::Choice(a, b) => Ok(Prog::Choice(a.share()?, b.share()?)),
        }
    }

    fn same(&self, other: &Prog) -> bool {
        same_prog(self, other)
    }
}

#[cycle(same_form)]
fn same_form(x: &Form, y: &Form) -> bool
    ensures { IsTrue result ↔ (x.now ≡ y.now) }
{
    match (x, y) {
        (Form::True, Form::True) => true,
        (Form::False, Form::False) => true,
        (Form::Atom(p, ts), Form::Atom(p_2, ts_2)) => p.same(p_2) && ts.same(ts_2),
        (Form::Equal(t, u), Form::Equal(t_2, u_2)) => t.same(t_2) && u.same(u_2),
        (Form::Not(f), Form::Not(f_2)) => same_form(f.get(), f_2.get()),
        (Form::And(f, g), Form::And(f_2, g_2)) => same_form(f.get(), f_2.get())
            && same_form(g.get(), g_2.get()),
        (Form::Or(f, g), Form::Or(f_2, g_2)) => same_form(f.get(), f_2.get())
            && same_form(g.get(), g_2.get()),
        (Form::Imp(f, g), Form::Imp(f_2, g_2)) => same_form(f.get(), f_2.get())
            && same_form(g.get(), g_2.get()),
        (Form::Iff(f, g), Form::Iff(f_2, g_2)) => same_form(f.get(), f_2.get())
            && same_form(g.get(), g_2.get()),
        (Form::All(s, f), Form::All(s_2, f_2)) => s.same(s_2) && same_form(f.get(), f_2.get()),
        (Form::Ex(s, f), Form::Ex(s_2, f_2)) => s.same(s_2) && same_form(f.get(), f_2.get()),
        (Form::After(a, f), Form::After(a_2, f_2)) => same_prog(a.get(), a_2.get())
            && same_form(f.get(), f_2.get()),
        (Form::Can(a, f), Form::Can(a_2, f_2)) => same_prog(a.get(), a_2.get())
            && same_form(f.get(), f_2.get()),
        _ => false,
    }
}

#[cycle(same_form)]
fn same_prog(x: &Prog, y: &Prog) -> bool
    ensures { IsTrue result ↔ (x.now ≡ y.now) }
{
    match (x, y) {
        (Prog::Skip, Prog::Skip) => true,
        (Prog::Abort, Prog::Abort) => true,
        (Prog::Assign(x, t), Prog::Assign(x_2, t_2)) => x.same(x_2) && t.same(t_2),
        (Prog::Seq(a, b), Prog::Seq(a_2, b_2)) => same_prog(a.get(), a_2.get())
            && same_prog(b.get(), b_2.get()),
        (Prog::If(e, a, b), Prog::If(e_2, a_2, b_2)) => same_form(e.get(), e_2.get())
            && same_prog(a.get(), a_2.get())
            && same_prog(b.get(), b_2.get()),
        (Prog::While(e, a), Prog::While(e_2, a_2)) => same_form(e.get(), e_2.get())
            && same_prog(a.get(), a_2.get()),
        (Prog::Local(s, t, a), Prog::Local(s_2, t_2, a_2)) => s.same(s_2)
            && t.same(t_2)
            && same_prog(a.get(), a_2.get()),
        (Prog::Call(p, ts, rs), Prog::Call(p_2, ts_2, rs_2)) => p.same(p_2)
            && ts.same(ts_2)
            && rs.same(rs_2),
        (Prog::Choice(a, b), Prog::Choice(a_2, b_2)) => same_prog(a.get(), a_2.get())
            && same_prog(b.get(), b_2.get()),
        _ => false,
    }
}
