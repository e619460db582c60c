// Copies and comparisons of raw formulas and programs.

ghost use Rattle.std.specs.Prelude.{◌≡◌, ◌↔◌, IfOk, IsTrue};

use crate::raws::{RawForm, RawProg};
use kv_names::{NoMemory, Plain};
use std::alloc::Global;

impl Plain for RawForm {
    fn copy(&self, alloc: Global) -> Result<RawForm, NoMemory> {
        match self {
            RawForm::True => Ok(RawForm::True),
            RawForm::False => Ok(RawForm::False),
            RawForm::Atom(p, ts) => Ok(RawForm::Atom(p.copy(alloc)?, ts.copy(alloc)?)),
            RawForm::Equal(t, u) => Ok(RawForm::Equal(t.copy(alloc)?, u.copy(alloc)?)),
            RawForm::Not(f) => Ok(RawForm::Not(f.share()?)),
            RawForm::And(f, g) => Ok(RawForm::And(f.share()?, g.share()?)),
            RawForm::Or(f, g) => Ok(RawForm::Or(f.share()?, g.share()?)),
            RawForm::Imp(f, g) => Ok(RawForm::Imp(f.share()?, g.share()?)),
            RawForm::Iff(f, g) => Ok(RawForm::Iff(f.share()?, g.share()?)),
            RawForm::All(v, f) => Ok(RawForm::All(v.copy(alloc)?, f.share()?)),
            RawForm::Ex(v, f) => Ok(RawForm::Ex(v.copy(alloc)?, f.share()?)),
            RawForm::After(a, f) => Ok(RawForm::After(a.share()?, f.share()?)),
            RawForm::Can(a, f) => Ok(RawForm::Can(a.share()?, f.share()?)),
        }
    }

    fn same(&self, other: &RawForm) -> bool {
        same_raw_form(self, other)
    }
}

impl Plain for RawProg {
    fn copy(&self, alloc: Global) -> Result<RawProg, NoMemory> {
        match self {
            RawProg::Skip => Ok(RawProg::Skip),
            RawProg::Abort => Ok(RawProg::Abort),
            RawProg::Assign(x, t) => Ok(RawProg::Assign(x.copy(alloc)?, t.copy(alloc)?)),
            RawProg::Seq(a, b) => Ok(RawProg::Seq(a.share()?, b.share()?)),
            RawProg::If(e, a, b) => Ok(RawProg::If(e.share()?, a.share()?, b.share()?)),
            RawProg::While(e, a) => Ok(RawProg::While(e.share()?, a.share()?)),
            RawProg::Local(s, t, a) => Ok(RawProg::Local(
                s.copy(alloc)?,
                t.copy(alloc)?,
                a.share()?,
            )),
            RawProg::Call(p, ts, rs) => Ok(RawProg::Call(
                p.copy(alloc)?,
                ts.copy(alloc)?,
                rs.copy(alloc)?,
            )),
            RawProg::Choice(a, b) => Ok(RawProg::Choice(a.share()?, b.share()?)),
        }
    }

    fn same(&self, other: &RawProg) -> bool {
        same_raw_prog(self, other)
    }
}

#[cycle(same_raw_form)]
fn same_raw_form(x: &RawForm, y: &RawForm) -> bool
    ensures { IsTrue result ↔ (x.now ≡ y.now) }
{
    match (x, y) {
        (RawForm::True, RawForm::True) => true,
        (RawForm::False, RawForm::False) => true,
        (RawForm::Atom(p, ts), RawForm::Atom(p_2, ts_2)) => p.same(p_2) && ts.same(ts_2),
        (RawForm::Equal(t, u), RawForm::Equal(t_2, u_2)) => t.same(t_2) && u.same(u_2),
        (RawForm::Not(f), RawForm::Not(f_2)) => same_raw_form(f.get(), f_2.get()),
        (RawForm::And(f, g), RawForm::And(f_2, g_2)) => same_raw_form(f.get(), f_2.get())
            && same_raw_form(g.get(), g_2.get()),
        (RawForm::Or(f, g), RawForm::Or(f_2, g_2)) => same_raw_form(f.get(), f_2.get())
            && same_raw_form(g.get(), g_2.get()),
        (RawForm::Imp(f, g), RawForm::Imp(f_2, g_2)) => same_raw_form(f.get(), f_2.get())
            && same_raw_form(g.get(), g_2.get()),
        (RawForm::Iff(f, g), RawForm::Iff(f_2, g_2)) => same_raw_form(f.get(), f_2.get())
            && same_raw_form(g.get(), g_2.get()),
        (RawForm::All(v, f), RawForm::All(v_2, f_2)) => v.same(v_2)
            && same_raw_form(f.get(), f_2.get()),
        (RawForm::Ex(v, f), RawForm::Ex(v_2, f_2)) => v.same(v_2)
            && same_raw_form(f.get(), f_2.get()),
        (RawForm::After(a, f), RawForm::After(a_2, f_2)) => same_raw_prog(a.get(), a_2.get())
            && same_raw_form(f.get(), f_2.get()),
        (RawForm::Can(a, f), RawForm::Can(a_2, f_2)) => same_raw_prog(a.get(), a_2.get())
            && same_raw_form(f.get(), f_2.get()),
        _ => false,
    }
}

#[cycle(same_raw_form)]
fn same_raw_prog(x: &RawProg, y: &RawProg) -> bool
    ensures { IsTrue result ↔ (x.now ≡ y.now) }
{
    match (x, y) {
        (RawProg::Skip, RawProg::Skip) => true,
        (RawProg::Abort, RawProg::Abort) => true,
        (RawProg::Assign(x, t), RawProg::Assign(x_2, t_2)) => x.same(x_2) && t.same(t_2),
        (RawProg::Seq(a, b), RawProg::Seq(a_2, b_2)) => same_raw_prog(a.get(), a_2.get())
            && same_raw_prog(b.get(), b_2.get()),
        (RawProg::If(e, a, b), RawProg::If(e_2, a_2, b_2)) => same_raw_form(e.get(), e_2.get())
            && same_raw_prog(a.get(), a_2.get())
            && same_raw_prog(b.get(), b_2.get()),
        (RawProg::While(e, a), RawProg::While(e_2, a_2)) => same_raw_form(e.get(), e_2.get())
            && same_raw_prog(a.get(), a_2.get()),
        (RawProg::Local(s, t, a), RawProg::Local(s_2, t_2, a_2)) => s.same(s_2)
            && t.same(t_2)
            && same_raw_prog(a.get(), a_2.get()),
        (RawProg::Call(p, ts, rs), RawProg::Call(p_2, ts_2, rs_2)) => p.same(p_2)
            && ts.same(ts_2)
            && rs.same(rs_2),
        (RawProg::Choice(a, b), RawProg::Choice(a_2, b_2)) => same_raw_prog(a.get(), a_2.get())
            && same_raw_prog(b.get(), b_2.get()),
        _ => false,
    }
}
