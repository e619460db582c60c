// How many nodes raw trees have, and how deep they are.

ghost use Rattle.std.specs.Prelude.{◌≡◌, ◌-◌, ◌^◌, min};
ghost use Rattle.kv_raw.specs.RawBridge.{raw_term, raw_terms, raw_form, raw_prog};
ghost use Rattle.kv_raw.specs.RawCount.{raw_term_nodes, raw_terms_nodes, raw_form_nodes, raw_prog_nodes, raw_term_depth, raw_terms_depth, raw_form_depth, raw_prog_depth};

use crate::raws::{RawForm, RawProg, RawTerm};

impl RawTerm {
    /// How many nodes the tree has. Stands at the greatest `u64` where there are more.
    #[cycle(raw_term_nodes)]
    pub fn nodes(&self) -> u64
        ensures { result ≡ min (raw_term_nodes (raw_term self.now)) (2 ^ 64 - 1) }
    {
        match self {
            RawTerm::App(_, ts) => raw_terms_nodes(ts.items()).saturating_add(1),
        }
    }
}

#[cycle(raw_term_nodes)]
fn raw_terms_nodes(ts: &[RawTerm]) -> u64
    ensures { result ≡ min (raw_terms_nodes (raw_terms ts.now)) (2 ^ 64 - 1) }
{
    let mut count = 0u64;
    for t in ts {
        count = count.saturating_add(t.nodes());
    }
    count
}

impl RawForm {
    /// How many nodes the tree has. Stands at the greatest `u64` where there are more.
    #[cycle(raw_form_nodes)]
    pub fn nodes(&self) -> u64
        ensures { result ≡ min (raw_form_nodes (raw_form self.now)) (2 ^ 64 - 1) }
    {
        match self {
            RawForm::True | RawForm::False => 1,
            RawForm::Atom(_, ts) => raw_terms_nodes(ts.items()).saturating_add(1),
            RawForm::Equal(t, u) => t.nodes().saturating_add(u.nodes()).saturating_add(1),
            RawForm::Not(f) | RawForm::All(_, f) | RawForm::Ex(_, f) => f
                .get()
                .nodes()
                .saturating_add(1),
            RawForm::And(f, g) | RawForm::Or(f, g) | RawForm::Imp(f, g) | RawForm::Iff(f, g) => f
                .get()
                .nodes()
                .saturating_add(g.get().nodes())
                .saturating_add(1),
            RawForm::After(a, f) | RawForm::Can(a, f) => a
                .get()
                .nodes()
                .saturating_add(f.get().nodes())
                .saturating_add(1),
        }
    }
}

impl RawProg {
    /// How many nodes the tree has. Stands at the greatest `u64` where there are more.
    #[cycle(raw_form_nodes)]
    pub fn nodes(&self) -> u64
        ensures { result ≡ min (raw_prog_nodes (raw_prog self.now)) (2 ^ 64 - 1) }
    {
        match self {
            RawProg::Skip | RawProg::Abort => 1,
            RawProg::Assign(_, t) => t.nodes().saturating_add(1),
            RawProg::Seq(a, b) | RawProg::Choice(a, b) => a
                .get()
                .nodes()
                .saturating_add(b.get().nodes())
                .saturating_add(1),
            RawProg::If(e, a, b) => e
                .get()
                .nodes()
                .saturating_add(a.get().nodes())
                .saturating_add(b.get().nodes())
                .saturating_add(1),
            RawProg::While(e, a) => e
                .get()
                .nodes()
                .saturating_add(a.get().nodes())
                .saturating_add(1),
            RawProg::Local(_, t, a) => t.nodes().saturating_add(a.get().nodes()).saturating_add(1),
            RawProg::Call(_, ts, _) => raw_terms_nodes(ts.items()).saturating_add(1),
        }
    }
}

impl RawTerm {
    /// How deep the tree is: a leaf has depth 1. Stands at the greatest `u32` where it is deeper.
    #[cycle(raw_term_depth)]
    pub fn depth(&self) -> u32
        ensures { result ≡ min (raw_term_depth (raw_term self.now)) (2 ^ 32 - 1) }
    {
        match self {
            RawTerm::App(_, ts) => raw_terms_depth(ts.items()).saturating_add(1),
        }
    }
}

#[cycle(raw_term_depth)]
fn raw_terms_depth(ts: &[RawTerm]) -> u32
    ensures { result ≡ min (raw_terms_depth (raw_terms ts.now)) (2 ^ 32 - 1) }
{
    let mut most = 0u32;
    for t in ts {
        most = most.max(t.depth());
    }
    most
}

impl RawForm {
    /// How deep the tree is: a leaf has depth 1. Stands at the greatest `u32` where it is deeper.
    #[cycle(raw_form_depth)]
    pub fn depth(&self) -> u32
        ensures { result ≡ min (raw_form_depth (raw_form self.now)) (2 ^ 32 - 1) }
    {
        match self {
            RawForm::True | RawForm::False => 1,
            RawForm::Atom(_, ts) => raw_terms_depth(ts.items()).saturating_add(1),
            RawForm::Equal(t, u) => t.depth().max(u.depth()).saturating_add(1),
            RawForm::Not(f) | RawForm::All(_, f) | RawForm::Ex(_, f) => f
                .get()
                .depth()
                .saturating_add(1),
            RawForm::And(f, g) | RawForm::Or(f, g) | RawForm::Imp(f, g) | RawForm::Iff(f, g) => f
                .get()
                .depth()
                .max(g.get().depth())
                .saturating_add(1),
            RawForm::After(a, f) | RawForm::Can(a, f) => a
                .get()
                .depth()
                .max(f.get().depth())
                .saturating_add(1),
        }
    }
}

impl RawProg {
    /// How deep the tree is: a leaf has depth 1. Stands at the greatest `u32` where it is deeper.
    #[cycle(raw_form_depth)]
    pub fn depth(&self) -> u32
        ensures { result ≡ min (raw_prog_depth (raw_prog self.now)) (2 ^ 32 - 1) }
    {
        match self {
            RawProg::Skip | RawProg::Abort => 1,
            RawProg::Assign(_, t) => t.depth().saturating_add(1),
            RawProg::Seq(a, b) | RawProg::Choice(a, b) => a
                .get()
                .depth()
                .max(b.get().depth())
                .saturating_add(1),
            RawProg::If(e, a, b) => e
                .get()
                .depth()
                .max(a.get().depth())
                .max(b.get().depth())
                .saturating_add(1),
            RawProg::While(e, a) => e.get().depth().max(a.get().depth()).saturating_add(1),
            RawProg::Local(_, t, a) => t.depth().max(a.get().depth()).saturating_add(1),
            RawProg::Call(_, ts, _) => raw_terms_depth(ts.items()).saturating_add(1),
        }
    }
}
