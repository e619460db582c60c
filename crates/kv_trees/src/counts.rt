// How many nodes trees have, and how deep they are.

ghost use Rattle.std.specs.Prelude.{◌≡◌, ◌-◌, ◌^◌, min, map};
ghost use Rattle.kv_trees.specs.Bridge.{plain_term, plain_terms, plain_form, plain_prog, plain_sequent};
ghost use Rattle.kv_trees.specs.Count.{term_nodes, terms_nodes, form_nodes, prog_nodes, term_depth, terms_depth, form_depth, prog_depth, sequent_nodes, forms_nodes, sequent_depth, forms_depth};

use crate::trees::{Form, Prog, Sequent, Term};

impl Term {
    /// How many nodes the tree has. Stands at the greatest `u64` where there are more.
    #[cycle(term_nodes)]
    pub fn nodes(&self) -> u64
        ensures { result ≡ min (term_nodes (plain_term self.now)) (2 ^ 64 - 1) }
    {
        match self {
            Term::Place(_) => 1,
            Term::App(_, ts) => terms_nodes(ts.items()).saturating_add(1),
        }
    }
}

#[cycle(term_nodes)]
fn terms_nodes(ts: &[Term]) -> u64
    ensures { result ≡ min (terms_nodes (plain_terms ts.now)) (2 ^ 64 - 1) }
{
    let mut count = 0u64;
    for t in ts {
        count = count.saturating_add(t.nodes());
    }
    count
}

impl Form {
    /// How many nodes the tree has. Stands at the greatest `u64` where there are more.
    #[cycle(form_nodes)]
    pub fn nodes(&self) -> u64
        ensures { result ≡ min (form_nodes (plain_form self.now)) (2 ^ 64 - 1) }
    {
        match self {
            Form::True | Form::False => 1,
            Form::Atom(_, ts) => terms_nodes(ts.items()).saturating_add(1),
            Form::Equal(t, u) => t.nodes().saturating_add(u.nodes()).saturating_add(1),
            Form::Not(f) | Form::All(_, f) | Form::Ex(_, f) => f.get().nodes().saturating_add(1),
            Form::And(f, g) | Form::Or(f, g) | Form::Imp(f, g) | Form::Iff(f, g) => f
                .get()
                .nodes()
                .saturating_add(g.get().nodes())
                .saturating_add(1),
            Form::After(a, f) | Form::Can(a, f) => a
                .get()
                .nodes()
                .saturating_add(f.get().nodes())
                .saturating_add(1),
        }
    }
}

impl Prog {
    /// How many nodes the tree has. Stands at the greatest `u64` where there are more.
    #[cycle(form_nodes)]
    pub fn nodes(&self) -> u64
        ensures { result ≡ min (prog_nodes (plain_prog self.now)) (2 ^ 64 - 1) }
    {
        match self {
            Prog::Skip | Prog::Abort => 1,
            Prog::Assign(_, t) => t.nodes().saturating_add(1),
            Prog::Seq(a, b) | Prog::Choice(a, b) => a
                .get()
                .nodes()
                .saturating_add(b.get().nodes())
                .saturating_add(1),
            Prog::If(e, a, b) => e
                .get()
                .nodes()
                .saturating_add(a.get().nodes())
                .saturating_add(b.get().nodes())
                .saturating_add(1),
            Prog::While(e, a) => e
                .get()
                .nodes()
                .saturating_add(a.get().nodes())
                .saturating_add(1),
            Prog::Local(_, t, a) => t.nodes().saturating_add(a.get().nodes()).saturating_add(1),
            Prog::Call(_, ts, _) => terms_nodes(ts.items()).saturating_add(1),
        }
    }
}

impl Term {
    /// How deep the tree is: a leaf has depth 1. Stands at the greatest `u32` where it is deeper.
    #[cycle(term_depth)]
    pub fn depth(&self) -> u32
        ensures { result ≡ min (term_depth (plain_term self.now)) (2 ^ 32 - 1) }
    {
        match self {
            Term::Place(_) => 1,
            Term::App(_, ts) => terms_depth(ts.items()).saturating_add(1),
        }
    }
}

#[cycle(term_depth)]
fn terms_depth(ts: &[Term]) -> u32
    ensures { result ≡ min (terms_depth (plain_terms ts.now)) (2 ^ 32 - 1) }
{
    let mut most = 0u32;
    for t in ts {
        most = most.max(t.depth());
    }
    most
}

impl Form {
    /// How deep the tree is: a leaf has depth 1. Stands at the greatest `u32` where it is deeper.
    #[cycle(form_depth)]
    pub fn depth(&self) -> u32
        ensures { result ≡ min (form_depth (plain_form self.now)) (2 ^ 32 - 1) }
    {
        match self {
            Form::True | Form::False => 1,
            Form::Atom(_, ts) => terms_depth(ts.items()).saturating_add(1),
            Form::Equal(t, u) => t.depth().max(u.depth()).saturating_add(1),
            Form::Not(f) | Form::All(_, f) | Form::Ex(_, f) => f.get().depth().saturating_add(1),
            Form::And(f, g) | Form::Or(f, g) | Form::Imp(f, g) | Form::Iff(f, g) => f
                .get()
                .depth()
                .max(g.get().depth())
                .saturating_add(1),
            Form::After(a, f) | Form::Can(a, f) => a
                .get()
                .depth()
                .max(f.get().depth())
                .saturating_add(1),
        }
    }
}

impl Prog {
    /// How deep the tree is: a leaf has depth 1. Stands at the greatest `u32` where it is deeper.
    #[cycle(form_depth)]
    pub fn depth(&self) -> u32
        ensures { result ≡ min (prog_depth (plain_prog self.now)) (2 ^ 32 - 1) }
    {
        match self {
            Prog::Skip | Prog::Abort => 1,
            Prog::Assign(_, t) => t.depth().saturating_add(1),
            Prog::Seq(a, b) | Prog::Choice(a, b) => a
                .get()
                .depth()
                .max(b.get().depth())
                .saturating_add(1),
            Prog::If(e, a, b) => e
                .get()
                .depth()
                .max(a.get().depth())
                .max(b.get().depth())
                .saturating_add(1),
            Prog::While(e, a) => e.get().depth().max(a.get().depth()).saturating_add(1),
            Prog::Local(_, t, a) => t.depth().max(a.get().depth()).saturating_add(1),
            Prog::Call(_, ts, _) => terms_depth(ts.items()).saturating_add(1),
        }
    }
}

fn forms_nodes(forms: &[Form]) -> u64
    ensures { result ≡ min (forms_nodes (map plain_form forms.now)) (2 ^ 64 - 1) }
{
    let mut count = 0u64;
    for form in forms {
        count = count.saturating_add(form.nodes());
    }
    count
}

fn forms_depth(forms: &[Form]) -> u32
    ensures { result ≡ min (forms_depth (map plain_form forms.now)) (2 ^ 32 - 1) }
{
    let mut most = 0u32;
    for form in forms {
        most = most.max(form.depth());
    }
    most
}

impl Sequent {
    /// How many nodes its formulas have together. Stands at the greatest `u64` where there are more.
    pub fn nodes(&self) -> u64
        ensures { result ≡ min (sequent_nodes (plain_sequent self.now)) (2 ^ 64 - 1) }
    {
        forms_nodes(self.left.items()).saturating_add(forms_nodes(self.right.items()))
    }

    /// The depth of its deepest formula. Stands at the greatest `u32` where one is deeper.
    pub fn depth(&self) -> u32
        ensures { result ≡ min (sequent_depth (plain_sequent self.now)) (2 ^ 32 - 1) }
    {
        forms_depth(self.left.items()).max(forms_depth(self.right.items()))
    }
}
