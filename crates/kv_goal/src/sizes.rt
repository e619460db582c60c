// How large trees are.

ghost use Rattle.std.specs.Prelude.{◌≡◌, ◌+◌, ◌-◌, ◌^◌, min, max};
ghost use Rattle.kv_trees.specs.Bridge.{plain_term, plain_terms, plain_form, plain_prog};
ghost use Rattle.kv_trees.specs.Count.{term_nodes, term_depth, terms_nodes, terms_depth, form_nodes, form_depth, prog_nodes, prog_depth};
ghost use Rattle.kv_goal.specs.Measures.{Measures};

use kv_syn::{Form, Prog, Term};

/// How many nodes a tree or several trees have, and how deep the deepest is. Each count stands at the greatest value
/// of its type where there are more.
#[derive(Clone, Copy)]
pub struct Size {
    pub nodes: u64,
    pub depth: u32,
}

impl Size {
    /// That of no tree.
    pub fn none() -> Size
        ensures { Measures result 0 0 }
    {
        Size { nodes: 0, depth: 0 }
    }

    /// That of a leaf.
    pub fn leaf() -> Size
        ensures { Measures result 1 1 }
    {
        Size { nodes: 1, depth: 1 }
    }

    /// That of both together.
    pub fn and(self, other: Size) -> Size
        ensures nodes { result.nodes ≡ min (self.nodes + other.nodes) (2 ^ 64 - 1) }
        ensures depth { result.depth ≡ max self.depth other.depth }
    {
        Size {
            nodes: self.nodes.saturating_add(other.nodes),
            depth: self.depth.max(other.depth),
        }
    }

    /// That of a tree with these trees below its root.
    pub fn below(self) -> Size
        ensures nodes { result.nodes ≡ min (self.nodes + 1) (2 ^ 64 - 1) }
        ensures depth { result.depth ≡ min (self.depth + 1) (2 ^ 32 - 1) }
    {
        Size {
            nodes: self.nodes.saturating_add(1),
            depth: self.depth.saturating_add(1),
        }
    }

    /// That of a tree with these two parts below its root.
    pub fn over(one: Size, two: Size) -> Size
        ensures nodes { result.nodes ≡ min (one.nodes + two.nodes + 1) (2 ^ 64 - 1) }
        ensures depth { result.depth ≡ min (max one.depth two.depth + 1) (2 ^ 32 - 1) }
    {
        one.and(two).below()
    }
}

// Sizes of trees, each by one walk.

#[cycle(term_size)]
pub fn term_size(term: &Term) -> Size
    ensures { Measures result (term_nodes (plain_term term.now)) (term_depth (plain_term term.now)) }
{
    match term {
        Term::Place(_) => Size::leaf(),
        Term::App(_, ts) => terms_size(ts.items()).below(),
    }
}

#[cycle(term_size)]
fn terms_size(terms: &[Term]) -> Size
    ensures { Measures result (terms_nodes (plain_terms terms.now)) (terms_depth (plain_terms terms.now)) }
{
    let mut size = Size::none();
    for term in terms {
        size = size.and(term_size(term));
    }
    size
}

#[cycle(form_size)]
pub fn form_size(form: &Form) -> Size
    ensures { Measures result (form_nodes (plain_form form.now)) (form_depth (plain_form form.now)) }
{
    match form {
        Form::True | Form::False => Size::leaf(),
        Form::Atom(_, ts) => terms_size(ts.items()).below(),
        Form::Equal(t, u) => Size::over(term_size(t), term_size(u)),
        Form::Not(f) | Form::All(_, f) | Form::Ex(_, f) => form_size(f.get()).below(),
        Form::And(f, g) | Form::Or(f, g) | Form::Imp(f, g) | Form::Iff(f, g) => {
            Size::over(form_size(f.get()), form_size(g.get()))
        }
        Form::After(a, f) | Form::Can(a, f) => Size::over(prog_size(a.get()), form_size(f.get())),
    }
}

#[cycle(form_size)]
pub fn prog_size(prog: &Prog) -> Size
    ensures { Measures result (prog_nodes (plain_prog prog.now)) (prog_depth (plain_prog prog.now)) }
{
    match prog {
        Prog::Skip | Prog::Abort => Size::leaf(),
        Prog::Assign(_, t) => term_size(t).below(),
        Prog::Seq(a, b) | Prog::Choice(a, b) => Size::over(prog_size(a.get()), prog_size(b.get())),
        Prog::If(e, a, b) => {
            let branches = prog_size(a.get()).and(prog_size(b.get()));
            Size::over(form_size(e.get()), branches)
        }
        Prog::While(e, a) => Size::over(form_size(e.get()), prog_size(a.get())),
        Prog::Local(_, t, a) => Size::over(term_size(t), prog_size(a.get())),
        Prog::Call(_, ts, _) => terms_size(ts.items()).below(),
    }
}
