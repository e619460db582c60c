// Where a body is opened.

ghost use Rattle.std.specs.Prelude.{◌≡◌, ◌+◌, ◌-◌, ◌<◌, ◌^◌};
ghost use Rattle.kv_trees.specs.Bridge.{plain_form, plain_prog};
ghost use Rattle.kv_trees.specs.Variables.{term_any, modifies, form_binders, prog_binders};
ghost use Rattle.kv_subst.specs.Opening.{is_new};
ghost use Rattle.kv_subst.specs.TermAt.{term_at};

use kv_names::Var;
use kv_trees::{Form, Prog, Term, form_mentions, form_names, modifies_any, prog_assigns};

/// A term, or a free variable in its place.
#[derive(Clone, Copy)]
pub(crate) enum At<'a> {
    Term(&'a Term),
    Var(&'a Var),
}

impl At<'_> {
    /// Whether the program, which stands under so many binders, modifies a variable of the term.
    pub fn is_modified(&self, prog: &Prog, by: u32) -> bool
        requires { prog_binders (plain_prog prog.now) + by < 2 ^ 32 }
        ensures { result ≡ term_any (λ r. modifies r by (plain_prog prog.now)) (term_at self.now) }
    {
        match self {
            At::Term(term) => modifies_any(term, prog, by),
            At::Var(var) => prog_assigns(prog, var),
        }
    }

    /// Whether the term is a variable that isn't free in the body.
    pub fn is_new(&self, body: &Form) -> bool
        requires { form_binders (plain_form body.now) < 2 ^ 32 - 1 }
        ensures { result ≡ is_new (plain_form body.now) (term_at self.now) }
    {
        match self {
            At::Term(Term::Place(r)) => !form_mentions(body, r, 1),
            At::Term(Term::App(_, _)) => false,
            At::Var(var) => !form_names(body, var),
        }
    }
}
