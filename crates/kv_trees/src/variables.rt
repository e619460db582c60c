// Which variables stand in a tree, and which of them a program modifies.

ghost use Rattle.std.specs.Prelude.{◌≡◌, ℕ, ◌+◌, ◌<◌, ◌^◌};
ghost use Rattle.kv_trees.specs.Bridge.{plain_term, plain_terms, plain_form, plain_prog};
ghost use Rattle.kv_trees.specs.Same.{var_eq, ref_eq};
ghost use Rattle.kv_trees.specs.declared.trees.Ref.{Ref};
ghost use Rattle.kv_trees.specs.Variables.{raised_ref, term_any, terms_any, term_has, terms_have, refs_have, form_has, prog_has, modifies, form_binders, prog_binders};

use crate::trees::{Form, Prog, Ref, Term};
use kv_names::Var;

/// Whether the variable is free in the formula.
pub fn occurs(form: &Form, var: &Var) -> bool
    ensures { result ≡ form_has (Ref.Free var.now) 0 (plain_form form.now) }
{
    form_names(form, var)
}

/// Whether the program modifies the variable: assigns to it, or gives it for a reference.
pub fn modifies(prog: &Prog, place: &Ref) -> bool
    requires { prog_binders (plain_prog prog.now) < 2 ^ 32 }
    ensures { result ≡ modifies place.now 0 (plain_prog prog.now) }
{
    prog_modifies(prog, place, 0)
}

/// Whether the variables have one name and one sort.
pub fn is_var(x: &Var, y: &Var) -> bool
    ensures { result ≡ var_eq x.now y.now }
{
    x.name.bytes() == y.name.bytes() && x.sort.bytes() == y.sort.bytes()
}

fn names(place: &Ref, var: &Var) -> bool
    ensures { result ≡ ref_eq place.now (Ref.Free var.now) }
{
    match place {
        Ref::Free(x) => is_var(x, var),
        Ref::Bound(_) => false,
    }
}

fn refs_name(places: &[Ref], var: &Var) -> bool
    ensures { result ≡ refs_have (Ref.Free var.now) places.now }
{
    for place in places {
        if names(place, var) {
            return true;
        }
    }
    false
}

#[cycle(term_names)]
fn term_names(term: &Term, var: &Var) -> bool
    ensures { result ≡ term_has (Ref.Free var.now) (plain_term term.now) }
{
    match term {
        Term::Place(r) => names(r, var),
        Term::App(_, ts) => terms_name(ts.items(), var),
    }
}

#[cycle(term_names)]
fn terms_name(terms: &[Term], var: &Var) -> bool
    ensures { result ≡ terms_have (Ref.Free var.now) (plain_terms terms.now) }
{
    for term in terms {
        if term_names(term, var) {
            return true;
        }
    }
    false
}

/// Whether the variable is free in the formula, under any number of binders. A free variable is called the same there.
#[cycle(form_names)]
pub fn form_names(form: &Form, var: &Var) -> bool
    ensures { (k : ℕ) → result ≡ form_has (Ref.Free var.now) k (plain_form form.now) }
{
    match form {
        Form::True | Form::False => false,
        Form::Atom(_, ts) => terms_name(ts.items(), var),
        Form::Equal(s, t) => term_names(s, var) || term_names(t, var),
        Form::Not(f) | Form::All(_, f) | Form::Ex(_, f) => form_names(f.get(), var),
        Form::And(f, g) | Form::Or(f, g) | Form::Imp(f, g) | Form::Iff(f, g) => {
            form_names(f.get(), var) || form_names(g.get(), var)
        }
        Form::After(a, f) | Form::Can(a, f) => prog_names(a.get(), var) || form_names(f.get(), var),
    }
}

#[cycle(form_names)]
fn prog_names(prog: &Prog, var: &Var) -> bool
    ensures { (k : ℕ) → result ≡ prog_has (Ref.Free var.now) k (plain_prog prog.now) }
{
    match prog {
        Prog::Skip | Prog::Abort => false,
        Prog::Assign(x, t) => names(x, var) || term_names(t, var),
        Prog::Seq(a, b) | Prog::Choice(a, b) => prog_names(a.get(), var)
            || prog_names(b.get(), var),
        Prog::If(e, a, b) => {
            form_names(e.get(), var) || (prog_names(a.get(), var) || prog_names(b.get(), var))
        }
        Prog::While(e, a) => form_names(e.get(), var) || prog_names(a.get(), var),
        Prog::Local(_, t, a) => term_names(t, var) || prog_names(a.get(), var),
        Prog::Call(_, ts, rs) => terms_name(ts.items(), var) || refs_name(rs.items(), var),
    }
}

/// Whether the program modifies the variable, under any number of binders.
pub fn prog_assigns(prog: &Prog, var: &Var) -> bool
    ensures { (k : ℕ) → result ≡ modifies (Ref.Free var.now) k (plain_prog prog.now) }
{
    match prog {
        Prog::Skip | Prog::Abort => false,
        Prog::Assign(x, _) => names(x, var),
        Prog::Seq(a, b) | Prog::If(_, a, b) | Prog::Choice(a, b) => {
            prog_assigns(a.get(), var) || prog_assigns(b.get(), var)
        }
        Prog::While(_, a) | Prog::Local(_, _, a) => prog_assigns(a.get(), var),
        Prog::Call(_, _, rs) => refs_name(rs.items(), var),
    }
}

// Whether the place is the variable as it is called under so many more binders.
fn is_raised(place: &Ref, var: &Ref, by: u32) -> bool
    ensures { result ≡ ref_eq place.now (raised_ref by var.now) }
{
    match place {
        Ref::Free(x) => match var {
            Ref::Free(y) => is_var(x, y),
            Ref::Bound(_) => false,
        },
        Ref::Bound(n) => match var {
            Ref::Free(_) => false,
            Ref::Bound(m) => u64::from(*n) == u64::from(*m) + u64::from(by),
        },
    }
}

fn refs_mention(places: &[Ref], var: &Ref, by: u32) -> bool
    ensures { result ≡ refs_have (raised_ref by var.now) places.now }
{
    for place in places {
        if is_raised(place, var, by) {
            return true;
        }
    }
    false
}

/// Whether the variable, which is one outside so many binders, stands in the term, which stands under them.
#[cycle(term_mentions)]
pub fn term_mentions(term: &Term, var: &Ref, by: u32) -> bool
    ensures { result ≡ term_has (raised_ref by var.now) (plain_term term.now) }
{
    match term {
        Term::Place(r) => is_raised(r, var, by),
        Term::App(_, ts) => terms_mention(ts.items(), var, by),
    }
}

#[cycle(term_mentions)]
fn terms_mention(terms: &[Term], var: &Ref, by: u32) -> bool
    ensures { result ≡ terms_have (raised_ref by var.now) (plain_terms terms.now) }
{
    for term in terms {
        if term_mentions(term, var, by) {
            return true;
        }
    }
    false
}

/// Whether the variable, which is one outside so many binders, is free in the formula, which stands under them.
#[cycle(form_mentions)]
pub fn form_mentions(form: &Form, var: &Ref, by: u32) -> bool
    requires { form_binders (plain_form form.now) + by < 2 ^ 32 }
    ensures { result ≡ form_has var.now by (plain_form form.now) }
{
    match form {
        Form::True | Form::False => false,
        Form::Atom(_, ts) => terms_mention(ts.items(), var, by),
        Form::Equal(s, t) => term_mentions(s, var, by) || term_mentions(t, var, by),
        Form::Not(f) => form_mentions(f.get(), var, by),
        Form::And(f, g) | Form::Or(f, g) | Form::Imp(f, g) | Form::Iff(f, g) => {
            form_mentions(f.get(), var, by) || form_mentions(g.get(), var, by)
        }
        Form::All(_, f) | Form::Ex(_, f) => form_mentions(f.get(), var, by + 1),
        Form::After(a, f) | Form::Can(a, f) => prog_mentions(a.get(), var, by)
            || form_mentions(f.get(), var, by),
    }
}

/// The same of a program.
#[cycle(form_mentions)]
pub fn prog_mentions(prog: &Prog, var: &Ref, by: u32) -> bool
    requires { prog_binders (plain_prog prog.now) + by < 2 ^ 32 }
    ensures { result ≡ prog_has var.now by (plain_prog prog.now) }
{
    match prog {
        Prog::Skip | Prog::Abort => false,
        Prog::Assign(x, t) => is_raised(x, var, by) || term_mentions(t, var, by),
        Prog::Seq(a, b) | Prog::Choice(a, b) => prog_mentions(a.get(), var, by)
            || prog_mentions(b.get(), var, by),
        Prog::If(e, a, b) => {
            form_mentions(e.get(), var, by)
                || (prog_mentions(a.get(), var, by) || prog_mentions(b.get(), var, by))
        }
        Prog::While(e, a) => form_mentions(e.get(), var, by) || prog_mentions(a.get(), var, by),
        Prog::Local(_, t, a) => term_mentions(t, var, by) || prog_mentions(a.get(), var, by + 1),
        Prog::Call(_, ts, rs) => terms_mention(ts.items(), var, by)
            || refs_mention(rs.items(), var, by),
    }
}

/// Whether the program, which stands under so many binders, modifies the variable, which is one outside them.
pub fn prog_modifies(prog: &Prog, var: &Ref, by: u32) -> bool
    requires { prog_binders (plain_prog prog.now) + by < 2 ^ 32 }
    ensures { result ≡ modifies var.now by (plain_prog prog.now) }
{
    match prog {
        Prog::Skip | Prog::Abort => false,
        Prog::Assign(x, _) => is_raised(x, var, by),
        Prog::Seq(a, b) | Prog::If(_, a, b) | Prog::Choice(a, b) => {
            prog_modifies(a.get(), var, by) || prog_modifies(b.get(), var, by)
        }
        Prog::While(_, a) => prog_modifies(a.get(), var, by),
        Prog::Local(_, _, a) => prog_modifies(a.get(), var, by + 1),
        Prog::Call(_, _, rs) => refs_mention(rs.items(), var, by),
    }
}

/// The same of some variable of the term.
#[cycle(modifies_any)]
pub fn modifies_any(term: &Term, prog: &Prog, by: u32) -> bool
    requires { prog_binders (plain_prog prog.now) + by < 2 ^ 32 }
    ensures { result ≡ term_any (λ r. modifies r by (plain_prog prog.now)) (plain_term term.now) }
{
    match term {
        Term::Place(r) => prog_modifies(prog, r, by),
        Term::App(_, ts) => modifies_some(ts.items(), prog, by),
    }
}

#[cycle(modifies_any)]
fn modifies_some(terms: &[Term], prog: &Prog, by: u32) -> bool
    requires { prog_binders (plain_prog prog.now) + by < 2 ^ 32 }
    ensures { result ≡ terms_any (λ r. modifies r by (plain_prog prog.now)) (plain_terms terms.now) }
{
    for term in terms {
        if modifies_any(term, prog, by) {
            return true;
        }
    }
    false
}
