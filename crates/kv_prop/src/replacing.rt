// A term in place of another one: whether that changes a formula, how large it would be, and the formula.

ghost use Rattle.std.specs.Prelude.{◌≡◌, ◌↔◌, ◌+◌, ◌-◌, ◌^◌, ◌<◌, if◌then◌else◌, IfOk, IsOk};
ghost use Rattle.kv_trees.specs.Bridge.{plain_term, plain_terms, plain_form, plain_prog};
ghost use Rattle.kv_trees.specs.Count.{term_nodes, terms_nodes, form_nodes, term_depth, terms_depth, form_depth};
ghost use Rattle.kv_trees.specs.Same.{ref_eq, term_eq, terms_eq, form_eq};
ghost use Rattle.kv_trees.specs.Variables.{raised_ref, form_binders, prog_binders};
ghost use Rattle.kv_subst.specs.Opening.{raised_term, raised_terms};
ghost use Rattle.kv_subst.specs.Sizes.{term_reach};
ghost use Rattle.kv_goal.specs.Measures.{Measures};
ghost use Rattle.kv_prop.specs.Replacing.{replaced_term, replaced_terms, replaced_form, touches};
ghost use Rattle.kv_prop.specs.Shallow.{IsShallow};

use crate::opening::{Counted, are_shallow};
use kv_goal::{Size, form_size, prog_size};
use kv_sig::same_name;
use kv_subst::term_raised;
use kv_syn::{Form, List, NoMemory, Plain, Prog, Ref, Shared, Term, is_var, modifies_any};
use std::alloc::Global;

/// A formula, and a term that is to come in place of another one. The numbers of the term can be raised by the binders
/// of the formula.
#[derive(Clone, Copy)]
pub(crate) struct Replacing<'a> {
    pub from: &'a Term,
    pub to: &'a Term,
    pub form: &'a Form,
    ghost shallow: { form_binders (plain_form form.now) + term_reach (plain_term to.now) < 2 ^ 32 - 1 },
}

impl<'a> Replacing<'a> {
    /// The second term for the first one in the formula. Want of memory exactly where formula and second term aren't
    /// shallow.
    pub fn of(from: &'a Term, to: &'a Term, form: &'a Form) -> Result<Replacing<'a>, NoMemory>
        ensures answer { IfOk result (λ replacing. (replacing.from.now ≡ from.now) × (replacing.to.now ≡ to.now) × (replacing.form.now ≡ form.now)) }
        ensures shallow { IsOk result ↔ IsShallow (plain_form form.now) (plain_term to.now) }
    {
        if are_shallow(form, to) {
            Ok(Replacing { from, to, form })
        } else {
            Err(NoMemory)
        }
    }

    /// Whether it leaves the formula as it is.
    pub fn stays(&self) -> bool
        ensures { result ≡ form_eq (replaced_form (plain_term self.now.from.now) (plain_term self.now.to.now) 0 (plain_form self.now.form.now)) (plain_form self.now.form.now) }
    {
        form_stays(self.form, self.from, self.to, 0)
    }

    /// How large the formula becomes.
    pub fn size(&self) -> Size
        ensures { Measures result (form_nodes (replaced_form (plain_term self.now.from.now) (plain_term self.now.to.now) 0 (plain_form self.now.form.now))) (form_depth (replaced_form (plain_term self.now.from.now) (plain_term self.now.to.now) 0 (plain_form self.now.form.now))) }
    {
        form_replaced_size(self.form, self.from, &Counted::of(self.to), 0)
    }

    /// The formula that it becomes.
    pub fn form(&self, alloc: Global) -> Result<Form, NoMemory>
        ensures { IfOk result (λ form. plain_form form ≡ replaced_form (plain_term self.now.from.now) (plain_term self.now.to.now) 0 (plain_form self.now.form.now)) }
    {
        form_replaced(alloc, self.form, self.from, self.to, 0)
    }
}

// ---- equal places

/// Whether the place is the variable as it is called under so many more binders.
fn is_ref_raised(place: &Ref, var: &Ref, by: u32) -> bool
    ensures { result ≡ ref_eq place.now (raised_ref by var.now) }
{
    match (place, var) {
        (Ref::Free(x), Ref::Free(y)) => is_var(x, y),
        (Ref::Bound(n), Ref::Bound(m)) => u64::from(*n) == u64::from(*m) + u64::from(by),
        _ => false,
    }
}

/// Whether the first term is the second one as it is called under so many more binders.
#[cycle(is_raised)]
fn is_raised(term: &Term, of: &Term, by: u32) -> bool
    ensures { result ≡ term_eq (plain_term term.now) (raised_term by (plain_term of.now)) }
{
    match (term, of) {
        (Term::Place(r), Term::Place(q)) => is_ref_raised(r, q, by),
        (Term::App(f, ts), Term::App(g, us)) => same_name(f, g)
            && are_raised(ts.items(), us.items(), by),
        _ => false,
    }
}

#[cycle(is_raised)]
#[tactic(auto, using(crate::proofs::Raised::other_lengths))]
fn are_raised(terms: &[Term], of: &[Term], by: u32) -> bool
    ensures { result ≡ terms_eq (plain_terms terms.now) (raised_terms by (plain_terms of.now)) }
{
    if terms.len() != of.len() {
        return false;
    }
    for i in 0..terms.len() {
        if !is_raised(&terms[i], &of[i], by) {
            return false;
        }
    }
    true
}

/// Whether the program, under so many binders, modifies a variable of one of the terms, which stand outside those.
fn touches(prog: &Prog, from: &Term, to: &Term, depth: u32) -> bool
    requires { prog_binders (plain_prog prog.now) + depth < 2 ^ 32 }
    ensures { result ≡ touches (plain_term from.now) (plain_term to.now) depth (plain_prog prog.now) }
{
    modifies_any(from, prog, depth) || modifies_any(to, prog, depth)
}

// ---- whether something changes

#[cycle(term_stays)]
#[tactic(auto, using(crate::proofs::Raised::stays_here, kv_trees::proofs::Same::ref_same, kv_trees::proofs::Same::name_same))]
fn term_stays(term: &Term, from: &Term, to: &Term, depth: u32) -> bool
    ensures { result ≡ term_eq (replaced_term (raised_term depth (plain_term from.now)) (raised_term depth (plain_term to.now)) (plain_term term.now)) (plain_term term.now) }
{
    if is_raised(term, from, depth) {
        return is_raised(term, to, depth);
    }
    match term {
        Term::Place(_) => true,
        Term::App(_, ts) => terms_stay(ts.items(), from, to, depth),
    }
}

#[cycle(term_stays)]
fn terms_stay(terms: &[Term], from: &Term, to: &Term, depth: u32) -> bool
    ensures { result ≡ terms_eq (replaced_terms (raised_term depth (plain_term from.now)) (raised_term depth (plain_term to.now)) (plain_terms terms.now)) (plain_terms terms.now) }
{
    for term in terms {
        if !term_stays(term, from, to, depth) {
            return false;
        }
    }
    true
}

#[cycle(form_stays)]
#[tactic(auto, using(kv_trees::proofs::Same::name_same))]
fn form_stays(form: &Form, from: &Term, to: &Term, depth: u32) -> bool
    requires { form_binders (plain_form form.now) + depth < 2 ^ 32 }
    ensures { result ≡ form_eq (replaced_form (plain_term from.now) (plain_term to.now) depth (plain_form form.now)) (plain_form form.now) }
{
    match form {
        Form::True | Form::False => true,
        Form::Atom(_, ts) => terms_stay(ts.items(), from, to, depth),
        Form::Equal(t, u) => term_stays(t, from, to, depth) && term_stays(u, from, to, depth),
        Form::Not(f) => form_stays(f.get(), from, to, depth),
        Form::And(f, g) | Form::Or(f, g) | Form::Imp(f, g) | Form::Iff(f, g) => {
            form_stays(f.get(), from, to, depth) && form_stays(g.get(), from, to, depth)
        }
        Form::All(_, f) | Form::Ex(_, f) => form_stays(f.get(), from, to, depth + 1),
        Form::After(a, f) => behind_stays(
            f.get(),
            touches(a.get(), from, to, depth),
            from,
            to,
            depth,
        ),
        Form::Can(a, f) => behind_stays(
            f.get(),
            touches(a.get(), from, to, depth),
            from,
            to,
            depth,
        ),
    }
}

/// The same of a formula behind a program, which touches one of the terms or not.
#[cycle(form_stays)]
#[tactic(auto, using(kv_trees::proofs::Same::form_same))]
fn behind_stays(form: &Form, touched: bool, from: &Term, to: &Term, depth: u32) -> bool
    requires { form_binders (plain_form form.now) + depth < 2 ^ 32 }
    ensures { result ≡ form_eq (if touched then plain_form form.now else replaced_form (plain_term from.now) (plain_term to.now) depth (plain_form form.now)) (plain_form form.now) }
{
    touched || form_stays(form, from, to, depth)
}

// ---- sizes

#[cycle(term_replaced_size)]
#[tactic(auto, using(crate::proofs::Raised::replaced_here, crate::proofs::Sums::raised_nodes, crate::proofs::Sums::raised_depth))]
fn term_replaced_size(term: &Term, from: &Term, to: &Counted<'_>, depth: u32) -> Size
    ensures { Measures result (term_nodes (replaced_term (raised_term depth (plain_term from.now)) (raised_term depth (plain_term to.now.term.now)) (plain_term term.now))) (term_depth (replaced_term (raised_term depth (plain_term from.now)) (raised_term depth (plain_term to.now.term.now)) (plain_term term.now))) }
{
    if is_raised(term, from, depth) {
        return to.size;
    }
    match term {
        Term::Place(_) => Size::leaf(),
        Term::App(_, ts) => terms_replaced_size(ts.items(), from, to, depth).below(),
    }
}

#[cycle(term_replaced_size)]
fn terms_replaced_size(terms: &[Term], from: &Term, to: &Counted<'_>, depth: u32) -> Size
    ensures { Measures result (terms_nodes (replaced_terms (raised_term depth (plain_term from.now)) (raised_term depth (plain_term to.now.term.now)) (plain_terms terms.now))) (terms_depth (replaced_terms (raised_term depth (plain_term from.now)) (raised_term depth (plain_term to.now.term.now)) (plain_terms terms.now))) }
{
    let mut size = Size::none();
    for term in terms {
        size = size.and(term_replaced_size(term, from, to, depth));
    }
    size
}

#[cycle(form_replaced_size)]
fn form_replaced_size(form: &Form, from: &Term, to: &Counted<'_>, depth: u32) -> Size
    requires { form_binders (plain_form form.now) + depth < 2 ^ 32 }
    ensures { Measures result (form_nodes (replaced_form (plain_term from.now) (plain_term to.now.term.now) depth (plain_form form.now))) (form_depth (replaced_form (plain_term from.now) (plain_term to.now.term.now) depth (plain_form form.now))) }
{
    match form {
        Form::True | Form::False => Size::leaf(),
        Form::Atom(_, ts) => terms_replaced_size(ts.items(), from, to, depth).below(),
        Form::Equal(t, u) => term_replaced_size(t, from, to, depth)
            .and(term_replaced_size(u, from, to, depth))
            .below(),
        Form::Not(f) => form_replaced_size(f.get(), from, to, depth).below(),
        Form::And(f, g) | Form::Or(f, g) | Form::Imp(f, g) | Form::Iff(f, g) => form_replaced_size(
            f.get(),
            from,
            to,
            depth,
        ).and(form_replaced_size(g.get(), from, to, depth))
            .below(),
        Form::All(_, f) | Form::Ex(_, f) => form_replaced_size(
            f.get(),
            from,
            to,
            depth + 1,
        ).below(),
        Form::After(a, f) | Form::Can(a, f) => {
            let behind = if touches(a.get(), from, to.term, depth) {
                form_size(f.get())
            } else {
                form_replaced_size(f.get(), from, to, depth)
            };
            prog_size(a.get()).and(behind).below()
        }
    }
}

// ---- the formula

#[cycle(term_replaced)]
#[tactic(auto, using(crate::proofs::Raised::replaced_here))]
fn term_replaced(
    alloc: Global,
    term: &Term,
    from: &Term,
    to: &Term,
    depth: u32,
) -> Result<Term, NoMemory>
    requires { term_reach (plain_term to.now) + depth < 2 ^ 32 }
    ensures { IfOk result (λ t. plain_term t ≡ replaced_term (raised_term depth (plain_term from.now)) (raised_term depth (plain_term to.now)) (plain_term term.now)) }
{
    if is_raised(term, from, depth) {
        return term_raised(alloc, to, depth);
    }
    match term {
        Term::Place(r) => Ok(Term::Place(r.copy(alloc)?)),
        Term::App(f, ts) => Ok(Term::App(
            f.copy(alloc)?,
            shared_terms(alloc, ts, from, to, depth)?,
        )),
    }
}

#[cycle(term_replaced)]
fn shared_terms(
    alloc: Global,
    terms: &Shared<List<Term>>,
    from: &Term,
    to: &Term,
    depth: u32,
) -> Result<Shared<List<Term>>, NoMemory>
    requires { term_reach (plain_term to.now) + depth < 2 ^ 32 }
    ensures { IfOk result (λ ts. plain_terms ts ≡ replaced_terms (raised_term depth (plain_term from.now)) (raised_term depth (plain_term to.now)) (plain_terms terms.now)) }
{
    Shared::new(
        alloc,
        terms_replaced(alloc, terms.items(), from, to, depth)?,
    )
}

#[cycle(term_replaced)]
fn terms_replaced(
    alloc: Global,
    terms: &[Term],
    from: &Term,
    to: &Term,
    depth: u32,
) -> Result<List<Term>, NoMemory>
    requires { term_reach (plain_term to.now) + depth < 2 ^ 32 }
    ensures { IfOk result (λ ts. plain_terms ts ≡ replaced_terms (raised_term depth (plain_term from.now)) (raised_term depth (plain_term to.now)) (plain_terms terms.now)) }
{
    let mut replaced = List::new(alloc);
    for term in terms {
        replaced.push(term_replaced(alloc, term, from, to, depth)?)?;
    }
    Ok(replaced)
}

#[cycle(form_replaced)]
fn form_replaced(
    alloc: Global,
    form: &Form,
    from: &Term,
    to: &Term,
    depth: u32,
) -> Result<Form, NoMemory>
    requires { form_binders (plain_form form.now) + term_reach (plain_term to.now) + depth < 2 ^ 32 }
    ensures { IfOk result (λ f. plain_form f ≡ replaced_form (plain_term from.now) (plain_term to.now) depth (plain_form form.now)) }
{
    match form {
        Form::True => Ok(Form::True),
        Form::False => Ok(Form::False),
        Form::Atom(p, ts) => Ok(Form::Atom(
            p.copy(alloc)?,
            shared_terms(alloc, ts, from, to, depth)?,
        )),
        Form::Equal(t, u) => Ok(Form::Equal(
            term_replaced(alloc, t, from, to, depth)?,
            term_replaced(alloc, u, from, to, depth)?,
        )),
        Form::Not(f) => Ok(Form::Not(shared_form(alloc, f, from, to, depth)?)),
        Form::And(f, g) => Ok(Form::And(
            shared_form(alloc, f, from, to, depth)?,
            shared_form(alloc, g, from, to, depth)?,
        )),
        Form::Or(f, g) => Ok(Form::Or(
            shared_form(alloc, f, from, to, depth)?,
            shared_form(alloc, g, from, to, depth)?,
        )),
        Form::Imp(f, g) => Ok(Form::Imp(
            shared_form(alloc, f, from, to, depth)?,
            shared_form(alloc, g, from, to, depth)?,
        )),
        Form::Iff(f, g) => Ok(Form::Iff(
            shared_form(alloc, f, from, to, depth)?,
            shared_form(alloc, g, from, to, depth)?,
        )),
        Form::All(s, f) => Ok(Form::All(
            s.copy(alloc)?,
            shared_form(alloc, f, from, to, depth + 1)?,
        )),
        Form::Ex(s, f) => Ok(Form::Ex(s.copy(alloc)?, shared_form(alloc, f, from, to, depth + 1)?)),
        Form::After(a, f) => Ok(Form::After(
            a.share()?,
            form_behind(alloc, f, touches(a.get(), from, to, depth), from, to, depth)?,
        )),
        Form::Can(a, f) => Ok(Form::Can(
            a.share()?,
            form_behind(alloc, f, touches(a.get(), from, to, depth), from, to, depth)?,
        )),
    }
}

#[cycle(form_replaced)]
fn shared_form(
    alloc: Global,
    form: &Shared<Form>,
    from: &Term,
    to: &Term,
    depth: u32,
) -> Result<Shared<Form>, NoMemory>
    requires { form_binders (plain_form form.now) + term_reach (plain_term to.now) + depth < 2 ^ 32 }
    ensures { IfOk result (λ f. plain_form f ≡ replaced_form (plain_term from.now) (plain_term to.now) depth (plain_form form.now)) }
{
    Shared::new(alloc, form_replaced(alloc, form.get(), from, to, depth)?)
}

/// The formula behind a program, which touches one of the terms or not.
#[cycle(form_replaced)]
fn form_behind(
    alloc: Global,
    form: &Shared<Form>,
    touched: bool,
    from: &Term,
    to: &Term,
    depth: u32,
) -> Result<Shared<Form>, NoMemory>
    requires { form_binders (plain_form form.now) + term_reach (plain_term to.now) + depth < 2 ^ 32 }
    ensures { IfOk result (λ f. plain_form f ≡ (if touched then plain_form form.now else replaced_form (plain_term from.now) (plain_term to.now) depth (plain_form form.now))) }
{
    if touched {
        form.share()
    } else {
        Shared::new(alloc, form_replaced(alloc, form.get(), from, to, depth)?)
    }
}
