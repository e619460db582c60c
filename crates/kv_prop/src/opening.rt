// Bodies of binders at a term, and how large they would be.

ghost use Rattle.std.specs.Prelude.{◌≡◌, ◌↔◌, ◌+◌, ◌-◌, ◌^◌, ◌<◌, ◌≤◌, IfOk, IsOk, IsTrue, MatchOption, true, false};
ghost use Rattle.kv_trees.specs.Bridge.{plain_term, plain_terms, plain_form, plain_prog};
ghost use Rattle.kv_trees.specs.Count.{term_nodes, terms_nodes, form_nodes, prog_nodes, term_depth, terms_depth, form_depth, prog_depth};
ghost use Rattle.kv_trees.specs.Variables.{form_binders, prog_binders};
ghost use Rattle.kv_subst.specs.Changing.{changed_term, changed_terms, changed_form, changed_prog};
ghost use Rattle.kv_subst.specs.Opening.{opened, is_admissible};
ghost use Rattle.kv_subst.specs.Sizes.{term_reach, terms_reach};
ghost use Rattle.kv_goal.specs.Measures.{Measures};
ghost use Rattle.kv_prop.specs.Shallow.{IsShallow};

use kv_goal::{Size, term_size};
use kv_subst::form_opened;
use kv_syn::{Form, List, NoMemory, Prog, Ref, Shared, Term};
use std::alloc::Global;

/// Trees that are deeper, or count more binders around them, aren't handled. They don't fit into memory.
const MOST_BINDERS: u32 = 2_000_000_000;

/// Whether the numbers in the term go no further than that.
#[cycle(term_within)]
fn term_within(term: &Term, most: u32) -> bool
    ensures { IsTrue result ↔ (term_reach (plain_term term.now) ≤ most) }
{
    match term {
        Term::Place(Ref::Free(_)) => true,
        Term::Place(Ref::Bound(n)) => *n < most,
        Term::App(_, ts) => terms_within(ts.items(), most),
    }
}

#[cycle(term_within)]
fn terms_within(terms: &[Term], most: u32) -> bool
    ensures { IsTrue result ↔ (terms_reach (plain_terms terms.now) ≤ most) }
{
    for term in terms {
        if !term_within(term, most) {
            return false;
        }
    }
    true
}

/// Whether the term can be put below the binders of the formula with no number past 2^32 - 2.
#[tactic(auto, using(kv_trees::proofs::Depths::form_within))]
pub(crate) fn are_shallow(form: &Form, term: &Term) -> bool
    ensures exact { IsTrue result ↔ IsShallow (plain_form form.now) (plain_term term.now) }
    ensures within { IsTrue result → form_binders (plain_form form.now) + term_reach (plain_term term.now) < 2 ^ 32 - 1 }
{
    form.depth() <= MOST_BINDERS && term_within(term, MOST_BINDERS)
}

/// A body of a quantifier and a term. The numbers of the term can be raised by the binders of the body.
#[derive(Clone, Copy)]
pub(crate) struct Opening<'a> {
    pub body: &'a Form,
    pub at: &'a Term,
    ghost shallow: { form_binders (plain_form body.now) + term_reach (plain_term at.now) < 2 ^ 32 - 1 },
}

impl<'a> Opening<'a> {
    /// The body with the term, where it may be opened there. Want of memory exactly where body and term aren't shallow.
    pub fn of(body: &'a Form, at: &'a Term) -> Result<Option<Opening<'a>>, NoMemory>
        ensures answer { IfOk result (λ answer. MatchOption answer (is_admissible (plain_form body.now) (plain_term at.now) ≡ false) (λ opening. (is_admissible (plain_form body.now) (plain_term at.now) ≡ true) × (opening.body.now ≡ body.now) × (opening.at.now ≡ at.now))) }
        ensures shallow { IsOk result ↔ IsShallow (plain_form body.now) (plain_term at.now) }
    {
        if !are_shallow(body, at) {
            return Err(NoMemory);
        }
        if kv_subst::admissible(body, at) {
            Ok(Some(Opening { body, at }))
        } else {
            Ok(None)
        }
    }

    /// The body at the term.
    pub fn form(&self, alloc: Global) -> Result<Form, NoMemory>
        ensures { IfOk result (λ form. plain_form form ≡ changed_form (opened (plain_term self.now.at.now)) 0 (plain_form self.now.body.now)) }
    {
        form_opened(alloc, self.body, self.at)
    }

    /// How large the body is at the term.
    pub fn size(&self) -> Size
        ensures { Measures result (form_nodes (changed_form (opened (plain_term self.now.at.now)) 0 (plain_form self.now.body.now))) (form_depth (changed_form (opened (plain_term self.now.at.now)) 0 (plain_form self.now.body.now))) }
    {
        form_opened_size(self.body, &Counted::of(self.at), 0)
    }
}

/// A term with its size.
#[derive(Clone, Copy)]
pub(crate) struct Counted<'a> {
    pub term: &'a Term,
    pub size: Size,
    ghost right: { Measures size (term_nodes (plain_term term.now)) (term_depth (plain_term term.now)) },
}

impl<'a> Counted<'a> {
    pub fn of(term: &'a Term) -> Counted<'a>
        ensures { result.term.now ≡ term.now }
    {
        Counted {
            term,
            size: term_size(term),
        }
    }
}

#[tactic(auto, using(crate::proofs::Openings::here_nodes, crate::proofs::Openings::here_depth, crate::proofs::Openings::elsewhere_nodes, crate::proofs::Openings::elsewhere_depth))]
fn place_opened_size(place: &Ref, at: &Counted<'_>, depth: u32) -> Size
    ensures { Measures result (term_nodes (opened (plain_term at.now.term.now) depth place.now)) (term_depth (opened (plain_term at.now.term.now) depth place.now)) }
{
    match place {
        Ref::Free(_) => Size::leaf(),
        Ref::Bound(n) => { if *n == depth { at.size } else { Size::leaf() } }
    }
}

#[cycle(term_opened_size)]
fn term_opened_size(term: &Term, at: &Counted<'_>, depth: u32) -> Size
    ensures { Measures result (term_nodes (changed_term (opened (plain_term at.now.term.now) depth) (plain_term term.now))) (term_depth (changed_term (opened (plain_term at.now.term.now) depth) (plain_term term.now))) }
{
    match term {
        Term::Place(r) => place_opened_size(r, at, depth),
        Term::App(_, ts) => args_opened_size(ts, at, depth),
    }
}

/// That of a root with these terms below it.
#[cycle(term_opened_size)]
fn args_opened_size(args: &Shared<List<Term>>, at: &Counted<'_>, depth: u32) -> Size
    ensures { Measures result (1 + terms_nodes (changed_terms (opened (plain_term at.now.term.now) depth) (plain_terms args.now))) (1 + terms_depth (changed_terms (opened (plain_term at.now.term.now) depth) (plain_terms args.now))) }
{
    terms_opened_size(args.items(), at, depth).below()
}

#[cycle(term_opened_size)]
fn terms_opened_size(terms: &[Term], at: &Counted<'_>, depth: u32) -> Size
    ensures { Measures result (terms_nodes (changed_terms (opened (plain_term at.now.term.now) depth) (plain_terms terms.now))) (terms_depth (changed_terms (opened (plain_term at.now.term.now) depth) (plain_terms terms.now))) }
{
    let mut size = Size::none();
    for term in terms {
        size = size.and(term_opened_size(term, at, depth));
    }
    size
}

#[cycle(form_opened_size)]
fn form_opened_size(form: &Form, at: &Counted<'_>, depth: u32) -> Size
    requires { form_binders (plain_form form.now) + depth < 2 ^ 32 }
    ensures { Measures result (form_nodes (changed_form (opened (plain_term at.now.term.now)) depth (plain_form form.now))) (form_depth (changed_form (opened (plain_term at.now.term.now)) depth (plain_form form.now))) }
{
    match form {
        Form::True | Form::False => Size::leaf(),
        Form::Atom(_, ts) => args_opened_size(ts, at, depth),
        Form::Equal(t, u) => {
            Size::over(
                term_opened_size(t, at, depth),
                term_opened_size(u, at, depth),
            )
        }
        Form::Not(f) => form_opened_size(f.get(), at, depth).below(),
        Form::And(f, g) | Form::Or(f, g) | Form::Imp(f, g) | Form::Iff(f, g) => {
            Size::over(
                form_opened_size(f.get(), at, depth),
                form_opened_size(g.get(), at, depth),
            )
        }
        Form::All(_, f) | Form::Ex(_, f) => form_opened_size(f.get(), at, depth + 1).below(),
        Form::After(a, f) | Form::Can(a, f) => {
            Size::over(
                prog_opened_size(a.get(), at, depth),
                form_opened_size(f.get(), at, depth),
            )
        }
    }
}

#[cycle(form_opened_size)]
fn prog_opened_size(prog: &Prog, at: &Counted<'_>, depth: u32) -> Size
    requires { prog_binders (plain_prog prog.now) + depth < 2 ^ 32 }
    ensures { Measures result (prog_nodes (changed_prog (opened (plain_term at.now.term.now)) depth (plain_prog prog.now))) (prog_depth (changed_prog (opened (plain_term at.now.term.now)) depth (plain_prog prog.now))) }
{
    match prog {
        Prog::Skip | Prog::Abort => Size::leaf(),
        Prog::Assign(_, t) => term_opened_size(t, at, depth).below(),
        Prog::Seq(a, b) | Prog::Choice(a, b) => {
            Size::over(
                prog_opened_size(a.get(), at, depth),
                prog_opened_size(b.get(), at, depth),
            )
        }
        Prog::If(e, a, b) => {
            let branches = prog_opened_size(a.get(), at, depth).and(prog_opened_size(
                b.get(),
                at,
                depth,
            ));
            Size::over(form_opened_size(e.get(), at, depth), branches)
        }
        Prog::While(e, a) => {
            Size::over(
                form_opened_size(e.get(), at, depth),
                prog_opened_size(a.get(), at, depth),
            )
        }
        Prog::Local(_, t, a) => {
            Size::over(
                term_opened_size(t, at, depth),
                prog_opened_size(a.get(), at, depth + 1),
            )
        }
        Prog::Call(_, ts, _) => args_opened_size(ts, at, depth),
    }
}
