// What becomes of one variable.

ghost use Rattle.std.specs.Prelude.{◌≡◌, ◌+◌, ◌<◌, ◌^◌, max, map, IfOk};
ghost use Rattle.kv_trees.specs.Bridge.{plain_term, plain_terms};
ghost use Rattle.kv_trees.specs.Variables.{raised_ref};
ghost use Rattle.kv_subst.specs.Changing.{changed_ref, changed_terms};
ghost use Rattle.kv_subst.specs.Opening.{raised_term, raised_terms, opened, closed};
ghost use Rattle.kv_subst.specs.Sizes.{ref_reach, term_reach, terms_reach};
ghost use Rattle.kv_subst.specs.Tops.{refs_top};
ghost use Rattle.kv_subst.specs.Work.{change_of, most_of};

use crate::changes::Work;
use kv_names::{List, NoMemory, Plain, Shared, Var};
use kv_trees::{Ref, Term, is_var};
use std::alloc::Global;

fn ref_raised(alloc: Global, place: &Ref, by: u32) -> Result<Ref, NoMemory>
    requires { ref_reach place.now + by < 2 ^ 32 }
    ensures { IfOk result (λ r. r ≡ raised_ref by place.now) }
{
    match place {
        Ref::Free(x) => Ok(Ref::Free(x.copy(alloc)?)),
        Ref::Bound(n) => Ok(Ref::Bound(*n + by)),
    }
}

/// The term under so many more binders.
#[cycle(term_raised)]
pub fn term_raised(alloc: Global, term: &Term, by: u32) -> Result<Term, NoMemory>
    requires { term_reach (plain_term term.now) + by < 2 ^ 32 }
    ensures { IfOk result (λ t. plain_term t ≡ raised_term by (plain_term term.now)) }
{
    match term {
        Term::Place(r) => Ok(Term::Place(ref_raised(alloc, r, by)?)),
        Term::App(f, ts) => Ok(Term::App(f.copy(alloc)?, shared_terms(alloc, ts, by)?)),
    }
}

#[cycle(term_raised)]
fn shared_terms(
    alloc: Global,
    terms: &Shared<List<Term>>,
    by: u32,
) -> Result<Shared<List<Term>>, NoMemory>
    requires { terms_reach (plain_terms terms.now) + by < 2 ^ 32 }
    ensures { IfOk result (λ ts. plain_terms ts ≡ raised_terms by (plain_terms terms.now)) }
{
    Shared::new(alloc, terms_raised(alloc, terms.items(), by)?)
}

#[cycle(term_raised)]
fn terms_raised(alloc: Global, terms: &[Term], by: u32) -> Result<List<Term>, NoMemory>
    requires { terms_reach (plain_terms terms.now) + by < 2 ^ 32 }
    ensures { IfOk result (λ ts. plain_terms ts ≡ raised_terms by (plain_terms terms.now)) }
{
    let mut raised = List::new(alloc);
    for term in terms {
        raised.push(term_raised(alloc, term, by)?)?;
    }
    Ok(raised)
}

fn place_opened(alloc: Global, place: &Ref, at: &Term, depth: u32) -> Result<Term, NoMemory>
    requires { depth + term_reach (plain_term at.now) < 2 ^ 32 }
    ensures { IfOk result (λ t. plain_term t ≡ opened (plain_term at.now) depth place.now) }
{
    match place {
        Ref::Free(x) => Ok(Term::Place(Ref::Free(x.copy(alloc)?))),
        Ref::Bound(n) => {
            if *n < depth {
                Ok(Term::Place(Ref::Bound(*n)))
            } else if *n == depth {
                term_raised(alloc, at, depth)
            } else {
                Ok(Term::Place(Ref::Bound(*n - 1)))
            }
        }
    }
}

fn place_closed(alloc: Global, place: &Ref, var: &Var, depth: u32) -> Result<Term, NoMemory>
    requires { ref_reach place.now < 2 ^ 32 }
    ensures { IfOk result (λ t. plain_term t ≡ closed var.now depth place.now) }
{
    match place {
        Ref::Free(x) => {
            if is_var(x, var) {
                Ok(Term::Place(Ref::Bound(depth)))
            } else {
                Ok(Term::Place(Ref::Free(x.copy(alloc)?)))
            }
        }
        Ref::Bound(n) => {
            if *n < depth {
                Ok(Term::Place(Ref::Bound(*n)))
            } else {
                Ok(Term::Place(Ref::Bound(*n + 1)))
            }
        }
    }
}

/// What becomes of a variable under so many binders of the tree.
pub(crate) fn place_changed(
    alloc: Global,
    place: &Ref,
    work: &Work<'_>,
    depth: u32,
) -> Result<Term, NoMemory>
    requires { most_of work.now depth place.now < 2 ^ 32 }
    ensures { IfOk result (λ t. plain_term t ≡ change_of work.now depth place.now) }
{
    match work {
        Work::Open(at) => place_opened(alloc, place, at, depth),
        Work::Close(var) => place_closed(alloc, place, var, depth),
    }
}

/// The same of an assigned variable or a reference, which stays a variable.
pub(crate) fn ref_changed(
    alloc: Global,
    place: &Ref,
    work: &Work<'_>,
    depth: u32,
) -> Result<Ref, NoMemory>
    requires { most_of work.now depth place.now < 2 ^ 32 }
    ensures { IfOk result (λ r. r ≡ changed_ref (change_of work.now depth) place.now) }
{
    match place_changed(alloc, place, work, depth)? {
        Term::Place(r) => Ok(r),
        Term::App(_, _) => place.copy(alloc),
    }
}

pub(crate) fn refs_changed(
    alloc: Global,
    places: &[Ref],
    work: &Work<'_>,
    depth: u32,
) -> Result<List<Ref>, NoMemory>
    requires { refs_top (most_of work.now depth) places.now < 2 ^ 32 }
    ensures { IfOk result (λ rs. rs ≡ map (changed_ref (change_of work.now depth)) places.now) }
{
    let mut changed = List::new(alloc);
    for place in places {
        changed.push(ref_changed(alloc, place, work, depth)?)?;
    }
    Ok(changed)
}
