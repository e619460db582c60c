// Terms with other variables.

ghost use Rattle.std.specs.Prelude.{◌≡◌, ◌<◌, ◌^◌, IfOk};
ghost use Rattle.kv_trees.specs.Bridge.{plain_term, plain_terms};
ghost use Rattle.kv_subst.specs.Changing.{changed_term, changed_terms};
ghost use Rattle.kv_subst.specs.Tops.{term_top, terms_top};
ghost use Rattle.kv_subst.specs.Work.{change_of, most_of};

use crate::changes::Work;
use crate::places::place_changed;
use kv_names::{List, NoMemory, Plain, Shared};
use kv_trees::Term;
use std::alloc::Global;

#[cycle(term_changed)]
pub(crate) fn term_changed(
    alloc: Global,
    term: &Term,
    work: &Work<'_>,
    depth: u32,
) -> Result<Term, NoMemory>
    requires { term_top (most_of work.now depth) (plain_term term.now) < 2 ^ 32 }
    ensures { IfOk result (λ t. plain_term t ≡ changed_term (change_of work.now depth) (plain_term term.now)) }
{
    match term {
        Term::Place(r) => place_changed(alloc, r, work, depth),
        Term::App(f, ts) => Ok(Term::App(f.copy(alloc)?, shared_terms(alloc, ts, work, depth)?)),
    }
}

#[cycle(term_changed)]
pub(crate) fn shared_terms(
    alloc: Global,
    terms: &Shared<List<Term>>,
    work: &Work<'_>,
    depth: u32,
) -> Result<Shared<List<Term>>, NoMemory>
    requires { terms_top (most_of work.now depth) (plain_terms terms.now) < 2 ^ 32 }
    ensures { IfOk result (λ ts. plain_terms ts ≡ changed_terms (change_of work.now depth) (plain_terms terms.now)) }
{
    Shared::new(alloc, terms_changed(alloc, terms.items(), work, depth)?)
}

#[cycle(term_changed)]
fn terms_changed(
    alloc: Global,
    terms: &[Term],
    work: &Work<'_>,
    depth: u32,
) -> Result<List<Term>, NoMemory>
    requires { terms_top (most_of work.now depth) (plain_terms terms.now) < 2 ^ 32 }
    ensures { IfOk result (λ ts. plain_terms ts ≡ changed_terms (change_of work.now depth) (plain_terms terms.now)) }
{
    let mut changed = List::new(alloc);
    for term in terms {
        changed.push(term_changed(alloc, term, work, depth)?)?;
    }
    Ok(changed)
}
