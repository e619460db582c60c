// Whether an opening is admissible. One pass goes over the body: each part tells its parent all that is asked of it, so boxes
// and diamonds in one another cost no further walk. For each assigned variable and each reference the variables of the term
// are looked through once. So the time is in proportion to the body and, beside it, to those times the size of the term. Where
// the pass finds a capture, one walk more asks whether the term is a new variable.

ghost use Rattle.std.specs.Prelude.{◌≡◌, ◌+◌, ◌-◌, ◌<◌, ◌^◌, not, ◌&&◌, ◌||◌};
ghost use Rattle.kv_trees.specs.Bridge.{plain_term, plain_form, plain_prog};
ghost use Rattle.kv_trees.specs.Trees.{Form as FormTree, Term as TermTree};
ghost use Rattle.kv_trees.specs.declared.trees.Ref.{Ref};
ghost use Rattle.kv_trees.specs.Variables.{term_any, form_has, prog_has, modifies, form_binders, prog_binders};
ghost use Rattle.kv_subst.specs.Opening.{form_keeps, prog_keeps, is_new, is_admissible, prog_is_admissible};
ghost use Rattle.kv_subst.specs.TermAt.{term_at};

use crate::at::At;
use kv_names::Var;
use kv_trees::{Form, Prog, Ref, Term, form_mentions, prog_mentions, prog_modifies, term_mentions};

/// Whether opening the body at the term is admissible: no program in the body modifies the bound variable, and none of a box or
/// diamond in which that is free modifies a variable of the term; or the term is a variable that isn't free in the body.
pub fn admissible(body: &Form, at: &Term) -> bool
    requires { form_binders (plain_form body.now) < 2 ^ 32 - 1 }
    ensures { result ≡ is_admissible (plain_form body.now) (plain_term at.now) }
{
    admissible_at(body, &At::Term(at))
}

/// The same at a variable.
pub(crate) fn admissible_at_var(body: &Form, at: &Var) -> bool
    requires { form_binders (plain_form body.now) < 2 ^ 32 - 1 }
    ensures { result ≡ is_admissible (plain_form body.now) (TermTree.Place (Ref.Free at.now)) }
{
    admissible_at(body, &At::Var(at))
}

#[tactic(auto, unfolding(crate::specs::Opening::is_admissible))]
fn admissible_at(body: &Form, at: &At<'_>) -> bool
    requires { form_binders (plain_form body.now) < 2 ^ 32 - 1 }
    ensures { result ≡ is_admissible (plain_form body.now) (term_at at.now) }
{
    form_judged(body, at, 0).stands || at.is_new(body)
}

/// The same of the body of a block.
#[tactic(auto, unfolding(crate::specs::Opening::is_admissible, crate::specs::Opening::keeps))]
pub(crate) fn prog_admissible(body: &Prog, at: &Term) -> bool
    requires { prog_binders (plain_prog body.now) < 2 ^ 32 - 1 }
    ensures { result ≡ prog_is_admissible (plain_prog body.now) (plain_term at.now) }
{
    let nothing = Judged {
        stands: true,
        has_bound: false,
    };
    nothing.behind(prog_judged(body, &At::Term(at), 0)).stands || is_new_in_prog(body, at)
}

fn is_new_in_prog(body: &Prog, at: &Term) -> bool
    requires { prog_binders (plain_prog body.now) < 2 ^ 32 - 1 }
    ensures { result ≡ is_new (FormTree.After (plain_prog body.now) FormTree.True) (plain_term at.now) }
{
    match at {
        Term::Place(r) => !prog_mentions(body, r, 1),
        Term::App(_, _) => false,
    }
}

/// What the pass tells of a formula.
#[derive(Clone, Copy)]
struct Judged {
    /// Whether each box and diamond in it may stand.
    stands: bool,
    /// Whether the bound variable is free in it.
    has_bound: bool,
}

impl Judged {
    fn and(self, other: Judged) -> Judged
        ensures stands { result.stands ≡ (self.stands && other.stands) }
        ensures has_bound { result.has_bound ≡ (self.has_bound || other.has_bound) }
    {
        Judged {
            stands: self.stands && other.stands,
            has_bound: self.has_bound || other.has_bound,
        }
    }

    /// The box or diamond of the program, with this formula behind it.
    fn behind(self, prog: ProgJudged) -> Judged
        ensures stands { result.stands ≡ ((not prog.modifies_bound && not ((prog.has_bound || self.has_bound) && prog.modifies_term)) && (prog.stands && self.stands)) }
        ensures has_bound { result.has_bound ≡ (prog.has_bound || self.has_bound) }
    {
        let has_bound = prog.has_bound || self.has_bound;
        let keeps = !prog.modifies_bound && !(has_bound && prog.modifies_term);
        Judged {
            stands: keeps && (prog.stands && self.stands),
            has_bound,
        }
    }
}

/// What it tells of a program.
#[derive(Clone, Copy)]
struct ProgJudged {
    /// Whether each box and diamond in its conditions may stand.
    stands: bool,
    /// Whether the bound variable is free in it.
    has_bound: bool,
    /// Whether it modifies the bound variable.
    modifies_bound: bool,
    /// Whether it modifies a variable of the term.
    modifies_term: bool,
}

impl ProgJudged {
    fn and(self, other: ProgJudged) -> ProgJudged
        ensures stands { result.stands ≡ (self.stands && other.stands) }
        ensures has_bound { result.has_bound ≡ (self.has_bound || other.has_bound) }
        ensures modifies_bound { result.modifies_bound ≡ (self.modifies_bound || other.modifies_bound) }
        ensures modifies_term { result.modifies_term ≡ (self.modifies_term || other.modifies_term) }
    {
        ProgJudged {
            stands: self.stands && other.stands,
            has_bound: self.has_bound || other.has_bound,
            modifies_bound: self.modifies_bound || other.modifies_bound,
            modifies_term: self.modifies_term || other.modifies_term,
        }
    }

    /// The program under a condition.
    fn under(self, condition: Judged) -> ProgJudged
        ensures stands { result.stands ≡ (condition.stands && self.stands) }
        ensures has_bound { result.has_bound ≡ (condition.has_bound || self.has_bound) }
        ensures modifies_bound { result.modifies_bound ≡ self.modifies_bound }
        ensures modifies_term { result.modifies_term ≡ self.modifies_term }
    {
        ProgJudged {
            stands: condition.stands && self.stands,
            has_bound: condition.has_bound || self.has_bound,
            ..self
        }
    }
}

/// What is told of a formula under so many binders of the body.
#[cycle(form_judged)]
fn form_judged(form: &Form, at: &At<'_>, depth: u32) -> Judged
    requires { form_binders (plain_form form.now) + depth < 2 ^ 32 - 1 }
    ensures stands { result.stands ≡ form_keeps (term_at at.now) depth (plain_form form.now) }
    ensures has_bound { result.has_bound ≡ form_has (Ref.Bound 0) depth (plain_form form.now) }
{
    match form {
        Form::True | Form::False | Form::Atom(_, _) | Form::Equal(_, _) => Judged {
            stands: true,
            has_bound: form_mentions(form, &Ref::Bound(0), depth),
        },
        Form::Not(f) => form_judged(f.get(), at, depth),
        Form::And(f, g) | Form::Or(f, g) | Form::Imp(f, g) | Form::Iff(f, g) => {
            form_judged(f.get(), at, depth).and(form_judged(g.get(), at, depth))
        }
        Form::All(_, f) | Form::Ex(_, f) => form_judged(f.get(), at, depth + 1),
        Form::After(a, f) | Form::Can(a, f) => {
            form_judged(f.get(), at, depth).behind(prog_judged(a.get(), at, depth))
        }
    }
}

/// The same of a program.
#[cycle(form_judged)]
fn prog_judged(prog: &Prog, at: &At<'_>, depth: u32) -> ProgJudged
    requires { prog_binders (plain_prog prog.now) + depth < 2 ^ 32 - 1 }
    ensures stands { result.stands ≡ prog_keeps (term_at at.now) depth (plain_prog prog.now) }
    ensures has_bound { result.has_bound ≡ prog_has (Ref.Bound 0) depth (plain_prog prog.now) }
    ensures modifies_bound { result.modifies_bound ≡ modifies (Ref.Bound 0) depth (plain_prog prog.now) }
    ensures modifies_term { result.modifies_term ≡ term_any (λ r. modifies r (depth + 1) (plain_prog prog.now)) (term_at at.now) }
{
    match prog {
        Prog::Skip | Prog::Abort | Prog::Assign(_, _) | Prog::Call(_, _, _) => ProgJudged {
            stands: true,
            has_bound: prog_mentions(prog, &Ref::Bound(0), depth),
            modifies_bound: prog_modifies(prog, &Ref::Bound(0), depth),
            modifies_term: at.is_modified(prog, depth + 1),
        },
        Prog::Seq(a, b) | Prog::Choice(a, b) => {
            prog_judged(a.get(), at, depth).and(prog_judged(b.get(), at, depth))
        }
        Prog::If(e, a, b) => prog_judged(a.get(), at, depth)
            .and(prog_judged(b.get(), at, depth))
            .under(form_judged(e.get(), at, depth)),
        Prog::While(e, a) => {
            prog_judged(a.get(), at, depth).under(form_judged(e.get(), at, depth))
        }
        Prog::Local(_, t, a) => {
            let inside = prog_judged(a.get(), at, depth + 1);
            ProgJudged {
                has_bound: term_mentions(t, &Ref::Bound(0), depth) || inside.has_bound,
                ..inside
            }
        }
    }
}
