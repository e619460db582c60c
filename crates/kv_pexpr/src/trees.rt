// Terms and formulas that are made of others.

ghost use Rattle.std.specs.Prelude.{◌≡◌, ◌+◌, max, IfOk};
ghost use Rattle.kv_raw.specs.RawTrees.{RawForm as RawTree, RawTerm as TermTree};
ghost use Rattle.kv_raw.specs.RawBridge.{raw_form, raw_term, raw_terms};
ghost use Rattle.kv_raw.specs.RawCount.{raw_form_depth, raw_term_depth, raw_terms_depth};
ghost use Rattle.kv_pexpr.specs.Gives.{joined, quantified};
ghost use Rattle.kv_pexpr.specs.Parse as spec;

use crate::levels::{Operator, Quantifier};
use kv_names::{List, Name, NoMemory, Shared, Var};
use kv_raw::{RawForm, RawTerm};
use std::alloc::Global;

/// The two with the operator between them.
pub fn join(
    alloc: Global,
    operator: Operator,
    left: RawForm,
    right: RawForm,
) -> Result<RawForm, NoMemory>
    ensures made { IfOk result (λ form. raw_form form ≡ joined operator (raw_form left) (raw_form right)) }
    ensures high { IfOk result (λ form. raw_form_depth (raw_form form) ≡ 1 + max (raw_form_depth (raw_form left)) (raw_form_depth (raw_form right))) }
{
    let left = Shared::new(alloc, left)?;
    let right = Shared::new(alloc, right)?;
    match operator {
        Operator::And => Ok(RawForm::And(left, right)),
        Operator::Or => Ok(RawForm::Or(left, right)),
        Operator::Imp => Ok(RawForm::Imp(left, right)),
        Operator::Iff => Ok(RawForm::Iff(left, right)),
    }
}

/// The body under the quantifier of the variable.
pub fn quantify(
    alloc: Global,
    quantifier: Quantifier,
    var: Var,
    body: RawForm,
) -> Result<RawForm, NoMemory>
    ensures made { IfOk result (λ form. raw_form form ≡ quantified quantifier var (raw_form body)) }
    ensures high { IfOk result (λ form. raw_form_depth (raw_form form) ≡ 1 + raw_form_depth (raw_form body)) }
{
    let body = Shared::new(alloc, body)?;
    match quantifier {
        Quantifier::All => Ok(RawForm::All(var, body)),
        Quantifier::Ex => Ok(RawForm::Ex(var, body)),
    }
}

/// The negation of the formula.
pub fn negation(alloc: Global, form: RawForm) -> Result<RawForm, NoMemory>
    ensures { IfOk result (λ negated. raw_form negated ≡ RawTree.Not (raw_form form)) }
{
    Ok(RawForm::Not(Shared::new(alloc, form)?))
}

/// The symbol with its arguments.
pub fn application(alloc: Global, name: Name, args: List<RawTerm>) -> Result<RawTerm, NoMemory>
    ensures made { IfOk result (λ term. raw_term term ≡ TermTree.App name (raw_terms args)) }
    ensures high { IfOk result (λ term. raw_term_depth (raw_term term) ≡ 1 + raw_terms_depth (raw_terms args)) }
{
    Ok(RawTerm::App(name, Shared::new(alloc, args)?))
}

/// The term as an atom.
pub fn atom_of(term: RawTerm) -> RawForm
    ensures value { raw_form result ≡ spec.atom_of (raw_term term) }
    ensures high { raw_form_depth (raw_form result) ≡ raw_term_depth (raw_term term) }
{
    let RawTerm::App(name, args) = term;
    RawForm::Atom(name, args)
}
