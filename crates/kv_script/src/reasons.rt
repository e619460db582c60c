// Why a step or a theorem is refused.

ghost use Rattle.std.specs.Prelude.{◌≡◌, [], ◌∷◌, true, Some, IfOk};
ghost use Rattle.std.specs.Option.{option_map};
ghost use Rattle.kv_elab.specs.Faults.{plain_fault};
ghost use Rattle.kv_prop.specs.Refusals.{plain_refusal};
ghost use Rattle.kv_script.specs.Reasons.{reason_with, refusal_reason, typing_reason};
ghost use Rattle.kv_syn.specs.Rows.{has_reason_row};

use kv_elab::TypeError;
use kv_sig::StepError;
use kv_syn::{Label, List, Name, NoMemory, Reason};
use kv_table::reason;
use std::alloc::Global;

/// A reason without names.
pub fn bare(alloc: Global, word: u32) -> Reason
    ensures { result ≡ reason_with word [] }
{
    Reason {
        word,
        names: List::new(alloc),
    }
}

/// A reason with one name.
fn named(alloc: Global, word: u32, name: &Name) -> Result<Reason, NoMemory>
    ensures { IfOk result (λ reason. reason ≡ reason_with word (name.now ∷ [])) }
{
    labelled(alloc, word, Label::from_bytes(alloc, name.bytes())?)
}

/// A reason with one label.
fn labelled(alloc: Global, word: u32, label: Label) -> Result<Reason, NoMemory>
    ensures { IfOk result (λ reason. reason ≡ reason_with word (label ∷ [])) }
{
    let mut names = List::new(alloc);
    names.push(label)?;
    Ok(Reason { word, names })
}

/// A reason with two names.
fn named_two(alloc: Global, word: u32, one: &Name, two: &Name) -> Result<Reason, NoMemory>
    ensures { IfOk result (λ reason. reason ≡ reason_with word (one.now ∷ two.now ∷ [])) }
{
    let mut names = List::new(alloc);
    names.push(Label::from_bytes(alloc, one.bytes())?)?;
    names.push(Label::from_bytes(alloc, two.bytes())?)?;
    Ok(Reason { word, names })
}

/// The reason of a refusal. Want of memory is none.
pub fn reason_of(alloc: Global, error: StepError) -> Result<Reason, NoMemory>
    ensures rows { IfOk result (λ reason. has_reason_row reason ≡ true) }
    ensures reason { IfOk result (λ reason. option_map refusal_reason (plain_refusal error) ≡ Some reason) }
{
    match error {
        StepError::Position => Ok(bare(alloc, reason::POSITION)),
        StepError::Shape => Ok(bare(alloc, reason::SHAPE)),
        StepError::Sort { want, got } => named_two(alloc, reason::SORT, &want, &got),
        StepError::NoLabel { label } => labelled(alloc, reason::LABEL, label),
        StepError::NoBody { name } => named(alloc, reason::BODY, &name),
        StepError::NoGeneration { sort } => named(alloc, reason::GENERATION, &sort),
        StepError::NotFresh { name } => named(alloc, reason::FRESH, &name),
        StepError::Captured => Ok(bare(alloc, reason::CAPTURED)),
        StepError::Large => Ok(bare(alloc, reason::LARGE)),
        StepError::NoMemory => Err(NoMemory),
    }
}

/// The reason of a fault of typing. Want of memory is none.
pub fn typing_reason(alloc: Global, fault: TypeError) -> Result<Reason, NoMemory>
    ensures rows { IfOk result (λ reason. has_reason_row reason ≡ true) }
    ensures reason { IfOk result (λ reason. option_map typing_reason (plain_fault fault) ≡ Some reason) }
{
    match fault {
        TypeError::Unknown { name } => named(alloc, reason::UNKNOWN, &name),
        TypeError::Arity { name } => named(alloc, reason::ARITY, &name),
        TypeError::Sort { want, got } => named_two(alloc, reason::SORT, &want, &got),
        TypeError::Duplicate { name } => named(alloc, reason::DUPLICATE, &name),
        TypeError::Program => Ok(bare(alloc, reason::PROGRAM)),
        TypeError::NoMemory => Err(NoMemory),
    }
}
