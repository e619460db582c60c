// Units, theorems and proofs.

ghost use Rattle.std.specs.Prelude.{◌≡◌, true, List, [], IfOk, map, length};
ghost use Rattle.std.specs.List.{list_all};
ghost use Rattle.kv_lex.specs.declared.token.TokenKind.{TokenKind as KindTree};
ghost use Rattle.kv_syn.specs.ProjectBridge.{plain_item, plain_proof, plain_theorem, plain_unit};
ghost use Rattle.kv_syn.specs.Projects as P;
ghost use Rattle.kv_syn.specs.Readable.{is_readable_item, is_readable_unit};
ghost use Rattle.kv_pexpr.specs.Gives.{kinds, Gives};
ghost use Rattle.kv_pexpr.specs.Grammar.{Stops};
ghost use Rattle.kv_punit.specs.Ends.{AllTheorems, AllProofs, WholeUnit};
ghost use Rattle.kv_punit.specs.Gives.{seen, Finds, IsThat};
ghost use Rattle.kv_punit.specs.Grammar.{IsLabelled, IsStatement, IsTheorem};
ghost use Rattle.kv_punit.specs.Parse as spec;
ghost use Rattle.kv_punit.specs.Readings.{IsLoneHead};

use crate::items::{eat_declares, item};
use crate::labels::proof_label;
use crate::scripts::script;
use crate::tokens::{end, mark, word};
use crate::trees::form;
use kv_lex::{Token, mark as row};
use kv_pexpr::{ReadError, eat_name, eat_word};
use kv_syn::{Item, Kind, List, Name, Proof, Theorem, Unit};
use kv_table::keyword;
use std::alloc::Global;

/// A unit with its theorems and proofs. `Syntax` also where a theorem stands behind the proofs.
pub fn whole_unit(alloc: Global, tokens: &[Token]) -> Result<(Unit, &[Token]), ReadError>
    ensures reads { Finds (seen plain_unit) (WholeUnit (kinds tokens.now)) result }
    ensures readable { IfOk result (λ found. is_readable_unit found.0 ≡ true) }
{
    let (mut unit, rest) = head(alloc, tokens)?;
    let (theorems, rest) = theorems(alloc, rest)?;
    let (proofs, rest) = proofs(alloc, rest)?;
    if eat_word(rest, keyword::THEOREM).is_some() {
        return Err(ReadError::Syntax);
    }
    unit.theorems = theorems;
    unit.proofs = proofs;
    Ok((unit, rest))
}

/// A unit without theorems and proofs, where all the tokens spell it.
pub fn lone_head(alloc: Global, tokens: &[Token]) -> Result<Unit, ReadError>
    ensures reads { Finds plain_unit (IsLoneHead (kinds tokens.now)) result }
    ensures readable { IfOk result (λ unit. is_readable_unit unit ≡ true) }
{
    let (unit, rest) = head(alloc, tokens)?;
    end(rest)?;
    Ok(unit)
}

/// The head of a unit: `unit`, its name, `basic`, its items and `end`. It has no theorems and proofs yet.
fn head(alloc: Global, tokens: &[Token]) -> Result<(Unit, &[Token]), ReadError>
    ensures reads { Gives (seen plain_unit) result (spec.head (kinds tokens.now)) }
    ensures readable { IfOk result (λ found. is_readable_unit found.0 ≡ true) }
{
    let rest = word(tokens, keyword::UNIT)?;
    let (name, rest) = eat_name(alloc, rest)?;
    let rest = word(rest, keyword::BASIC)?;
    let (items, rest) = items(alloc, rest)?;
    let rest = word(rest, keyword::END)?;
    let unit = Unit {
        name,
        kind: Kind::Basic(items),
        theorems: List::new(alloc),
        proofs: List::new(alloc),
    };
    Ok((unit, rest))
}

/// Items, as many as there are.
fn items(alloc: Global, tokens: &[Token]) -> Result<(List<Item>, &[Token]), ReadError>
    ensures reads { Gives (seen (map plain_item)) result (spec.items (length (kinds tokens.now)) [] (kinds tokens.now)) }
    ensures readable { IfOk result (λ found. list_all is_readable_item found.0 ≡ true) }
{
    let mut items = List::new(alloc);
    let mut rest = tokens;
    for _turn in 0..tokens.len() {
        let Some((kind, after)) = eat_declares(rest) else {
            return Ok((items, rest));
        };
        let (item, after) = item(alloc, kind, after)?;
        items.push(item)?;
        rest = after;
    }
    Ok((items, rest))
}

/// The theorems that come first, as many as there are.
fn theorems(alloc: Global, tokens: &[Token]) -> Result<(List<Theorem>, &[Token]), ReadError>
    ensures { Finds (seen (map plain_theorem)) (AllTheorems (kinds tokens.now)) result }
{
    let mut theorems = List::new(alloc);
    let mut rest = tokens;
    for _turn in 0..tokens.len() {
        if eat_word(rest, keyword::THEOREM).is_none() {
            return Ok((theorems, rest));
        }
        let (theorem, after) = theorem(alloc, rest)?;
        theorems.push(theorem)?;
        rest = after;
    }
    Ok((theorems, rest))
}

/// A theorem without `simp`.
fn theorem(alloc: Global, tokens: &[Token]) -> Result<(Theorem, &[Token]), ReadError>
    ensures found { IfOk result (λ found. IsTheorem (kinds tokens.now) (plain_theorem found.0) (kinds found.1.now)) }
    ensures only { (t : P.Theorem) (us : List KindTree) → IsTheorem (kinds tokens.now) t us → IsThat (seen plain_theorem) result (t, us) }
{
    let rest = word(tokens, keyword::THEOREM)?;
    let (theorem, rest) = statement(alloc, rest)?;
    let rest = mark(rest, row::SEMICOLON)?;
    Ok((theorem, rest))
}

/// A statement, where all the tokens spell it.
pub fn lone_statement(alloc: Global, tokens: &[Token]) -> Result<Theorem, ReadError>
    ensures { Finds plain_theorem (λ t. IsStatement (kinds tokens.now) t []) result }
{
    let (theorem, rest) = statement(alloc, tokens)?;
    end(rest)?;
    Ok(theorem)
}

/// A statement: the name of a theorem, a colon and the longest formula.
fn statement(alloc: Global, tokens: &[Token]) -> Result<(Theorem, &[Token]), ReadError>
    ensures found { IfOk result (λ found. IsStatement (kinds tokens.now) (plain_theorem found.0) (kinds found.1.now)) }
    ensures only { (t : P.Theorem) (us : List KindTree) → IsStatement (kinds tokens.now) t us → Stops us → IsThat (seen plain_theorem) result (t, us) }
{
    let (name, rest) = heading(alloc, tokens)?;
    let (form, rest) = form(alloc, rest)?;
    let theorem = Theorem {
        name,
        simp: false,
        form,
    };
    Ok((theorem, rest))
}

/// What stands before the formula of a statement: the name.
fn heading(alloc: Global, tokens: &[Token]) -> Result<(Name, &[Token]), ReadError>
    ensures { Gives (λ found. (found.0, kinds found.1.now)) result (spec.heading (kinds tokens.now)) }
{
    let (name, rest) = eat_name(alloc, tokens)?;
    Ok((name, mark(rest, row::COLON)?))
}

/// The proofs that come first, as many as there are.
fn proofs(alloc: Global, tokens: &[Token]) -> Result<(List<Proof>, &[Token]), ReadError>
    ensures { Finds (seen (map plain_proof)) (AllProofs (kinds tokens.now)) result }
{
    let mut proofs = List::new(alloc);
    let mut rest = tokens;
    for _turn in 0..tokens.len() {
        if eat_word(rest, keyword::PROOF).is_none() {
            return Ok((proofs, rest));
        }
        let (proof, after) = proof(alloc, rest)?;
        proofs.push(proof)?;
        rest = after;
    }
    Ok((proofs, rest))
}

/// A proof.
fn proof(alloc: Global, tokens: &[Token]) -> Result<(Proof, &[Token]), ReadError>
    ensures { Gives (seen plain_proof) result (spec.proof (kinds tokens.now)) }
{
    let rest = word(tokens, keyword::PROOF)?;
    let (proof, rest) = labelled(alloc, rest)?;
    Ok((proof, word(rest, keyword::QED)?))
}

/// A label and its script, where all the tokens spell them.
pub fn lone_proof(alloc: Global, tokens: &[Token]) -> Result<Proof, ReadError>
    ensures { Finds plain_proof (λ p. IsLabelled (kinds tokens.now) p []) result }
{
    let (proof, rest) = labelled(alloc, tokens)?;
    end(rest)?;
    Ok(proof)
}

/// A label and its script.
fn labelled(alloc: Global, tokens: &[Token]) -> Result<(Proof, &[Token]), ReadError>
    ensures { Gives (seen plain_proof) result (spec.labelled (kinds tokens.now)) }
{
    let (name, rest) = proof_label(alloc, tokens)?;
    let rest = mark(rest, row::EQUAL)?;
    let (script, rest) = script(alloc, rest)?;
    Ok((Proof { name, script }, rest))
}
