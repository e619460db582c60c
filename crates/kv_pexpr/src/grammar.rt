// The rules of formulas. Each takes the reader of what it contains as a parameter, so that each is proved by itself.

ghost use Rattle.std.specs.Prelude.{◌≡◌, ◌+◌, ◌-◌, ◌<◌, ◌≤◌};
ghost use Rattle.kv_raw.specs.RawTrees.{RawForm as RawTree};
ghost use Rattle.kv_raw.specs.RawBridge.{raw_form};
ghost use Rattle.kv_raw.specs.RawCount.{raw_form_depth};
ghost use Rattle.kv_pexpr.specs.Gives.{kinds, seen, Gives, IsHigh, joined, quantified};
ghost use Rattle.kv_pexpr.specs.Nests.{Nests};
ghost use Rattle.kv_pexpr.specs.Parse as spec;

use crate::errors::ReadError;
use crate::found::Found;
use crate::leaves::{bound_var, equation};
use crate::levels::{Level, Operator, Quantifier};
use crate::tokens::{eat_mark, eat_word};
use crate::trees::{join, negation, quantify};
use kv_lex::{Token, TokenKind, mark};
use kv_raw::RawForm;
use kv_table::keyword;
use std::alloc::Global;

/// The rules over a reader of what they contain.
#[derive(Clone, Copy)]
struct Grammar<F> {
    alloc: Global,
    /// How much deeper the rules may still nest.
    fuel: u32,
    read: F,
}

impl<
    F: Fn(Global, &[Token], u32, Level, u32, u32) -> Result<Found<'_, RawForm>, ReadError>,
> Grammar<F> {
    fn nested<'a>(
        &self,
        tokens: &'a [Token],
        level: Level,
        brackets: u32,
        height: u32,
    ) -> Result<Found<'a, RawForm>, ReadError>
        requires nests { Nests self.now.fuel (F.pre self.now.read) (F.post self.now.read) }
        requires small { height < 1000 }
        ensures reads { Gives seen result (spec.read self.now.fuel level brackets height (kinds tokens.now)) }
        ensures high { IsHigh height result }
    {
        (self.read)(self.alloc, tokens, self.fuel, level, brackets, height)
    }

    /// What stands behind `not`.
    fn negated<'a>(
        &self,
        tokens: &'a [Token],
        brackets: u32,
        height: u32,
    ) -> Result<Found<'a, RawForm>, ReadError>
        requires nests { Nests self.now.fuel (F.pre self.now.read) (F.post self.now.read) }
        requires small { height < 1000 }
        ensures reads { Gives seen result (spec.read_map RawTree.Not (spec.read self.now.fuel Level.Una brackets height (kinds tokens.now))) }
        ensures high { IsHigh (height + 1) result }
    {
        let body = self.nested(tokens, Level::Una, brackets, height)?;
        Ok(Found {
            tree: negation(self.alloc, body.tree)?,
            height: body.height + 1,
            rest: body.rest,
        })
    }

    /// What stands behind a quantifier.
    fn bound<'a>(
        &self,
        tokens: &'a [Token],
        quantifier: Quantifier,
        brackets: u32,
        height: u32,
    ) -> Result<Found<'a, RawForm>, ReadError>
        requires nests { Nests self.now.fuel (F.pre self.now.read) (F.post self.now.read) }
        requires small { height < 1000 }
        ensures reads { Gives seen result (spec.binder (quantified quantifier) (spec.read self.now.fuel Level.Una brackets height) (kinds tokens.now)) }
        ensures high { IsHigh (height + 1) result }
    {
        let (var, rest) = bound_var(self.alloc, tokens)?;
        let body = self.nested(rest, Level::Una, brackets, height)?;
        Ok(Found {
            tree: quantify(self.alloc, quantifier, var, body.tree)?,
            height: body.height + 1,
            rest: body.rest,
        })
    }

    /// What stands behind an opening bracket.
    fn bracketed<'a>(
        &self,
        tokens: &'a [Token],
        brackets: u32,
        height: u32,
    ) -> Result<Found<'a, RawForm>, ReadError>
        requires nests { Nests self.now.fuel (F.pre self.now.read) (F.post self.now.read) }
        requires small { height < 1000 }
        ensures reads { Gives seen result (spec.bracketed (spec.read self.now.fuel Level.Form) brackets height (kinds tokens.now)) }
        ensures high { IsHigh height result }
    {
        if brackets == 0 {
            return Err(ReadError::Syntax);
        }
        let found = self.nested(tokens, Level::Form, brackets - 1, height)?;
        match eat_mark(found.rest, mark::CLOSE) {
            Some(rest) => Ok(Found {
                tree: found.tree,
                height: found.height,
                rest,
            }),
            None => Err(ReadError::Syntax),
        }
    }

    fn una<'a>(
        &self,
        tokens: &'a [Token],
        brackets: u32,
        height: u32,
    ) -> Result<Found<'a, RawForm>, ReadError>
        requires nests { Nests self.now.fuel (F.pre self.now.read) (F.post self.now.read) }
        requires small { height < 1000 }
        ensures reads { Gives seen result (spec.una_rule (spec.read self.now.fuel) brackets height (kinds tokens.now)) }
        ensures high { IsHigh height result }
    {
        if height == 0 {
            return Err(ReadError::Syntax);
        }
        let Some((first, rest)) = tokens.split_first() else {
            return Err(ReadError::Syntax);
        };
        match &first.kind {
            TokenKind::Word(keyword::NOT) => self.negated(rest, brackets, height - 1),
            TokenKind::Word(keyword::ALL) => {
                self.bound(rest, Quantifier::All, brackets, height - 1)
            }
            TokenKind::Word(keyword::EX) => self.bound(rest, Quantifier::Ex, brackets, height - 1),
            TokenKind::Word(keyword::TRUE) => Ok(constant(RawForm::True, rest)),
            TokenKind::Word(keyword::FALSE) => Ok(constant(RawForm::False, rest)),
            TokenKind::Word(_) => Err(ReadError::Syntax),
            TokenKind::Ident(_) => equation(self.alloc, tokens, brackets, height),
            TokenKind::Number(_) => Err(ReadError::Syntax),
            TokenKind::Mark(mark::OPEN) => self.bracketed(rest, brackets, height),
            TokenKind::Mark(_) => Err(ReadError::Syntax),
        }
    }

    /// Operators to the right of what was read, while one comes and an operand behind it reads.
    fn lefts<'a>(
        &self,
        first: Found<'a, RawForm>,
        operator: Operator,
        word: u32,
        operand: Level,
        brackets: u32,
        height: u32,
    ) -> Result<Found<'a, RawForm>, ReadError>
        requires nests { Nests self.now.fuel (F.pre self.now.read) (F.post self.now.read) }
        requires small { (0 < height) × (height < 1000) }
        requires high { (raw_form_depth (raw_form first.tree) ≡ first.height) × (first.height ≤ height) }
        ensures reads { Gives seen result (spec.chain (joined operator) (spec.eat_word word) (spec.read self.now.fuel operand brackets (height - 1)) (height - 1) height (raw_form first.entry.tree) (kinds first.entry.rest.now)) }
        ensures high { IsHigh height result }
    {
        let mut left = first;
        for _turn in 0..height {
            if left.height >= height {
                return Ok(left);
            }
            let Some(after) = eat_word(left.rest, word) else {
                return Ok(left);
            };
            match self.nested(after, operand, brackets, height - 1) {
                Ok(right) => {
                    left = Found {
                        height: left.height.max(right.height) + 1,
                        tree: join(self.alloc, operator, left.tree, right.tree)?,
                        rest: right.rest,
                    };
                }
                Err(ReadError::NoMemory) => return Err(ReadError::NoMemory),
                Err(ReadError::Syntax) => return Ok(left),
            }
        }
        Ok(left)
    }

    /// An operator to the right of what was read, where one comes and an implication behind it reads.
    fn right<'a>(
        &self,
        left: Found<'a, RawForm>,
        operator: Operator,
        mark: u32,
        brackets: u32,
        height: u32,
    ) -> Result<Found<'a, RawForm>, ReadError>
        requires nests { Nests self.now.fuel (F.pre self.now.read) (F.post self.now.read) }
        requires small { (0 < height) × (height < 1000) }
        requires high { (raw_form_depth (raw_form left.tree) ≡ left.height) × (left.height ≤ height) }
        ensures reads { Gives seen result (spec.right (joined operator) mark (height - 1) (spec.read self.now.fuel Level.Imp brackets (height - 1)) (raw_form left.entry.tree, kinds left.entry.rest.now)) }
        ensures high { IsHigh height result }
    {
        if left.height < height
            && let Some(after) = eat_mark(left.rest, mark)
        {
            match self.nested(after, Level::Imp, brackets, height - 1) {
                Ok(right) => {
                    return Ok(Found {
                        height: left.height.max(right.height) + 1,
                        tree: join(self.alloc, operator, left.tree, right.tree)?,
                        rest: right.rest,
                    });
                }
                Err(ReadError::NoMemory) => return Err(ReadError::NoMemory),
                Err(ReadError::Syntax) => {}
            }
        }
        Ok(left)
    }

    fn con<'a>(
        &self,
        tokens: &'a [Token],
        brackets: u32,
        height: u32,
    ) -> Result<Found<'a, RawForm>, ReadError>
        requires nests { Nests self.now.fuel (F.pre self.now.read) (F.post self.now.read) }
        requires small { height < 1000 }
        ensures reads { Gives seen result (spec.con_rule (spec.read self.now.fuel) brackets height (kinds tokens.now)) }
        ensures high { IsHigh height result }
    {
        if height == 0 {
            return Err(ReadError::Syntax);
        }
        let first = self.una(tokens, brackets, height)?;
        self.lefts(
            first,
            Operator::And,
            keyword::AND,
            Level::Una,
            brackets,
            height,
        )
    }

    fn dis<'a>(
        &self,
        tokens: &'a [Token],
        brackets: u32,
        height: u32,
    ) -> Result<Found<'a, RawForm>, ReadError>
        requires nests { Nests self.now.fuel (F.pre self.now.read) (F.post self.now.read) }
        requires small { height < 1000 }
        ensures reads { Gives seen result (spec.dis_rule (spec.read self.now.fuel) brackets height (kinds tokens.now)) }
        ensures high { IsHigh height result }
    {
        if height == 0 {
            return Err(ReadError::Syntax);
        }
        let first = self.con(tokens, brackets, height)?;
        self.lefts(
            first,
            Operator::Or,
            keyword::OR,
            Level::Con,
            brackets,
            height,
        )
    }

    fn imp<'a>(
        &self,
        tokens: &'a [Token],
        brackets: u32,
        height: u32,
    ) -> Result<Found<'a, RawForm>, ReadError>
        requires nests { Nests self.now.fuel (F.pre self.now.read) (F.post self.now.read) }
        requires small { height < 1000 }
        ensures reads { Gives seen result (spec.imp_rule (spec.read self.now.fuel) brackets height (kinds tokens.now)) }
        ensures high { IsHigh height result }
    {
        if height == 0 {
            return Err(ReadError::Syntax);
        }
        let left = self.dis(tokens, brackets, height)?;
        self.right(left, Operator::Imp, mark::ARROW, brackets, height)
    }

    fn form<'a>(
        &self,
        tokens: &'a [Token],
        brackets: u32,
        height: u32,
    ) -> Result<Found<'a, RawForm>, ReadError>
        requires nests { Nests self.now.fuel (F.pre self.now.read) (F.post self.now.read) }
        requires small { height < 1000 }
        ensures reads { Gives seen result (spec.form_rule (spec.read self.now.fuel) brackets height (kinds tokens.now)) }
        ensures high { IsHigh height result }
    {
        if height == 0 {
            return Err(ReadError::Syntax);
        }
        let left = self.imp(tokens, brackets, height)?;
        self.right(left, Operator::Iff, mark::DOUBLE_ARROW, brackets, height)
    }
}

/// A formula of one word.
fn constant(tree: RawForm, rest: &[Token]) -> Found<'_, RawForm>
    ensures { (result.tree ≡ tree) × (result.height ≡ 1) × (result.rest.now ≡ rest.now) }
{
    Found {
        tree,
        height: 1,
        rest,
    }
}

/// Reads by a rule.
pub fn read(
    alloc: Global,
    tokens: &[Token],
    fuel: u32,
    level: Level,
    brackets: u32,
    height: u32,
) -> Result<Found<'_, RawForm>, ReadError>
    requires { height < 1000 }
    ensures reads { Gives seen result (spec.read fuel level brackets height (kinds tokens.now)) }
    ensures high { IsHigh height result }
{
    if fuel == 0 {
        return Err(ReadError::Syntax);
    }
    let grammar = Grammar {
        alloc,
        fuel: fuel - 1,
        read,
    };
    match level {
        Level::Form => grammar.form(tokens, brackets, height),
        Level::Imp => grammar.imp(tokens, brackets, height),
        Level::Dis => grammar.dis(tokens, brackets, height),
        Level::Con => grammar.con(tokens, brackets, height),
        Level::Una => grammar.una(tokens, brackets, height),
    }
}
