// Proof scripts. The rules take the reader of a script as a parameter, so that each is proved by itself.

ghost use Rattle.std.specs.Prelude.{◌≡◌, map};
ghost use Rattle.kv_syn.specs.ScriptBridge.{plain_script, plain_step};
ghost use Rattle.kv_pexpr.specs.Gives.{kinds, Gives};
ghost use Rattle.kv_punit.specs.Gives.{seen, Finds};
ghost use Rattle.kv_punit.specs.Nests.{Nests};
ghost use Rattle.kv_punit.specs.Parse as spec;
ghost use Rattle.kv_punit.specs.Readings.{IsLoneScript};

use crate::steps::step;
use crate::tokens::{end, mark};
use kv_lex::{Token, mark as row};
use kv_pexpr::{ReadError, eat_mark, eat_word};
use kv_syn::{List, Script, Shared, Step};
use kv_table::keyword;
use std::alloc::Global;

/// How many steps may stand on one path of a script.
const PATH_STEPS: u32 = 500;

/// The rules over a reader of scripts.
#[derive(Clone, Copy)]
pub struct Children<F> {
    alloc: Global,
    /// How many steps may stand on a path of a child.
    most: u32,
    read: F,
}

impl<F: Fn(Global, &[Token], u32) -> Result<(Script, &[Token]), ReadError>> Children<F> {
    fn child<'a>(&self, tokens: &'a [Token]) -> Result<(Script, &'a [Token]), ReadError>
        requires nests { Nests self.now.most (F.pre self.now.read) (F.post self.now.read) }
        ensures { Gives (seen plain_script) result (spec.script self.now.most (kinds tokens.now)) }
    {
        (self.read)(self.alloc, tokens, self.most)
    }

    /// Scripts with bars between them, up to the closing brace.
    fn block<'a>(&self, tokens: &'a [Token]) -> Result<(List<Script>, &'a [Token]), ReadError>
        requires nests { Nests self.now.most (F.pre self.now.read) (F.post self.now.read) }
        ensures { Gives (seen (map plain_script)) result (spec.braces (spec.script self.now.most) (kinds tokens.now)) }
    {
        let mut children = List::new(self.alloc);
        let mut rest = tokens;
        for _turn in 0..tokens.len() {
            let (child, after) = self.child(rest)?;
            children.push(child)?;
            if let Some(behind) = eat_mark(after, row::CLOSE_BRACE) {
                return Ok((children, behind));
            }
            rest = mark(after, row::BAR)?;
        }
        Err(ReadError::Syntax)
    }

    /// One script alone.
    fn chained<'a>(&self, tokens: &'a [Token]) -> Result<(List<Script>, &'a [Token]), ReadError>
        requires nests { Nests self.now.most (F.pre self.now.read) (F.post self.now.read) }
        ensures { Gives (seen (map plain_script)) result (spec.chained (spec.script self.now.most) (kinds tokens.now)) }
    {
        let (child, rest) = self.child(tokens)?;
        let mut children = List::new(self.alloc);
        children.push(child)?;
        Ok((children, rest))
    }

    /// What stands behind a step: nothing, one script behind `;`, or several in braces.
    fn children<'a>(&self, tokens: &'a [Token]) -> Result<(List<Script>, &'a [Token]), ReadError>
        requires nests { Nests self.now.most (F.pre self.now.read) (F.post self.now.read) }
        ensures { Gives (seen (map plain_script)) result (spec.children (spec.script self.now.most) (kinds tokens.now)) }
    {
        if let Some(rest) = eat_mark(tokens, row::SEMICOLON) {
            return self.chained(rest);
        }
        match eat_mark(tokens, row::OPEN_BRACE) {
            Some(rest) => self.block(rest),
            None => Ok((List::new(self.alloc), tokens)),
        }
    }

    /// The script whose first step that is.
    fn node<'a>(&self, step: Step, tokens: &'a [Token]) -> Result<(Script, &'a [Token]), ReadError>
        requires nests { Nests self.now.most (F.pre self.now.read) (F.post self.now.read) }
        ensures { Gives (seen plain_script) result (spec.node (spec.script self.now.most) (plain_step step, kinds tokens.now)) }
    {
        let (children, rest) = self.children(tokens)?;
        let children = Shared::new(self.alloc, children)?;
        Ok((Script::Node(step, children), rest))
    }
}

/// A script: `open`, or a step, behind which `;` and a script or several scripts in braces may follow. At most 500
/// steps stand on a path.
pub fn script(alloc: Global, tokens: &[Token]) -> Result<(Script, &[Token]), ReadError>
    ensures { Gives (seen plain_script) result (spec.script PATH_STEPS (kinds tokens.now)) }
{
    script_of(alloc, tokens, PATH_STEPS)
}

/// A script, where all the tokens spell it.
pub fn lone_script(alloc: Global, tokens: &[Token]) -> Result<Script, ReadError>
    ensures { Finds plain_script (IsLoneScript (kinds tokens.now)) result }
{
    let (script, rest) = script(alloc, tokens)?;
    end(rest)?;
    Ok(script)
}

/// A script with at most so many steps on a path.
fn script_of(alloc: Global, tokens: &[Token], most: u32) -> Result<(Script, &[Token]), ReadError>
    ensures { Gives (seen plain_script) result (spec.script most (kinds tokens.now)) }
{
    if let Some(rest) = eat_word(tokens, keyword::OPEN) {
        return Ok((Script::Hole, rest));
    }
    if most == 0 {
        return Err(ReadError::Syntax);
    }
    let (step, rest) = step(alloc, tokens)?;
    let children = Children {
        alloc,
        most: most - 1,
        read: script_of,
    };
    children.node(step, rest)
}
