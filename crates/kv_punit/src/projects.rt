// Projects.

ghost use Rattle.std.specs.Prelude.{◌≡◌, true, [], map, List, IfOk};
ghost use Rattle.std.specs.List.{list_all};
ghost use Rattle.kv_lex.specs.declared.token.TokenKind.{TokenKind as KindTree};
ghost use Rattle.kv_syn.specs.ProjectBridge.{plain_project, plain_unit};
ghost use Rattle.kv_syn.specs.Projects as P;
ghost use Rattle.kv_syn.specs.Readable.{is_readable_unit};
ghost use Rattle.kv_pexpr.specs.Gives.{kinds, Gives};
ghost use Rattle.kv_punit.specs.Gives.{Finds};
ghost use Rattle.kv_punit.specs.Grammar.{AreUnits};
ghost use Rattle.kv_punit.specs.Limits.{IsWellformed};
ghost use Rattle.kv_punit.specs.Parse as spec;
ghost use Rattle.kv_punit.specs.FirstFault.{Answers, project_faults};
ghost use Rattle.kv_punit.specs.Settles.{Settles};
ghost use Rattle.kv_punit.specs.ReadsAs.{IsRefused, OneProject, OneSpelling, Reads};

use crate::errors::{TextError, Which};
use crate::limits::{has_few_steps, theorem_count};
use crate::names::is_wellformed;
use crate::tokens::{number, word};
use crate::units::whole_unit;
use kv_lex::{Token, tokens};
use kv_pexpr::ReadError;
use kv_syn::{List, Project, Unit};
use kv_table::keyword;
use std::alloc::Global;

/// How many units a project may have.
const UNITS: usize = 500;

/// How many theorems a project may have.
const THEOREMS: u64 = 5_000;

/// The version of the format.
const VERSION: u32 = 1;

/// The project of a text: basic units of sorts, functions, predicates and procedures without a body, with their theorems
/// and proofs.
///
/// Errors, the first that the text has: `Token` at the first byte from which no token reads, `Version` where it
/// begins with `project` and another number than 1, `Syntax` where it isn't in the grammar or two units, two theorems
/// of a unit or two proofs of a unit have the same name, `Limit` where a script has more than 50,000 steps, there are
/// more than 500 units, or more than 5,000 theorems. `NoMemory` says nothing of the text.
pub fn project(alloc: Global, text: &[u8]) -> Result<Project, TextError>
    ensures reads { IfOk result (λ project. Reads text.now (plain_project project)) }
    ensures refuses { IsRefused result → (project : P.Project) → Reads text.now project → ⊥ }
    ensures faults { Answers project_faults text.now result }
{
    let list = tokens(alloc, text)?;
    let (version, rest) = version(list.items())?;
    if version != VERSION {
        return Err(TextError::Version);
    }
    body(alloc, rest)
}

/// One text is one project: two projects that the same tokens spell are the same, and so are two that one text spells.
pub fn one_project()
    ensures tokens { OneSpelling }
    ensures text { OneProject }
{}

/// The version, and the tokens behind it.
fn version(tokens: &[Token]) -> Result<(u32, &[Token]), ReadError>
    ensures { Gives (λ found. (found.0, kinds found.1.now)) result (spec.version (kinds tokens.now)) }
{
    let rest = word(tokens, keyword::PROJECT)?;
    number(rest)
}

/// What stands behind the version.
fn body(alloc: Global, tokens: &[Token]) -> Result<Project, TextError>
    ensures { Settles (λ project. AreUnits (kinds tokens.now) project []) result }
{
    let units = units(alloc, tokens)?;
    let project = Project { units };
    if !is_wellformed(alloc, &project)? {
        return Err(TextError::Syntax);
    }
    within_limits(project)
}

/// The project, if it passes no limit.
fn within_limits(project: Project) -> Result<Project, TextError>
    requires { IsWellformed (plain_project project) }
    ensures { Settles (λ p. p ≡ plain_project project) result }
{
    if !has_few_steps(&project) {
        return Err(TextError::Limit {
            which: Which::Steps,
        });
    }
    if project.units.items().len() > UNITS {
        return Err(TextError::Limit {
            which: Which::Units,
        });
    }
    if theorem_count(project.units.items()) > THEOREMS {
        return Err(TextError::Limit {
            which: Which::Theorems,
        });
    }
    Ok(project)
}

/// Units up to the end of the tokens.
fn units(alloc: Global, tokens: &[Token]) -> Result<List<Unit>, ReadError>
    ensures reads { Finds (map plain_unit) (λ units. AreUnits (kinds tokens.now) units []) result }
    ensures readable { IfOk result (λ units. list_all is_readable_unit units ≡ true) }
{
    let mut units = List::new(alloc);
    let mut rest = tokens;
    for _turn in 0..tokens.len() {
        if rest.is_empty() {
            return Ok(units);
        }
        let (unit, after) = whole_unit(alloc, rest)?;
        units.push(unit)?;
        rest = after;
    }
    Ok(units)
}
