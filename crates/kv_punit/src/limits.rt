// The limits of a project.

ghost use Rattle.std.specs.Prelude.{◌≡◌, ◌-◌, ◌^◌, nat_le, min, map};
ghost use Rattle.kv_syn.specs.ProjectBridge.{plain_project, plain_unit};
ghost use Rattle.kv_syn.specs.ScriptBridge.{plain_script, plain_scripts};
ghost use Rattle.kv_punit.specs.Limits.{script_steps, scripts_steps, theorem_count};
ghost use Rattle.kv_punit.specs.Tests as test;

use kv_syn::{Project, Script, Unit};

/// How many steps a script may have.
const SCRIPT_STEPS: u64 = 50_000;

/// Whether no script has more steps than it may have.
pub fn has_few_steps(project: &Project) -> bool
    ensures { result ≡ test.has_few_steps (plain_project project.now) }
{
    project.units.items().iter().all(is_short_unit)
}

fn is_short_unit(unit: &Unit) -> bool
    ensures { result ≡ test.is_short (plain_unit unit.now) }
{
    unit.proofs
        .items()
        .iter()
        .all(|proof| is_short(&proof.script))
}

/// Whether the script has no more steps than it may have.
pub fn is_short(script: &Script) -> bool
    ensures { result ≡ nat_le (script_steps (plain_script script.now)) 50000 }
{
    steps(script) <= SCRIPT_STEPS
}

/// How many steps a script has. Stands at the greatest `u64` where there are more.
#[cycle(steps)]
fn steps(script: &Script) -> u64
    ensures { result ≡ min (script_steps (plain_script script.now)) (2 ^ 64 - 1) }
{
    match script {
        Script::Hole => 0,
        Script::Node(_, children) => all_steps(children.items()).saturating_add(1),
    }
}

#[cycle(steps)]
fn all_steps(scripts: &[Script]) -> u64
    ensures { result ≡ min (scripts_steps (plain_scripts scripts.now)) (2 ^ 64 - 1) }
{
    let mut count = 0u64;
    for script in scripts {
        count = count.saturating_add(steps(script));
    }
    count
}

/// How many theorems the units have. Stands at the greatest `u64` where there are more.
pub fn theorem_count(units: &[Unit]) -> u64
    ensures { result ≡ min (theorem_count (map plain_unit units.now)) (2 ^ 64 - 1) }
{
    let mut count = 0u64;
    for unit in units {
        count = count.saturating_add(unit.theorems.items().len() as u64);
    }
    count
}
