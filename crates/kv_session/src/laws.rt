// Laws of edits and of the canonical text.

ghost use Rattle.kv_punit.specs.Limits.{HasFewSteps, HasFewTheorems, HasFewUnits, IsWellformed};
ghost use Rattle.kv_session.specs.Canonical.{ReadsAgain, ReadsBack, SpellsSpellable};
ghost use Rattle.kv_session.specs.Kept.{Keeps, LeadsTo};
ghost use Rattle.kv_session.specs.Sessions.{OneAnswer};

/// An accepted edit keeps what the text of a project keeps besides the grammar: names that differ, and few steps in
/// each script, units and theorems.
pub fn kept()
    ensures wellformed { Keeps IsWellformed }
    ensures few_steps { Keeps HasFewSteps }
    ensures few_units { LeadsTo HasFewUnits }
    ensures few_theorems { LeadsTo HasFewTheorems }
{}

/// What a text spells can be spelt, and the canonical text of a project that can be spelt reads as that project and as
/// no other. So the canonical text of a project that was read reads as just that project again.
pub fn reads_back()
    ensures spelt { SpellsSpellable }
    ensures back { ReadsBack }
    ensures again { ReadsAgain }
{}

/// One text of a command at one project has one answer and leads to one project.
pub fn one_answer()
    ensures { OneAnswer }
{}
