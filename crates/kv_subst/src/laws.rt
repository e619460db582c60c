// Laws of raising, opening, closing and renaming.

ghost use Rattle.kv_subst.specs.Laws.{RaisingByNone, RaisingTwice, AdmissibleFits, OpeningTwice, OpeningRaised, RaisingOpened, RenamingOpened, RenamingOpenings, OpeningClosed, VariablesOpened, VariablesRenamed, BindersWithinDepth};

/// Raising by none changes nothing.
pub fn raising_by_none()
    ensures { RaisingByNone }
{}

/// Raising twice is raising by the sum.
pub fn raising_twice()
    ensures { RaisingTwice }
{}

/// An admissible opening puts a term for an assigned variable or a reference only where the term is a variable.
pub fn admissible_openings_fit()
    ensures { AdmissibleFits }
{}

/// Two binders can be opened in either order.
pub fn opening_twice()
    ensures { OpeningTwice }
{}

/// Opening takes back what raising made for its binder.
pub fn opening_what_is_raised()
    ensures { OpeningRaised }
{}

/// Raising comes before or after an opening.
pub fn raising_what_is_opened()
    ensures { RaisingOpened }
{}

/// Renaming comes before or after an opening.
pub fn renaming_what_is_opened()
    ensures { RenamingOpened }
{}

/// Renaming to a new name comes before or after an opening, which is admissible or not as before.
pub fn renaming_keeps_openings()
    ensures { RenamingOpenings }
{}

/// Opening what was closed gives it back, and is admissible.
pub fn opening_what_is_closed()
    ensures { OpeningClosed }
{}

/// The free and the modified variables of an opening.
pub fn variables_of_an_opening()
    ensures { VariablesOpened }
{}

/// The free and the modified variables of a renaming.
pub fn variables_of_a_renaming()
    ensures { VariablesRenamed }
{}

/// A limit on depth is one on binders.
pub fn binders_within_depth()
    ensures { BindersWithinDepth }
{}
