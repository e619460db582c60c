// Typing of what is opened, closed or renamed.

ghost use Rattle.kv_calc.specs.Typings.{OpeningTyped, ClosingTyped, RenamingTyped};

/// What is opened at a term of the binder's sort stays typed.
pub fn typing_of_an_opening()
    ensures { OpeningTyped }
{}

/// What is closed at a variable is typed under a binder of its sort.
pub fn typing_of_a_closing()
    ensures { ClosingTyped }
{}

/// What is renamed to a new name stays typed.
pub fn typing_of_a_renaming()
    ensures { RenamingTyped }
{}
