//! Opening, closing and renaming of bound variables, on formulas and programs.
#![tactic(auto)]

mod at;
mod capture;
mod changes;
mod forms;
mod laws;
mod opening;
mod places;
mod renaming;
mod terms;

pub use capture::admissible;
pub use laws::{
    admissible_openings_fit, binders_within_depth, opening_twice, opening_what_is_closed,
    opening_what_is_raised, raising_by_none, raising_twice, raising_what_is_opened,
    renaming_keeps_openings, renaming_what_is_opened, variables_of_a_renaming,
    variables_of_an_opening,
};
pub use opening::{close_var, form_opened, open, open_prog, open_var};
pub use places::term_raised;
pub use renaming::rename;
