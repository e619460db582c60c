// Copies and comparisons.

mod raw_forms;
mod raw_terms;
