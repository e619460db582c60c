// Copies and comparisons.

mod forms;
mod terms;
