// Copies and comparisons.

mod groups;
mod nested;
mod outcomes;
mod projects;
mod scripts;
mod units;
