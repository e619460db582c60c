//! Nothing but tests of what reaches outside.
#![tactic(auto)]

#[cfg(test)]
mod outside;
