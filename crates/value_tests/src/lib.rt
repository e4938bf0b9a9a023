//! Tests of the crates of what is settled and marked by their public calls, a module for each crate. There is nothing else here.
#![tactic(auto)]

#[cfg(test)]
mod mark_walk_tests;
#[cfg(test)]
mod settled_tests;
