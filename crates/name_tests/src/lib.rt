//! Tests of the crates of names by their public calls, a module for each crate. There is nothing else here.
#![tactic(auto)]

#[cfg(test)]
mod bind_tests;
#[cfg(test)]
mod const_tree_tests;
#[cfg(test)]
mod file_uses_tests;
#[cfg(test)]
mod object_order_tests;
#[cfg(test)]
mod sample;
