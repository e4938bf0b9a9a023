//! Facts over a whole tree: what is found package by package is what holds in the tree.
#![tactic(auto)]

mod laws;

pub use laws::{facts_are_those_of_the_tree, wrappers_are_those_of_the_tree};
