//! Tests of `typed_tree` by its public calls: the marks of literals and predeclared names. There is nothing else here.
#![tactic(auto)]

#[cfg(test)]
mod typed_tree_tests;
