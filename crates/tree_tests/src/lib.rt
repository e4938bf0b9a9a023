//! Tests of the crates of trees by their public calls, a module for each crate. There is nothing else here.
#![tactic(auto)]

#[cfg(test)]
mod go_parse_tests;
#[cfg(test)]
mod import_graph_tests;
#[cfg(test)]
mod parse_file_tests;
