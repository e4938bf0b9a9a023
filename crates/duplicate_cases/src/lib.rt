//! Constants and types that stand twice in the clauses of a switch, told once all is marked.
#![tactic(auto)]

mod again;
mod keys;
mod listed;
mod nodes;
mod words;

pub use nodes::duplicate_nodes;
