//! What the names of one file declare, which of its nodes are uses, and what they denote within its functions.
#![tactic(auto)]

mod assigned;
mod file;
mod locals;
mod numbers;
mod uses;

pub use file::{Locals, nodes_show_trees, read_locals};
pub use numbers::name_at;
