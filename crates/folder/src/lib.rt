//! The files of a tree outside: those that a run reads, and those that it changes.
#![tactic(auto)]

mod reading;
mod writing;

pub use reading::{is_read, read_tree};
pub use writing::write_files;
