//! Flow of a parsed file: the labeled statements that its jumps denote, its graph, and its statements that
//! can't be reached.
#![tactic(auto)]

mod calls;
mod file;
mod laws;
mod told;

pub use calls::panics;
pub use file::{file_graph, unreached_in};
pub use laws::{nodes_are_few, spelled_is_a_tree};
pub use told::file_labels;
