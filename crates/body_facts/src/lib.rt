//! What the late rules of bodies are given of a file, tables by node made of its labels and of what its names denote; and what these
//! rules find in a package.
#![tactic(auto)]

mod asking;
mod bodies;
mod facts;
mod label_tables;
mod name_tables;
mod variable_tables;

pub use asking::asks_bodies;
pub use bodies::body_faults;
pub use facts::{Facts, facts_of, file_of};
