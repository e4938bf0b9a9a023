//! Which variables of a package are initialised by way of themselves.
#![tactic(auto)]

mod bodies;
mod circles;
mod flags;
mod opened;
mod values;

pub use bodies::body_entries;
pub use circles::initial_circles;
pub use opened::opened_trees;
