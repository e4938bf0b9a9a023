//! Late rules of bodies, over the nodes of a file.
#![tactic(auto)]

mod branches;
mod endings;
mod file;
mod hands;
mod jumps;
mod kinds;
mod late;
mod latest;
mod nodes;
mod rules;
mod view;

pub use file::File;
pub use late::late_faults;
pub use nodes::acts;
