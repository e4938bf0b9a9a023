//! Fixes: which of them are applied, and the file that their edits make.
#![tactic(auto)]

mod choices;
mod edits;
mod rewriting;
mod slot;
mod tree;

pub use choices::{Choice, choose};
pub use edits::{Edit, Fix, overlaps};
pub use rewriting::rewrite;
