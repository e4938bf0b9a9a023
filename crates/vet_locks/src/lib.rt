//! Values with locks that are copied.
#![tactic(auto)]

mod copy_locks;
mod entries;
mod held;
mod made;
mod suspected;
mod suspects;
mod texts;

pub use copy_locks::CopyLocks;
pub use suspected::{Suspect, Words};
