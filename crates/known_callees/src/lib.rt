//! What names in a package lead to: to functions and methods of the package and of its environment alone.
#![tactic(auto)]

mod laws;

pub use laws::{callees_are_seen, handed_on_are_seen, named_are_seen, one_admission};
