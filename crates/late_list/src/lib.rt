//! All that the late rules of bodies find in the files of a package, in one list.
#![tactic(auto)]

mod collect;
mod late;

pub use collect::{find_all, find_late};
pub use late::{Finds, LateFault, LateRule, RULES, rule_number};
