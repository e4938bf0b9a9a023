//! The analyzers, by their numbers.
#![tactic(auto)]

mod free;
mod laws;
mod suite;

pub use laws::{findings_stand, fixes_are_own, one_facts, one_found};
pub use suite::{Found, run};
