//! The script of a chain of packages, by which a run's time is looked at.
#![tactic(auto)]

mod chain;

pub use chain::chain_script;
