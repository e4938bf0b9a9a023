//! Analyzers of where control passes: `unreachable`.
#![tactic(auto)]

mod dead;
mod unreachable;

pub use unreachable::Unreachable;
