//! Facts of other packages, as they are handed to an analyzer.
#![tactic(auto)]

mod getting;
mod lookup;
mod reading;

pub use lookup::{Handed, read_handed};
