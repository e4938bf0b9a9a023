//! All items of a package are marked by rules, whatever these are.
#![tactic(auto)]

mod ahead;
mod answers;
pub mod briefly;
mod nodes;
mod questions;
mod rules;
mod settling;
mod steps;
mod type_stage;
mod whole;
mod work;

pub use ahead::Stretch;
pub use briefly::{Brief, in_brief};
pub use rules::Rules;
pub use whole::{Elaborated, elaborate};
