//! Facts that analyzers keep of functions, and their texts.
#![tactic(auto)]

mod kind;
mod laws;
mod order;
mod reading;
mod table;
mod units;
mod wraps;
mod writing;

pub use kind::FactKind;
pub use laws::{facts_are_read, one_fact_text};
pub use table::FactTable;
pub use units::{Never, NoFact};
pub use wraps::{WrapKind, Wraps};
