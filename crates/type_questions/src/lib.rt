//! Questions about types that rules put while declarations are still being made.
#![tactic(auto)]

mod laws;
mod members;
mod reach;
mod reached;
mod relations;
mod seen;

pub use laws::{nothing_waits, questions_last, tables_grow, tables_stay_in_step};
pub use members::{field_or_method, method_set_of};
pub use reached::{Found, Reached};
pub use relations::{assignable_to, convertible_to, is_comparable, missing_method};
pub use seen::Seen;
