//! Which declared names lead back to themselves by what their declarations mention.
#![tactic(auto)]

mod circles;
mod values;

pub use circles::circles_of;
pub use values::value_circles;
