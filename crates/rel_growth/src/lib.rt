//! The relations between types while declarations are still being made.
#![tactic(auto)]

mod assigning;
mod comparing;
mod converting;
mod laws;
mod meeting;

pub use assigning::assign;
pub use comparing::compare;
pub use converting::convert;
pub use laws::relations_last;
pub use meeting::is_met;
