//! Selection by paths of embedded fields, and method sets.
#![tactic(auto)]

mod choosing;
mod laws;
mod listing;
mod look;
mod member;
mod note;
mod opening;
mod search;
mod selecting;
mod selection;
mod sets;
mod walk;

pub use choosing::choose;
pub use laws::{examples_hold, one_method_set, one_selection, selection_lasts};
pub use listing::list;
pub use selecting::select;
pub use selection::{Selected, Selection};
pub use sets::method_set;
