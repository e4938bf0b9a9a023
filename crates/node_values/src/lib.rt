//! Values for the nodes of a file: from their parts, in one pass in node order, and from what they are parts of, in one
//! pass back.
#![tactic(auto)]

mod filling;
mod flagging;
mod handing;
mod inner;
mod laws;
mod parents;
mod ranges;

pub use filling::{Fills, fill};
pub use flagging::{Targets, flag_targets};
pub use handing::{Hands, hand_down};
pub use inner::{Stops, innermost};
pub use laws::spelled_nodes;
pub use parents::parents_of;
pub use ranges::{holds_within, starts_of};
