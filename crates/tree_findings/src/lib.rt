//! The diagnostics of a tree's packages in the reply's order, which of their fixes are applied, and the files that these change; and the facts of its packages.
#![tactic(auto)]

mod gather;
mod lines;
mod mending;
mod telling;

pub use lines::found_lines;
pub use mending::{Mended, mend};
pub use telling::{Results, chosen_by, reply_to};
