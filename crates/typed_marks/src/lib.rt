//! Marks of a package while it is typed: what is marked, what marks say, and the tables in which they stand.
#![tactic(auto)]

mod cells;
mod item;
mod mark;
mod numbers;
mod same_marks;
mod state;

pub use cells::Cells;
pub use item::{Block, Item, Span, Stage};
pub use mark::{ConstId, Facts, Mark, Want};
pub use numbers::{is_item, is_nowhere, nowhere, number_of};
pub use state::State;
