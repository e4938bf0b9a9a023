//! The order of need of the objects that a package's files declare.
#![tactic(auto)]

mod above;
mod denoted;
mod ends;
mod follow;
mod groups;
mod keys;
mod kin;
mod laws;
mod literal;
mod order;
mod owners;
mod read;

pub use groups::{blank_groups, push_at};
pub use laws::orders_mark_the_same;
pub use order::{Needs, needs_of, needs_order};
