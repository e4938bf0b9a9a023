//! The rules of composite literals: their types, elements and keys, and what their places want.
#![tactic(auto)]

mod again;
mod braces;
mod fields;
mod forms;
mod items;
mod keys;
mod maps;
mod marks;
mod places;
mod rows;
mod rules;
mod shape;
mod structs;
mod wants;

pub use forms::literal_reads;
pub use keys::{KeyRole, key_role};
pub use rules::judge_literal;
pub use wants::want_literal;
