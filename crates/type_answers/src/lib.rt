//! Answers to questions about types, over a package and its marks so far: for the code that follows rules.
#![tactic(auto)]

mod asks;
mod constants;
mod implementing;
mod members;
mod parts;
mod relating;
mod relations;
mod scene;
mod unknown;

pub use asks::{ask_comparable, ask_methods, ask_selection};
pub use implementing::ask_implements;
pub use members::{methods_at, missing_at, selected_at};
pub use parts::{ask_mark, ask_parts, ask_under};
pub use relating::{ask_compared, ask_operand};
pub use relations::{Relation, comparable_at, related_at};
pub use unknown::{is_unknown, no_signature};
