//! Constant specifications: those of a file, what each declares, and the operators of expressions.
#![tactic(auto)]

mod constant;
mod listing;
mod operators;
mod specs;

pub use constant::Spec;
pub use listing::{is_repeated, name_at, name_count, typing_of, value_at, value_count};
pub use operators::{binary_operator, unary_operator};
pub use specs::{spec_row, specs_in};
