//! The rules of Go 1.17's assignment operations: `x op= y`.
#![tactic(auto)]

mod operators;
mod rules;

pub use rules::{judge_operation, operation_reads, want_operation};
