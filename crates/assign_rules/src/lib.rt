//! The rules of Go 1.17's assignments, short variable declarations, sends and range clauses: what is tested of each, what their places want, and the variables
//! that statements declare.
#![tactic(auto)]

pub mod around;
pub mod assign_wants;
pub mod assigning;
pub mod kinds;
mod objects;
mod range_names;
pub mod range_operand;
pub mod range_rules;
mod ranging;
pub mod selecting;
pub mod sending;
pub mod several;
pub mod sharing;
pub mod single;
pub mod words;

pub use objects::judge_statement_object;
