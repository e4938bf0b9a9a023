//! The rules of Go 1.17's statements: what is tested of each, what its places want, and what it declares.
#![tactic(auto)]

mod agreeing;
mod case_types;
mod case_values;
mod comparing;
mod conditions;
mod placing;
mod return_passing;
mod return_wants;
mod returning;
mod rules;
mod standing;
mod switching;
mod type_switching;
mod wants;

pub use placing::{Placing, judge_statement_placed, placing_of, takes_blank};
pub use rules::{judge_statement, statement_reads};
pub use type_switching::judge_clause_object;
pub use wants::want_statement;
