//! The rules of operands and operators: literals, names, parentheses, unary and binary expressions, what their places want, and what a place
//! makes of what stands there.
#![tactic(auto)]

mod assigned;
mod beside;
mod binary;
mod comparing;
mod different;
mod fitting;
mod forms;
mod kinds;
mod laws;
mod name;
mod operand;
mod operators;
mod placed;
mod qualified;
mod results;
mod rules;
mod shift;
mod types;
mod unary;
mod values;
mod wants;
mod wishes;

pub use binary::judge_binary;
pub use forms::op_reads;
pub use laws::{basic_types_are_apart, what_goes_beside_is_assignable};
pub use placed::judge_placed;
pub use rules::judge_op;
pub use wants::{operator_asked, want_op};
