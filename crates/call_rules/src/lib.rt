//! The rules of calls: of functions and methods, conversions, and built-in functions; what the places in a call want; and what a call that is the
//! only argument of another gives it.
#![tactic(auto)]

mod callee;
mod calling;
mod converting;
mod given;
mod laws;
mod passing;
mod results;
mod rules;
mod sole;
mod wants;

pub use laws::constants_are_converted_where_convertible;
pub use passing::judge_passed;
pub use rules::{call_reads, judge_call};
pub use sole::is_passed;
pub use wants::want_call;
