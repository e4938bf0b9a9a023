//! The rules of calls of built-in functions, and what the places in them want; with the words of all rules of calls: parts, types, values and wishes.
#![tactic(auto)]

mod arguments;
mod built;
mod lengths;
mod lines;
mod musts;
mod named;
mod parts;
mod quiet;
mod shapes;
mod sizes;
mod types;
mod values;
mod wants;
mod wishes;

pub use built::judge_builtin;
pub use lines::{Builtin, Taking, line_of};
pub use named::{builtin_in, inner, is_call, is_spread};
pub use parts::{argument_count, says};
pub use types::{signature_in, slice_of};
pub use values::{good, nothing, value_of};
pub use wants::builtin_wants;
pub use wishes::assigned_to;
