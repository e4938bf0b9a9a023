//! The directives of a printf format (package fmt of Go 1.17, "Printing").
#![tactic(auto)]

mod argument;
mod bytes;
mod character;
mod flags;
mod format;
mod grammar;
mod parts;
mod reading;
mod turn;
mod whole;

pub use format::{Directive, Format};
pub use reading::directives;
pub use whole::{Ending, FormatRead, read_format};
