//! The functions and methods that a package declares, by name and by number.
#![tactic(auto)]

mod declared;
mod functions;

pub use declared::{block_at, declared_at};
pub use functions::{Declared, functions_of, name_by, nth_name, nth_text, numbers_of};
