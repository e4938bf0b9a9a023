//! What each use of a name in the files of a package denotes.
#![tactic(auto)]

mod answer;
mod file;
mod imports;
mod laws;
mod places;
mod table;
mod tops;
mod universe;
mod unknown;
mod uses;

pub use imports::{last_segment, specs_in};
pub use laws::one_binding;
pub use unknown::undeclared;
pub use uses::{Bound, bind, bind_named};
