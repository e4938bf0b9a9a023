//! Which functions and methods nodes name, as facts name them.
#![tactic(auto)]

mod named;
mod naming;
mod selecting;

pub use named::{Named, dotted};
pub use naming::named_at;
