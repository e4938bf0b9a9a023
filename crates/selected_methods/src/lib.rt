//! The methods of a package that its selectors select, told once all is marked.
#![tactic(auto)]

mod methods;
mod owners;
mod rows;
mod selecting;
mod ways;

pub use rows::selected_methods;
pub use ways::{base_of, led};
