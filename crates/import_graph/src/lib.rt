//! The packages of a tree, what each imports, and the order in which they are loaded.
#![tactic(auto)]

mod cycles;
mod drafts;
mod fault;
mod go_mod;
mod homes;
mod imports;
mod laws;
mod listing;
mod load_order;
mod names;
mod pack;
mod rows;
mod source;
mod state;

pub use drafts::Draft;
pub use fault::counts;
pub use go_mod::{Stop, module_path};
pub use homes::Home;
pub use laws::{one_answer_of_packages, packages_can_be_ordered};
pub use listing::packages;
pub use load_order::order;
pub use names::place_in;
pub use pack::{PackState, Package};
pub use source::{directory_of, is_source, is_stub, package_of};
