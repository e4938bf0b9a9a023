//! Reads a package: makes the rows of what is said of its nodes.
#![tactic(auto)]

mod again;
mod circular;
mod copies;
mod cyclic;
mod firsts;
mod flags;
mod laws;
mod listing;
mod locals;
mod members;
mod methods;
mod objects;
mod package_block;
mod reader;
mod repeats;
mod rows;
mod specs;
mod tables;
mod top;
mod types;

pub use circular::circular_rows;
pub use cyclic::cyclic_rows;
pub use flags::listed_rows;
pub use laws::marked_names_need_themselves;
pub use package_block::{all_in_block, named_again};
pub use reader::{read_unit, with_flags, with_owners};
