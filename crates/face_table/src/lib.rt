//! The table with which the marking of a package begins: the predeclared types, and those of the packages to which imports may lead.
#![tactic(auto)]

mod declaring;
mod universe;

pub use declaring::declare_faces;
pub use universe::{first_table, table_again};
