//! Least sets: what they are, how one is found by a list of what waits, and that the sets found in
//! turn over packages are the set of the whole tree.
#![tactic(auto)]

mod queue;
mod staged;
mod work;

pub use staged::{
    Staged, found_by_numbers, found_by_tables, found_package_by_package, one_set_of_a_package,
    one_set_of_a_tree, reached_by_rounds, the_tree_restricted,
};
pub use work::{Admission, least};
