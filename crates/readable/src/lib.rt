//! That each file has a verdict, and each tree packages. A statement of existence is the denial that there is none.
#![tactic(auto)]

mod laws;

pub use laws::{each_text_has_a_verdict, each_tree_has_packages};
