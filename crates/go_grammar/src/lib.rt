//! The grammar's table as code: which rule a token decides for. Each function answers what the
//! definitions of `go_tree` say, row by row.
#![tactic(auto)]

mod choose;
mod class;
mod declarations;
mod headers;
mod inlines;
mod lists;
mod operands;
mod rule;
mod shape;
mod signatures;
mod statements;
mod terminal;
mod tower;

pub use choose::{inline_rule, node_rule};
pub use class::{END, class_in, told};
pub use rule::Rule;
pub use shape::{add, meets, sort};
pub use terminal::admits;
pub use tower::{prefix_rule, suffix_rule};
