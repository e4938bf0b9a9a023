//! Analyzers of which each report rests on one statement, expression or type: `assign`, `bools`, `nilfunc`, `stringintconv`, `structtag`, `unusedresult`.
#![tactic(auto)]

mod assigning;
mod bools;
mod chains;
mod met;
mod nil_functions;
mod rune_texts;
mod struct_tags;
mod suspects;
mod tag_faults;
mod tag_met;
mod tag_names;
mod tag_texts;
mod tags;
mod text_types;
mod unused;

pub use assigning::Assign;
pub use bools::Bools;
pub use chains::Chain;
pub use nil_functions::NilFunc;
pub use rune_texts::StringIntConv;
pub use struct_tags::StructTag;
pub use tags::{Pair, Stage};
pub use unused::UnusedResult;
