//! The verdict of a file: the scanner's refusal, the first piece that is not spelled, or the tree.
#![tactic(auto)]

mod laws;
mod verdict;

pub use laws::tokens_are_texts;
pub use verdict::{FileVerdict, one_verdict, parse_file};
