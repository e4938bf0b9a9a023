//! The parser: a table, one machine over it, and what each call answers.
#![tactic(auto)]

mod arena;
mod chunk;
mod names;
mod parser;
mod pieces;
mod token_classes;
mod turning;

pub use chunk::{Chunk, Verdict, one_finding, one_tree, parse_chunk, parse_pieces};
