//! The scanner of Go source text.
#![tactic(auto)]

mod laws;
mod outcome;
mod scanner;
mod text;

pub use laws::{not_both, one_lexing, one_refusal, tokens_lie_in_their_text};
pub use outcome::Scan;
pub use scanner::scan;
