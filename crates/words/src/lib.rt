//! The words of the command line, read by their written grammar.
#![tactic(auto)]

mod asked;
mod draft;
mod laws;
mod number;
mod only;
mod reading;
mod word;

pub use asked::{Asked, Usage, Words};
pub use laws::one_reading;
pub use reading::read_words;
