//! Which label each jump of a file denotes.
#![tactic(auto)]

mod answer;
mod functions;
mod heads;
mod laws;
mod names;
mod parts;
mod plain;
mod read;
mod rows;
mod table;

pub use answer::{Jump, Label, Labels};
pub use laws::one_label;
pub use read::labels;
