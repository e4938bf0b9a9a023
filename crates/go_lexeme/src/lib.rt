//! The gap or lexeme at the front of a text.
#![tactic(auto)]

mod byte;
mod class;
mod item;
mod table;
mod word;

pub use byte::is_word_byte;
pub use item::piece_at;
