//! The words in which typing rules are written: what they ask of a package that is read and of its marks so far, and the code that asks.
#![tactic(auto)]

mod answer;
pub mod answered;
mod declaring;
mod exporting;
mod files;
pub mod good;
mod keeping;
mod marks;
pub mod met;
pub mod modes;
mod nodes;
mod read;
mod reading;
mod seen;
mod step;
mod told;
pub mod types;
mod under;
pub mod values;
mod wanted;
pub mod wishes;

pub use answer::Answer;
pub use declaring::{Declaring, declare};
pub use exporting::exported;
pub use files::{file_of, is_blank};
pub use keeping::keep;
pub use marks::look;
pub use nodes::{deepest, is_paren};
pub use read::{How, Read};
pub use reading::{part, parts};
pub use seen::Seen;
pub use step::{Asked, Pair, Rest, Step};
pub use told::ends;
pub use under::{mark_under, pending, under_of};
pub use wanted::{Wanted, default_kind, last_of, operand, wanted_by};
