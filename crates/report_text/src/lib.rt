//! The bytes of a run's reply.
#![tactic(auto)]

mod json_parts;
mod lines;
mod print;
mod reply_stand;
mod said;
mod stand;
mod whole;

pub use print::stats;
pub use reply_stand::reply_stands;
pub use said::json;
pub use whole::{last, text};
