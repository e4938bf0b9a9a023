//! What a package's trees declare, and the order of need of its objects.
#![tactic(auto)]

mod constants;
mod declares;
mod files;
mod nodes;
mod parameters;
mod switch;
mod valued;

pub use constants::{list_at, next_source};
pub use files::entries_of;
pub use nodes::{count, item, kind_of, node_of, part_count, part_of};
pub use valued::Valued;
