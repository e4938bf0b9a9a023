//! Which names of a package are declared before in their block.
#![tactic(auto)]

mod again;
mod blocks;

pub use again::block_rows;
