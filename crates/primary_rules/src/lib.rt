//! The rules of primary expressions that are no operands, literals or calls: selectors, indexes, slices, assertions; and of indirections,
//! addresses and receive operations.
#![tactic(auto)]

mod addresses;
mod arrows;
mod asserting;
mod bounds;
mod forms;
mod indexing;
mod operand;
mod passing;
mod receiving;
mod rules;
mod selecting;
mod shape;
mod slicing;
mod unary_wants;
mod wants;

pub use arrows::is_receiving;
pub use forms::primary_reads;
pub use rules::judge_primary;
pub use wants::want_primary;
