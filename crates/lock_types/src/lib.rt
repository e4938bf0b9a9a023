//! Lock types: those whose values must not be copied once they are in use.
#![tactic(auto)]

mod flags;
mod parts;
mod plain;

pub use flags::lock_types;
pub use plain::may_be_lock;
