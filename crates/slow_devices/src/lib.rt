//! Devices that give and take little at a time, over others: for tests of short reads and short writes.
#![tactic(auto)]

mod sink;
mod source;

pub use sink::SlowSink;
pub use source::SlowSource;
