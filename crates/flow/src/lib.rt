//! Where control passes in the bodies of a file, and what it never comes to.
#![tactic(auto)]

mod around;
mod edges;
mod graph;
mod kinds;
mod laws;
mod marks;
mod mentions;
mod never;
mod passes;
mod passing;
mod point;
mod roles;
mod rows;
mod search;
mod seen;
mod statements;
mod targets;

pub use graph::{Graph, graph_of};
pub use laws::{admission_is_local, admission_is_monotone};
pub use mentions::mentioned;
pub use never::never_returns;
pub use point::{Around, Call, Edge};
pub use statements::unreached;
