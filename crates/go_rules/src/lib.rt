//! The rule of each item of a package: which family of rules judges a node, how its parts are read, what its place wants, and what the place
//! makes of it.
#![tactic(auto)]

mod by_family;
mod clause;
mod declare;
mod family;
mod functions;
mod judge;
mod judged;
mod number;
mod objects;
mod own;
mod placed;
mod quiet;
mod reads;
mod role;
mod room;
mod statements;
mod types;
mod unnamed;
mod uses;
mod wants;
mod whole;

pub use whole::GoRules;
