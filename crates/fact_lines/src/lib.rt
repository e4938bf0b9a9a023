//! The facts that analyzers give of functions, as the lines of a reply.
#![tactic(auto)]

mod lines;
mod told;

pub use lines::all_facts;
pub use told::facts_told;
