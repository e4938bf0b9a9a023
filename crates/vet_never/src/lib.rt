//! Functions that never return: the analyzer `ctrlflow`, which has facts alone.
#![tactic(auto)]

mod bodies;
mod callees;
mod calls;
mod files;
mod laws;
mod never;
mod told;

pub use laws::one_never_text;
pub use never::CtrlFlow;
