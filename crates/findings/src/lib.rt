//! What an analyzer reports of a package, node by node.
#![tactic(auto)]

mod passing;
mod reporting;
mod running;

pub use passing::Pass;
pub use reporting::Reports;
pub use running::{one_list, run_over_nodes};
