//! Runs over trees, as a session and a single run do them: in the form that is asked for, over a cache that has a text.
#![tactic(auto)]

mod cache;
mod laws;
mod printing;
mod report;
mod running;

pub use cache::{read_text, text_of};
pub use laws::{
    a_cut_is_not_seen, each_tree_can_be_read, each_tree_has_a_report, one_report_of_a_tree,
};
pub use report::{Form, Task, TreeReport};
pub use running::run;
pub use tree_report::{Heard, Kit, Unloaded, nothing_heard};
