//! What a run replies to a tree of files.
#![tactic(auto)]

mod formed;
mod heads;
mod heard;
mod laws;
mod limits;
mod lines;
mod marks;
mod outcomes;
mod parsed;
mod read;
mod readers;
mod readings;
mod run;
mod states;
mod texts;

pub use gv_driver::{Kit, Unloaded};
pub use heard::{Heard, nothing_heard};
pub use laws::{a_tree_that_is_read_has_a_report, each_mark_has_its_text, one_report_of_a_tree};
pub use run::report_on;
