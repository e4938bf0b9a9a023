//! The work of a run and its order, and the texts that pass between its parts.
#![tactic(auto)]

mod choose;
mod done;
mod kit;
mod laws;
mod marks;
mod outcome;
mod texts;
mod trees;
mod work;

pub use choose::ready;
pub use go_rules::GoRules;
pub use kit::{Kit, Load, LoadInput, RunInput, RunOf, RunOutcome, Unloaded};
pub use laws::{
    findings_stand, findings_stay, marks_stand, one_finding, one_load_input, one_marks_text,
    one_outcome, one_run_input, one_run_outcome, outcome_is_read,
};
pub use marks::{MarkLine, read_marks, write_marks};
pub use outcome::{facts_in, findings_in, write_outcome};
pub use texts::{texts_of_load, texts_of_parts, texts_of_run_parts};
pub use trees::{PackageTrees, ParsedFile, Trees};
pub use vet_suite::{Found, fixes_are_own, run as run_analyzer};
pub use work::{ActionNode, PackageLine};
