//! Runs over a tree: each load and each run of an analyzer is looked up by its whole input, and executed only where it is missing.
#![tactic(auto)]

mod analyzers;
mod answer;
mod counts;
mod diagnosed;
mod driver;
mod facts;
mod input;
mod jobs;
mod keep;
mod laws;
mod loading;
mod node;
mod package;
mod parts;
mod ready;
mod reply;
mod report;
mod rows;
mod runs;
mod standing;
mod step;
mod tree;
mod wave;

pub use action_graph::{Kit, MarkLine, PackageTrees, ParsedFile, Trees, Unloaded};
pub use analysis_core::Counts;
pub use driver::run;
pub use laws::{
    a_tree_has_a_report, an_environment_is_enough, an_outcome_has_the_facts, one_cache, one_plan,
    one_report, one_run_of_a_package,
};
pub use reply::{Judgement, Verdict};
pub use tree::PackageTexts;
