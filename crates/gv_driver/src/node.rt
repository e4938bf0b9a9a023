//! What is known of a package's nodes in a run.
use action_graph::Trees;
use fact_cache::{Input, Keyed};
use gv_base::{Bytes, Row};

/// What came of a load.
#[derive(Drop)]
pub enum Answer {
    /// Its export text, which is looked up for each package that has it in its environment.
    Accepted(Keyed),
    /// The text of its marks.
    Refused(Bytes),
}

/// A run of an analyzer that is done.
#[derive(Drop)]
pub struct RunNode {
    /// The analyzer's number.
    pub analyzer: u8,
    /// All that it read, where it was executed; nothing where the cache had what comes of it.
    pub fresh: Option<Input>,
    /// What came of it, as a text.
    pub outcome: Bytes,
}

/// A package whose nodes are done.
#[derive(Drop)]
pub struct Node {
    /// All that its load read, where the cache had nothing of it; else nothing.
    pub fresh: Option<Input>,
    /// What came of its load.
    pub answer: Answer,
    /// The numbers of the packages that are reached from what is seen of it by mentions, in order.
    pub reach: Row<u32>,
    /// Its runs, by analyzer; none where it isn't accepted.
    pub runs: Row<RunNode>,
}

/// Whether a package was loaded in this run.
#[derive(Drop)]
pub struct Loading<L> {
    /// What was accepted.
    pub loaded: Option<L>,
    /// Whether the load was executed.
    pub tried: bool,
    /// Trees of its files for the load, where it wasn't executed.
    pub trees: Option<Trees>,
}

/// A package's load, before its runs.
#[derive(Drop)]
pub struct Begun<L> {
    /// All that it read, where the cache had nothing of it.
    pub fresh: Option<Input>,
    /// What came of it.
    pub answer: Answer,
    /// Whether it was executed.
    pub loading: Loading<L>,
}
