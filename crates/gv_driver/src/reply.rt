//! What a run says of the packages of a tree.
use action_graph::MarkLine;
use analysis_core::{Counts, Diagnostic};
use gv_base::{Bytes, Row};

/// What comes of a package, the first of these that holds.
#[derive(Drop)]
pub enum Verdict {
    /// It isn't sound.
    Faulty,
    /// A package that it imports isn't accepted.
    Blocked,
    /// The marks that refuse it. Their file numbers count the package's files from 0.
    Refused(Row<MarkLine>),
    /// It breaks no rule.
    Accepted,
}

/// What a run says of the packages of a tree.
#[derive(Drop)]
pub struct Judgement {
    /// The verdict of each package, by its number.
    pub verdicts: Row<Verdict>,
    /// What the analyzers found of each package, by its number: of one after the other, and each in its own order. File numbers count the
    /// package's files from 0.
    pub found: Row<Row<Diagnostic>>,
    /// The facts of each package, by its number: the analyzer, and its fact text, by analyzer.
    pub facts: Row<Row<(u8, Bytes)>>,
    /// How much work there was.
    pub counts: Counts,
}
