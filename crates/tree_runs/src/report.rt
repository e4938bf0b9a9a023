//! What is asked of a run, and what it answers.
use analysis_core::{ChangedFile, Command, Counts};
use gv_base::{Bytes, Row};

/// The form of a reply.
#[derive(Clone, Copy, Debug, PartialEq, Eq, Drop)]
pub enum Form {
    /// Its lines.
    Text,
    /// One line of JSON, where the command is `report`; else its lines.
    Json,
    /// Its last line.
    Last,
}

/// What is asked of a run.
#[derive(Clone, Copy, Debug, PartialEq, Eq, Drop)]
pub struct Task {
    pub command: Command,
    /// The analyzers that are chosen: the bit of each one's number.
    pub only: u16,
    pub form: Form,
}

/// What a run says of a tree.
#[derive(Drop)]
pub struct TreeReport {
    /// The bytes of the reply, in the form that was asked for.
    pub text: Bytes,
    /// Whether something was found.
    pub found: bool,
    /// How much work there was.
    pub counts: Counts,
    /// The files that the applied fixes change, by path.
    pub changed: Row<ChangedFile>,
}
