//! What a run is asked for.

/// What a run answers.
#[derive(Clone, Copy, Debug, PartialEq, Eq, Drop)]
pub enum Command {
    /// Which packages are accepted.
    Check,
    /// What the analyzers found besides.
    Report,
    /// What the analyzers know of functions.
    Facts,
    /// The files with the fixes of the analyzers.
    Fix,
}

/// What a run is asked for.
#[derive(Clone, Copy, Debug, PartialEq, Eq, Drop)]
pub struct Options {
    pub command: Command,
    /// The analyzers that are chosen: the bit of each one's number.
    pub only: u16,
}
