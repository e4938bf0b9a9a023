//! Why reading stops.

/// Why reading stops behind the commands of a script.
#[derive(Clone, Copy, Debug, PartialEq, Eq, Drop)]
pub enum Halt {
    /// The input ended, or a command ended it.
    Ended,
    /// A command isn't in the grammar.
    Refused,
    /// The script is longer than its limit.
    TooLong,
}
