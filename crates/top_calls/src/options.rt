//! The options of a call.

/// What the words of a call choose.
#[derive(Clone, Copy, Debug, PartialEq, Eq, Drop)]
pub struct ToolOptions {
    /// How many workers a run has, from 1 to 64: the first kits are theirs.
    pub workers: u32,
    /// The analyzers that are chosen: the bit of each one's number, which is 1 to 10.
    pub only: u16,
    /// Whether the reply of `report` is one line of JSON.
    pub json: bool,
    /// Whether of a run's reply the last line alone goes out.
    pub brief: bool,
}

impl ToolOptions {
    /// The options of words without any: one worker, all ten analyzers, text, whole.
    pub const PLAIN: ToolOptions = ToolOptions {
        workers: 1,
        only: 0b111_1111_1110,
        json: false,
        brief: false,
    };
}
