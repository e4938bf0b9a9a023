//! What words ask for.
use analysis_core::Command;

/// What is to be done.
#[derive(Clone, Copy, Debug, PartialEq, Eq, Drop)]
pub enum Asked {
    /// Answer the commands of a script.
    Session,
    /// Run once over the tree.
    Run(Command),
    /// Write the script of a chain of so many packages, from 1 to 1,000.
    Gen(u32),
    /// Answer that script, telling the last line of each run's reply.
    Load(u32),
}

/// What words ask for, and how.
#[derive(Clone, Copy, Debug, PartialEq, Eq, Drop)]
pub struct Words {
    pub asked: Asked,
    /// How many workers a run has, from 1 to 64.
    pub workers: u32,
    /// The analyzers that are chosen: the bit of each one's number.
    pub only: u16,
    /// Whether reports are in JSON.
    pub json: bool,
}

/// The words are outside their grammar.
#[derive(Clone, Copy, Debug, PartialEq, Eq, Drop)]
pub struct Usage;
