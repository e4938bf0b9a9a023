//! How a call ends.
ghost use Rattle.std.specs.Prelude.{◌≡◌};
ghost use Rattle.top_calls.specs.Ends.{name_of, number_of};

use scripts::Halt;

/// What ends a call before all that is due has gone out.
#[derive(Clone, Copy, Debug, PartialEq, Eq, Drop)]
pub enum Cut {
    /// The source failed.
    Source,
    /// The tree failed.
    Tree,
    /// The keeper failed.
    Keeper,
    /// The sink failed.
    Sink,
    /// Memory was wanting.
    Memory,
    /// The sink took nothing.
    Stalled,
    /// The rules of a package of the tree at a run go in a circle.
    Circle,
}

/// How a session or a run ended; of one that was read to its end, whether the last run found something.
#[derive(Clone, Copy, Debug, PartialEq, Eq, Drop)]
pub enum Stop {
    Halted(Halt, bool),
    Broken(Cut),
}

impl Stop {
    /// The number of the status.
    pub fn number(self) -> u8
        ensures { result ≡ number_of self }
    {
        match self {
            Stop::Halted(Halt::Ended, false) => 0,
            Stop::Halted(Halt::Ended, true) => 1,
            Stop::Broken(Cut::Source) => 3,
            Stop::Broken(Cut::Tree) => 4,
            Stop::Broken(Cut::Keeper) => 5,
            Stop::Broken(Cut::Sink) => 6,
            Stop::Broken(Cut::Memory) => 7,
            Stop::Halted(Halt::Refused, _) => 8,
            Stop::Halted(Halt::TooLong, _) => 9,
            Stop::Broken(Cut::Stalled) => 10,
            Stop::Broken(Cut::Circle) => 12,
        }
    }
}

/// The status of want of memory.
pub const NO_MEMORY: u8 = 7;

/// The status of words outside their grammar. Nothing was touched.
pub const USAGE: u8 = 2;

/// The name of the status of this number; empty for 0 and 1, and for a number that is no status's.
pub fn status_name(number: u8) -> &'static str
    ensures { result.now ≡ name_of number }
{
    match number {
        2 => "usage",
        3 => "source fault",
        4 => "tree fault",
        5 => "keeper fault",
        6 => "sink fault",
        7 => "no memory",
        8 => "script refused",
        9 => "input too long",
        10 => "sink stuck",
        12 => "rules in a circle",
        _ => "",
    }
}
