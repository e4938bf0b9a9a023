//! What the words read so far say.
ghost use Rattle.std.specs.Prelude.{◌≡◌, ◌≤◌, option_map};
ghost use Rattle.words.specs.Machine.{first_position, done_with, next_position, placed, with_workers, with_only, set_value, with_json, any_word, step, finish, whole};

use crate::asked::{Asked, Words};
use crate::number::numeral;
use crate::only::set_named;
use crate::word::{Piece, Valued, is_dashed, piece_of};
use analysis_core::Command;

/// What the next word is.
#[derive(Clone, Copy, Debug, PartialEq, Eq, Drop)]
pub enum Expects {
    /// Any word.
    Any,
    /// The value of an option.
    Value(Valued),
    /// A plain word, since `--` came.
    Plain,
}

/// A command with a number.
#[derive(Clone, Copy, Debug, PartialEq, Eq, Drop)]
pub enum Counted {
    Gen,
    Load,
}

/// How much of the command there is.
#[derive(Clone, Copy, Debug, PartialEq, Eq, Drop)]
pub enum Position {
    /// Nothing.
    Start,
    /// All but its number.
    Counting(Counted),
    /// All.
    Done(Asked),
}

/// What the words so far say.
#[derive(Clone, Copy, Debug, PartialEq, Eq, Drop)]
pub struct Draft {
    pub expects: Expects,
    pub position: Position,
    pub workers: Option<u32>,
    pub only: Option<u16>,
    pub json: bool,
}

/// The analyzers that are chosen where no word chooses some: all ten.
const ALL: u16 = 0b111_1111_1110;

/// The largest number of a command, and of workers.
const MOST_COUNTED: u32 = 1_000;

const MOST_WORKERS: u32 = 64;

/// The command that a word begins.
fn first_position(word: &str) -> Option<Position>
    ensures { result ≡ first_position word.now }
{
    match word {
        "session" => Some(Position::Done(Asked::Session)),
        "check" => Some(Position::Done(Asked::Run(Command::Check))),
        "report" => Some(Position::Done(Asked::Run(Command::Report))),
        "facts" => Some(Position::Done(Asked::Run(Command::Facts))),
        "fix" => Some(Position::Done(Asked::Run(Command::Fix))),
        "gen" => Some(Position::Counting(Counted::Gen)),
        "load" => Some(Position::Counting(Counted::Load)),
        _ => None,
    }
}

/// A command with its number.
fn done_with(command: Counted, number: u32) -> Position
    ensures { result ≡ done_with command number }
{
    match command {
        Counted::Gen => Position::Done(Asked::Gen(number)),
        Counted::Load => Position::Done(Asked::Load(number)),
    }
}

/// The command with one plain word more, if it can have one.
fn next_position(position: Position, word: &str) -> Option<Position>
    ensures { result ≡ next_position position word.now }
{
    match position {
        Position::Start => first_position(word),
        Position::Counting(command) => match numeral(word, MOST_COUNTED) {
            Some(number) => Some(done_with(command, number)),
            None => None,
        },
        Position::Done(_) => None,
    }
}

impl Draft {
    /// Before the first word.
    pub(crate) const START: Draft = Draft {
        expects: Expects::Any,
        position: Position::Start,
        workers: None,
        only: None,
        json: false,
    };

    /// With a plain word more.
    fn placed(self, word: &str) -> Option<Draft>
        ensures { result ≡ placed word.now self }
    {
        match next_position(self.position, word) {
            Some(position) => Some(Draft { position, ..self }),
            None => None,
        }
    }

    fn with_workers(self, value: &str) -> Option<Draft>
        ensures { result ≡ with_workers value.now self }
    {
        if self.workers.is_some() {
            return None;
        }
        match numeral(value, MOST_WORKERS) {
            Some(workers) => Some(Draft {
                expects: Expects::Any,
                workers: Some(workers),
                ..self
            }),
            None => None,
        }
    }

    fn with_only(self, value: &str) -> Option<Draft>
        ensures { result ≡ with_only value.now self }
    {
        if self.only.is_some() {
            return None;
        }
        match set_named(value.as_bytes()) {
            Some(only) => Some(Draft {
                expects: Expects::Any,
                only: Some(only),
                ..self
            }),
            None => None,
        }
    }

    /// With the value of an option more.
    fn set(self, option: Valued, value: &str) -> Option<Draft>
        ensures { result ≡ set_value option value.now self }
    {
        if is_dashed(value) {
            return None;
        }
        match option {
            Valued::Workers => self.with_workers(value),
            Valued::Only => self.with_only(value),
        }
    }

    fn with_json(self) -> Option<Draft>
        ensures { result ≡ with_json self }
    {
        if self.json {
            return None;
        }
        Some(Draft { json: true, ..self })
    }

    /// With a word more that may be any.
    fn any(self, word: &str) -> Option<Draft>
        ensures { result ≡ any_word word.now self }
    {
        match piece_of(word) {
            Piece::Dashes => Some(Draft {
                expects: Expects::Plain,
                ..self
            }),
            Piece::Json => self.with_json(),
            Piece::Named(option) => Some(Draft {
                expects: Expects::Value(option),
                ..self
            }),
            Piece::Given(option, value) => self.set(option, value),
            Piece::Plain => self.placed(word),
            Piece::Wrong => None,
        }
    }

    /// With one word more, if it can come here.
    pub(crate) fn step(self, word: &str) -> Option<Draft>
        ensures { result ≡ step self word.now }
    {
        match self.expects {
            Expects::Any => self.any(word),
            Expects::Value(option) => self.set(option, word),
            Expects::Plain => self.placed(word),
        }
    }

    /// What all the words ask for, if no word is missing.
    pub(crate) fn finish(self) -> Option<Words>
        ensures { result ≡ finish self }
    {
        match self.expects {
            Expects::Value(_) => None,
            Expects::Any => self.whole(),
            Expects::Plain => self.whole(),
        }
    }

    fn whole(self) -> Option<Words>
        ensures { result ≡ whole self }
    {
        match self.position {
            Position::Done(asked) => Some(Words {
                asked,
                workers: self.workers.unwrap_or(1),
                only: self.only.unwrap_or(ALL),
                json: self.json,
            }),
            Position::Start => None,
            Position::Counting(_) => None,
        }
    }
}
