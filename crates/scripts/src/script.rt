//! The commands of a script.
ghost use Rattle.std.specs.Prelude.{◌≡◌, ◌↔◌, ◌++◌, IsTrue, length, drop};
ghost use Rattle.scripts.specs.Words.{text_of};
ghost use Rattle.scripts.specs.Next.{IsFound, IsNext};

use crate::fields::{Field, read_word};
use crate::fieldset::{Fields, FieldsRead, read_fields, rest_from};
use crate::word::Word;

/// A command: its word, and what follows it.
#[derive(Clone, Copy, Debug, PartialEq, Eq, Drop)]
pub struct Command<'a> {
    pub word: Word,
    pub fields: Fields<'a>,
}

impl Command<'_> {
    /// Whether it ends the script.
    pub fn is_end(&self) -> bool
        ensures { IsTrue result ↔ (self.now.word ≡ Word.End) }
    {
        match self.word {
            Word::Put => false,
            Word::Del => false,
            Word::Show => false,
            Word::Check => false,
            Word::Report => false,
            Word::Facts => false,
            Word::Fix => false,
            Word::Stats => false,
            Word::End => true,
        }
    }
}

/// What some bytes begin with.
#[derive(Clone, Copy, Debug, PartialEq, Eq, Drop)]
pub enum Next<'a> {
    /// A command, and how many bytes spell it.
    Whole(Command<'a>, usize),
    /// The beginning of a command.
    NeedMore,
    /// No command, however they go on.
    Refused,
}

/// How some bytes and the words of commands stand to each other.
#[derive(Clone, Copy, Debug, PartialEq, Eq, Drop)]
pub(crate) enum Found {
    /// The bytes begin with this word, whose text is so long.
    Known(Word, usize),
    /// The bytes are the beginning of a word.
    Started,
    /// The bytes begin with no word, however they go on.
    Unknown,
}

/// The word that bytes begin with.
fn find_word(bytes: &[u8]) -> Found
    ensures { IsFound bytes.now result }
{
    let mut number = 0;
    while number < Word::COUNT {
        let word = Word::of_number(number);
        match read_word(bytes, word.text()) {
            Field::Read(len) => return Found::Known(word, len),
            Field::Part => return Found::Started,
            Field::Other => number += 1,
        }
    }
    Found::Unknown
}

/// The command that bytes begin with which begin with a word.
fn command_at_fields(bytes: &[u8], word: Word, at: usize) -> Next<'_>
    requires at { at ≡ length (text_of word) }
    requires head { bytes.now ≡ text_of word ++ drop at bytes.now }
    ensures { IsNext bytes.now result }
{
    match read_fields(rest_from(bytes, at), word.shape()) {
        FieldsRead::Read(fields, len) => Next::Whole(Command { word, fields }, at + len),
        FieldsRead::Part => Next::NeedMore,
        FieldsRead::Other => Next::Refused,
    }
}

/// What bytes begin with.
pub fn next_command(bytes: &[u8]) -> Next<'_>
    ensures { IsNext bytes.now result }
{
    match find_word(bytes) {
        Found::Known(word, len) => command_at_fields(bytes, word, len),
        Found::Started => Next::NeedMore,
        Found::Unknown => Next::Refused,
    }
}
