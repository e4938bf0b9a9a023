//! The words that begin the commands of a script, and what follows each.
ghost use Rattle.std.specs.Prelude.{◌≡◌, ◌<◌};
ghost use Rattle.scripts.specs.Words.{text_of, shape_of, number_of};

/// What begins a command.
#[derive(Clone, Copy, Debug, PartialEq, Eq, Drop)]
pub enum Word {
    Put,
    Del,
    Show,
    Check,
    Report,
    Facts,
    Fix,
    Stats,
    End,
}

/// What follows a command's word.
#[derive(Clone, Copy, Debug, PartialEq, Eq, Drop)]
pub enum Shape {
    /// Nothing: the word's line ends with it.
    Bare,
    /// A path.
    Path,
    /// A path, a length, and so many bytes.
    File,
}

impl Word {
    /// How many words there are.
    pub(crate) const COUNT: usize = 9;

    /// The word of a number below `COUNT`.
    pub(crate) fn of_number(number: usize) -> Word
        requires { number < 9 }
        ensures { number_of result ≡ number }
    {
        match number {
            0 => Word::Put,
            1 => Word::Del,
            2 => Word::Show,
            3 => Word::Check,
            4 => Word::Report,
            5 => Word::Facts,
            6 => Word::Fix,
            7 => Word::Stats,
            _ => Word::End,
        }
    }

    /// Its bytes and the one behind it: a space, or the newline of a command without fields.
    pub(crate) fn text(self) -> &'static [u8]
        ensures { result.now ≡ text_of self }
    {
        match self {
            Word::Put => b"put ",
            Word::Del => b"del ",
            Word::Show => b"show ",
            Word::Check => b"check\n",
            Word::Report => b"report\n",
            Word::Facts => b"facts\n",
            Word::Fix => b"fix\n",
            Word::Stats => b"stats\n",
            Word::End => b"end\n",
        }
    }

    /// What follows it.
    pub(crate) fn shape(self) -> Shape
        ensures { result ≡ shape_of self }
    {
        match self {
            Word::Put => Shape::File,
            Word::Del => Shape::Path,
            Word::Show => Shape::Path,
            Word::Check => Shape::Bare,
            Word::Report => Shape::Bare,
            Word::Facts => Shape::Bare,
            Word::Fix => Shape::Bare,
            Word::Stats => Shape::Bare,
            Word::End => Shape::Bare,
        }
    }
}
