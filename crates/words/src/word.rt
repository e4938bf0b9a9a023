//! What a word is by its bytes.
ghost use Rattle.std.specs.Prelude.{◌≡◌, true, false, nat_eq, MatchOption, drop, length};
ghost use Rattle.std.specs.List.{starts_with};
ghost use Rattle.words.specs.Pieces.{dashed, kind_of, kind_shown};

/// An option that has a value.
#[derive(Clone, Copy, Debug, PartialEq, Eq, Drop)]
pub enum Valued {
    Workers,
    Only,
}

/// What a word is, where it is no value and doesn't come after `--`.
#[derive(Clone, Copy, Drop)]
pub enum Piece<'a> {
    /// `--`: all words after it are plain.
    Dashes,
    /// `--json`.
    Json,
    /// The name of an option, whose value is the next word.
    Named(Valued),
    /// The name of an option, `=`, and its value.
    Given(Valued, &'a str),
    /// A word that doesn't begin with `-`.
    Plain,
    /// Another word that begins with `-`.
    Wrong,
}

/// Whether a word begins with `-`.
pub(crate) fn is_dashed(word: &str) -> bool
    ensures { result ≡ dashed word.now }
{
    word.as_bytes().starts_with(b"-")
}

/// What stands behind this front.
fn behind<'a>(word: &'a str, front: &str) -> Option<&'a str>
    ensures { MatchOption result (starts_with nat_eq word.now front.now ≡ false) (λ rest. (starts_with nat_eq word.now front.now ≡ true) × (rest.now ≡ drop (length front.now) word.now)) }
{
    word.strip_prefix(front)
}

/// What a word is.
pub(crate) fn piece_of(word: &str) -> Piece<'_>
    ensures { kind_shown result ≡ kind_of word.now }
{
    if word == "--" {
        return Piece::Dashes;
    }
    if word == "--json" {
        return Piece::Json;
    }
    if word == "--workers" {
        return Piece::Named(Valued::Workers);
    }
    if word == "--only" {
        return Piece::Named(Valued::Only);
    }
    if let Some(value) = behind(word, "--workers=") {
        return Piece::Given(Valued::Workers, value);
    }
    if let Some(value) = behind(word, "--only=") {
        return Piece::Given(Valued::Only, value);
    }
    if is_dashed(word) {
        return Piece::Wrong;
    }
    Piece::Plain
}
