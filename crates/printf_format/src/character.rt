//! The character at the front of some bytes.
ghost use Rattle.std.specs.Prelude.{◌≡◌, ◌<◌, ◌≤◌, length, take};
ghost use Rattle.printf_format.specs.Characters.{IsCharacter, IsLongestText};

/// A character and the number of its bytes.
#[derive(Clone, Copy, Drop)]
pub(crate) struct Character {
    pub(crate) code: char,
    pub(crate) size: usize,
}

/// The text at the front of at most four bytes.
fn text_front(front: &[u8]) -> &str
    ensures { IsLongestText front.now result.now }
{
    match str::from_utf8(front) {
        Ok(text) => text,
        Err(error) => unsafe { str::from_utf8_unchecked(&front[..error.valid_up_to()]) },
    }
}

/// The first bytes, at most four, as many as a character may have.
fn short_front(rest: &[u8]) -> &[u8]
    ensures { result.now ≡ take 4 rest.now }
{
    if rest.len() < 4 { rest } else { &rest[..4] }
}

/// The first character.
pub(crate) fn first_character(rest: &[u8]) -> Character
    requires { 0 < length rest.now }
    ensures character { IsCharacter rest.now result.code result.size }
    ensures some { 0 < result.size }
    ensures within { result.size ≤ length rest.now }
{
    match text_front(short_front(rest)).chars().next() {
        Some(code) => Character {
            code,
            size: code.len_utf8(),
        },
        None => Character {
            code: '\u{FFFD}',
            size: 1,
        },
    }
}
