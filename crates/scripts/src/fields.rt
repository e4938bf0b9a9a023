//! The fields of a command.
ghost use Rattle.std.specs.Prelude.{◌≡◌, ◌<◌, ◌≤◌, ◌+◌, ◌^◌, ◌↔◌, IsTrue, take, length, slice_index, true, false};
ghost use Rattle.scripts.specs.Fields.{IsWord, IsLengthField, IsBodyField};
ghost use Rattle.scripts.specs.Runs.{IsRun, is_digit, value_of, IsNumeral};

/// How some bytes and a field stand to each other.
#[derive(Clone, Copy, Debug, PartialEq, Eq, Drop)]
pub(crate) enum Field {
    /// The bytes begin with the field, whose value is so long.
    Read(usize),
    /// The bytes are less than the field.
    Part,
    /// The bytes begin otherwise.
    Other,
}

/// The same of a length, with its value.
#[derive(Clone, Copy, Debug, PartialEq, Eq, Drop)]
pub(crate) enum Length {
    /// A number, and how many digits write it.
    Value(usize, usize),
    /// Digits that have not ended.
    Digits,
    /// No number.
    Wrong,
}

pub(crate) fn read_word(bytes: &[u8], word: &[u8]) -> Field
    ensures { IsWord bytes.now word.now result }
{
    if bytes.starts_with(word) {
        Field::Read(word.len())
    } else if word.starts_with(bytes) {
        Field::Part
    } else {
        Field::Other
    }
}

/// How many digits the bytes begin with.
fn digit_run(bytes: &[u8]) -> usize
    ensures { IsRun is_digit bytes.now result }
{
    let mut count = 0;
    while count < bytes.len() && bytes[count].is_ascii_digit() {
        count += 1;
    }
    count
}

/// The number that at most nine digits write.
fn number(digits: &[u8]) -> usize
    requires { IsNumeral digits.now }
    ensures { result ≡ value_of 0 digits.now }
{
    let mut value = 0;
    for digit in digits {
        value = 10 * value + (*digit - b'0') as usize;
    }
    value
}

/// Whether the first of several digits is a zero.
fn is_padded(bytes: &[u8], count: usize) -> bool
    requires { count ≤ length bytes.now }
    ensures padded { IsTrue result → (1 < count) × (slice_index bytes.now 0 ≡ 48) }
    ensures plain { result ≡ false → 1 < count → slice_index bytes.now 0 ≡ 48 → ⊥ }
{
    count > 1 && bytes[0] == b'0'
}

pub(crate) fn read_length(bytes: &[u8]) -> Length
    ensures { IsLengthField bytes.now result }
{
    let count = digit_run(bytes);
    if count > 9 {
        Length::Wrong
    } else if is_padded(bytes, count) {
        Length::Wrong
    } else if count == bytes.len() {
        Length::Digits
    } else if count > 0 && bytes[count] == b'\n' {
        Length::Value(number(&bytes[..count]), count)
    } else {
        Length::Wrong
    }
}

pub(crate) fn read_body(bytes: &[u8], count: usize) -> Field
    ensures { IsBodyField count bytes.now result }
{
    if bytes.len() <= count {
        Field::Part
    } else if bytes[count] == b'\n' {
        Field::Read(count)
    } else {
        Field::Other
    }
}
