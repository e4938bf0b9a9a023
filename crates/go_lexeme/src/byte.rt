//! The classes of bytes.
ghost use Rattle.std.specs.Prelude.{◌≡◌, length, slice_index};
ghost use Rattle.go_tree.specs.Lexeme.{is_letter, is_blank, is_word_byte, is_run_byte, is_sign};
ghost use Rattle.go_lexeme.specs.Slots.{flag_at};
ghost use Rattle.go_tree.specs.Numbers.{is_decimal_mark, is_hex_mark};

/// The byte at a place, or 0 past the end.
#[inline(always)]
pub(crate) fn byte_at(bytes: &[u8], place: usize) -> u8
    ensures { result ≡ slice_index bytes.now place }
{
    if place < bytes.len() { bytes[place] } else { 0 }
}

/// A space, a tab or a carriage return.
pub(crate) fn is_blank(b: u8) -> bool
    ensures { result ≡ is_blank b }
{
    b == b' ' || b == b'\t' || b == b'\r'
}

/// An ASCII letter or `_`.
pub(crate) fn is_letter(b: u8) -> bool
    ensures { result ≡ is_letter b }
{
    b == b'_' || b.is_ascii_alphabetic()
}

/// Of each byte whether it is an ASCII letter, a digit or `_`.
#[rattlefmt::skip]
const WORD_BYTES: [bool; 256] = [
    false, false, false, false, false, false, false, false, false, false, false, false, false, false, false, false,
    false, false, false, false, false, false, false, false, false, false, false, false, false, false, false, false,
    false, false, false, false, false, false, false, false, false, false, false, false, false, false, false, false,
    true, true, true, true, true, true, true, true, true, true, false, false, false, false, false, false,
    false, true, true, true, true, true, true, true, true, true, true, true, true, true, true, true,
    true, true, true, true, true, true, true, true, true, true, true, false, false, false, false, true,
    false, true, true, true, true, true, true, true, true, true, true, true, true, true, true, true,
    true, true, true, true, true, true, true, true, true, true, true, false, false, false, false, false,
    false, false, false, false, false, false, false, false, false, false, false, false, false, false, false, false,
    false, false, false, false, false, false, false, false, false, false, false, false, false, false, false, false,
    false, false, false, false, false, false, false, false, false, false, false, false, false, false, false, false,
    false, false, false, false, false, false, false, false, false, false, false, false, false, false, false, false,
    false, false, false, false, false, false, false, false, false, false, false, false, false, false, false, false,
    false, false, false, false, false, false, false, false, false, false, false, false, false, false, false, false,
    false, false, false, false, false, false, false, false, false, false, false, false, false, false, false, false,
    false, false, false, false, false, false, false, false, false, false, false, false, false, false, false, false,
];

#[inline(always)]
#[tactic(auto, unfolding(crate::specs::Slots::flag_at))]
fn flag_of(flags: &[bool], b: u8) -> bool
    requires { length flags.now ≡ 256 }
    ensures { result ≡ flag_at flags.now b }
{
    flags[b as usize]
}

/// Whether the byte is an ASCII letter, a digit or `_`.
pub fn is_word_byte(b: u8) -> bool
    ensures { result ≡ is_word_byte b }
{
    flag_of(&WORD_BYTES, b)
}

/// Whether the byte goes on with the run of a number.
pub(crate) fn is_run_byte(b: u8) -> bool
    ensures { result ≡ is_run_byte b }
{
    is_word_byte(b) || b == b'.'
}

pub(crate) fn is_sign(b: u8) -> bool
    ensures { result ≡ is_sign b }
{
    b == b'+' || b == b'-'
}

/// The letter of a decimal exponent.
pub(crate) fn is_decimal_mark(b: u8) -> bool
    ensures { result ≡ is_decimal_mark b }
{
    b == b'e' || b == b'E'
}

/// The letter of a hexadecimal exponent.
pub(crate) fn is_hex_mark(b: u8) -> bool
    ensures { result ≡ is_hex_mark b }
{
    b == b'p' || b == b'P'
}
