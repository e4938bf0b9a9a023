//! The values of integer and rune literals.
ghost use Rattle.std.specs.Prelude.{◌≡◌, ◌^◌, ◌≤◌, ◌==◌, ◌<◌, slice_index, MatchOption};
ghost use Rattle.std.specs.Str.{chars};
ghost use Rattle.std.specs.List.{fold};
ghost use Rattle.go_tree.specs.declared.class.Escape.TheVariants.{Slash};
ghost use Rattle.go_tree.specs.Escapes.{is_plain, lone_step, inner};
ghost use Rattle.go_tree.specs.Values.{number_with, number_of, IsIntValue, simple_value, unit_value, IsEnding, lone_value, char_value, rune_value};

use crate::class::Escape;
use crate::escape::{digit_value, inner, is_plain, lone_step};
use crate::number::{base_of, behind_prefix};
use crate::part::{behind, byte_at};

/// The value of an integer literal.
#[derive(Clone, Copy, Debug, PartialEq, Eq, Drop)]
pub enum IntValue {
    Value(i128),
    /// The number passes 2^127 - 1.
    Wide,
}

/// The number with one digit more, if 128 bits hold it.
#[tactic(auto, unfolding(crate::specs::Values::number_with))]
fn number_with(base: u32, n: u128, b: u8) -> Option<u128>
    ensures { MatchOption result (2 ^ 128 ≤ number_with base n b) (λ m. m ≡ number_with base n b) }
{
    if b == b'_' {
        return Some(n);
    }
    match n.checked_mul(base as u128) {
        Some(product) => product.checked_add(digit_value(b) as u128),
        None => None,
    }
}

/// The number that digits of a base write, if 128 bits hold it.
fn digits_number(base: u32, digits: &[u8]) -> Option<u128>
    requires { 0 < base }
    ensures { MatchOption result (2 ^ 128 ≤ fold (number_with base) 0 digits.now) (λ m. m ≡ fold (number_with base) 0 digits.now) }
{
    let mut n: u128 = 0;
    for b in digits {
        match number_with(base, n, *b) {
            Some(more) => n = more,
            None => return None,
        }
    }
    Some(n)
}

#[tactic(auto, unfolding(crate::specs::Values::number_of))]
fn number_of(bytes: &[u8]) -> Option<u128>
    ensures { MatchOption result (2 ^ 128 ≤ number_of bytes.now) (λ m. m ≡ number_of bytes.now) }
{
    digits_number(base_of(bytes), behind_prefix(bytes))
}

const LIMIT: u128 = 1 << 127;

/// The value of an integer literal. Other bytes have a value, too, but one that means nothing.
pub fn int_value(bytes: &[u8]) -> IntValue
    ensures { IsIntValue bytes.now result }
{
    match number_of(bytes) {
        Some(n) => {
            if n < LIMIT {
                IntValue::Value(n as i128)
            } else {
                IntValue::Wide
            }
        }
        None => IntValue::Wide,
    }
}

/// What a letter behind a backslash stands for.
fn simple_value(b: u8) -> u8
    ensures { result ≡ simple_value b }
{
    if b == b'a' {
        7
    } else if b == b'b' {
        8
    } else if b == b'f' {
        12
    } else if b == b'n' {
        10
    } else if b == b'r' {
        13
    } else if b == b't' {
        9
    } else if b == b'v' {
        11
    } else {
        b
    }
}

/// What a byte ends: the value of an escape, or the byte itself.
#[tactic(auto, unfolding(crate::specs::Values::unit_value))]
pub(crate) fn unit_value(state: Escape, b: u8) -> u32
    requires { IsEnding state b }
    ensures { result ≡ unit_value state b }
{
    match state {
        Escape::Plain => b as u32,
        Escape::Slash => simple_value(b) as u32,
        Escape::Octal(_, value) => value * 8 + digit_value(b),
        Escape::Hex(_, value) => value * 16 + digit_value(b),
        Escape::Point(_, value) => value * 16 + digit_value(b),
        Escape::Bad => 0,
    }
}

/// The value of the escape that the bytes behind a backslash are.
fn lone_value(bytes: &[u8]) -> u32
    ensures { result ≡ lone_value Slash bytes.now }
{
    let mut state = Escape::Slash;
    for b in bytes {
        let next = lone_step(state, *b);
        if is_plain(next) {
            return unit_value(state, *b);
        }
        state = next;
    }
    0
}

fn first_char(text: &str) -> u32
    ensures { result ≡ slice_index (chars text.now) 0 }
{
    match text.chars().next() {
        Some(c) => c as u32,
        None => 0,
    }
}

/// The code of the first character of a text.
fn char_value(bytes: &[u8]) -> u32
    ensures { result ≡ char_value bytes.now }
{
    match str::from_utf8(bytes) {
        Ok(text) => first_char(text),
        Err(_) => 0,
    }
}

/// The value of a rune literal: the code of its character, or the value of its escape. Other bytes
/// have a value, too, but one that means nothing.
#[tactic(auto, unfolding(crate::specs::Values::rune_value))]
pub fn rune_value(bytes: &[u8]) -> u32
    ensures { result ≡ rune_value bytes.now }
{
    let body = inner(bytes);
    if byte_at(body, 0) == b'\\' {
        lone_value(behind(body, 1))
    } else {
        char_value(body)
    }
}
