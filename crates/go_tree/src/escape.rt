//! The escapes of rune and text literals.
ghost use Rattle.std.specs.Prelude.{◌≡◌, ◌==◌, ◌-◌, length, take, drop, slice_index};
ghost use Rattle.std.specs.Char.{digit_value};
ghost use Rattle.std.specs.Str.{chars};
ghost use Rattle.go_tree.specs.Escapes.{is_simple, slash_step, octal_step, hex_step, point_end, point_step, escape_step, lone_step, is_plain, inner, escapes_well, is_lone_escape, is_lone_char, is_rune_body};

use crate::class::Escape;
use crate::part::{behind, byte_at};

fn is_simple(b: u8) -> bool
    ensures { result ≡ is_simple b }
{
    b == b'a'
        || b == b'b'
        || b == b'f'
        || b == b'n'
        || b == b'r'
        || b == b't'
        || b == b'v'
        || b == b'\\'
}

/// The value of a digit in base 36, or 36.
pub(crate) fn digit_value(b: u8) -> u32
    ensures { result ≡ digit_value b }
{
    match b {
        b'0'..=b'9' => (b - b'0') as u32,
        b'A'..=b'Z' => (b - b'A') as u32 + 10,
        b'a'..=b'z' => (b - b'a') as u32 + 10,
        _ => 36,
    }
}

fn slash_step(quote: u8, b: u8) -> Escape
    ensures { result ≡ slash_step quote b }
{
    let digit = digit_value(b);
    if is_simple(b) || b == quote {
        Escape::Plain
    } else if digit < 8 {
        Escape::Octal(2, digit)
    } else if b == b'x' {
        Escape::Hex(2, 0)
    } else if b == b'u' {
        Escape::Point(4, 0)
    } else if b == b'U' {
        Escape::Point(8, 0)
    } else {
        Escape::Bad
    }
}

fn octal_step(left: u8, value: u32, b: u8) -> Escape
    ensures { result ≡ octal_step left value b }
{
    let digit = digit_value(b);
    if 31 < value || !(digit < 8) {
        Escape::Bad
    } else if left <= 1 {
        Escape::Plain
    } else {
        Escape::Octal(left - 1, value * 8 + digit)
    }
}

fn hex_step(left: u8, value: u32, b: u8) -> Escape
    ensures { result ≡ hex_step left value b }
{
    let digit = digit_value(b);
    if 15 < value || !(digit < 16) {
        Escape::Bad
    } else if left <= 1 {
        Escape::Plain
    } else {
        Escape::Hex(left - 1, value * 16 + digit)
    }
}

fn point_end(value: u32) -> Escape
    ensures { result ≡ point_end value }
{
    if 0xD7FF < value && value < 0xE000 {
        Escape::Bad
    } else {
        Escape::Plain
    }
}

fn point_step(left: u8, value: u32, b: u8) -> Escape
    ensures { result ≡ point_step left value b }
{
    let digit = digit_value(b);
    if 0x10FFF < value || !(digit < 16) {
        Escape::Bad
    } else if left <= 1 {
        point_end(value * 16 + digit)
    } else {
        Escape::Point(left - 1, value * 16 + digit)
    }
}

#[tactic(auto, unfolding(crate::specs::Escapes::escape_step))]
pub(crate) fn escape_step(quote: u8, state: Escape, b: u8) -> Escape
    ensures { result ≡ escape_step quote state b }
{
    match state {
        Escape::Plain => if b == b'\\' {
            Escape::Slash
        } else {
            Escape::Plain
        },
        Escape::Slash => slash_step(quote, b),
        Escape::Octal(left, value) => octal_step(left, value, b),
        Escape::Hex(left, value) => hex_step(left, value, b),
        Escape::Point(left, value) => point_step(left, value, b),
        Escape::Bad => Escape::Bad,
    }
}

pub(crate) fn is_plain(state: Escape) -> bool
    ensures { result ≡ is_plain state }
{
    match state {
        Escape::Plain => true,
        Escape::Slash => false,
        Escape::Octal(_, _) => false,
        Escape::Hex(_, _) => false,
        Escape::Point(_, _) => false,
        Escape::Bad => false,
    }
}

/// What stands between the quotes of a literal.
pub(crate) fn inner(bytes: &[u8]) -> &[u8]
    ensures { result.now ≡ inner bytes.now }
{
    if bytes.len() < 2 {
        &bytes[..0]
    } else {
        &bytes[1..bytes.len() - 1]
    }
}

/// Whether each escape in the bytes is whole and good.
#[tactic(auto, unfolding(crate::specs::Escapes::escapes_well))]
fn escapes_well(quote: u8, bytes: &[u8]) -> bool
    ensures { result ≡ escapes_well quote bytes.now }
{
    let mut state = Escape::Plain;
    for b in bytes {
        state = escape_step(quote, state, *b);
    }
    is_plain(state)
}

#[tactic(auto, unfolding(crate::specs::Escapes::lone_step))]
pub(crate) fn lone_step(state: Escape, b: u8) -> Escape
    ensures { result ≡ lone_step state b }
{
    if is_plain(state) {
        Escape::Bad
    } else {
        escape_step(b'\'', state, b)
    }
}

/// Whether the bytes behind a backslash are one escape of a rune literal.
#[tactic(auto, unfolding(crate::specs::Escapes::is_lone_escape))]
fn is_lone_escape(bytes: &[u8]) -> bool
    ensures { result ≡ is_lone_escape bytes.now }
{
    let mut state = Escape::Slash;
    for b in bytes {
        state = lone_step(state, *b);
    }
    is_plain(state)
}

fn is_lone(text: &str) -> bool
    ensures { result ≡ (length (chars text.now) == 1) }
{
    text.chars().count() == 1
}

/// Whether the bytes are one character.
fn is_lone_char(bytes: &[u8]) -> bool
    ensures { result ≡ is_lone_char bytes.now }
{
    match str::from_utf8(bytes) {
        Ok(text) => is_lone(text),
        Err(_) => false,
    }
}

/// Whether the bytes are exactly one character or escape.
#[tactic(auto, unfolding(crate::specs::Escapes::is_rune_body))]
fn is_rune_body(bytes: &[u8]) -> bool
    ensures { result ≡ is_rune_body bytes.now }
{
    if byte_at(bytes, 0) == b'\\' {
        is_lone_escape(behind(bytes, 1))
    } else {
        is_lone_char(bytes)
    }
}

/// Whether the escapes between two double quotes are good.
pub fn is_text(bytes: &[u8]) -> bool
    ensures { result ≡ escapes_well 34 (inner bytes.now) }
{
    escapes_well(b'"', inner(bytes))
}

/// Whether exactly one character or escape stands between two single quotes.
pub fn is_rune(bytes: &[u8]) -> bool
    ensures { result ≡ is_rune_body (inner bytes.now) }
{
    is_rune_body(inner(bytes))
}
