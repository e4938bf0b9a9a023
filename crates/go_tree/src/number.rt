//! Which bytes are a number (Go 1.17, "Integer literals" to "Imaginary literals").
ghost use Rattle.std.specs.Prelude.{◌≡◌, ◌<◌, ◌==◌, length, IfSome};
ghost use Rattle.std.specs.List.{position_from};
ghost use Rattle.go_tree.specs.Numbers.{digits_step, is_fine, are_digits, behind_underscore, behind_sign, base_of_letter, is_base_letter, base_of, behind_prefix, is_zero, is_int, are_whole, are_digits_or_none, is_point, is_pointed_at, is_pointed, is_mantissa, is_exponent, is_decimal_mark, is_hex_mark, is_scaled_at, is_decimal_float, is_hex_float, is_float, is_imag, number_kind};

use crate::class::Digits;
use crate::escape::digit_value;
use crate::part::{behind, byte_at};
use crate::token::TokenKind;

#[tactic(auto, unfolding(crate::specs::Numbers::digits_step))]
fn digits_step(base: u32, state: Digits, b: u8) -> Digits
    ensures { result ≡ digits_step base state b }
{
    match state {
        Digits::Due => if digit_value(b) < base {
            Digits::Fine
        } else {
            Digits::Bad
        },
        Digits::Fine => if b == b'_' {
            Digits::Due
        } else if digit_value(b) < base {
            Digits::Fine
        } else {
            Digits::Bad
        },
        Digits::Bad => Digits::Bad,
    }
}

fn is_fine(state: Digits) -> bool
    ensures { result ≡ is_fine state }
{
    match state {
        Digits::Due => false,
        Digits::Fine => true,
        Digits::Bad => false,
    }
}

/// Whether the bytes are digits of a base, with `_` between two of them.
#[tactic(auto, unfolding(crate::specs::Numbers::are_digits))]
fn are_digits(base: u32, bytes: &[u8]) -> bool
    ensures { result ≡ are_digits base bytes.now }
{
    let mut state = Digits::Due;
    for b in bytes {
        state = digits_step(base, state, *b);
    }
    is_fine(state)
}

fn behind_underscore(bytes: &[u8]) -> &[u8]
    ensures { result.now ≡ behind_underscore bytes.now }
{
    if byte_at(bytes, 0) == b'_' {
        behind(bytes, 1)
    } else {
        bytes
    }
}

fn behind_sign(bytes: &[u8]) -> &[u8]
    ensures { result.now ≡ behind_sign bytes.now }
{
    let first = byte_at(bytes, 0);
    if first == b'+' || first == b'-' {
        behind(bytes, 1)
    } else {
        bytes
    }
}

fn base_of_letter(b: u8) -> u32
    ensures { result ≡ base_of_letter b }
{
    if b == b'b' || b == b'B' {
        2
    } else if b == b'x' || b == b'X' {
        16
    } else {
        8
    }
}

fn is_base_letter(b: u8) -> bool
    ensures { result ≡ is_base_letter b }
{
    b == b'b' || b == b'B' || b == b'o' || b == b'O' || b == b'x' || b == b'X'
}

/// The base of an integer literal.
pub(crate) fn base_of(bytes: &[u8]) -> u32
    ensures { result ≡ base_of bytes.now }
{
    if byte_at(bytes, 0) == b'0' {
        base_of_letter(byte_at(bytes, 1))
    } else {
        10
    }
}

/// What stands behind the prefix of an integer literal.
pub(crate) fn behind_prefix(bytes: &[u8]) -> &[u8]
    ensures { result.now ≡ behind_prefix bytes.now }
{
    if byte_at(bytes, 0) == b'0' {
        if is_base_letter(byte_at(bytes, 1)) {
            behind(bytes, 2)
        } else {
            behind(bytes, 1)
        }
    } else {
        bytes
    }
}

fn is_zero(bytes: &[u8]) -> bool
    ensures { result ≡ is_zero bytes.now }
{
    bytes.len() == 1 && byte_at(bytes, 0) == b'0'
}

#[tactic(auto, unfolding(crate::specs::Numbers::is_int))]
fn is_int(bytes: &[u8]) -> bool
    ensures { result ≡ is_int bytes.now }
{
    if byte_at(bytes, 0) == b'0' {
        is_zero(bytes) || are_digits(base_of(bytes), behind_underscore(behind_prefix(bytes)))
    } else {
        are_digits(10, bytes)
    }
}

/// The digits before a point: behind the prefix `0x` an underscore may come first.
fn are_whole(base: u32, bytes: &[u8]) -> bool
    ensures { result ≡ are_whole base bytes.now }
{
    if base == 16 {
        are_digits(16, behind_underscore(bytes))
    } else {
        are_digits(base, bytes)
    }
}

fn are_digits_or_none(base: u32, bytes: &[u8]) -> bool
    ensures { result ≡ are_digits_or_none base bytes.now }
{
    bytes.len() == 0 || are_digits(base, bytes)
}

fn point_in(bytes: &[u8]) -> Option<usize>
    ensures place { result ≡ position_from is_point 0 bytes.now }
    ensures within { IfSome result (λ k. k < length bytes.now) }
{
    bytes.iter().position(|b| *b == b'.')
}

fn decimal_mark_in(bytes: &[u8]) -> Option<usize>
    ensures place { result ≡ position_from is_decimal_mark 0 bytes.now }
    ensures within { IfSome result (λ k. k < length bytes.now) }
{
    bytes.iter().position(|b| *b == b'e' || *b == b'E')
}

fn hex_mark_in(bytes: &[u8]) -> Option<usize>
    ensures place { result ≡ position_from is_hex_mark 0 bytes.now }
    ensures within { IfSome result (λ k. k < length bytes.now) }
{
    bytes.iter().position(|b| *b == b'p' || *b == b'P')
}

/// Digits, a point and digits, of which one side may be missing.
#[tactic(auto, unfolding(crate::specs::Numbers::is_pointed))]
fn is_pointed(base: u32, bytes: &[u8]) -> bool
    ensures { result ≡ is_pointed base bytes.now }
{
    match point_in(bytes) {
        Some(place) => {
            if place == 0 {
                are_digits(base, behind(bytes, 1))
            } else {
                are_whole(base, &bytes[..place])
                    && are_digits_or_none(base, behind(bytes, place + 1))
            }
        }
        None => false,
    }
}

fn is_mantissa(base: u32, bytes: &[u8]) -> bool
    ensures { result ≡ is_mantissa base bytes.now }
{
    are_whole(base, bytes) || is_pointed(base, bytes)
}

fn is_exponent(bytes: &[u8]) -> bool
    ensures { result ≡ is_exponent bytes.now }
{
    are_digits(10, behind_sign(bytes))
}

/// A mantissa and an exponent, where the letter of the exponent stands at the place.
fn is_scaled_at(base: u32, bytes: &[u8], place: Option<usize>) -> bool
    requires { IfSome place (λ k. k < length bytes.now) }
    ensures { result ≡ is_scaled_at base bytes.now place }
{
    match place {
        Some(place) => is_mantissa(base, &bytes[..place]) && is_exponent(behind(bytes, place + 1)),
        None => false,
    }
}

#[tactic(auto, unfolding(crate::specs::Numbers::is_decimal_float))]
fn is_decimal_float(bytes: &[u8]) -> bool
    ensures { result ≡ is_decimal_float bytes.now }
{
    is_pointed(10, bytes) || is_scaled_at(10, bytes, decimal_mark_in(bytes))
}

fn is_scaled_hex(bytes: &[u8]) -> bool
    ensures { result ≡ is_scaled_at 16 bytes.now (position_from is_hex_mark 0 bytes.now) }
{
    is_scaled_at(16, bytes, hex_mark_in(bytes))
}

#[tactic(auto, unfolding(crate::specs::Numbers::is_hex_float))]
fn is_hex_float(bytes: &[u8]) -> bool
    ensures { result ≡ is_hex_float bytes.now }
{
    base_of(bytes) == 16 && is_scaled_hex(behind(bytes, 2))
}

fn is_float(bytes: &[u8]) -> bool
    ensures { result ≡ is_float bytes.now }
{
    is_decimal_float(bytes) || is_hex_float(bytes)
}

#[tactic(auto, unfolding(crate::specs::Numbers::is_imag))]
fn is_imag(bytes: &[u8]) -> bool
    requires { 0 < length bytes.now }
    ensures { result ≡ is_imag bytes.now }
{
    let last = bytes.len() - 1;
    let front = &bytes[..last];
    bytes[last] == b'i' && (are_digits(10, front) || is_int(front) || is_float(front))
}

/// What kind of literal the bytes are, if they are a number: `Int`, `Float` or `Imag`.
#[tactic(auto, unfolding(crate::specs::Numbers::number_kind))]
pub fn number_kind(bytes: &[u8]) -> Option<TokenKind>
    requires { 0 < length bytes.now }
    ensures { result ≡ number_kind bytes.now }
{
    if is_int(bytes) {
        Some(TokenKind::Int)
    } else if is_float(bytes) {
        Some(TokenKind::Float)
    } else if is_imag(bytes) {
        Some(TokenKind::Imag)
    } else {
        None
    }
}
