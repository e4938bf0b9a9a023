//! The parts of a directive, read from a format.
ghost use Rattle.std.specs.Prelude.{◌≡◌, ◌<◌, ◌≤◌, IfNone, IfSome, length};
ghost use Rattle.printf_format.specs.Bytes.{is_digit, run_end};
ghost use Rattle.printf_format.specs.Grammar.{is_number, decimal, bracketed, index_at, counted, size_at, precision_at, AreDigits};
ghost use Rattle.printf_format.specs.Bounds.{IndexWithin, SizeWithin};

use crate::bytes::{byte_at, digits_end};
use crate::parts::{Index, Size};

/// Whether the digits from one offset to before another spell a number from 1 to 99999.
fn is_number(text: &[u8], from: usize, to: usize) -> bool
    ensures { result ≡ is_number text.now from to }
{
    from < to && to - from <= 5 && byte_at(text, from) != b'0'
}

/// The number that at most five digits spell.
fn decimal(digits: &[u8]) -> u32
    requires few { length digits.now ≤ 5 }
    requires digits { AreDigits digits.now }
    ensures value { result ≡ decimal digits.now }
    ensures most { result < 100000 }
{
    let mut number = 0;
    for digit in digits {
        number = 10 * number + u32::from(*digit - b'0');
    }
    number
}

/// What stands behind a `[` whose digits end at `close`.
fn bracketed(text: &[u8], from: usize, close: usize) -> Option<Index>
    requires order { from ≤ close }
    requires within { close ≤ length text.now }
    requires digits { close ≡ run_end is_digit text.now from }
    ensures value { result ≡ bracketed text.now from close }
    ensures within { IfSome result (λ index. IndexWithin text.now from index) }
{
    if is_number(text, from, close) && byte_at(text, close) == b']' {
        Some(Index {
            number: Some(decimal(&text[from..close])),
            end: close + 1,
        })
    } else {
        None
    }
}

/// What stands where an index may stand, or None for a bad index.
pub(crate) fn index_at(text: &[u8], at: usize) -> Option<Index>
    requires { at ≤ length text.now }
    ensures value { result ≡ index_at text.now at }
    ensures within { IfSome result (λ index. IndexWithin text.now at index) }
{
    if at < text.len() && text[at] == b'[' {
        bracketed(text, at + 1, digits_end(text, at + 1))
    } else {
        Some(Index {
            number: None,
            end: at,
        })
    }
}

/// A `*` or digits, behind an index.
fn counted(text: &[u8], index: Index) -> Size
    requires { IndexWithin text.now 0 index }
    ensures value { result ≡ counted text.now index }
    ensures within { SizeWithin text.now index.end result }
{
    if index.end < text.len() && text[index.end] == b'*' {
        Size {
            index: index.number,
            star: true,
            end: index.end + 1,
        }
    } else {
        Size {
            index: index.number,
            star: false,
            end: digits_end(text, index.end),
        }
    }
}

/// An optional index and `*` or digits, or None for a bad index.
pub(crate) fn size_at(text: &[u8], at: usize) -> Option<Size>
    requires { at ≤ length text.now }
    ensures value { result ≡ size_at text.now at }
    ensures within { IfSome result (λ size. SizeWithin text.now at size) }
{
    match index_at(text, at) {
        Some(index) => Some(counted(text, index)),
        None => None,
    }
}

/// An optional precision, or None for a bad index behind its point.
pub(crate) fn precision_at(text: &[u8], at: usize) -> Option<Size>
    requires { at ≤ length text.now }
    ensures value { result ≡ precision_at text.now at }
    ensures point { IfNone result (at < length text.now) }
    ensures within { IfSome result (λ size. SizeWithin text.now at size) }
{
    if at < text.len() && text[at] == b'.' {
        size_at(text, at + 1)
    } else {
        Some(Size {
            index: None,
            star: false,
            end: at,
        })
    }
}
