//! What comes next in a format: a directive, a fault, or no directive.
ghost use Rattle.std.specs.Prelude.{◌≡◌, ◌<◌, ◌≤◌, ◌+◌, length, drop, slice_range};
ghost use Rattle.printf_format.specs.Bounds.{IndexWithin, SizeWithin, TurnWithin};
ghost use Rattle.printf_format.specs.Flags.{flags_of};
ghost use Rattle.printf_format.specs.Grammar.{flags_end, size_at, precision_at, IsFront, Begun, IsTurn};

use crate::bytes::{flags_end, percent_from};
use crate::character::first_character;
use crate::flags::flags_of;
use crate::grammar::{index_at, precision_at, size_at};
use crate::parts::{Index, Parts, Size, Turn};

/// The bytes from the offset on.
fn rest(text: &[u8], at: usize) -> &[u8]
    requires { at ≤ length text.now }
    ensures { result.now ≡ drop at text.now }
{
    &text[at..]
}

/// The flags of a directive.
fn flags_at(text: &[u8], start: usize, end: usize) -> u8
    requires order { start + 1 ≤ end }
    requires within { end ≤ length text.now }
    requires end { end ≡ flags_end text.now start }
    ensures { result ≡ flags_of (slice_range text.now (start + 1) (flags_end text.now start)) }
{
    flags_of(&text[start + 1..end])
}

/// A directive up to its verb, and its verb.
fn with_verb(
    text: &[u8],
    start: usize,
    flags: u8,
    width: Size,
    precision: Size,
    last: Index,
) -> Turn
    requires flags { flags ≡ flags_of (slice_range text.now (start + 1) (flags_end text.now start)) }
    requires front { IsFront text.now start width precision last }
    requires width { SizeWithin text.now (start + 1) width }
    requires precision { SizeWithin text.now width.end precision }
    requires last { IndexWithin text.now precision.end last }
    ensures begun { Begun text.now start result }
    ensures within { TurnWithin text.now start result }
{
    if last.end == text.len() {
        return Turn::NoVerb { at: start };
    }
    let verb = first_character(rest(text, last.end));
    Turn::Whole {
        start,
        parts: Parts {
            flags,
            width,
            precision,
            last,
            verb: verb.code,
            end: last.end + verb.size,
        },
    }
}

/// What a directive is whose parts up to its precision are good.
fn after_precision(text: &[u8], start: usize, flags: u8, width: Size, precision: Size) -> Turn
    requires flags { flags ≡ flags_of (slice_range text.now (start + 1) (flags_end text.now start)) }
    requires first { size_at text.now (flags_end text.now start) ≡ Some width }
    requires second { precision_at text.now width.end ≡ Some precision }
    requires width { SizeWithin text.now (start + 1) width }
    requires precision { SizeWithin text.now width.end precision }
    ensures begun { Begun text.now start result }
    ensures within { TurnWithin text.now start result }
{
    match index_at(text, precision.end) {
        None => Turn::BadIndex { at: precision.end },
        Some(last) => with_verb(text, start, flags, width, precision, last),
    }
}

/// What a directive is whose parts up to its width are good.
fn after_width(text: &[u8], start: usize, flags: u8, width: Size) -> Turn
    requires flags { flags ≡ flags_of (slice_range text.now (start + 1) (flags_end text.now start)) }
    requires first { size_at text.now (flags_end text.now start) ≡ Some width }
    requires width { SizeWithin text.now (start + 1) width }
    ensures begun { Begun text.now start result }
    ensures within { TurnWithin text.now start result }
{
    match precision_at(text, width.end) {
        None => Turn::BadIndex { at: width.end + 1 },
        Some(precision) => after_precision(text, start, flags, width, precision),
    }
}

/// What the `%` at the offset begins.
fn directive_at(text: &[u8], start: usize) -> Turn
    requires { start < length text.now }
    ensures begun { Begun text.now start result }
    ensures within { TurnWithin text.now start result }
{
    let end = flags_end(text, start + 1);
    let flags = flags_at(text, start, end);
    match size_at(text, end) {
        None => Turn::BadIndex { at: end },
        Some(width) => after_width(text, start, flags, width),
    }
}

/// What comes first from the offset on.
pub(crate) fn turn_at(text: &[u8], at: usize) -> Turn
    requires { at ≤ length text.now }
    ensures turn { IsTurn text.now at result }
    ensures within { TurnWithin text.now at result }
{
    let start = percent_from(text, at);
    if start == text.len() {
        Turn::End
    } else {
        directive_at(text, start)
    }
}
