//! The arguments that a directive reads.
ghost use Rattle.std.specs.Prelude.{◌≡◌, ◌≤◌, ◌+◌, IfOk};
ghost use Rattle.printf_format.specs.Arguments.{past, at_width, at_precision, at_verb, reads, is_indexed, directive_of, next_of, stars_of};
ghost use Rattle.printf_format.specs.Bounds.{AreSmall};

use crate::format::Directive;
use crate::parts::Parts;
use gv_base::{NoMemory, Row};
use std::alloc::Global;

/// The next argument, past the one that is read.
fn past(reads: bool, argument: u32) -> u32
    requires { argument ≤ 400000 }
    ensures value { result ≡ past reads argument }
    ensures most { result ≤ argument + 1 }
{
    if reads { argument + 1 } else { argument }
}

/// The next argument at a directive's width.
fn at_width(next: u32, parts: &Parts) -> u32
    requires next { next ≤ 300000 }
    requires small { AreSmall parts.now }
    ensures value { result ≡ at_width next parts.now }
    ensures most { result ≤ 300000 }
{
    parts.width.index.unwrap_or(next)
}

/// The next argument at its precision.
fn at_precision(next: u32, parts: &Parts) -> u32
    requires next { next ≤ 300000 }
    requires small { AreSmall parts.now }
    ensures value { result ≡ at_precision next parts.now }
    ensures most { result ≤ 300001 }
{
    parts
        .precision
        .index
        .unwrap_or(past(parts.width.star, at_width(next, parts)))
}

/// The next argument at its verb.
fn at_verb(next: u32, parts: &Parts) -> u32
    requires next { next ≤ 300000 }
    requires small { AreSmall parts.now }
    ensures value { result ≡ at_verb next parts.now }
    ensures most { result ≤ 300002 }
{
    parts
        .last
        .number
        .unwrap_or(past(parts.precision.star, at_precision(next, parts)))
}

/// Whether its verb reads an argument.
fn reads(parts: &Parts) -> bool
    ensures { result ≡ reads parts.now }
{
    parts.verb != '%'
}

/// Whether a `[n]` stands in it.
fn is_indexed(parts: &Parts) -> bool
    ensures { result ≡ is_indexed parts.now }
{
    parts.width.index.is_some() || parts.precision.index.is_some() || parts.last.number.is_some()
}

/// The arguments that the `*` of its width and that of its precision read.
fn stars(alloc: Global, next: u32, parts: &Parts) -> Result<Row<u32>, NoMemory>
    requires next { next ≤ 300000 }
    requires small { AreSmall parts.now }
    ensures { IfOk result (λ stars. stars ≡ stars_of next parts.now) }
{
    let mut stars = Vec::new(alloc);
    if parts.width.star {
        stars.push(at_width(next, parts))?;
    }
    if parts.precision.star {
        stars.push(at_precision(next, parts))?;
    }
    Ok(Row::new(stars))
}

/// The directive of these parts, where `next` is the next argument.
pub(crate) fn directive_of(
    alloc: Global,
    next: u32,
    start: usize,
    parts: &Parts,
) -> Result<Directive, NoMemory>
    requires next { next ≤ 300000 }
    requires small { AreSmall parts.now }
    requires start { start ≤ 65536 }
    requires end { parts.now.end ≤ 65536 }
    ensures { IfOk result (λ directive. directive ≡ directive_of next start parts.now) }
{
    let stars = stars(alloc, next, parts)?;
    Ok(Directive {
        start: start as u32,
        end: parts.end as u32,
        flags: parts.flags,
        stars,
        argument: if reads(parts) {
            at_verb(next, parts)
        } else {
            0
        },
        indexed: is_indexed(parts),
        verb: parts.verb,
    })
}

/// The next argument behind it.
pub(crate) fn next_of(next: u32, parts: &Parts) -> u32
    requires next { next ≤ 300000 }
    requires small { AreSmall parts.now }
    ensures { result ≡ next_of next parts.now }
{
    past(reads(parts), at_verb(next, parts))
}
