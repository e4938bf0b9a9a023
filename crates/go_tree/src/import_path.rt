//! The path that an import names: the value of its literal (Go 1.17, "Import declarations").
ghost use Rattle.std.specs.Prelude.{◌≡◌, [], take, cond, IfOk};
ghost use Rattle.std.specs.List.{fold};
ghost use Rattle.go_tree.specs.declared.import_path.Segment.TheVariants.{Good, Wrong};
ghost use Rattle.go_tree.specs.ImportPaths.{is_path_byte, segment_step, is_good, are_segments, path_of};

use crate::quoted::text_value;
use gv_base::{Bytes, NoMemory};
use std::alloc::Global;

/// How far a segment of an import path has come.
#[derive(Clone, Copy, Debug, PartialEq, Eq, Drop)]
pub enum Segment {
    Empty,
    Dot,
    Dots,
    Good,
    Wrong,
}

fn is_path_byte(byte: u8) -> bool
    ensures { result ≡ is_path_byte byte }
{
    match byte {
        b'0'..=b'9' | b'A'..=b'Z' | b'a'..=b'z' | b'_' | b'.' | b'-' | b'+' | b'~' | b'@' => true,
        _ => false,
    }
}

/// A segment that goes on with a byte of a path, or is wrong.
fn grown(byte: u8) -> Segment
    ensures { result ≡ cond (is_path_byte byte) Good Wrong }
{
    if is_path_byte(byte) {
        Segment::Good
    } else {
        Segment::Wrong
    }
}

fn segment_step(segment: Segment, byte: u8) -> Segment
    ensures { result ≡ segment_step segment byte }
{
    match segment {
        Segment::Wrong => Segment::Wrong,
        Segment::Good => {
            if byte == b'/' {
                Segment::Empty
            } else {
                grown(byte)
            }
        }
        Segment::Empty => {
            if byte == b'.' {
                Segment::Dot
            } else {
                grown(byte)
            }
        }
        Segment::Dot => {
            if byte == b'.' {
                Segment::Dots
            } else {
                grown(byte)
            }
        }
        Segment::Dots => grown(byte),
    }
}

fn is_good(segment: Segment) -> bool
    ensures { result ≡ is_good segment }
{
    matches!(segment, Segment::Good)
}

/// Whether the bytes are one or more segments joined by `/`.
pub fn are_segments(path: &[u8]) -> bool
    ensures { result ≡ are_segments path.now }
{
    let mut segment = Segment::Empty;
    for byte in path {
        segment = segment_step(segment, *byte);
    }
    is_good(segment)
}

/// The path that a literal imports.
pub(crate) fn path_of(alloc: Global, literal: &[u8]) -> Result<Bytes, NoMemory>
    ensures { IfOk result (λ path. path ≡ path_of literal.now) }
{
    let value = text_value(alloc, literal)?;
    if are_segments(&value) {
        return Ok(Bytes::new(value));
    }
    Ok(Bytes::new(Vec::new(alloc)))
}
