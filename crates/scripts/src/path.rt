//! Reading a path: segments joined by slashes, none of them `.` or `..`.
ghost use Rattle.std.specs.Prelude.{◌≡◌, ◌↔◌, IsTrue, false, length};
ghost use Rattle.scripts.specs.Segments.{is_path_byte, step, segment_after};
ghost use Rattle.scripts.specs.Runs.{IsRun};
ghost use Rattle.scripts.specs.Fields.{IsPathField};

use crate::fields::Field;

/// How the segment stands that is being read.
#[derive(Clone, Copy, Debug, PartialEq, Eq, Drop)]
pub(crate) enum Segment {
    /// It has no byte yet.
    Empty,
    /// It is `.` so far.
    Dot,
    /// It is `..` so far.
    Dots,
    /// It is a segment.
    Named,
    /// A segment before it is none.
    Broken,
}

/// The most bytes of a path.
const LONGEST: usize = 1024;

fn allows(byte: u8) -> bool
    ensures { result ≡ is_path_byte byte }
{
    matches!(byte, b'-'..=b'9' | b'@'..=b'Z' | b'a'..=b'z' | b'_' | b'+' | b'~')
}

/// How many bytes of a path the bytes begin with.
fn path_run(bytes: &[u8]) -> usize
    ensures { IsRun is_path_byte bytes.now result }
{
    let mut count = 0;
    while count < bytes.len() && allows(bytes[count]) {
        count += 1;
    }
    count
}

/// The segment after one more byte.
fn next_segment(segment: Segment, byte: u8) -> Segment
    ensures { result ≡ step segment byte }
{
    if byte == b'/' {
        match segment {
            Segment::Named => Segment::Empty,
            Segment::Empty => Segment::Broken,
            Segment::Dot => Segment::Broken,
            Segment::Dots => Segment::Broken,
            Segment::Broken => Segment::Broken,
        }
    } else if byte == b'.' {
        match segment {
            Segment::Empty => Segment::Dot,
            Segment::Dot => Segment::Dots,
            Segment::Dots => Segment::Named,
            Segment::Named => Segment::Named,
            Segment::Broken => Segment::Broken,
        }
    } else {
        match segment {
            Segment::Empty => Segment::Named,
            Segment::Dot => Segment::Named,
            Segment::Dots => Segment::Named,
            Segment::Named => Segment::Named,
            Segment::Broken => Segment::Broken,
        }
    }
}

/// The segment after all the bytes.
fn last_segment(bytes: &[u8]) -> Segment
    ensures { result ≡ segment_after Segment.Empty bytes.now }
{
    let mut segment = Segment::Empty;
    for byte in bytes {
        segment = next_segment(segment, *byte);
    }
    segment
}

/// Whether a path may end here.
fn is_named(segment: Segment) -> bool
    ensures { IsTrue result ↔ (segment ≡ Segment.Named) }
{
    match segment {
        Segment::Named => true,
        Segment::Empty => false,
        Segment::Dot => false,
        Segment::Dots => false,
        Segment::Broken => false,
    }
}

/// A path that nothing has stopped yet.
fn open_path(bytes: &[u8], stop: u8) -> Field
    requires stop { is_path_byte stop ≡ false }
    requires run { IsRun is_path_byte bytes.now (length bytes.now) }
    ensures { IsPathField stop bytes.now result }
{
    let segment = last_segment(bytes);
    if is_named(segment) {
        if bytes.len() <= LONGEST {
            Field::Part
        } else {
            Field::Other
        }
    } else if bytes.len() >= LONGEST {
        Field::Other
    } else if is_named(next_segment(segment, b'a')) {
        Field::Part
    } else {
        Field::Other
    }
}

/// A path, and the byte that stops it.
pub(crate) fn read_path(bytes: &[u8], stop: u8) -> Field
    requires { is_path_byte stop ≡ false }
    ensures { IsPathField stop bytes.now result }
{
    let count = path_run(bytes);
    if count == bytes.len() {
        open_path(bytes, stop)
    } else if bytes[count] != stop {
        Field::Other
    } else if count > LONGEST {
        Field::Other
    } else if is_named(last_segment(&bytes[..count])) {
        Field::Read(count)
    } else {
        Field::Other
    }
}
