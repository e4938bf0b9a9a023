//! What follows the word of a command.
ghost use Rattle.std.specs.Prelude.{◌≡◌, ◌+◌, ◌^◌, ◌<◌, ◌≤◌, ◌∷◌, ◌++◌, drop, length};
ghost use Rattle.gv_base.specs.Paths.{IsPath};
ghost use Rattle.scripts.specs.Next.{IsFieldsRead, file_text};

use crate::fields::{Field, Length, read_body, read_length};
use crate::path::read_path;
use crate::word::Shape;

/// The fields of a command.
#[derive(Clone, Copy, Debug, PartialEq, Eq, Drop)]
pub enum Fields<'a> {
    /// None.
    Plain,
    /// A path.
    At(&'a [u8]),
    /// A path, and a file's bytes.
    With(&'a [u8], &'a [u8]),
}

/// How some bytes and the fields of a shape stand to each other.
#[derive(Clone, Copy, Debug, PartialEq, Eq, Drop)]
pub(crate) enum FieldsRead<'a> {
    /// The bytes begin with these fields, which so many bytes spell.
    Read(Fields<'a>, usize),
    /// The bytes are less than such fields.
    Part,
    /// The bytes begin otherwise.
    Other,
}

/// The bytes from there on.
pub(crate) fn rest_from(bytes: &[u8], at: usize) -> &[u8]
    requires { at ≤ length bytes.now }
    ensures { result.now ≡ drop at bytes.now }
{
    &bytes[at..]
}

/// The rest of a file's fields, from its bytes on.
fn file_at_body<'a>(bytes: &'a [u8], path: &'a [u8], count: usize, at: usize) -> FieldsRead<'a>
    requires path { IsPath path.now }
    requires count { count < 10 ^ 9 }
    requires at { at ≤ length bytes.now }
    requires head { bytes.now ≡ file_text path.now count (drop at bytes.now) }
    ensures { IsFieldsRead Shape.File bytes.now result }
{
    let rest = rest_from(bytes, at);
    match read_body(rest, count) {
        Field::Read(len) => FieldsRead::Read(Fields::With(path, &rest[..len]), at + len + 1),
        Field::Part => FieldsRead::Part,
        Field::Other => FieldsRead::Other,
    }
}

/// The rest of a file's fields, from its length on.
fn file_at_length<'a>(bytes: &'a [u8], path: &'a [u8], at: usize) -> FieldsRead<'a>
    requires path { IsPath path.now }
    requires at { at ≤ length bytes.now }
    requires head { bytes.now ≡ path.now ++ 32 ∷ drop at bytes.now }
    ensures { IsFieldsRead Shape.File bytes.now result }
{
    match read_length(rest_from(bytes, at)) {
        Length::Value(count, len) => file_at_body(bytes, path, count, at + len + 1),
        Length::Digits => FieldsRead::Part,
        Length::Wrong => FieldsRead::Other,
    }
}

/// The fields of a file.
fn read_file(bytes: &[u8]) -> FieldsRead<'_>
    ensures { IsFieldsRead Shape.File bytes.now result }
{
    match read_path(bytes, b' ') {
        Field::Read(len) => file_at_length(bytes, &bytes[..len], len + 1),
        Field::Part => FieldsRead::Part,
        Field::Other => FieldsRead::Other,
    }
}

/// The one field of a path.
fn read_one_path(bytes: &[u8]) -> FieldsRead<'_>
    ensures { IsFieldsRead Shape.Path bytes.now result }
{
    match read_path(bytes, b'\n') {
        Field::Read(len) => FieldsRead::Read(Fields::At(&bytes[..len]), len + 1),
        Field::Part => FieldsRead::Part,
        Field::Other => FieldsRead::Other,
    }
}

/// The fields of a shape.
pub(crate) fn read_fields(bytes: &[u8], shape: Shape) -> FieldsRead<'_>
    ensures { IsFieldsRead shape bytes.now result }
{
    match shape {
        Shape::Bare => FieldsRead::Read(Fields::Plain, 0),
        Shape::Path => read_one_path(bytes),
        Shape::File => read_file(bytes),
    }
}
