//! Edits and fixes.
ghost use Rattle.std.specs.Prelude.{◌↔◌, IsTrue};
ghost use Rattle.fix_apply.specs.Edits.{Overlap};

use gv_base::{Bytes, Row};

/// Puts `text` in the place of the bytes from `start` to before `end`, offsets in bytes from 0. With
/// `start` the same as `end` it inserts.
#[derive(Drop)]
pub struct Edit {
    pub start: u32,
    pub end: u32,
    pub text: Bytes,
}

/// Edits of one file, which is given by its number in its list. They are made together or not at all.
#[derive(Drop)]
pub struct Fix {
    pub file: u32,
    pub edits: Row<Edit>,
}

/// Whether two edits of one file overlap: they start at one offset, or each starts before the other
/// ends. An insertion at the end of a replaced range doesn't overlap it.
pub fn overlaps(a: &Edit, b: &Edit) -> bool
    ensures { IsTrue result ↔ Overlap a.now b.now }
{
    a.start == b.start || (a.start < b.end && b.start < a.end)
}
