//! Whether the places of error lines stand in the files.
ghost use Rattle.std.specs.Prelude.{IsTrue, All, ◌↔◌, ◌≤◌, ◌^◌, length};
ghost use Rattle.report_text.specs.Standing.{LiesIn, StandsIn};

use analysis_core::ErrorLine;
use gv_base::{Files, Place};

/// The most bytes of a file that can be counted in lines.
const MOST_BYTES: usize = 1 << 31;

/// Whether an offset is one of these bytes, at their end at most, and they aren't too many.
fn reach(bytes: &[u8], offset: u32) -> bool
    ensures { IsTrue result ↔ ((offset ≤ length bytes.now) × (length bytes.now ≤ 2 ^ 31)) }
{
    offset as usize <= bytes.len() && bytes.len() <= MOST_BYTES
}

/// Whether a place lies in one of the files.
pub(crate) fn lies(files: &Files, place: Place) -> bool
    ensures { IsTrue result ↔ LiesIn files.now place }
{
    if place.file >= files.count() {
        return false;
    }
    reach(files.at(place.file).1, place.offset)
}

fn stands(files: &Files, error: &ErrorLine) -> bool
    ensures { IsTrue result ↔ StandsIn files.now error.now }
{
    match error.place {
        None => true,
        Some(place) => lies(files, place),
    }
}

/// Tells whether the place of each line that has one stands in one of the files, at most at its end, and
/// this file has at most 2^31 bytes.
pub(crate) fn all_stand(files: &Files, errors: &[ErrorLine]) -> bool
    ensures { IsTrue result ↔ All (StandsIn files.now) errors.now }
{
    for error in errors {
        if !stands(files, error) {
            return false;
        }
    }
    true
}
