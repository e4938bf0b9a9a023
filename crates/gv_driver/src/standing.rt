//! Whether marks stand in the files of their package.
ghost use Rattle.std.specs.Prelude.{◌≡◌, ◌↔◌, ◌<◌, IsTrue, [], get_or, length, map};
ghost use Rattle.fix_apply.specs.Edits.{Overlap};
ghost use Rattle.action_graph.specs.Judging.{text_of};
ghost use Rattle.action_graph.specs.Standing.{AllFound};
ghost use Rattle.action_graph.specs.Work.{IsAnalyzer};
ghost use Rattle.gv_driver.specs.Standing.{AllStand, AreFree, CanBeMadeWithin, IsFixWithin, IsFoundWithin, IsFree, IsPlaced, LieWithin, LiesWithin, Stands};

use action_graph::MarkLine;
use analysis_core::Diagnostic;
use fix_apply::{Edit, Fix, overlaps};
use gv_base::{Bytes, Place, Text};

/// How many bytes the file of this number has; 0 where there is none.
fn size_at(files: &[(Text, Bytes)], file: u32) -> usize
    ensures { result ≡ length (get_or (map text_of files.now) file []) }
{
    if file as usize >= files.len() {
        return 0;
    }
    files[file as usize].1.as_slice().len()
}

/// Whether a mark stands in one of the files, at its end at most.
fn stands(files: &[(Text, Bytes)], mark: &MarkLine) -> bool
    ensures { IsTrue result ↔ Stands files.now mark.now }
{
    if mark.at.file as usize >= files.len() {
        return false;
    }
    mark.at.offset as usize <= size_at(files, mark.at.file)
}

/// Whether all marks stand in the files.
pub(crate) fn all_stand(files: &[(Text, Bytes)], marks: &[MarkLine]) -> bool
    ensures { IsTrue result ↔ AllStand files.now marks.now }
{
    for mark in marks {
        if !stands(files, mark) {
            return false;
        }
    }
    true
}

fn lies(size: usize, edit: &Edit) -> bool
    ensures { IsTrue result ↔ LiesWithin size edit.now }
{
    edit.start <= edit.end && edit.end as usize <= size
}

fn lie_in(size: usize, edits: &[Edit]) -> bool
    ensures { IsTrue result ↔ LieWithin size edits.now }
{
    for edit in edits {
        if !lies(size, edit) {
            return false;
        }
    }
    true
}

fn is_apart(one: &Edit, other: &Edit) -> bool
    ensures { IsTrue result ↔ ¬ (Overlap one.now other.now) }
{
    !overlaps(one, other)
}

/// Whether no later edit overlaps this one.
fn is_free(edits: &[Edit], at: usize) -> bool
    requires { at < length edits.now }
    ensures { IsTrue result ↔ IsFree edits.now at (length edits.now) }
{
    for other in at + 1..edits.len() {
        if !is_apart(&edits[at], &edits[other]) {
            return false;
        }
    }
    true
}

/// Whether no two of the edits overlap.
fn are_apart(edits: &[Edit]) -> bool
    ensures { IsTrue result ↔ AreFree edits.now (length edits.now) }
{
    for at in 0..edits.len() {
        if !is_free(edits, at) {
            return false;
        }
    }
    true
}

fn is_fix_of(file: u32, size: usize, fix: &Fix) -> bool
    ensures { IsTrue result ↔ IsFixWithin file size fix.now }
{
    if fix.file != file {
        return false;
    }
    if !lie_in(size, fix.edits.as_slice()) {
        return false;
    }
    are_apart(fix.edits.as_slice())
}

/// Whether a fix, if there is one, can be made in a file of this size.
fn can_be_made(file: u32, size: usize, fix: &Option<Fix>) -> bool
    ensures { IsTrue result ↔ CanBeMadeWithin file size fix.now }
{
    match fix {
        None => true,
        Some(fix) => is_fix_of(file, size, fix),
    }
}

fn is_number(analyzer: u8) -> bool
    ensures { IsTrue result ↔ IsAnalyzer analyzer }
{
    0 < analyzer && analyzer < 16
}

/// Whether a place is in one of the files, at its end at most.
fn is_placed(files: &[(Text, Bytes)], place: Place) -> bool
    ensures { IsTrue result ↔ IsPlaced files.now place }
{
    if place.file as usize >= files.len() {
        return false;
    }
    place.offset as usize <= size_at(files, place.file)
}

/// Whether a diagnostic is of this analyzer and stands in one of the files, and its fix can be made there.
fn is_found_by(files: &[(Text, Bytes)], analyzer: u8, found: &Diagnostic) -> bool
    ensures { IsTrue result ↔ IsFoundWithin files.now analyzer found.now }
{
    if found.analyzer != analyzer {
        return false;
    }
    if !is_number(found.analyzer) {
        return false;
    }
    if !is_placed(files, found.place) {
        return false;
    }
    can_be_made(
        found.place.file,
        size_at(files, found.place.file),
        &found.fix,
    )
}

/// Whether all diagnostics are of this analyzer and stand in the files.
pub(crate) fn all_found(files: &[(Text, Bytes)], analyzer: u8, found: &[Diagnostic]) -> bool
    ensures { IsTrue result ↔ AllFound files.now analyzer found.now }
{
    for one in found {
        if !is_found_by(files, analyzer, one) {
            return false;
        }
    }
    true
}
