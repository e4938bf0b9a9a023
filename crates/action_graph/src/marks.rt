//! The marks of a load that is refused, as bytes.
ghost use Rattle.std.specs.Prelude.{◌≡◌, ◌++◌, pos, List, IfOk, OnOk, IfSome, IsSomeAnd};
ghost use Rattle.gv_bytes.specs.Spelling.{items, AreItems};
ghost use Rattle.gv_bytes.specs.Reading.{Gives, natural_at, each_at, items_at};
ghost use Rattle.action_graph.specs.Marks.{limit_number, mark, IsMark, AreSpelled, mark_at, marks_of};
ghost use Rattle.action_graph.specs.declared.marks.MarkLine.{MarkLine};

use gv_base::{NoMemory, Place};
use gv_bytes::{Unread, put_num, read_natural};
use std::alloc::Global;

/// What a load found wrong at a place.
#[derive(Clone, Copy, Debug, PartialEq, Eq, Drop)]
pub struct MarkLine {
    /// The place. Its file counts the files of the load's input from 0.
    pub at: Place,
    /// Whether a limit of the profile was passed; else a rule was broken.
    pub limit: bool,
    /// The rule's number, or the limit's place in their list, from 0.
    pub number: u8,
}

fn number_of_limit(limit: bool) -> i128
    ensures { result ≡ pos (limit_number limit) }
{
    if limit { 1 } else { 0 }
}

#[tactic(auto, unfolding(crate::specs::Marks::mark))]
fn put_mark(out: &mut Vec<u8>, m: &MarkLine) -> Result<(), NoMemory>
    ensures written { OnOk result (out.new.items ≡ out.old.items ++ mark m.now) }
    ensures size { OnOk result (IsMark m.now) }
{
    put_num(out, m.at.file as i128)?;
    put_num(out, m.at.offset as i128)?;
    put_num(out, number_of_limit(m.limit))?;
    put_num(out, m.number as i128)?;
    Ok(())
}

/// The text of the marks: their count, and each of them as four numbers.
pub fn write_marks(alloc: Global, marks: &[MarkLine]) -> Result<Vec<u8>, NoMemory>
    ensures { IfOk result (λ v. AreSpelled marks.now v.items) }
{
    let mut out = Vec::new(alloc);
    put_num(&mut out, marks.len() as i128)?;
    for m in marks {
        put_mark(&mut out, m)?;
    }
    Ok(out)
}

#[tactic(auto, unfolding(crate::specs::Marks::mark_at))]
fn mark_of(bytes: &[u8]) -> Result<(MarkLine, &[u8]), Unread>
    ensures { Gives (λ x. (x.0, x.1.now)) result (mark_at bytes.now) }
{
    let (file, rest) = read_natural(bytes, u32::MAX as u64)?;
    let (offset, rest) = read_natural(rest, u32::MAX as u64)?;
    let (limit, rest) = read_natural(rest, 1)?;
    let (number, rest) = read_natural(rest, 255)?;
    let at = Place {
        file: file as u32,
        offset: offset as u32,
    };
    let found = MarkLine {
        at,
        limit: limit == 1,
        number: number as u8,
    };
    Ok((found, rest))
}

/// That many marks, one after the other.
fn marks_from(alloc: Global, count: u64, bytes: &[u8]) -> Result<(Vec<MarkLine>, &[u8]), Unread>
    ensures { Gives (λ x. (x.0.items, x.1.now)) result (each_at mark_at count bytes.now) }
{
    let mut marks = Vec::new(alloc);
    let mut rest = bytes;
    for _ in 0..count {
        let (found, after) = mark_of(rest)?;
        marks.push(found)?;
        rest = after;
    }
    Ok((marks, rest))
}

#[tactic(auto, unfolding(gv_bytes::specs::Reading::items_at))]
fn list_of(alloc: Global, bytes: &[u8]) -> Result<(Vec<MarkLine>, &[u8]), Unread>
    ensures { Gives (λ x. (x.0.items, x.1.now)) result (items_at mark_at bytes.now) }
{
    let (count, rest) = read_natural(bytes, u64::MAX)?;
    let (marks, rest) = marks_from(alloc, count, rest)?;
    Ok((marks, rest))
}

#[tactic(auto, unfolding(crate::specs::Marks::marks_of))]
fn whole(alloc: Global, bytes: &[u8]) -> Result<Vec<MarkLine>, Unread>
    ensures { Gives (λ v. v.items) result (marks_of bytes.now) }
{
    let (marks, rest) = list_of(alloc, bytes)?;
    if !rest.is_empty() {
        return Err(Unread::Unspelled);
    }
    Ok(marks)
}

/// The marks that the bytes spell, all of the bytes. None exactly where they spell no list of marks: a
/// field that is no number or is out of its range, a wrong count, or bytes behind the end.
pub fn read_marks(alloc: Global, bytes: &[u8]) -> Result<Option<Vec<MarkLine>>, NoMemory>
    // What is read is spelled so.
    ensures found { IfOk result (λ o. IfSome o (λ v. AreSpelled v.items bytes.now)) }
    // What is spelled so is read.
    ensures only { (marks : List MarkLine) → AreSpelled marks bytes.now → IfOk result (λ o. IsSomeAnd o (λ v. v.items ≡ marks)) }
{
    match whole(alloc, bytes) {
        Ok(marks) => Ok(Some(marks)),
        Err(Unread::Unspelled) => Ok(None),
        Err(Unread::Memory) => Err(NoMemory),
    }
}
