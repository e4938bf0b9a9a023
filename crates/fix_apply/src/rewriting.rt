//! The bytes of a file after edits.
ghost use Rattle.std.specs.Prelude.{◌≡◌, ◌+◌, ◌++◌, IfOk, OnOk, MatchOption, length};
ghost use Rattle.fix_apply.specs.Rewriting.{LieIn, AreApart, inserted, rewritten};
ghost use Rattle.fix_apply.specs.Spots.{AreSpots, IsOrder, IsPassed, StopsAt, NoneStarts, Starts, Stands};

use crate::edits::Edit;
use gv_base::NoMemory;
use std::alloc::Global;

/// Where an edit starts, and its number in its list.
#[derive(Clone, Copy, Drop)]
pub(crate) struct Spot {
    pub(crate) start: u32,
    pub(crate) number: usize,
}

/// Each edit's spot, in the edits' order.
fn spots(alloc: Global, edits: &[Edit]) -> Result<Vec<Spot>, NoMemory>
    ensures { IfOk result (λ spots. AreSpots edits.now spots.items (length edits.now)) }
{
    let mut spots = Vec::with_capacity(alloc, edits.len())?;
    for (number, edit) in edits.iter().enumerate() {
        spots.push(Spot {
            start: edit.start,
            number,
        })?;
    }
    Ok(spots)
}

/// Each edit's spot, in the order of their starts.
fn spots_by_start(alloc: Global, edits: &[Edit]) -> Result<Vec<Spot>, NoMemory>
    ensures { IfOk result (λ spots. IsOrder edits.now spots.items) }
{
    let mut spots = spots(alloc, edits)?;
    spots.sort_by_key(|spot| spot.start)?;
    Ok(spots)
}

/// How far a rewriting has come: spots below `next` start before the offset at hand, and the edits that
/// start before it cover the bytes up to `covered_to`.
#[derive(Clone, Copy, Drop)]
pub(crate) struct Cursor {
    pub(crate) next: usize,
    pub(crate) covered_to: usize,
}

/// The first spot from `next` on that starts at the offset or later.
fn first_from(spots: &[Spot], next: usize, at: usize) -> usize
    requires { IsPassed spots.now next at }
    ensures passed { IsPassed spots.now result at }
    ensures stops { StopsAt spots.now result at }
{
    let mut first = next;
    while first < spots.len() && (spots[first].start as usize) < at {
        first += 1;
    }
    first
}

/// The number of the edit that starts at the offset.
fn starting(edits: &[Edit], spots: &[Spot], first: usize, at: usize) -> Option<usize>
    requires order { IsOrder edits.now spots.now }
    requires passed { IsPassed spots.now first at }
    requires stops { StopsAt spots.now first at }
    ensures { MatchOption result (NoneStarts edits.now at) (λ number. Starts edits.now number at) }
{
    if first < spots.len() && spots[first].start as usize == at {
        Some(spots[first].number)
    } else {
        None
    }
}

/// Writes the text that is inserted at the offset.
fn write_inserted(
    new: &mut Vec<u8>,
    edits: &[Edit],
    spots: &[Spot],
    cursor: Cursor,
    at: usize,
) -> Result<Cursor, NoMemory>
    requires apart { AreApart edits.now }
    requires order { IsOrder edits.now spots.now }
    requires stands { Stands edits.now spots.now cursor at }
    ensures written { OnOk result (new.new.items ≡ new.old.items ++ inserted edits.now at) }
    ensures stands { IfOk result (λ after. Stands edits.now spots.now after (at + 1)) }
{
    let next = first_from(spots, cursor.next, at);
    match starting(edits, spots, next, at) {
        None => Ok(Cursor {
            next,
            covered_to: cursor.covered_to,
        }),
        Some(number) => {
            let edit = &edits[number];
            new.extend_from_slice(edit.text.as_slice())?;
            Ok(Cursor {
                next,
                covered_to: cursor.covered_to.max(edit.end as usize),
            })
        }
    }
}

/// The bytes that the edits make of `bytes`: at each offset from 0 to the length the inserted text, and
/// then the byte unless an edit covers it.
pub fn rewrite(alloc: Global, bytes: &[u8], edits: &[Edit]) -> Result<Vec<u8>, NoMemory>
    requires lie { LieIn bytes.now edits.now }
    requires apart { AreApart edits.now }
    ensures { IfOk result (λ new. new.items ≡ rewritten bytes.now edits.now) }
{
    let spots = spots_by_start(alloc, edits)?;
    let mut new = Vec::with_capacity(alloc, bytes.len())?;
    let mut cursor = Cursor {
        next: 0,
        covered_to: 0,
    };
    for (at, byte) in bytes.iter().enumerate() {
        cursor = write_inserted(&mut new, edits, &spots, cursor, at)?;
        if cursor.covered_to <= at {
            new.push(*byte)?;
        }
    }
    let _cursor = write_inserted(&mut new, edits, &spots, cursor, bytes.len())?;
    Ok(new)
}
