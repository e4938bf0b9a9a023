//! Cells with marks. Most marks are met again and again and stand once: a cell has the number of its mark.
ghost use Rattle.std.specs.Prelude.{◌≡◌, ◌<◌, ◌+◌, ◌^◌, Some, [], IfOk, OnOk, IsTrue, MatchResult, is_some, length, nat_lt, set, slice_get};
ghost use Rattle.typed_marks.specs.Cells.{cell, filled, AllNone, AreNumbered, Holds};

use crate::mark::Mark;
use crate::same_marks::{is_same, spread};
use gv_base::NoMemory;
use std::alloc::Global;
use std::marker::Model;

/// How many numbers of marks are remembered.
const REMEMBERED: usize = 4096;

/// The most places that numbers of four bytes tell apart.
const MOST: usize = 4_294_967_296;

/// The mark of a number.
fn mark_at(marks: &Vec<Option<Mark>>, number: usize) -> Option<Mark>
    ensures { result ≡ cell marks.now.items number }
{
    match marks.get(number) {
        Some(mark) => *mark,
        None => None,
    }
}

/// Whether a mark has this number.
#[inline(always)]
fn has_number(marks: &Vec<Option<Mark>>, number: u32, mark: Mark) -> bool
    ensures { IsTrue result → cell marks.now.items number ≡ Some mark }
{
    match mark_at(marks, number as usize) {
        Some(other) => is_same(other, mark),
        None => false,
    }
}

/// One mark more; what would be 2^32 is answered as want of memory.
#[inline(never)]
fn add_mark(marks: &mut Vec<Option<Mark>>, mark: Mark) -> Result<u32, NoMemory>
    ensures { MatchResult result (λ number. Holds marks.old.items marks.new.items mark number) (λ _. marks.new.items ≡ marks.old.items) }
{
    let count = marks.len();
    if count >= MOST {
        return Err(NoMemory);
    }
    marks.push(Some(mark))?;
    Ok(count as u32)
}

fn recent_at(recent: &Vec<u32>, place: usize) -> u32 {
    match recent.get(place) {
        Some(number) => *number,
        None => 0,
    }
}

fn remember(recent: &mut Vec<u32>, place: usize, number: u32) {
    if place < recent.len() {
        recent[place] = number;
    }
}

/// The number of a mark: the one that is remembered of it, or a new one. Nothing but time and memory rests on what is remembered.
#[inline(always)]
fn number_for(
    marks: &mut Vec<Option<Mark>>,
    recent: &mut Vec<u32>,
    mark: Mark,
) -> Result<u32, NoMemory>
    ensures { MatchResult result (λ number. Holds marks.old.items marks.new.items mark number) (λ _. marks.new.items ≡ marks.old.items) }
{
    let place = spread(mark) as usize % REMEMBERED;
    let known = recent_at(recent, place);
    if has_number(marks, known, mark) {
        return Ok(known);
    }
    let number = add_mark(marks, mark)?;
    remember(recent, place, number);
    Ok(number)
}

fn number_at(numbers: &Vec<u32>, place: usize) -> Option<u32>
    ensures { result ≡ slice_get numbers.now.items place }
{
    numbers.get(place).copied()
}

/// Whether a number is that of a mark.
fn is_number(number: u32) -> bool
    ensures { result ≡ nat_lt 0 number }
{
    0 < number
}

fn put(numbers: &mut Vec<u32>, place: usize, number: u32)
    requires { place < length numbers.old.items }
    ensures { numbers.new.items ≡ set numbers.old.items place number }
{
    numbers[place] = number;
}

/// Cells, each with a mark or none. A contract sees what they have. The first of `marks` is none, and no other is, so that a number of 0 is none;
/// `recent` has numbers of marks that were met, each at the place that its mark gives.
#[derive(Drop)]
pub struct Cells {
    marks: Vec<Option<Mark>>,
    recent: Vec<u32>,
    numbers: Vec<u32>,
}

/// How many numbers there are: a list that stands in memory is shorter than 2^63.
fn count_of(numbers: &[u32]) -> usize
    ensures count { result ≡ length numbers.now }
    ensures small { result + 1 < 2 ^ 64 }
{
    numbers.len()
}

impl Model for Cells {
    ghost use Rattle.typed_marks.specs.Cells.{Filled, filled, AreNumbered};

    ghost Value = { Filled };

    ghost view = { λ c. record { items = filled c.marks.items c.numbers.items } };

    ghost invariant = { λ c. AreNumbered c.marks.items c.numbers.items };
}

impl Cells {
    /// No cells, with room for so many.
    pub fn new(alloc: Global, room: usize) -> Result<Cells, NoMemory>
        ensures { IfOk result (λ c. c.items ≡ []) }
    {
        let marks = vec![in alloc; None; 1]?;
        let recent = vec![in alloc; 0; REMEMBERED]?;
        let numbers = Vec::with_capacity(alloc, room)?;
        Ok(Cells {
            marks,
            recent,
            numbers,
        })
    }

    /// How many cells there are; these and one more can be counted.
    pub fn len(&self) -> usize
        ensures count { result ≡ length self.now.items }
        ensures small { result + 1 < 2 ^ 64 }
    {
        count_of(&self.numbers)
    }

    /// So many cells more, without marks; what can't be counted is answered as want of memory.
    pub fn add(&mut self, count: usize) -> Result<(), NoMemory>
        ensures length { OnOk result (length self.new.items ≡ length self.old.items + count) }
        ensures none { OnOk result (AllNone self.old.items → AllNone self.new.items) }
    {
        match self.numbers.len().checked_add(count) {
            Some(size) => {
                self.numbers.resize(size, 0)?;
                Ok(())
            }
            None => Err(NoMemory),
        }
    }

    /// The mark of a cell.
    pub fn get(&self, place: usize) -> Option<Mark>
        ensures { result ≡ cell self.now.items place }
    {
        match self.numbers.get(place) {
            Some(number) => mark_at(&self.marks, *number as usize),
            None => None,
        }
    }

    /// Whether a cell has a mark.
    pub fn has(&self, place: usize) -> bool
        ensures { result ≡ is_some (cell self.now.items place) }
    {
        match number_at(&self.numbers, place) {
            Some(number) => is_number(number),
            None => false,
        }
    }

    /// Gives a cell this mark.
    #[inline(always)]
    pub fn set(&mut self, place: usize, mark: Mark) -> Result<(), NoMemory>
        requires { place < length self.old.items }
        ensures { MatchResult result (λ _. self.new.items ≡ set self.old.items place (Some mark)) (λ _. self.new.items ≡ self.old.items) }
    {
        let number = number_for(&mut self.marks, &mut self.recent, mark)?;
        put(&mut self.numbers, place, number);
        Ok(())
    }
}
