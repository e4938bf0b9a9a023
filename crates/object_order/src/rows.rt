//! Numbers of spots, in a row for each file.
ghost use Rattle.std.specs.Prelude.{◌≡◌, ◌<◌, ◌+◌, ℕ, None, IfOk, OnOk, length, set, slice_get};
ghost use Rattle.std.specs.Option.{option_copied};
ghost use Rattle.object_order.specs.Searches.{IsKept};
ghost use Rattle.object_order.specs.SpotRows.{kept_at, kept_row, kept_in, KeepsAt, IsSameRow, AreSameRows, AreBlank, IsBlank};

use go_tree::FileTree;
use gv_base::NoMemory;
use std::alloc::Global;

/// The modes of a node.
const MODES: usize = 12;

/// For each file a row with a place for each mode at each of its nodes: there a number and one more, or 0 where none is kept.
#[derive(Drop)]
pub struct SpotRows {
    alloc: Global,
    rows: Vec<Vec<u32>>,
}

fn row_at(rows: &Vec<Vec<u32>>, file: usize) -> Option<&Vec<u32>>
    ensures { option_copied result ≡ slice_get rows.now.items file }
{
    rows.get(file)
}

fn number_at(row: &Vec<u32>, at: usize) -> Option<u32>
    ensures { result ≡ kept_at row.now.items at }
{
    match row.get(at) {
        Some(kept) => kept.checked_sub(1),
        None => None,
    }
}

/// The number that is kept under a key.
pub fn find(numbers: &SpotRows, key: (usize, usize)) -> Option<u32>
    ensures { result ≡ kept_in numbers.now key }
{
    match row_at(&numbers.rows, key.0) {
        Some(row) => number_at(row, key.1),
        None => None,
    }
}

/// Makes a row long enough for a place.
fn reach(row: &mut Vec<u32>, at: usize) -> Result<(), NoMemory>
    ensures long { OnOk result (at < length row.new.items) }
    ensures same { OnOk result (IsSameRow row.old.items row.new.items) }
{
    while row.len() <= at {
        row.push(0)?;
    }
    Ok(())
}

fn put(row: &mut Vec<u32>, at: usize, number: u32)
    requires within { at < length row.old.items }
    requires small { number < 4294967295 }
    ensures { row.new.items ≡ set row.old.items at (number + 1) }
{
    row[at] = number + 1;
}

fn keep_at(row: &mut Vec<u32>, at: usize, number: u32) -> Result<(), NoMemory>
    requires { number < 4294967295 }
    ensures { OnOk result (KeepsAt row.old.items row.new.items at number) }
{
    reach(row, at)?;
    put(row, at, number);
    Ok(())
}

fn keep_in(rows: &mut Vec<Vec<u32>>, key: (usize, usize), number: u32) -> Result<(), NoMemory>
    requires within { key.0 < length rows.old.items }
    requires small { number < 4294967295 }
    ensures { OnOk result (IsKept (kept_row rows.old.items) (kept_row rows.new.items) key number) }
{
    keep_at(&mut rows[key.0], key.1, number)?;
    Ok(())
}

/// Makes a row for each file up to this one.
fn reach_file(alloc: Global, rows: &mut Vec<Vec<u32>>, file: usize) -> Result<(), NoMemory>
    ensures long { OnOk result (file < length rows.new.items) }
    ensures same { OnOk result (AreSameRows rows.old.items rows.new.items) }
{
    while rows.len() <= file {
        rows.push(Vec::new(alloc))?;
    }
    Ok(())
}

/// Keeps a number under a key.
pub fn keep(numbers: &mut SpotRows, key: (usize, usize), number: u32) -> Result<(), NoMemory>
    requires { number < 4294967295 }
    ensures { OnOk result (IsKept (kept_in numbers.old) (kept_in numbers.new) key number) }
{
    reach_file(numbers.alloc, &mut numbers.rows, key.0)?;
    keep_in(&mut numbers.rows, key, number)?;
    Ok(())
}

fn blank_row(alloc: Global, tree: &FileTree) -> Result<Vec<u32>, NoMemory>
    ensures { IfOk result (λ row. IsBlank row.items) }
{
    let width = tree.nodes.as_slice().len().saturating_mul(MODES);
    let row = vec![in alloc; 0u32; width]?;
    Ok(row)
}

impl SpotRows {
    /// No numbers; the rows have a place for each mode at each node of these trees.
    pub fn new(alloc: Global, trees: &[FileTree]) -> Result<SpotRows, NoMemory>
        ensures { IfOk result (λ numbers. (q : ℕ × ℕ) → kept_in numbers q ≡ None) }
    {
        let mut rows = Vec::with_capacity(alloc, trees.len())?;
        for tree in trees {
            rows.push(blank_row(alloc, tree)?)?;
        }
        Ok(SpotRows { alloc, rows })
    }
}
