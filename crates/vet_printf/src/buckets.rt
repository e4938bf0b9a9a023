//! To whom functions hand on, gathered by their numbers.
ghost use Rattle.std.specs.Prelude.{◌≡◌, ◌<◌, ◌++◌, [], ℕ, List, Option, Bool, true, false, length, replicate, set, slice_set, if◌then◌else◌, IfOk, OnOk};
ghost use Rattle.least.specs.Tables.{Member};
ghost use Rattle.vet_printf.specs.InTable.{row_of};
ghost use Rattle.vet_printf.specs.Handing.{listed_number, with_one, AreBuckets};

use crate::readers::Readers;
use gv_base::NoMemory;
use std::alloc::Global;

/// For each function by number whether it hands on to one of another package that prints, and to which of the package it does.
#[derive(Drop)]
pub(crate) struct Buckets {
    pub settled: Vec<bool>,
    pub parts: Vec<Readers>,
}

fn no_flags(alloc: Global, count: usize) -> Result<Vec<bool>, NoMemory>
    ensures { IfOk result (λ flags. flags.items ≡ replicate count false) }
{
    let flags = vec![in alloc; false; count]?;
    Ok(flags)
}

fn no_parts(alloc: Global, count: usize) -> Result<Vec<Readers>, NoMemory>
    ensures size { IfOk result (λ rows. length rows.items ≡ count) }
    ensures empty { IfOk result (λ rows. (j : ℕ) → row_of rows.items j ≡ []) }
{
    let rows = crate::readers::no_rows(alloc, count)?;
    Ok(rows)
}

/// Empty buckets.
pub(crate) fn no_buckets(alloc: Global, count: usize) -> Result<Buckets, NoMemory>
    ensures { IfOk result (λ b. (given : Member → Bool) (number : Member → Option ℕ) → AreBuckets count (λ (i : ℕ). []) given number b.settled.items b.parts.items) }
{
    let settled = no_flags(alloc, count)?;
    let parts = no_parts(alloc, count)?;
    Ok(Buckets { settled, parts })
}

fn settle(settled: &mut Vec<bool>, i: usize, handed: bool)
    requires { i < length settled.old.items }
    ensures { settled.new.items ≡ (if handed then set settled.old.items i true else settled.old.items) }
{
    if handed {
        settled[i] = true;
    }
}

fn add_part(parts: &mut Vec<Readers>, i: usize, j: Option<u32>) -> Result<(), NoMemory>
    requires { i < length parts.old.items }
    ensures { OnOk result (parts.new.items ≡ (slice_set parts.old.items i (row_of parts.old.items i ++ listed_number j))) }
{
    match j {
        Some(j) => {
            parts[i].add(j)?;
            Ok(())
        }
        None => Ok(()),
    }
}

/// A function hands on to one more: whether that is handed in, and its number in the package.
pub(crate) fn put(
    buckets: &mut Buckets,
    i: usize,
    handed: bool,
    j: Option<u32>,
) -> Result<(), NoMemory>
    requires flags { i < length buckets.old.settled.items }
    requires rows { i < length buckets.old.parts.items }
    ensures { OnOk result ((count : ℕ) (lists : ℕ → List Member) (given : Member → Bool) (number : Member → Option ℕ) (g : Member) → given g ≡ handed → number g ≡ j → AreBuckets count lists given number buckets.old.settled.items buckets.old.parts.items → AreBuckets count (with_one lists i g) given number buckets.new.settled.items buckets.new.parts.items) }
{
    settle(&mut buckets.settled, i, handed);
    add_part(&mut buckets.parts, i, j)?;
    Ok(())
}
