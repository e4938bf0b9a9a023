//! The files of each package.
ghost use Rattle.std.specs.Prelude.{◌≡◌, ℕ, ◌<◌, ◌^◌, ◌&&◌, ◌++◌, ◌∷◌, [], length, map, take, cond, not, slice_set, IfOk, OnOk};
ghost use Rattle.import_graph.specs.Tables.{AreAscending, AreRows, AreLonger, row_at};

use crate::homes::Home;
use crate::names::place_in;
use gv_base::{NoMemory, Text};
use std::alloc::Global;

/// An empty row for each.
fn blank(alloc: Global, count: usize) -> Result<Vec<Vec<u32>>, NoMemory>
    ensures size { IfOk result (λ rows. length rows.items ≡ count) }
    ensures empty { IfOk result (λ rows. (k : ℕ) → row_at rows.items k ≡ []) }
{
    let mut rows = Vec::new(alloc);
    for _n in 0..count {
        rows.push(Vec::new(alloc))?;
    }
    Ok(rows)
}

/// Adds a number to a row.
fn push_at(rows: &mut Vec<Vec<u32>>, at: usize, n: u32) -> Result<(), NoMemory>
    requires { at < length rows.old.items }
    ensures { OnOk result (map (λ row. row.items) rows.new.items ≡ slice_set (map (λ row. row.items) rows.old.items) at (row_at rows.old.items at ++ n ∷ [])) }
{
    rows[at].push(n)?;
    Ok(())
}

fn is_kind(stub: bool, home: &Home) -> bool
    ensures { result ≡ (home.now.source && cond stub home.now.stub (not home.now.stub)) }
{
    if stub {
        home.source && home.stub
    } else {
        home.source && !home.stub
    }
}

/// Whether the file isn't of this kind.
fn is_other(stub: bool, home: &Home) -> bool
    ensures { result ≡ not (home.now.source && cond stub home.now.stub (not home.now.stub)) }
{
    !is_kind(stub, home)
}

/// Adds a file to the row of its package.
fn add(
    rows: &mut Vec<Vec<u32>>,
    stub: bool,
    home: &Home,
    n: u32,
    names: &[Text],
) -> Result<(), NoMemory>
    requires order { AreAscending names.now }
    requires few { length names.now < 2 ^ 32 }
    requires size { length rows.old.items ≡ length names.now }
    ensures { OnOk result (AreLonger stub home.now n names.now rows.old.items rows.new.items) }
{
    if is_other(stub, home) {
        return Ok(());
    }
    match place_in(names, home.path.as_str().as_bytes()) {
        Some(at) => {
            push_at(rows, at as usize, n)?;
            Ok(())
        }
        None => Ok(()),
    }
}

/// The files of each name, in the module or under `std`.
pub fn rows(
    alloc: Global,
    stub: bool,
    homes: &[Home],
    names: &[Text],
) -> Result<Vec<Vec<u32>>, NoMemory>
    requires order { AreAscending names.now }
    requires few { length names.now < 2 ^ 32 }
    requires homes { length homes.now < 2 ^ 32 }
    ensures { IfOk result (λ rows. AreRows stub homes.now names.now rows.items) }
{
    let mut rows = blank(alloc, names.len())?;
    for n in 0..homes.len() {
        add(&mut rows, stub, &homes[n], n as u32, names)?;
    }
    Ok(rows)
}
