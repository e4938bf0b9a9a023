//! Rows of packages: which packages are reached from others.
ghost use Rattle.std.specs.Prelude.{◌≡◌, ◌<◌, ◌^◌, ℕ, IfOk, true, false, bytes_eq, length, replicate, slice_get, slice_set};
ghost use Rattle.gv_driver.specs.Rows.{is_among, merged, of_paths, places_below, reach_in, with_all, with_each, with_reach};
ghost use Rattle.gv_driver.specs.Tables.{IsRowOf};

use crate::node::Node;
use crate::parts::path_at;
use crate::tree::PackageTexts;
use export_text::text_mentions;
use gv_base::{NoMemory, Row, Text};
use std::alloc::Global;

fn height(flags: &Vec<bool>) -> usize
    ensures { result ≡ length flags.now.items }
{
    flags.as_slice().len()
}

fn set_flag(flags: &mut Vec<bool>, at: usize)
    ensures { flags.new.items ≡ slice_set flags.old.items at true }
{
    if at >= height(flags) {
        return;
    }
    flags[at] = true;
}

fn set_all(flags: &mut Vec<bool>, row: &[u32])
    ensures { flags.new.items ≡ with_all row.now flags.old.items }
{
    for number in row {
        set_flag(flags, *number as usize);
    }
}

/// What is reached from a package, as far as it is done.
fn reach_at(table: &[Option<Node>], at: usize) -> &[u32]
    ensures { result.now ≡ reach_in (slice_get table.now at) }
{
    match table.get(at) {
        None => &[],
        Some(None) => &[],
        Some(Some(node)) => node.reach.as_slice(),
    }
}

fn set_reach(table: &[Option<Node>], flags: &mut Vec<bool>, at: usize)
    ensures { flags.new.items ≡ with_reach table.now at flags.old.items }
{
    set_flag(flags, at);
    set_all(flags, reach_at(table, at));
}

fn set_each(table: &[Option<Node>], flags: &mut Vec<bool>, numbers: &[u32])
    ensures { flags.new.items ≡ with_each table.now numbers.now flags.old.items }
{
    for number in numbers {
        set_reach(table, flags, *number as usize);
    }
}

fn blank(alloc: Global, places: usize) -> Result<Vec<bool>, NoMemory>
    ensures { IfOk result (λ t. t.items ≡ replicate places false) }
{
    let flags = vec![in alloc; false; places]?;
    Ok(flags)
}

/// The numbers whose flags are set, in order.
fn places(alloc: Global, flags: &[bool]) -> Result<Vec<u32>, NoMemory>
    requires { length flags.now < 2 ^ 32 }
    ensures { IfOk result (λ v. v.items ≡ places_below flags.now (length flags.now)) }
{
    let mut list = Vec::new(alloc);
    for at in 0..flags.len() {
        if flags[at] {
            list.push(at as u32)?;
        }
    }
    Ok(list)
}

/// These packages and what is reached from them, in order: a merge of their rows.
pub(crate) fn merged_row(
    alloc: Global,
    table: &[Option<Node>],
    numbers: &[u32],
) -> Result<Row<u32>, NoMemory>
    requires { length table.now < 2 ^ 32 }
    ensures { IfOk result (λ row. row ≡ merged table.now numbers.now) }
{
    let mut flags = blank(alloc, table.len())?;
    set_each(table, &mut flags, numbers);
    let list = places(alloc, &flags)?;
    Ok(Row::new(list))
}

fn is_same(one: &str, other: &str) -> bool
    ensures { result ≡ bytes_eq one.now other.now }
{
    one == other
}

fn is_path_among(paths: &[Text], path: &str) -> bool
    ensures { result ≡ is_among paths.now path.now }
{
    for one in paths {
        if is_same(one.as_str(), path) {
            return true;
        }
    }
    false
}

/// Those of the packages whose path is one of these.
fn with_paths(
    alloc: Global,
    tree: &[PackageTexts],
    paths: &[Text],
    numbers: &[u32],
) -> Result<Vec<u32>, NoMemory>
    ensures { IfOk result (λ v. v.items ≡ of_paths tree.now paths.now numbers.now) }
{
    let mut list = Vec::new(alloc);
    for number in numbers {
        if is_path_among(paths, path_at(tree, *number as usize)) {
            list.push(*number)?;
        }
    }
    Ok(list)
}

/// What is reached from a package with this environment and this export text. A cache may hold any text.
pub(crate) fn row_of(
    alloc: Global,
    tree: &[PackageTexts],
    table: &[Option<Node>],
    env: &[u32],
    text: &[u8],
) -> Result<Row<u32>, NoMemory>
    requires { length table.now < 2 ^ 32 }
    ensures { IfOk result (λ row. IsRowOf tree.now table.now env.now text.now row) }
{
    let paths = text_mentions(alloc, text)?;
    let numbers = with_paths(alloc, tree, &paths, env)?;
    let row = merged_row(alloc, table, &numbers)?;
    Ok(row)
}
