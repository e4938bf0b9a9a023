//! Which packages some files import.
ghost use Rattle.std.specs.Prelude.{◌≡◌, ◌++◌, ◌∷◌, ◌<◌, ◌^◌, [], length, take, cond, IfOk, OnOk};
ghost use Rattle.std.specs.List.{filter, dedup};
ghost use Rattle.std.specs.List.Sorted.{IsStrictlyIncreasing};
ghost use Rattle.import_graph.specs.Packages.{head_at, counts, lines_in, lines_of};
ghost use Rattle.import_graph.specs.Tables.{AreAscending, AreFound, FindsMore};

use crate::fault::counts;
use crate::names::place_in;
use go_tree::{Head, ImportLine};
use gv_base::{NoMemory, Text};
use std::alloc::Global;

/// Adds the place of the name that an import leads to, if any.
fn find_line(names: &[Text], line: &ImportLine, found: &mut Vec<u32>) -> Result<(), NoMemory>
    requires order { AreAscending names.now }
    requires few { length names.now < 2 ^ 32 }
    ensures { OnOk result (FindsMore names.now (line.now ∷ []) found.old.items found.new.items) }
{
    match place_in(names, line.path.as_slice()) {
        Some(at) => {
            found.push(at)?;
            Ok(())
        }
        None => Ok(()),
    }
}

/// The same for the imports among these that count.
fn find_lines(names: &[Text], lines: &[ImportLine], found: &mut Vec<u32>) -> Result<(), NoMemory>
    requires order { AreAscending names.now }
    requires few { length names.now < 2 ^ 32 }
    ensures { OnOk result (FindsMore names.now (filter counts lines.now) found.old.items found.new.items) }
{
    for line in lines {
        if counts(line) {
            find_line(names, line, found)?;
        }
    }
    Ok(())
}

/// The same for a file.
fn find_file(
    heads: &[Option<Head>],
    names: &[Text],
    n: u32,
    found: &mut Vec<u32>,
) -> Result<(), NoMemory>
    requires order { AreAscending names.now }
    requires few { length names.now < 2 ^ 32 }
    ensures { OnOk result (FindsMore names.now (lines_in (head_at heads.now n)) found.old.items found.new.items) }
{
    if n as usize >= heads.len() {
        return Ok(());
    }
    match &heads[n as usize] {
        Some(head) => {
            find_lines(names, head.imports.as_slice(), found)?;
            Ok(())
        }
        None => Ok(()),
    }
}

/// The places of the names that files import, as they come.
fn find_all(
    alloc: Global,
    heads: &[Option<Head>],
    names: &[Text],
    files: &[u32],
) -> Result<Vec<u32>, NoMemory>
    requires order { AreAscending names.now }
    requires few { length names.now < 2 ^ 32 }
    ensures { IfOk result (λ found. AreFound names.now (lines_of heads.now files.now) found.items) }
{
    let mut found = Vec::new(alloc);
    for n in files {
        find_file(heads, names, *n, &mut found)?;
    }
    Ok(found)
}

/// The places of the names that files import, each once, in order.
pub fn imports(
    alloc: Global,
    heads: &[Option<Head>],
    names: &[Text],
    files: &[u32],
) -> Result<Vec<u32>, NoMemory>
    requires order { AreAscending names.now }
    requires few { length names.now < 2 ^ 32 }
    ensures rising { IfOk result (λ imports. IsStrictlyIncreasing imports.items) }
    ensures found { IfOk result (λ imports. AreFound names.now (lines_of heads.now files.now) imports.items) }
{
    let mut found = find_all(alloc, heads, names, files)?;
    found.sort_unstable();
    found.dedup();
    Ok(found)
}
