//! At which nodes no declaration of a name is known.
ghost use Rattle.std.specs.Prelude.{◌≡◌, ◌<◌, ◌^◌, ◌||◌, ℕ, List, true, false, length, map, set, slice_get, is_some, IfOk};
ghost use Rattle.bind.specs.Answers.{AreSpelled, AreSmall, AreRead};
ghost use Rattle.bind.specs.Places.{placed, place_from};
ghost use Rattle.bind.specs.Sources.{Sources, AreFiles};
ghost use Rattle.bind.specs.Tables.{found};
ghost use Rattle.bind.specs.Undeclared.{is_named, counts, later, end_of, is_free, AreZeros, AreEnds, NotesEnd, NotesIf, AreFlagged, AreUnknown, IsFileRow, AreFileRows, AreUndeclared};

use crate::file::{File, read_files};
use crate::imports::{import_names, paths_of, specs_in};
use crate::places::places;
use crate::table::{earliest, find};
use crate::tops::{count_nodes, narrow, package_names};
use file_uses::name_at;
use go_tree::{FileTree, NodeRef};
use gv_base::{Bytes, NoMemory, Text};
use scopes::Named;
use std::alloc::Global;
use std::collections::HashMap;

// ---- within functions

fn is_named(file: &File<'_>, name: &[u8], node: usize) -> bool
    ensures { result ≡ is_named file.now name.now node }
{
    match name_at(file.bytes, file.tree, node) {
        Some(other) => other == name,
        None => false,
    }
}

fn counts(file: &File<'_>, name: &[u8], d: Named) -> bool
    ensures { result ≡ counts file.now name.now d }
{
    d.end < count_nodes(file) && is_named(file, name, d.node)
}

fn later(a: usize, b: usize) -> usize
    ensures { result ≡ later a b }
{
    if a < b { b } else { a }
}

/// A row of zeros.
fn no_ends(alloc: Global, count: usize) -> Result<Vec<usize>, NoMemory>
    ensures { IfOk result (λ ends. AreZeros count ends.items) }
{
    let mut ends = Vec::with_capacity(alloc, count)?;
    for _n in 0..count {
        ends.push(0)?;
    }
    Ok(ends)
}

fn end_of(ends: &[usize], s: usize) -> usize
    ensures { result ≡ end_of ends.now s }
{
    match ends.get(s) {
        Some(end) => *end,
        None => 0,
    }
}

fn put_end(ends: &mut Vec<usize>, s: usize, end: usize)
    requires { s < length ends.old.items }
    ensures { ends.new.items ≡ set ends.old.items s end }
{
    ends[s] = end;
}

fn note_end(ends: &mut Vec<usize>, d: Named)
    ensures { NotesEnd (λ x. true) d ends.old.items ends.new.items }
{
    if d.start < ends.len() {
        let end = later(end_of(ends, d.start), d.end);
        put_end(ends, d.start, end);
    }
}

/// Notes where the region of a declaration ends, if it counts.
fn note(ends: &mut Vec<usize>, file: &File<'_>, name: &[u8], d: Named)
    ensures { NotesEnd (counts file.now name.now) d ends.old.items ends.new.items }
{
    if counts(file, name, d) {
        note_end(ends, d);
    }
}

fn name_of(file: &File<'_>, i: usize) -> Option<Named>
    ensures { result ≡ slice_get file.now.locals.names.items i }
{
    file.locals.names.get(i).copied()
}

fn name_count(file: &File<'_>) -> usize
    ensures { result ≡ length file.now.locals.names.items }
{
    file.locals.names.len()
}

fn note_nth(ends: &mut Vec<usize>, file: &File<'_>, name: &[u8], i: usize)
    ensures { NotesIf (counts file.now name.now) (slice_get file.now.locals.names.items i) ends.old.items ends.new.items }
{
    match name_of(file, i) {
        Some(d) => note(ends, file, name, d),
        None => {}
    }
}

/// Where the last of the regions of the name ends that begin at each node.
fn ends_of(alloc: Global, file: &File<'_>, name: &[u8]) -> Result<Vec<usize>, NoMemory>
    ensures { IfOk result (λ ends. AreEnds (counts file.now name.now) file.now.locals.names.items (length file.now.locals.names.items) (length file.now.tree.now.nodes) ends.items) }
{
    let mut ends = no_ends(alloc, count_nodes(file))?;
    for i in 0..name_count(file) {
        note_nth(&mut ends, file, name, i);
    }
    Ok(ends)
}

/// Which nodes none of these regions holds.
fn free_row(alloc: Global, ends: &[usize]) -> Result<Vec<bool>, NoMemory>
    ensures { IfOk result (λ row. AreFlagged (is_free (end_of ends.now)) (length ends.now) row.items) }
{
    let mut row = Vec::new(alloc);
    let mut reached = 0;
    for n in 0..ends.len() {
        reached = later(reached, end_of(ends, n));
        let free = reached <= n;
        row.push(free)?;
    }
    Ok(row)
}

/// A row in which no flag is set.
fn no_flags(alloc: Global, count: usize) -> Result<Vec<bool>, NoMemory>
    ensures { IfOk result (λ row. AreFlagged (λ n. false) count row.items) }
{
    let mut row = Vec::new(alloc);
    for _n in 0..count {
        row.push(false)?;
    }
    Ok(row)
}

fn unknown_row(
    alloc: Global,
    file: &File<'_>,
    name: &[u8],
    outside: bool,
) -> Result<Vec<bool>, NoMemory>
    ensures { IfOk result (λ row. AreUnknown file.now name.now outside row.items) }
{
    if outside {
        let row = no_flags(alloc, count_nodes(file))?;
        return Ok(row);
    }
    let ends = ends_of(alloc, file, name)?;
    let row = free_row(alloc, &ends)?;
    Ok(row)
}

// ---- files

fn is_outside(top: bool, imports: &HashMap<&[u8], NodeRef>, name: &[u8]) -> bool
    ensures { result ≡ (top || is_some (found imports.now name.now)) }
{
    top || find(imports, name).is_some()
}

/// The flags of a file.
fn file_row(
    alloc: Global,
    files: &[File<'_>],
    file: &File<'_>,
    number: u32,
    named: &[(Text, Text)],
    leads: &HashMap<&[u8], usize>,
    top: bool,
    name: &[u8],
) -> Result<Vec<bool>, NoMemory>
    requires leads { (q : List ℕ) → placed leads.now q ≡ place_from 0 (map (λ e. e.0) named.now) q }
    ensures { IfOk result (λ row. IsFileRow files.now named.now number file.now top name.now row.items) }
{
    let head = file.tree.head(alloc, file.bytes)?;
    let specs = specs_in(alloc, file.tree)?;
    let declared = import_names(alloc, named, leads, number, &specs, head.imports.as_slice())?;
    let imports = earliest(alloc, files, &declared)?;
    let row = unknown_row(alloc, file, name, is_outside(top, &imports, name))?;
    Ok(row)
}

/// The flags of each file.
fn file_rows(
    alloc: Global,
    files: &[File<'_>],
    named: &[(Text, Text)],
    leads: &HashMap<&[u8], usize>,
    top: bool,
    name: &[u8],
) -> Result<Vec<Vec<bool>>, NoMemory>
    requires leads { (q : List ℕ) → placed leads.now q ≡ place_from 0 (map (λ e. e.0) named.now) q }
    ensures { IfOk result (λ rows. AreFileRows files.now named.now top name.now (length files.now) rows.items) }
{
    let mut rows = Vec::new(alloc);
    for at in 0..files.len() {
        let file = &files[at];
        let row = file_row(alloc, files, file, narrow(at), named, leads, top, name)?;
        rows.push(row)?;
    }
    Ok(rows)
}

fn is_found(table: &HashMap<&[u8], NodeRef>, name: &[u8]) -> bool
    ensures { result ≡ is_some (found table.now name.now) }
{
    find(table, name).is_some()
}

/// The flags of the files that were read.
fn rows_read(
    alloc: Global,
    read: &[File<'_>],
    named: &[(Text, Text)],
    name: &[u8],
) -> Result<Vec<Vec<bool>>, NoMemory>
    requires few { length read.now < 2 ^ 32 }
    ensures { IfOk result (λ rows. (p : Sources) → p.named ≡ named.now → AreRead read.now p.files → AreUndeclared p name.now rows.items) }
{
    let names = package_names(alloc, read)?;
    let top_names = earliest(alloc, read, &names)?;
    let top = is_found(&top_names, name);
    let paths = paths_of(alloc, named)?;
    let leads = places(alloc, &paths)?;
    let rows = file_rows(alloc, read, named, &leads, top, name)?;
    Ok(rows)
}

/// For each node of each file of a package whether no declaration of a name is known there, so that a use of it would denote what is
/// predeclared, if anything is. The package is given as to `bind`.
pub fn undeclared(
    alloc: Global,
    files: &[FileTree],
    sources: &[(Text, Bytes)],
    named: &[(Text, Text)],
    name: &[u8],
) -> Result<Vec<Vec<bool>>, NoMemory>
    requires spelled { AreSpelled files.now sources.now }
    requires fit { AreSmall files.now }
    requires few { length files.now < 2 ^ 32 }
    ensures { IfOk result (λ rows. (p : Sources) → p.named ≡ named.now → AreFiles files.now sources.now p.files → AreUndeclared p name.now rows.items) }
{
    let read = read_files(alloc, files, sources)?;
    let rows = rows_read(alloc, &read, named, name)?;
    Ok(rows)
}
