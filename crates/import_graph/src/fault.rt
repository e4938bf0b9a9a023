//! What keeps a package from being loaded, but for cycles.
ghost use Rattle.std.specs.Prelude.{◌≡◌, ◌++◌, ◌<◌, ◌^◌, [], length, take, map, cond, get_or, flat_map, bytes_eq, codes, IfOk, OnOk};
ghost use Rattle.std.specs.List.{filter};
ghost use Rattle.import_graph.specs.Packages.{head_at, is_missing, is_broken, name_of, first_name, clash_in, clashes, is_dot, counts, lines_in, missing_at, missing};
ghost use Rattle.import_graph.specs.Tables.{AreAscending};

use crate::names::place_in;
use go_tree::{Head, ImportLine, LocalName};
use gv_base::{NoMemory, Place, Text};
use std::alloc::Global;

/// Whether the file of this number is broken.
fn is_missing_at(heads: &[Option<Head>], n: u32) -> bool
    ensures { result ≡ is_missing (head_at heads.now n) }
{
    if n as usize >= heads.len() {
        return true;
    }
    match &heads[n as usize] {
        Some(_) => false,
        None => true,
    }
}

/// Whether some file is broken.
pub fn is_broken(heads: &[Option<Head>], files: &[u32]) -> bool
    ensures { result ≡ is_broken heads.now files.now }
{
    for n in files {
        if is_missing_at(heads, *n) {
            return true;
        }
    }
    false
}

/// The package name of a file, nothing of a broken one.
fn name_at(heads: &[Option<Head>], n: u32) -> &[u8]
    ensures { result.now ≡ name_of (head_at heads.now n) }
{
    if n as usize >= heads.len() {
        return &[];
    }
    match &heads[n as usize] {
        Some(head) => head.name.as_slice(),
        None => &[],
    }
}

/// The package name of the first file.
fn first_name<'a>(heads: &'a [Option<Head>], files: &[u32]) -> &'a [u8]
    ensures { result.now ≡ first_name heads.now files.now }
{
    match files {
        [first, ..] => name_at(heads, *first),
        [] => &[],
    }
}

fn is_same(a: &[u8], b: &[u8]) -> bool
    ensures { result ≡ bytes_eq a.now b.now }
{
    a == b
}

/// Adds the place of the package name, if it differs.
fn push_clash(
    heads: &[Option<Head>],
    name: &[u8],
    n: u32,
    places: &mut Vec<Place>,
) -> Result<(), NoMemory>
    ensures { OnOk result (places.new.items ≡ places.old.items ++ clash_in name.now n (head_at heads.now n)) }
{
    if n as usize >= heads.len() {
        return Ok(());
    }
    match &heads[n as usize] {
        Some(head) => {
            if is_same(head.name.as_slice(), name) {
                return Ok(());
            }
            places.push(Place {
                file: n,
                offset: head.name_at,
            })?;
            Ok(())
        }
        None => Ok(()),
    }
}

/// The package names that differ from that of the first file.
pub fn clashes(alloc: Global, heads: &[Option<Head>], files: &[u32]) -> Result<Vec<Place>, NoMemory>
    ensures { IfOk result (λ places. places.items ≡ clashes heads.now files.now) }
{
    let name = first_name(heads, files);
    let mut places = Vec::new(alloc);
    for n in files {
        push_clash(heads, name, *n, &mut places)?;
    }
    Ok(places)
}

fn is_dot(local: &LocalName) -> bool
    ensures { result ≡ is_dot local.now }
{
    match local {
        LocalName::Default => false,
        LocalName::Named(_) => false,
        LocalName::Blank => false,
        LocalName::Dot => true,
    }
}

fn is_unsafe(path: &[u8]) -> bool
    ensures { result ≡ bytes_eq path.now (codes "unsafe") }
{
    path == b"unsafe".as_slice()
}

fn is_c(path: &[u8]) -> bool
    ensures { result ≡ bytes_eq path.now (codes "C") }
{
    path == b"C".as_slice()
}

/// Whether an import leads to a package, or is missing.
pub fn counts(line: &ImportLine) -> bool
    ensures { result ≡ counts line.now }
{
    !(is_dot(&line.local) || is_unsafe(line.path.as_slice()) || is_c(line.path.as_slice()))
}

/// Adds the place of an import whose path is none of the names.
fn push_missing(
    names: &[Text],
    n: u32,
    line: &ImportLine,
    places: &mut Vec<Place>,
) -> Result<(), NoMemory>
    requires order { AreAscending names.now }
    requires few { length names.now < 2 ^ 32 }
    ensures { OnOk result (places.new.items ≡ places.old.items ++ missing_at names.now n line.now) }
{
    match place_in(names, line.path.as_slice()) {
        Some(_) => Ok(()),
        None => {
            places.push(Place {
                file: n,
                offset: line.at,
            })?;
            Ok(())
        }
    }
}

/// Adds the places of these imports that are missing.
fn push_lines(
    names: &[Text],
    n: u32,
    lines: &[ImportLine],
    places: &mut Vec<Place>,
) -> Result<(), NoMemory>
    requires order { AreAscending names.now }
    requires few { length names.now < 2 ^ 32 }
    ensures { OnOk result (places.new.items ≡ places.old.items ++ flat_map (missing_at names.now n) (filter counts lines.now)) }
{
    for line in lines {
        if counts(line) {
            push_missing(names, n, line, places)?;
        }
    }
    Ok(())
}

/// Adds the places of a file's imports that are missing.
fn push_file(
    heads: &[Option<Head>],
    names: &[Text],
    n: u32,
    places: &mut Vec<Place>,
) -> Result<(), NoMemory>
    requires order { AreAscending names.now }
    requires few { length names.now < 2 ^ 32 }
    ensures { OnOk result (places.new.items ≡ places.old.items ++ flat_map (missing_at names.now n) (lines_in (head_at heads.now n))) }
{
    if n as usize >= heads.len() {
        return Ok(());
    }
    match &heads[n as usize] {
        Some(head) => {
            push_lines(names, n, head.imports.as_slice(), places)?;
            Ok(())
        }
        None => Ok(()),
    }
}

/// The imports of files whose path is none of the names.
pub fn missing(
    alloc: Global,
    heads: &[Option<Head>],
    names: &[Text],
    files: &[u32],
) -> Result<Vec<Place>, NoMemory>
    requires order { AreAscending names.now }
    requires few { length names.now < 2 ^ 32 }
    ensures { IfOk result (λ places. places.items ≡ missing heads.now names.now files.now) }
{
    let mut places = Vec::new(alloc);
    for n in files {
        push_file(heads, names, *n, &mut places)?;
    }
    Ok(places)
}
