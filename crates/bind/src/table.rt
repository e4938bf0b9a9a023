//! The first of the nodes at which each name is declared.
ghost use Rattle.std.specs.Prelude.{◌≡◌, ◌<◌, ◌↔◌, ℕ, List, IsTrue, IfOk, OnOk, Some, if◌then◌else◌, bytes_eq};
ghost use Rattle.gv_base.specs.Files.{is_before};
ghost use Rattle.go_tree.specs.Bindings.{IsBefore};
ghost use Rattle.go_tree.specs.declared.tree.NodeRef.{NodeRef};
ghost use Rattle.bind.specs.Tables.{found, path_of, IsEarlierBy, Stays, Adds, IsEarliest, pairs};

use crate::file::File;
use go_tree::NodeRef;
use gv_base::NoMemory;
use std::alloc::Global;
use std::collections::HashMap;

/// A name, and a node at which it is declared.
#[derive(Clone, Copy, Drop)]
pub struct Declared<'a> {
    pub name: &'a [u8],
    pub at: NodeRef,
}

/// The node of a name.
pub fn find(table: &HashMap<&[u8], NodeRef>, name: &[u8]) -> Option<NodeRef>
    ensures { result ≡ found table.now name.now }
{
    table.get(name).copied()
}

fn keep<'a>(
    table: &mut HashMap<&'a [u8], NodeRef>,
    name: &'a [u8],
    at: NodeRef,
) -> Result<(), NoMemory>
    ensures { OnOk result ((q : List ℕ) → found table.new q ≡ (if bytes_eq name.now q then Some at else found table.old q)) }
{
    table.insert(name, at)?;
    Ok(())
}

/// The path of a file, empty past the files.
fn path_of<'a>(files: &[File<'a>], file: u32) -> &'a [u8]
    ensures { result.now ≡ path_of files.now file }
{
    let file = file as usize;
    if file < files.len() {
        files[file].path
    } else {
        b"".as_slice()
    }
}

fn is_before(a: &[u8], b: &[u8]) -> bool
    ensures { result ≡ is_before a.now b.now }
{
    a.cmp(b).is_lt()
}

fn is_same(a: &[u8], b: &[u8]) -> bool
    ensures { result ≡ bytes_eq a.now b.now }
{
    a == b
}

/// Whether a node comes before another: by file, then by number.
fn comes_before(a: NodeRef, b: NodeRef) -> bool
    ensures { IsTrue result ↔ IsBefore a b }
{
    if a.file == b.file {
        return a.node < b.node;
    }
    a.file < b.file
}

/// Whether a node comes before another: by the path of its file, then by file, then by number.
fn is_earlier(files: &[File<'_>], a: NodeRef, b: NodeRef) -> bool
    ensures { IsTrue result ↔ IsEarlierBy (path_of files.now) a b }
{
    let path = path_of(files, a.file);
    let other = path_of(files, b.file);
    if is_before(path, other) {
        return true;
    }
    if is_same(path, other) {
        return comes_before(a, b);
    }
    false
}

/// Whether the node that a name has stays, since this one is no earlier.
fn stays(files: &[File<'_>], kept: Option<NodeRef>, at: NodeRef) -> bool
    ensures { Stays (path_of files.now) kept at result }
{
    match kept {
        Some(kept) => !is_earlier(files, at, kept),
        None => false,
    }
}

/// Keeps the node at which a name is declared, where it is earlier than the one that was kept.
fn add<'a>(
    files: &[File<'_>],
    table: &mut HashMap<&'a [u8], NodeRef>,
    declared: Declared<'a>,
) -> Result<(), NoMemory>
    ensures { OnOk result (Adds (path_of files.now) (found table.old) (found table.new) declared.entry.name.now declared.entry.at) }
{
    if stays(files, find(table, declared.name), declared.at) {
        return Ok(());
    }
    keep(table, declared.name, declared.at)?;
    Ok(())
}

/// The earliest of the nodes at which each name is declared.
pub fn earliest<'a>(
    alloc: Global,
    files: &[File<'_>],
    all: &[Declared<'a>],
) -> Result<HashMap<&'a [u8], NodeRef>, NoMemory>
    ensures { IfOk result (λ table. IsEarliest (path_of files.now) (pairs all.now) (found table)) }
{
    let mut table = HashMap::new(alloc);
    for declared in all {
        add(files, &mut table, *declared)?;
    }
    Ok(table)
}
