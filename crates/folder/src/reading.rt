//! The files that a run reads.
ghost use Rattle.std.specs.Prelude.{◌≡◌, ◌≤◌, [], All, Err, IfOk, List, OnOk, Some, fold, map, string_bytes};
ghost use Rattle.gv_base.specs.Counts.{RoseBy, denials_of};
ghost use Rattle.gv_base.specs.Files.{Entry, put_file};
ghost use Rattle.gv_base.specs.Paths.{IsPath};
ghost use Rattle.folder.specs.Folders.{AreAtPaths, AreFitting, OnlyWhereRose, ReadsFronts, fronts, is_read, with_front};

use gv_base::{Denied, Files, NoMemory, Tree};
use import_graph::is_source;
use std::alloc::Global;

/// Whether a run reads the file of this path: `go.mod`, and the source files.
pub fn is_read(path: &[u8]) -> bool
    ensures { result ≡ is_read path.now }
{
    path == b"go.mod".as_slice() || is_source(path)
}

fn denied(_error: NoMemory) -> Denied
    ensures { result ≡ Denied.NoMemory }
{
    Denied::NoMemory
}

/// Sets a file among those that were read.
fn put(files: &mut Files, path: &str, bytes: &[u8]) -> Result<(), Denied>
    requires { IsPath path.now }
    ensures put { OnOk result (files.new ≡ put_file files.old path.now bytes.now) }
    ensures paths { OnOk result (AreAtPaths files.old → AreAtPaths files.new) }
    ensures denied { result ≡ Err Denied.Failed → ⊥ }
{
    match files.put(path, bytes) {
        Ok(()) => Ok(()),
        Err(error) => Err(denied(error)),
    }
}

/// Reads the first bytes of a file, where a run reads it.
fn read_one<T: Tree>(tree: &mut T, files: &mut Files, path: &str, most: usize) -> Result<(), Denied>
    requires { IsPath path.now }
    ensures keeps { (T.view tree.new).files ≡ (T.view tree.old).files }
    ensures adds { OnOk result ((held : List Entry) → (T.view tree.old).files ≡ Some held → files.new ≡ with_front most held files.old path.now) }
    ensures paths { OnOk result (AreAtPaths files.old → AreAtPaths files.new) }
    ensures fitting { OnOk result (AreFitting most files.old → AreFitting most files.new) }
    ensures fault { OnlyWhereRose (T.view tree.old).faults (T.view tree.new).faults (result ≡ Err Denied.Failed) }
{
    if !is_read(path.as_bytes()) {
        return Ok(());
    }
    let bytes = tree.read(path, most)?;
    put(files, path, bytes.as_slice())?;
    Ok(())
}

/// Reads the files of these paths.
fn read_all<T: Tree>(
    alloc: Global,
    tree: &mut T,
    paths: &[String],
    most: usize,
) -> Result<Files, Denied>
    requires { All IsPath (map string_bytes paths.now) }
    ensures keeps { (T.view tree.new).files ≡ (T.view tree.old).files }
    ensures reads { IfOk result (λ files. (held : List Entry) → (T.view tree.old).files ≡ Some held → files ≡ fold (with_front most held) [] (map string_bytes paths.now)) }
    ensures paths { IfOk result (λ files. AreAtPaths files) }
    ensures fitting { IfOk result (λ files. AreFitting most files) }
    ensures fault { OnlyWhereRose (T.view tree.old).faults (T.view tree.new).faults (result ≡ Err Denied.Failed) }
{
    let mut files = Files::new(alloc);
    for path in paths {
        read_one(tree, &mut files, path.as_str(), most)?;
    }
    Ok(files)
}

/// The files that a run reads, each with at most so many of its first bytes. Nothing else is read, and nothing changes. A tree that tells what it
/// holds gives exactly these files; over any tree they are as a run reads them, and each stands at a path; `Failed` comes only where the tree's count of faults rose.
pub fn read_tree<T: Tree>(alloc: Global, tree: &mut T, most: usize) -> Result<Files, Denied>
    ensures keeps { (T.view tree.new).files ≡ (T.view tree.old).files }
    ensures reads { IfOk result (λ files. ReadsFronts most (T.view tree.old).files files) }
    ensures paths { IfOk result (λ files. AreAtPaths files) }
    ensures whole { IfOk result (λ files. fronts most files ≡ files) }
    ensures fault { OnlyWhereRose (T.view tree.old).faults (T.view tree.new).faults (result ≡ Err Denied.Failed) }
{
    let paths = tree.list()?;
    let files = read_all(alloc, tree, &paths, most)?;
    Ok(files)
}
