//! The tree outside: the files that a run reads, and those that it changes.
ghost use Rattle.std.specs.Prelude.{◌≡◌, All, Err, IfOk, List, true};
ghost use Rattle.folder.specs.Folders.{AreAtPaths, IsTold, OnlyWhereRose};
ghost use Rattle.gv_base.specs.Files.{Entry};
ghost use Rattle.gv_base.specs.Paths.{IsPath};
ghost use Rattle.top_calls.specs.Ends.{may, Reading, Writing};
ghost use Rattle.top_calls.specs.Single.{ReadsTree, WritesTo};
ghost use Rattle.top_calls.specs.declared.stop.Cut.{Cut as Causes};

use crate::stop::Cut;
use analysis_core::ChangedFile;
use folder::{read_tree, write_files};
use gv_base::{Denied, Files, Tree};
use std::alloc::Global;

/// So many first bytes of a file are read: one more than a file may have.
const MOST_READ: usize = 4_194_305;

/// The cause of a denied call of the tree.
fn cut_of(denied: Denied) -> Cut
    ensures reading { may result Reading ≡ true }
    ensures writing { may result Writing ≡ true }
    ensures fault { result ≡ Cut.Tree → denied ≡ Denied.Failed }
{
    match denied {
        Denied::Failed => Cut::Tree,
        Denied::NoMemory => Cut::Memory,
    }
}

/// Reads the files that a run reads.
pub(crate) fn read_files<T: Tree>(alloc: Global, tree: &mut T) -> Result<Files, Cut>
    ensures keeps { (T.view tree.new).files ≡ (T.view tree.old).files }
    ensures reads { IfOk result (λ files. ReadsTree (T.view tree.old).files files) }
    ensures paths { IfOk result (λ files. AreAtPaths files) }
    ensures allowed { (cut : Causes) → result ≡ Err cut → may cut Reading ≡ true }
    ensures fault { OnlyWhereRose (T.view tree.old).faults (T.view tree.new).faults (result ≡ Err Cut.Tree) }
{
    match read_tree(alloc, tree, MOST_READ) {
        Ok(files) => Ok(files),
        Err(denied) => Err(cut_of(denied)),
    }
}

/// Writes the changed files, in turn.
pub(crate) fn write_changed<T: Tree>(tree: &mut T, changed: &[ChangedFile]) -> Result<(), Cut>
    requires { All (λ c. IsPath c.path) changed.now }
    ensures writes { (files : List Entry) → IsTold (T.view tree.old).files files → WritesTo files changed.now (T.view tree.new).files result }
    ensures allowed { (cut : Causes) → result ≡ Err cut → may cut Writing ≡ true }
    ensures fault { OnlyWhereRose (T.view tree.old).faults (T.view tree.new).faults (result ≡ Err Cut.Tree) }
{
    match write_files(tree, changed) {
        Ok(()) => Ok(()),
        Err(denied) => Err(cut_of(denied)),
    }
}
