//! What a package's files declare.
ghost use Rattle.std.specs.Prelude.{◌≡◌, ◌≤◌, ◌^◌, ◌++◌, length, IfOk, OnOk, slice_get};
ghost use Rattle.std.specs.Option.{option_copied};
ghost use Rattle.package_objects.specs.Declares.{AreSmall, uses_of, declared_by, declared};

use crate::declares::add_file;
use go_tree::{FileTree, NodeRef, tree_in};
use gv_base::NoMemory;
use object_order::Entry;
use std::alloc::Global;

fn row_of(meant: &[Vec<Option<NodeRef>>], file: u32) -> Option<&Vec<Option<NodeRef>>>
    ensures { option_copied result ≡ slice_get meant.now file }
{
    meant.get(file as usize)
}

/// What the nodes of a file mention.
pub fn uses_in(meant: &[Vec<Option<NodeRef>>], file: u32) -> &[Option<NodeRef>]
    ensures { result.now ≡ uses_of meant.now file }
{
    match row_of(meant, file) {
        Some(row) => row.as_slice(),
        None => &[],
    }
}

fn add_tree(
    alloc: Global,
    trees: &[FileTree],
    meant: &[Vec<Option<NodeRef>>],
    file: u32,
    out: &mut Vec<Entry>,
) -> Result<(), NoMemory>
    requires { AreSmall trees.now }
    ensures { OnOk result (out.new.items ≡ out.old.items ++ declared_by trees.now meant.now file) }
{
    if let Some(tree) = tree_in(trees, file) {
        add_file(
            alloc,
            file,
            tree.nodes.as_slice(),
            uses_in(meant, file),
            out,
        )?;
    }
    Ok(())
}

/// The declarations of a package's files, in order of file and node: what its trees declare, where `meant` has for each
/// node of each file the declared name that it mentions.
pub fn entries_of(
    alloc: Global,
    trees: &[FileTree],
    meant: &[Vec<Option<NodeRef>>],
) -> Result<Vec<Entry>, NoMemory>
    requires small { AreSmall trees.now }
    requires few { length trees.now ≤ 2 ^ 32 }
    ensures { IfOk result (λ entries. entries.items ≡ declared trees.now meant.now) }
{
    let mut entries = Vec::new(alloc);
    let end = trees.len();
    for file in 0..end {
        add_tree(alloc, trees, meant, file as u32, &mut entries)?;
    }
    Ok(entries)
}
