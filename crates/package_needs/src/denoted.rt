//! The declared name of the package that each node denotes.
ghost use Rattle.std.specs.Prelude.{IfOk, None, Some, [], ◌≡◌, ◌<◌, ◌≤◌, ◌^◌, length, replicate, set, slice_get};
ghost use Rattle.package_objects.specs.Declares.{AreSmall};
ghost use Rattle.package_needs.specs.Noted.{NotesIn, Notes};
ghost use Rattle.package_needs.specs.Worlds.{name_of, AreDenoted};

use go_tree::{Bindings, FileTree, NodeRef, Object};
use gv_base::NoMemory;
use std::alloc::Global;

fn named_by(object: Object) -> Option<NodeRef>
    ensures { result ≡ name_of object }
{
    match object {
        Object::Universe(_) => None,
        Object::Import(_) => None,
        Object::Local(name) => Some(name),
        Object::Package(name) => Some(name),
    }
}

/// A row in which no node denotes anything.
fn blank_row(alloc: Global, tree: &FileTree) -> Result<Vec<Option<NodeRef>>, NoMemory>
    ensures { IfOk result (λ row. row.items ≡ replicate (length tree.now.nodes) None) }
{
    let count = tree.nodes.as_slice().len();
    let row = vec![in alloc; None; count]?;
    Ok(row)
}

fn blank_rows(alloc: Global, trees: &[FileTree]) -> Result<Vec<Vec<Option<NodeRef>>>, NoMemory>
    ensures { IfOk result (λ rows. AreDenoted [] trees.now rows.items) }
{
    let mut rows = Vec::new(alloc);
    let end = trees.len();
    for file in 0..end {
        rows.push(blank_row(alloc, &trees[file])?)?;
    }
    Ok(rows)
}

fn set_cell(row: &mut Vec<Option<NodeRef>>, node: usize, name: Option<NodeRef>)
    requires { node < length row.old.items }
    ensures { row.new.items ≡ set row.old.items node name }
{
    row[node] = name;
}

fn width(row: &Vec<Option<NodeRef>>) -> usize
    ensures { result ≡ length row.now.items }
{
    row.len()
}

/// Notes the name that a node denotes, if the row has the node.
fn note_in(row: &mut Vec<Option<NodeRef>>, node: usize, name: Option<NodeRef>)
    ensures { NotesIn row.old.items row.new.items node name }
{
    let end = width(row);
    if node < end {
        set_cell(row, node, name);
    }
}

fn note_at(rows: &mut Vec<Vec<Option<NodeRef>>>, file: usize, node: usize, name: Option<NodeRef>)
    requires { file < length rows.old.items }
    ensures { Notes rows.old.items rows.new.items file node name }
{
    note_in(&mut rows[file], node, name);
}

fn height(rows: &Vec<Vec<Option<NodeRef>>>) -> usize
    ensures { result ≡ length rows.now.items }
{
    rows.len()
}

/// Notes the name that a node denotes, if the rows have the node.
fn note(rows: &mut Vec<Vec<Option<NodeRef>>>, at: NodeRef, name: Option<NodeRef>)
    ensures { Notes rows.old.items rows.new.items at.file at.node name }
{
    let end = height(rows);
    let file = at.file as usize;
    if file < end {
        note_at(rows, file, at.node as usize, name);
    }
}

fn use_at(uses: &[(NodeRef, Object)], k: usize) -> (NodeRef, Object)
    requires { k < length uses.now }
    ensures { slice_get uses.now k ≡ Some result }
{
    uses[k]
}

/// For each node of each file the declared name of the package that it denotes.
pub fn denoted(
    alloc: Global,
    b: &Bindings,
    trees: &[FileTree],
) -> Result<Vec<Vec<Option<NodeRef>>>, NoMemory>
    requires small { AreSmall trees.now }
    requires few { length trees.now ≤ 2 ^ 32 }
    ensures { IfOk result (λ rows. AreDenoted b.now trees.now rows.items) }
{
    let mut rows = blank_rows(alloc, trees)?;
    let uses = b.entries();
    let end = uses.len();
    for k in 0..end {
        let one = use_at(uses, k);
        let name = named_by(one.1);
        note(&mut rows, one.0, name);
    }
    Ok(rows)
}
