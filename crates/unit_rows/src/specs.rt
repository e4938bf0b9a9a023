//! To which specifications of constants the nodes of files belong, kept by the nodes that belong to one.
ghost use Rattle.std.specs.Prelude.{◌≡◌, ◌<◌, ◌≤◌, ℕ, IfOk, length};
ghost use Rattle.go_tree.specs.declared.tree.NodeRef.{NodeRef as ANode};
ghost use Rattle.const_tree.specs.Constants.{AreBefore};
ghost use Rattle.unit_read.specs.Entries.{stored, entry};
ghost use Rattle.unit_rows.specs.Rows.{spec_of, spec_for};

use const_tree::{Spec, spec_row, specs_in};
use go_tree::{FileTree, Node};
use gv_base::NoMemory;
use std::alloc::Global;
use unit_read::Entries;

/// One past a specification, where that is later.
fn later(end: usize, spec: Spec) -> usize
    ensures old { end ≤ result }
    ensures new { spec.node < result }
{
    let next = spec.node as usize + 1;
    if next < end { end } else { next }
}

/// One past the last of some specifications.
fn end_of(specs: &[Spec]) -> usize
    ensures { AreBefore specs.now (length specs.now) result }
{
    let mut end = 0;
    for i in 0..specs.len() {
        end = later(end, specs[i]);
    }
    end
}

/// The first nodes of a file, up to a number.
fn front(nodes: &[Node], end: usize) -> &[Node]
    ensures within { length result.now ≤ length nodes.now }
    ensures rest { (n : ℕ) → n < length nodes.now → length result.now ≤ n → end ≤ n }
{
    if end < nodes.len() {
        &nodes[..end]
    } else {
        nodes
    }
}

/// For each node of a file the specification to which it belongs. No node behind the last specification belongs to one.
fn tree_specs(alloc: Global, tree: &FileTree) -> Result<Entries<Spec>, NoMemory>
    ensures { IfOk result (λ e. (n : ℕ) → stored e n ≡ spec_of tree.now n) }
{
    let nodes = tree.nodes.as_slice();
    let specs = specs_in(alloc, nodes)?;
    let first = front(nodes, end_of(&specs));
    let row = spec_row(alloc, first, &specs)?;
    let entries = Entries::of(alloc, &row)?;
    Ok(entries)
}

/// For each node of each file the specification to which it belongs.
pub fn spec_entries(alloc: Global, trees: &[FileTree]) -> Result<Vec<Entries<Spec>>, NoMemory>
    ensures { IfOk result (λ table. (at : ANode) → entry table.items at ≡ spec_for trees.now at) }
{
    let mut table = Vec::with_capacity(alloc, trees.len())?;
    for file in 0..trees.len() {
        let row = tree_specs(alloc, &trees[file])?;
        table.push(row)?;
    }
    Ok(table)
}
