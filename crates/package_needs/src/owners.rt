//! The types of a package's methods.
ghost use Rattle.std.specs.Prelude.{◌≡◌, ◌≤◌, ◌^◌, true, false, length, IfOk};
ghost use Rattle.object_order.specs.Views.{world_of};
ghost use Rattle.package_objects.specs.Declares.{AreSmall};
ghost use Rattle.package_needs.specs.Links.{AreEnds};
ghost use Rattle.package_needs.specs.Keys.{IsRowBy};
ghost use Rattle.package_needs.specs.Kin.{IsOwnerAt};
ghost use Rattle.package_needs.specs.Worlds.{AreOwners};

use crate::kin::{Tables, method_at};
use go_tree::{FileTree, NodeRef};
use gv_base::NoMemory;
use object_order::View;
use std::alloc::Global;

/// The type of which a node declares a method.
fn owner_at(view: &View, tables: &Tables, at: NodeRef) -> Option<NodeRef>
    requires near { AreEnds (world_of view.now) view.now.entries.items false tables.now.near.items }
    requires far { AreEnds (world_of view.now) view.now.entries.items true tables.now.far.items }
    ensures { IsOwnerAt (world_of view.now) at result }
{
    match method_at(view, tables, at) {
        Some(method) => Some(method.of),
        None => None,
    }
}

fn row_of(
    alloc: Global,
    view: &View,
    tables: &Tables,
    file: u32,
    end: usize,
) -> Result<Vec<Option<NodeRef>>, NoMemory>
    requires small { end ≤ 2 ^ 32 }
    requires near { AreEnds (world_of view.now) view.now.entries.items false tables.now.near.items }
    requires far { AreEnds (world_of view.now) view.now.entries.items true tables.now.far.items }
    ensures { IfOk result (λ row. IsRowBy (IsOwnerAt (world_of view.now)) file row.items end) }
{
    let mut row = Vec::with_capacity(alloc, end)?;
    for node in 0..end {
        let at = NodeRef {
            file,
            node: node as u32,
        };
        row.push(owner_at(view, tables, at))?;
    }
    Ok(row)
}

fn tree_row(
    alloc: Global,
    view: &View,
    tables: &Tables,
    file: u32,
    tree: &FileTree,
) -> Result<Vec<Option<NodeRef>>, NoMemory>
    requires small { length tree.now.nodes ≤ 2 ^ 32 }
    requires near { AreEnds (world_of view.now) view.now.entries.items false tables.now.near.items }
    requires far { AreEnds (world_of view.now) view.now.entries.items true tables.now.far.items }
    ensures { IfOk result (λ row. IsRowBy (IsOwnerAt (world_of view.now)) file row.items (length tree.now.nodes)) }
{
    let end = tree.nodes.as_slice().len();
    let row = row_of(alloc, view, tables, file, end)?;
    Ok(row)
}

/// For each node of each file the type of which it declares a method.
pub fn owners_of(
    alloc: Global,
    view: &View,
    tables: &Tables,
    trees: &[FileTree],
) -> Result<Vec<Vec<Option<NodeRef>>>, NoMemory>
    requires small { AreSmall trees.now }
    requires few { length trees.now ≤ 2 ^ 32 }
    requires near { AreEnds (world_of view.now) view.now.entries.items false tables.now.near.items }
    requires far { AreEnds (world_of view.now) view.now.entries.items true tables.now.far.items }
    ensures { IfOk result (λ rows. AreOwners (world_of view.now) trees.now rows.items) }
{
    let mut rows = Vec::new(alloc);
    let end = trees.len();
    for file in 0..end {
        rows.push(tree_row(alloc, view, tables, file as u32, &trees[file])?)?;
    }
    Ok(rows)
}
