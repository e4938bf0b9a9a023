//! Flags of what stands in a list.
ghost use Rattle.std.specs.Prelude.{◌≡◌, is_some, IfOk, map};
ghost use Rattle.go_tree.specs.declared.tree.NodeRef.{NodeRef};
ghost use Rattle.unit_read.specs.Subjects.{flag};
ghost use Rattle.unit_rows.specs.Tables.{some_node, items_of, flags_of, is_listed};

use crate::firsts::first_rows;
use go_tree::{FileTree, NodeRef};
use gv_base::NoMemory;
use std::alloc::Global;

fn some_node(at: NodeRef) -> Option<NodeRef>
    ensures { result ≡ some_node at }
{
    Some(at)
}

fn some_nodes(alloc: Global, list: &[NodeRef]) -> Result<Vec<Option<NodeRef>>, NoMemory>
    ensures { IfOk result (λ nodes. nodes.items ≡ map some_node list.now) }
{
    let mut nodes = Vec::new(alloc);
    for at in list {
        nodes.push(some_node(*at))?;
    }
    Ok(nodes)
}

fn is_there(cell: Option<usize>) -> bool
    ensures { result ≡ is_some cell }
{
    cell.is_some()
}

/// For each cell of a row whether something stands in it.
fn row_flags(alloc: Global, row: &[Option<usize>]) -> Result<Vec<bool>, NoMemory>
    ensures { IfOk result (λ flags. flags.items ≡ map is_some row.now) }
{
    let mut flags = Vec::with_capacity(alloc, row.len())?;
    for cell in row {
        flags.push(is_there(*cell))?;
    }
    Ok(flags)
}

/// For each cell of each row whether something stands in it.
fn flag_rows(alloc: Global, rows: &[Vec<Option<usize>>]) -> Result<Vec<Vec<bool>>, NoMemory>
    ensures { IfOk result (λ flags. map items_of flags.items ≡ map flags_of rows.now) }
{
    let mut flags = Vec::new(alloc);
    for row in rows {
        let next = row_flags(alloc, row.as_slice())?;
        flags.push(next)?;
    }
    Ok(flags)
}

/// For each node of each file whether it stands in a list. Of an empty list nothing is kept.
pub fn listed_rows(
    alloc: Global,
    trees: &[FileTree],
    list: &[NodeRef],
) -> Result<Vec<Vec<bool>>, NoMemory>
    ensures { IfOk result (λ flags. (at : NodeRef) → flag flags.items at ≡ is_listed trees.now list.now at) }
{
    if list.is_empty() {
        return Ok(Vec::new(alloc));
    }
    let nodes = some_nodes(alloc, list)?;
    let rows = first_rows(alloc, trees, &nodes)?;
    let flags = flag_rows(alloc, &rows)?;
    Ok(flags)
}
