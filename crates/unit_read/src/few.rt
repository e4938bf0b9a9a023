//! Tables of rows in which few cells have something.
ghost use Rattle.std.specs.Prelude.{◌≡◌, IfOk};
ghost use Rattle.go_tree.specs.declared.tree.NodeRef.{NodeRef as ANode};
ghost use Rattle.unit_read.specs.Entries.{entry};
ghost use Rattle.unit_read.specs.Subjects.{cell};

use crate::entries::Entries;
use go_tree::NodeRef;
use gv_base::NoMemory;
use std::alloc::Global;

/// What a table has for a node.
pub fn entry<T: Copy>(rows: &Vec<Entries<T>>, at: NodeRef) -> Option<T>
    ensures { result ≡ entry rows.now.items at }
{
    match rows.get(at.file as usize) {
        Some(row) => row.get(at.node as usize),
        None => None,
    }
}

/// The same table, of rows that keep only the cells that have something. It takes the full rows, whose memory is free again.
pub fn entry_rows<T: Copy>(
    alloc: Global,
    rows: Vec<Vec<Option<T>>>,
) -> Result<Vec<Entries<T>>, NoMemory>
    ensures { IfOk result (λ table. (at : ANode) → entry table.items at ≡ cell rows.items at) }
{
    let mut table = Vec::with_capacity(alloc, rows.len())?;
    for file in 0..rows.len() {
        let row = Entries::of(alloc, rows[file].as_slice())?;
        table.push(row)?;
    }
    Ok(table)
}
