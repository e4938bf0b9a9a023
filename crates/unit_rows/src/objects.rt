//! What the nodes of a package denote.
ghost use Rattle.std.specs.Prelude.{◌≡◌, IfOk, length};
ghost use Rattle.unit_read.specs.Rows.{AreRows};
ghost use Rattle.unit_rows.specs.Rows.{object_for};
ghost use Rattle.unit_rows.specs.Tables.{PutsIn};

use crate::tables::{blank_rows, put_in};
use go_tree::{Bindings, FileTree, NodeRef, Object};
use gv_base::NoMemory;
use std::alloc::Global;

/// Puts what a use denotes.
fn put_use(rows: &mut Vec<Vec<Option<Object>>>, entry: (NodeRef, Object))
    ensures { PutsIn rows.old.items rows.new.items entry.0.file entry.0.node entry.1 }
{
    put_in(rows, entry.0, entry.1);
}

fn rows_of(
    alloc: Global,
    entries: &[(NodeRef, Object)],
    trees: &[FileTree],
) -> Result<Vec<Vec<Option<Object>>>, NoMemory>
    ensures { IfOk result (λ rows. AreRows (object_for entries.now) trees.now rows.items (length trees.now)) }
{
    let mut rows = blank_rows(alloc, trees)?;
    for k in 0..entries.len() {
        put_use(&mut rows, entries[k]);
    }
    Ok(rows)
}

/// For each node of each file what it denotes. One walk over the uses puts each into its cell.
pub fn object_rows(
    alloc: Global,
    uses: &Bindings,
    trees: &[FileTree],
) -> Result<Vec<Vec<Option<Object>>>, NoMemory>
    ensures { IfOk result (λ rows. AreRows (object_for uses.now) trees.now rows.items (length trees.now)) }
{
    let rows = rows_of(alloc, uses.entries(), trees)?;
    Ok(rows)
}
