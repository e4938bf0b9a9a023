//! The first places of nodes in a list.
ghost use Rattle.std.specs.Prelude.{◌≡◌, IfOk, length};
ghost use Rattle.std.specs.List.{list_all};
ghost use Rattle.go_tree.specs.declared.tree.NodeRef.{NodeRef as ANode};
ghost use Rattle.unit_read.specs.Entries.{entry};
ghost use Rattle.unit_read.specs.Rows.{AreRows};
ghost use Rattle.unit_rows.specs.Rows.{first_in, first_for};
ghost use Rattle.unit_rows.specs.Tables.{PutsNext, is_gap};

use crate::tables::{blank_rows, put_in};
use go_tree::{FileTree, NodeRef};
use gv_base::NoMemory;
use std::alloc::Global;
use unit_read::{Entries, entry_rows};

/// Puts the place of what stands next in the list.
fn put_next(rows: &mut Vec<Vec<Option<usize>>>, next: Option<NodeRef>, place: usize)
    ensures { PutsNext rows.old.items rows.new.items next place }
{
    if let Some(at) = next {
        put_in(rows, at, place);
    }
}

/// For each node of each file its first place in a list.
pub fn first_rows(
    alloc: Global,
    trees: &[FileTree],
    list: &[Option<NodeRef>],
) -> Result<Vec<Vec<Option<usize>>>, NoMemory>
    ensures { IfOk result (λ rows. AreRows (first_in list.now) trees.now rows.items (length trees.now)) }
{
    let mut rows = blank_rows(alloc, trees)?;
    for place in 0..list.len() {
        put_next(&mut rows, list[place], place);
    }
    Ok(rows)
}

fn is_gap(next: Option<NodeRef>) -> bool
    ensures { result ≡ is_gap next }
{
    match next {
        Some(_) => false,
        None => true,
    }
}

/// Whether nothing stands in a list.
fn is_bare(list: &[Option<NodeRef>]) -> bool
    ensures { result ≡ list_all is_gap list.now }
{
    list.iter().all(|next| is_gap(*next))
}

/// The same by few nodes. Of a list in which nothing stands nothing is kept.
pub fn first_entries(
    alloc: Global,
    trees: &[FileTree],
    list: &[Option<NodeRef>],
) -> Result<Vec<Entries<usize>>, NoMemory>
    ensures { IfOk result (λ table. (at : ANode) → entry table.items at ≡ first_for trees.now list.now at) }
{
    if is_bare(list) {
        return Ok(Vec::new(alloc));
    }
    let cells = first_rows(alloc, trees, list)?;
    let table = entry_rows(alloc, cells)?;
    Ok(table)
}
