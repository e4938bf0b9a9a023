//! Which blocks specifications of constants repeat.
ghost use Rattle.std.specs.Prelude.{◌≡◌, IfOk, map};
ghost use Rattle.go_tree.specs.declared.tree.NodeRef.{NodeRef as ANode};
ghost use Rattle.unit_read.specs.Entries.{entry};
ghost use Rattle.unit_read.specs.Units.{repeater};
ghost use Rattle.unit_rows.specs.Rows.{first_for};

use crate::firsts::first_entries;
use go_tree::{FileTree, NodeRef};
use gv_base::NoMemory;
use std::alloc::Global;
use unit_read::{Entries, Passage};

/// The node of the specification that repeats the list of a passage.
fn repeater(passage: Passage) -> Option<NodeRef>
    ensures { result ≡ repeater passage }
{
    match passage.spec {
        Some(spec) => Some(NodeRef {
            file: passage.file,
            node: spec.node,
        }),
        None => None,
    }
}

fn repeaters(alloc: Global, passages: &[Passage]) -> Result<Vec<Option<NodeRef>>, NoMemory>
    ensures { IfOk result (λ list. list.items ≡ map repeater passages.now) }
{
    let mut list = Vec::new(alloc);
    for passage in passages {
        list.push(repeater(*passage))?;
    }
    Ok(list)
}

/// For each node of each file the first block whose list it repeats.
pub fn copies(
    alloc: Global,
    trees: &[FileTree],
    passages: &[Passage],
) -> Result<Vec<Entries<usize>>, NoMemory>
    ensures { IfOk result (λ table. (at : ANode) → entry table.items at ≡ first_for trees.now (map repeater passages.now) at) }
{
    let list = repeaters(alloc, passages)?;
    let table = first_entries(alloc, trees, &list)?;
    Ok(table)
}
