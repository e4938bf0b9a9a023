//! Which names need themselves.
ghost use Rattle.std.specs.Prelude.{◌≡◌, ◌++◌, slice_get, IfOk, OnOk};
ghost use Rattle.go_tree.specs.declared.tree.NodeRef.{NodeRef};
ghost use Rattle.unit_read.specs.Subjects.{flag};
ghost use Rattle.unit_rows.specs.Cyclic.{if_cyclic, nth_cyclic, all_cyclic, is_cyclic};

use crate::flags::listed_rows;
use go_tree::{FileTree, NodeRef};
use gv_base::NoMemory;
use object_order::Needed;
use std::alloc::Global;

fn add_if(needed: Needed, out: &mut Vec<NodeRef>) -> Result<(), NoMemory>
    ensures { OnOk result (out.new.items ≡ out.old.items ++ if_cyclic needed) }
{
    if needed.cyclic {
        out.push(needed.object)?;
    }
    Ok(())
}

fn nth(order: &[Needed], i: usize) -> Option<Needed>
    ensures { result ≡ slice_get order.now i }
{
    order.get(i).copied()
}

fn add_nth(order: &[Needed], i: usize, out: &mut Vec<NodeRef>) -> Result<(), NoMemory>
    ensures { OnOk result (out.new.items ≡ out.old.items ++ nth_cyclic order.now i) }
{
    if let Some(needed) = nth(order, i) {
        add_if(needed, out)?;
    }
    Ok(())
}

/// The names that an order of need marks.
pub fn all_cyclic(alloc: Global, order: &[Needed]) -> Result<Vec<NodeRef>, NoMemory>
    ensures { IfOk result (λ names. names.items ≡ all_cyclic order.now) }
{
    let mut out = Vec::new(alloc);
    for i in 0..order.len() {
        add_nth(order, i, &mut out)?;
    }
    Ok(out)
}

/// For each node of each file whether it is a name that an order of need marks.
pub fn cyclic_rows(
    alloc: Global,
    trees: &[FileTree],
    order: &[Needed],
) -> Result<Vec<Vec<bool>>, NoMemory>
    ensures { IfOk result (λ flags. (at : NodeRef) → flag flags.items at ≡ is_cyclic trees.now order.now at) }
{
    let list = all_cyclic(alloc, order)?;
    let flags = listed_rows(alloc, trees, &list)?;
    Ok(flags)
}
