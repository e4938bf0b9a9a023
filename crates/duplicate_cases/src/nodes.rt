//! Constants and types that stand twice in the clauses of a switch.
ghost use Rattle.std.specs.Prelude.{◌≡◌, ◌≤◌, ◌<◌, ◌^◌, ◌++◌, ◌↔◌, IfOk, OnOk, Contains, length, slice_get, Some};
ghost use Rattle.go_tree.specs.declared.tree.NodeRef.{NodeRef as OneNode};
ghost use Rattle.mark_walk.specs.Asks.{filled};
ghost use Rattle.package_objects.specs.Declares.{AreSmall};
ghost use Rattle.typed_marks.specs.Meanings.{Quiet};
ghost use Rattle.typed_marks.specs.States.{so_far, IsState};
ghost use Rattle.unit_read.specs.Subjects.{unit_of};
ghost use Rattle.duplicate_cases.specs.Duplicates.{IsDuplicateCase};
ghost use Rattle.duplicate_cases.specs.InCode.{switch_duplicates, node_duplicates, nth_duplicates, tree_duplicates, all_duplicates};

use crate::again::add_duplicates;
use crate::listed::listed;
use crate::words::{is_switch, is_type_switch};
use go_tree::{FileTree, Node, NodeRef};
use gv_base::NoMemory;
use package_objects::node_of;
use std::alloc::Global;
use typed_marks::State;
use unit_read::Subject;

fn add_switch(
    alloc: Global,
    s: &State,
    file: u32,
    nodes: &[Node],
    switch: &Node,
    out: &mut Vec<NodeRef>,
) -> Result<(), NoMemory>
    requires { IsState s.now }
    ensures { OnOk result (out.new.items ≡ out.old.items ++ switch_duplicates (filled Quiet (so_far s.now)) file nodes.now switch.now) }
{
    let list = listed(alloc, nodes, switch)?;
    add_duplicates(alloc, s, is_type_switch(switch.kind), file, &list, out)?;
    Ok(())
}

fn add_node(
    alloc: Global,
    s: &State,
    file: u32,
    nodes: &[Node],
    node: &Node,
    out: &mut Vec<NodeRef>,
) -> Result<(), NoMemory>
    requires { IsState s.now }
    ensures { OnOk result (out.new.items ≡ out.old.items ++ node_duplicates (filled Quiet (so_far s.now)) file nodes.now node.now) }
{
    if is_switch(node.kind) {
        add_switch(alloc, s, file, nodes, node, out)?;
    }
    Ok(())
}

fn add_nth(
    alloc: Global,
    s: &State,
    file: u32,
    nodes: &[Node],
    n: u32,
    out: &mut Vec<NodeRef>,
) -> Result<(), NoMemory>
    requires { IsState s.now }
    ensures { OnOk result (out.new.items ≡ out.old.items ++ nth_duplicates (filled Quiet (so_far s.now)) file nodes.now n) }
{
    match node_of(nodes, n) {
        Some(node) => add_node(alloc, s, file, nodes, node, out)?,
        None => {}
    }
    Ok(())
}

fn add_tree(
    alloc: Global,
    s: &State,
    file: u32,
    tree: &FileTree,
    out: &mut Vec<NodeRef>,
) -> Result<(), NoMemory>
    requires state { IsState s.now }
    requires small { length tree.now.nodes ≤ 2 ^ 32 }
    ensures { OnOk result (out.new.items ≡ out.old.items ++ tree_duplicates (filled Quiet (so_far s.now)) file tree.now) }
{
    let nodes = tree.nodes.as_slice();
    for n in 0..nodes.len() {
        add_nth(alloc, s, file, nodes, n as u32, out)?;
    }
    Ok(())
}

fn tree_of<'a>(trees: &'a [FileTree], k: usize) -> &'a FileTree
    requires { k < length trees.now }
    ensures { slice_get trees.now k ≡ Some result.now }
{
    &trees[k]
}

fn add_trees(
    alloc: Global,
    s: &State,
    trees: &[FileTree],
    out: &mut Vec<NodeRef>,
) -> Result<(), NoMemory>
    requires state { IsState s.now }
    requires small { AreSmall trees.now }
    requires few { length trees.now ≤ 2 ^ 32 }
    ensures { OnOk result (out.new.items ≡ out.old.items ++ all_duplicates trees.now (filled Quiet (so_far s.now))) }
{
    for file in 0..trees.len() {
        add_tree(alloc, s, file as u32, tree_of(trees, file), out)?;
    }
    Ok(())
}

/// The nodes in the clauses of switches that stand there before: integers and strings of one value and type, types, and `nil`.
pub fn duplicate_nodes(alloc: Global, u: &Subject, s: &State) -> Result<Vec<NodeRef>, NoMemory>
    requires state { IsState s.now }
    requires small { AreSmall u.now.trees.now }
    requires few { length u.now.trees.now ≤ 2 ^ 32 }
    ensures { IfOk result (λ list. (at : OneNode) → Contains list.items at ↔ IsDuplicateCase (unit_of u.now) (filled Quiet (so_far s.now)) at) }
{
    let mut list = Vec::new(alloc);
    add_trees(alloc, s, u.trees, &mut list)?;
    Ok(list)
}
