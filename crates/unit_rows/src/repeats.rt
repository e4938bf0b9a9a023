//! Which members of structs and interfaces have the name of an earlier one.
ghost use Rattle.std.specs.Prelude.{◌≡◌, ◌++◌, ◌≤◌, ◌^◌, length, map, IfOk, OnOk};
ghost use Rattle.go_tree.specs.declared.tree.NodeRef.{NodeRef};
ghost use Rattle.object_order.specs.Spots.{place};
ghost use Rattle.unit_read.specs.Members.{repeats_of, is_member_list, repeats_by, repeats_at, repeats_in, repeats, is_repeat};
ghost use Rattle.unit_read.specs.Subjects.{flag, unit_of};
ghost use Rattle.unit_read.specs.Units.{nodes_at};
ghost use Rattle.package_objects.specs.Declares.{AreSmall};

use crate::again::add_again;
use crate::flags::listed_rows;
use crate::members::{member_names, members_in};
use go_tree::{Node, NodeKind, NodeRef};
use gv_base::NoMemory;
use package_objects::node_of;
use std::alloc::Global;
use unit_read::Subject;

fn place(file: u32, node: u32) -> NodeRef
    ensures { result ≡ place file node }
{
    NodeRef { file, node }
}

/// The nodes of a file by their numbers.
fn nodes_of(alloc: Global, file: u32, members: &[u32]) -> Result<Vec<NodeRef>, NoMemory>
    ensures { IfOk result (λ nodes. nodes.items ≡ map (place file) members.now) }
{
    let mut nodes = Vec::new(alloc);
    for member in members {
        nodes.push(place(file, *member))?;
    }
    Ok(nodes)
}

/// Adds those of some members that have the name of an earlier one.
fn add_members(
    alloc: Global,
    s: &Subject,
    members: &[NodeRef],
    out: &mut Vec<NodeRef>,
) -> Result<(), NoMemory>
    ensures { OnOk result (out.new.items ≡ out.old.items ++ repeats_of (unit_of s.now) members.now) }
{
    let names = member_names(alloc, s, members)?;
    add_again(alloc, &names, members, out)?;
    Ok(())
}

fn is_member_list(kind: NodeKind) -> bool
    ensures { result ≡ is_member_list kind }
{
    match kind {
        NodeKind::StructType => true,
        NodeKind::InterfaceType => true,
        _ => false,
    }
}

/// Adds those of a struct or an interface.
fn add_of(
    alloc: Global,
    s: &Subject,
    file: u32,
    node: &Node,
    out: &mut Vec<NodeRef>,
) -> Result<(), NoMemory>
    ensures { OnOk result (out.new.items ≡ out.old.items ++ repeats_by (unit_of s.now) file node.now) }
{
    if is_member_list(node.kind) {
        let members = members_in(alloc, s.nodes_at(file), node)?;
        let nodes = nodes_of(alloc, file, &members)?;
        add_members(alloc, s, &nodes, out)?;
    }
    Ok(())
}

fn add_at(
    alloc: Global,
    s: &Subject,
    file: u32,
    n: u32,
    out: &mut Vec<NodeRef>,
) -> Result<(), NoMemory>
    ensures { OnOk result (out.new.items ≡ out.old.items ++ repeats_at (unit_of s.now) file n) }
{
    if let Some(node) = node_of(s.nodes_at(file), n) {
        add_of(alloc, s, file, node, out)?;
    }
    Ok(())
}

fn add_file(alloc: Global, s: &Subject, file: u32, out: &mut Vec<NodeRef>) -> Result<(), NoMemory>
    requires { length (nodes_at (unit_of s.now) file) ≤ 2 ^ 32 }
    ensures { OnOk result (out.new.items ≡ out.old.items ++ repeats_in (unit_of s.now) file) }
{
    let nodes = s.nodes_at(file);
    for n in 0..nodes.len() {
        add_at(alloc, s, file, n as u32, out)?;
    }
    Ok(())
}

/// The members that have the name of an earlier one of their struct or interface.
fn repeats(alloc: Global, s: &Subject) -> Result<Vec<NodeRef>, NoMemory>
    requires small { AreSmall s.now.trees.now }
    requires few { length s.now.trees.now ≤ 2 ^ 32 }
    ensures { IfOk result (λ list. list.items ≡ repeats (unit_of s.now)) }
{
    let mut out = Vec::new(alloc);
    for file in 0..s.trees.len() {
        add_file(alloc, s, file as u32, &mut out)?;
    }
    Ok(out)
}

/// For each node of each file whether it is a member that has the name of an earlier one.
pub fn repeat_rows(alloc: Global, s: &Subject) -> Result<Vec<Vec<bool>>, NoMemory>
    requires small { AreSmall s.now.trees.now }
    requires few { length s.now.trees.now ≤ 2 ^ 32 }
    ensures { IfOk result (λ flags. (at : NodeRef) → flag flags.items at ≡ is_repeat (unit_of s.now) at) }
{
    let list = repeats(alloc, s)?;
    let flags = listed_rows(alloc, s.trees, &list)?;
    Ok(flags)
}
