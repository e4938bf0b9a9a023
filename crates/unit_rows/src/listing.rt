//! The defined types of a package.
ghost use Rattle.std.specs.Prelude.{◌≡◌, ◌++◌, ◌≤◌, ◌^◌, length, IfOk, OnOk};
ghost use Rattle.package_objects.specs.Declares.{gather, AreSmall};
ghost use Rattle.unit_read.specs.Units.{nodes_of, is_defined_node, named_node, named, defined_by, defined_at};
ghost use Rattle.unit_rows.specs.Defined.{nodes_in, defined_of, all_defined};

use go_tree::{FileTree, Node, NodeKind, NodeRef, tree_in};
use gv_base::NoMemory;
use package_objects::{node_of, part_of};
use std::alloc::Global;

fn is_defined_node(kind: NodeKind) -> bool
    ensures { result ≡ is_defined_node kind }
{
    match kind {
        NodeKind::Defined => true,
        _ => false,
    }
}

fn add_node(file: u32, nodes: &[Node], n: u32, out: &mut Vec<NodeRef>) -> Result<(), NoMemory>
    ensures { OnOk result (out.new.items ≡ out.old.items ++ named_node file nodes.now n) }
{
    if let Some(_node) = node_of(nodes, n) {
        out.push(NodeRef { file, node: n })?;
    }
    Ok(())
}

fn add_name(
    file: u32,
    nodes: &[Node],
    name: Option<u32>,
    out: &mut Vec<NodeRef>,
) -> Result<(), NoMemory>
    ensures { OnOk result (out.new.items ≡ out.old.items ++ named file nodes.now name) }
{
    if let Some(n) = name {
        add_node(file, nodes, n, out)?;
    }
    Ok(())
}

/// Adds the name of the type that a node defines.
fn add_of(file: u32, nodes: &[Node], node: &Node, out: &mut Vec<NodeRef>) -> Result<(), NoMemory>
    ensures { OnOk result (out.new.items ≡ out.old.items ++ defined_by file nodes.now node.now) }
{
    if is_defined_node(node.kind) {
        add_name(file, nodes, part_of(node, 0), out)?;
    }
    Ok(())
}

fn add_at(file: u32, nodes: &[Node], n: u32, out: &mut Vec<NodeRef>) -> Result<(), NoMemory>
    ensures { OnOk result (out.new.items ≡ out.old.items ++ defined_at file nodes.now n) }
{
    if let Some(node) = node_of(nodes, n) {
        add_of(file, nodes, node, out)?;
    }
    Ok(())
}

fn add_nodes(file: u32, nodes: &[Node], out: &mut Vec<NodeRef>) -> Result<(), NoMemory>
    requires { length nodes.now ≤ 2 ^ 32 }
    ensures { OnOk result (out.new.items ≡ out.old.items ++ gather (defined_at file nodes.now) (length nodes.now)) }
{
    for n in 0..nodes.len() {
        add_at(file, nodes, n as u32, out)?;
    }
    Ok(())
}

fn nodes_in(trees: &[FileTree], file: u32) -> &[Node]
    ensures { result.now ≡ nodes_in trees.now file }
{
    match tree_in(trees, file) {
        Some(tree) => tree.nodes.as_slice(),
        None => &[],
    }
}

fn add_file(trees: &[FileTree], file: u32, out: &mut Vec<NodeRef>) -> Result<(), NoMemory>
    requires { AreSmall trees.now }
    ensures { OnOk result (out.new.items ≡ out.old.items ++ defined_of trees.now file) }
{
    add_nodes(file, nodes_in(trees, file), out)?;
    Ok(())
}

/// The names of the defined types of a package, in order of file and place.
pub fn defined(alloc: Global, trees: &[FileTree]) -> Result<Vec<NodeRef>, NoMemory>
    requires small { AreSmall trees.now }
    requires few { length trees.now ≤ 2 ^ 32 }
    ensures { IfOk result (λ list. list.items ≡ all_defined trees.now) }
{
    let mut out = Vec::new(alloc);
    for file in 0..trees.len() {
        add_file(trees, file as u32, &mut out)?;
    }
    Ok(out)
}
