//! What the clauses of a switch list.
ghost use Rattle.std.specs.Prelude.{◌≡◌, ◌++◌, IfOk, OnOk, Some};
ghost use Rattle.go_tree.specs.declared.tree.NodeKind.TheVariants as k;
ghost use Rattle.package_objects.specs.Declares.{items_at, items, listed as one_or_parts};
ghost use Rattle.duplicate_cases.specs.Duplicates.{listed_types, types_at, listed_by, listed_in, nth_listed, listed};

use crate::words::{is_list, is_type_list};
use go_tree::{Node, NodeKind};
use gv_base::NoMemory;
use package_objects::{node_of, part_count, part_of};
use std::alloc::Global;

fn push_parts(parts: &[u32], out: &mut Vec<u32>) -> Result<(), NoMemory>
    ensures { OnOk result (out.new.items ≡ out.old.items ++ parts.now) }
{
    for part in parts {
        out.push(*part)?;
    }
    Ok(())
}

fn push_item(node: &Node, n: u32, out: &mut Vec<u32>) -> Result<(), NoMemory>
    ensures { OnOk result (out.new.items ≡ out.old.items ++ one_or_parts n node.now) }
{
    if is_list(node.kind) {
        push_parts(node.parts.as_slice(), out)?;
    } else {
        out.push(n)?;
    }
    Ok(())
}

/// Adds what a node stands for.
fn push_items_at(nodes: &[Node], n: u32, out: &mut Vec<u32>) -> Result<(), NoMemory>
    ensures { OnOk result (out.new.items ≡ out.old.items ++ items_at nodes.now n) }
{
    match node_of(nodes, n) {
        Some(node) => push_item(node, n, out)?,
        None => {}
    }
    Ok(())
}

fn push_items(nodes: &[Node], n: Option<u32>, out: &mut Vec<u32>) -> Result<(), NoMemory>
    ensures { OnOk result (out.new.items ≡ out.old.items ++ items nodes.now n) }
{
    match n {
        Some(n) => push_items_at(nodes, n, out)?,
        None => {}
    }
    Ok(())
}

fn push_listed_types(
    nodes: &[Node],
    n: u32,
    node: &Node,
    out: &mut Vec<u32>,
) -> Result<(), NoMemory>
    ensures { OnOk result (out.new.items ≡ out.old.items ++ listed_types nodes.now n node.now) }
{
    if is_type_list(node.kind) {
        push_parts(node.parts.as_slice(), out)?;
    } else {
        push_items_at(nodes, n, out)?;
    }
    Ok(())
}

fn push_types_at(nodes: &[Node], n: u32, out: &mut Vec<u32>) -> Result<(), NoMemory>
    ensures { OnOk result (out.new.items ≡ out.old.items ++ types_at nodes.now n) }
{
    match node_of(nodes, n) {
        Some(node) => push_listed_types(nodes, n, node, out)?,
        None => {}
    }
    Ok(())
}

fn push_types(nodes: &[Node], clause: &Node, out: &mut Vec<u32>) -> Result<(), NoMemory>
    ensures { OnOk result (out.new.items ≡ out.old.items ++ listed_by nodes.now k.TypeCase clause.now) }
{
    match part_of(clause, 0) {
        Some(n) => push_types_at(nodes, n, out)?,
        None => {}
    }
    Ok(())
}

/// Adds what a clause of a kind lists.
fn push_by(
    nodes: &[Node],
    kind: NodeKind,
    clause: &Node,
    out: &mut Vec<u32>,
) -> Result<(), NoMemory>
    ensures { OnOk result (out.new.items ≡ out.old.items ++ listed_by nodes.now kind clause.now) }
{
    match kind {
        NodeKind::Case => push_items(nodes, part_of(clause, 0), out)?,
        NodeKind::TypeCase => push_types(nodes, clause, out)?,
        _ => {}
    }
    Ok(())
}

fn push_in(nodes: &[Node], n: u32, out: &mut Vec<u32>) -> Result<(), NoMemory>
    ensures { OnOk result (out.new.items ≡ out.old.items ++ listed_in nodes.now n) }
{
    match node_of(nodes, n) {
        Some(clause) => push_by(nodes, clause.kind, clause, out)?,
        None => {}
    }
    Ok(())
}

fn push_nth(nodes: &[Node], switch: &Node, i: usize, out: &mut Vec<u32>) -> Result<(), NoMemory>
    ensures { OnOk result (out.new.items ≡ out.old.items ++ nth_listed nodes.now switch.now i) }
{
    match part_of(switch, i) {
        Some(n) => push_in(nodes, n, out)?,
        None => {}
    }
    Ok(())
}

/// What the clauses of a switch list, in the order of the text.
pub(crate) fn listed(alloc: Global, nodes: &[Node], switch: &Node) -> Result<Vec<u32>, NoMemory>
    ensures { IfOk result (λ list. list.items ≡ listed nodes.now switch.now) }
{
    let mut list = Vec::new(alloc);
    for i in 0..part_count(switch) {
        push_nth(nodes, switch, i, &mut list)?;
    }
    Ok(list)
}
