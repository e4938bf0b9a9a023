//! Receivers, parameters and results of functions with bodies.
ghost use Rattle.std.specs.Prelude.{◌≡◌, ◌++◌, ◌-◌, OnOk, length};
ghost use Rattle.package_objects.specs.Declares.{gather, part, typed, parameter, parameter_at, nth_parameter, is_params, param_list, params_at, nth_params, is_block, ends_in_body, parameters};

use crate::nodes::{kind_of, node_of, part_count, part_of};
use crate::valued::{Valued, add_valued, as_root};
use go_tree::{Node, NodeKind};
use gv_base::NoMemory;
use object_order::{Entry, Role};
use std::alloc::Global;

/// Names with the type that is the second part of their node.
pub fn with_type(role: Role, node: &Node) -> Valued
    ensures { result ≡ typed role node.now }
{
    Valued {
        several: true,
        role: Role::Beside,
        typing: as_root(role, part_of(node, 1)),
        values: None,
    }
}

fn add_parameter(
    alloc: Global,
    file: u32,
    nodes: &[Node],
    node: &Node,
    out: &mut Vec<Entry>,
) -> Result<(), NoMemory>
    ensures { OnOk result (out.new.items ≡ out.old.items ++ parameter file nodes.now node.now.kind node.now) }
{
    match node.kind {
        NodeKind::Param => {
            let list = with_type(Role::Typing, node);
            add_valued(alloc, file, nodes, &[], list, part_of(node, 0), out)
        }
        NodeKind::SpreadParam => {
            let list = with_type(Role::Beside, node);
            add_valued(alloc, file, nodes, &[], list, part_of(node, 0), out)
        }
        _ => Ok(()),
    }
}

fn add_nth_parameter(
    alloc: Global,
    file: u32,
    nodes: &[Node],
    list: &Node,
    i: usize,
    out: &mut Vec<Entry>,
) -> Result<(), NoMemory>
    ensures { OnOk result (out.new.items ≡ out.old.items ++ nth_parameter file nodes.now list.now i) }
{
    if let Some(n) = part_of(list, i) {
        if let Some(node) = node_of(nodes, n) {
            add_parameter(alloc, file, nodes, node, out)?;
        }
    }
    Ok(())
}

fn is_param_list(kind: NodeKind) -> bool
    ensures { result ≡ is_params kind }
{
    match kind {
        NodeKind::Params => true,
        _ => false,
    }
}

/// Adds the parameters that are the parts of a node.
fn add_all(
    alloc: Global,
    file: u32,
    nodes: &[Node],
    list: &Node,
    out: &mut Vec<Entry>,
) -> Result<(), NoMemory>
    ensures { OnOk result (out.new.items ≡ out.old.items ++ gather (nth_parameter file nodes.now list.now) (length list.now.parts)) }
{
    let end = part_count(list);
    for i in 0..end {
        add_nth_parameter(alloc, file, nodes, list, i, out)?;
    }
    Ok(())
}

/// Adds the parameters of a list, if the node is one.
fn add_list(
    alloc: Global,
    file: u32,
    nodes: &[Node],
    list: &Node,
    out: &mut Vec<Entry>,
) -> Result<(), NoMemory>
    ensures { OnOk result (out.new.items ≡ out.old.items ++ param_list file nodes.now list.now) }
{
    if is_param_list(list.kind) {
        add_all(alloc, file, nodes, list, out)?;
    }
    Ok(())
}

fn add_nth_list(
    alloc: Global,
    file: u32,
    nodes: &[Node],
    function: &Node,
    i: usize,
    out: &mut Vec<Entry>,
) -> Result<(), NoMemory>
    ensures { OnOk result (out.new.items ≡ out.old.items ++ nth_params file nodes.now function.now i) }
{
    if let Some(n) = part_of(function, i) {
        if let Some(node) = node_of(nodes, n) {
            add_list(alloc, file, nodes, node, out)?;
        }
    }
    Ok(())
}

fn is_body(kind: NodeKind) -> bool
    ensures { result ≡ is_block kind }
{
    match kind {
        NodeKind::Block => true,
        _ => false,
    }
}

fn one_less(count: usize) -> usize
    ensures { result ≡ count - 1 }
{
    if count == 0 { 0 } else { count - 1 }
}

/// The number of a function's last part.
fn last_part(function: &Node) -> Option<u32>
    ensures { result ≡ part function.now (length function.now.parts - 1) }
{
    let last = one_less(part_count(function));
    part_of(function, last)
}

fn has_body(nodes: &[Node], function: &Node) -> bool
    ensures { result ≡ ends_in_body nodes.now function.now }
{
    match last_part(function) {
        Some(n) => is_body(kind_of(nodes, n)),
        None => false,
    }
}

/// Adds the parameters of the lists among a function's parts.
fn add_lists(
    alloc: Global,
    file: u32,
    nodes: &[Node],
    function: &Node,
    out: &mut Vec<Entry>,
) -> Result<(), NoMemory>
    ensures { OnOk result (out.new.items ≡ out.old.items ++ gather (nth_params file nodes.now function.now) (length function.now.parts)) }
{
    let end = part_count(function);
    for i in 0..end {
        add_nth_list(alloc, file, nodes, function, i, out)?;
    }
    Ok(())
}

/// Adds the receiver, the parameters and the results of a function, if it has a body.
pub fn add_parameters(
    alloc: Global,
    file: u32,
    nodes: &[Node],
    function: &Node,
    out: &mut Vec<Entry>,
) -> Result<(), NoMemory>
    ensures { OnOk result (out.new.items ≡ out.old.items ++ parameters file nodes.now function.now) }
{
    if has_body(nodes, function) {
        add_lists(alloc, file, nodes, function, out)?;
    }
    Ok(())
}
