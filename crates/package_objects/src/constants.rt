//! Constant declarations, with lists that repeat.
ghost use Rattle.std.specs.Prelude.{◌≡◌, ◌++◌, OnOk};
ghost use Rattle.package_objects.specs.Declares.{has_list, no_list, const_list, list_of, newer, source_with, const_names, const_at, constants};

use crate::nodes::{kind_of, node_of, part_count, part_of};
use crate::valued::{Valued, add_valued, as_root};
use go_tree::{Node, NodeKind};
use gv_base::NoMemory;
use object_order::{Entry, Role};
use std::alloc::Global;

/// Whether a constant specification has values.
fn has_values(kind: NodeKind) -> bool
    ensures { result ≡ has_list kind }
{
    match kind {
        NodeKind::ConstValues => true,
        NodeKind::ConstTyped => true,
        _ => false,
    }
}

fn nothing() -> Valued
    ensures { result ≡ no_list }
{
    Valued {
        several: false,
        role: Role::Resting,
        typing: None,
        values: None,
    }
}

/// What a specification says of type and values.
fn list_in(spec: &Node) -> Valued
    ensures { result ≡ const_list spec.now.kind spec.now }
{
    match spec.kind {
        NodeKind::ConstTyped => Valued {
            several: false,
            role: Role::Resting,
            typing: as_root(Role::Typing, part_of(spec, 1)),
            values: part_of(spec, 2),
        },
        NodeKind::ConstValues => Valued {
            several: false,
            role: Role::Resting,
            typing: None,
            values: part_of(spec, 1),
        },
        _ => nothing(),
    }
}

/// What the specification of a node says of type and values; nothing where there is none.
pub fn list_at(nodes: &[Node], source: Option<u32>) -> Valued
    ensures { result ≡ list_of nodes.now source }
{
    match source {
        Some(n) => match node_of(nodes, n) {
            Some(spec) => list_in(spec),
            None => nothing(),
        },
        None => nothing(),
    }
}

fn newer_source(nodes: &[Node], source: Option<u32>, n: u32) -> Option<u32>
    ensures { result ≡ newer nodes.now source n }
{
    if has_values(kind_of(nodes, n)) {
        return Some(n);
    }
    source
}

/// The specification whose list counts from the next one on.
pub fn next_source(nodes: &[Node], source: Option<u32>, spec: Option<u32>) -> Option<u32>
    ensures { result ≡ source_with nodes.now source spec }
{
    match spec {
        Some(n) => newer_source(nodes, source, n),
        None => source,
    }
}

fn add_const_names(
    alloc: Global,
    file: u32,
    nodes: &[Node],
    source: Option<u32>,
    spec: &Node,
    out: &mut Vec<Entry>,
) -> Result<(), NoMemory>
    ensures { OnOk result (out.new.items ≡ out.old.items ++ const_names file nodes.now source spec.now) }
{
    let list = list_at(nodes, source);
    add_valued(alloc, file, nodes, &[], list, part_of(spec, 0), out)
}

/// Adds the names of a specification, with the list of another or its own.
fn add_const_spec(
    alloc: Global,
    file: u32,
    nodes: &[Node],
    source: Option<u32>,
    spec: Option<u32>,
    out: &mut Vec<Entry>,
) -> Result<(), NoMemory>
    ensures { OnOk result (out.new.items ≡ out.old.items ++ const_at file nodes.now source spec) }
{
    if let Some(n) = spec {
        if let Some(node) = node_of(nodes, n) {
            add_const_names(alloc, file, nodes, source, node, out)?;
        }
    }
    Ok(())
}

/// Adds the names of a constant declaration.
pub fn add_constants(
    alloc: Global,
    file: u32,
    nodes: &[Node],
    node: &Node,
    out: &mut Vec<Entry>,
) -> Result<(), NoMemory>
    ensures { OnOk result (out.new.items ≡ out.old.items ++ constants file nodes.now node.now) }
{
    let mut source = None;
    let end = part_count(node);
    for i in 0..end {
        let spec = part_of(node, i);
        source = next_source(nodes, source, spec);
        add_const_spec(alloc, file, nodes, source, spec, out)?;
    }
    Ok(())
}
