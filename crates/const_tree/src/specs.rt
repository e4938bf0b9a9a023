//! The specifications of a file's constant declarations.
ghost use Rattle.std.specs.Prelude.{◌≡◌, ◌+◌, ◌++◌, ◌≤◌, ◌<◌, ℕ, length, slice_get, slice_index_or, None, IfOk, OnOk};
ghost use Rattle.std.specs.Option.{option_copied};
ghost use Rattle.package_objects.specs.Declares.{gather};
ghost use Rattle.const_tree.specs.Constants.{is_declaration, spec_for, nth_spec, specs_of, specs_at, specs_in, first_from, AreBefore};

use crate::constant::Spec;
use go_tree::{Node, NodeKind};
use gv_base::NoMemory;
use package_objects::{next_source, part_count, part_of};
use std::alloc::Global;

fn is_declaration(kind: NodeKind) -> bool
    ensures { result ≡ is_declaration kind }
{
    match kind {
        NodeKind::Const => true,
        NodeKind::ConstGroup => true,
        _ => false,
    }
}

/// Adds the specification of a node, its number in its declaration, and whose list counts for it.
fn add_spec(
    part: Option<u32>,
    iota: u64,
    source: Option<u32>,
    out: &mut Vec<Spec>,
) -> Result<(), NoMemory>
    ensures { OnOk result (out.new.items ≡ out.old.items ++ spec_for part iota source) }
{
    if let Some(node) = part {
        out.push(Spec { node, iota, source })?;
    }
    Ok(())
}

/// Adds the specifications of a constant declaration.
fn add_specs(nodes: &[Node], node: &Node, out: &mut Vec<Spec>) -> Result<(), NoMemory>
    ensures { OnOk result (out.new.items ≡ out.old.items ++ gather (nth_spec nodes.now node.now) (length node.now.parts)) }
{
    let mut source = None;
    for i in 0..part_count(node) {
        let part = part_of(node, i);
        source = next_source(nodes, source, part);
        add_spec(part, i as u64, source, out)?;
    }
    Ok(())
}

fn add_of(nodes: &[Node], node: &Node, out: &mut Vec<Spec>) -> Result<(), NoMemory>
    ensures { OnOk result (out.new.items ≡ out.old.items ++ specs_of nodes.now node.now) }
{
    if is_declaration(node.kind) {
        add_specs(nodes, node, out)?;
    }
    Ok(())
}

/// The node of a number.
fn nth_node(nodes: &[Node], n: usize) -> Option<&Node>
    ensures { option_copied result ≡ slice_get nodes.now n }
{
    nodes.get(n)
}

fn add_at(nodes: &[Node], n: usize, out: &mut Vec<Spec>) -> Result<(), NoMemory>
    ensures { OnOk result (out.new.items ≡ out.old.items ++ specs_at nodes.now n) }
{
    if let Some(node) = nth_node(nodes, n) {
        add_of(nodes, node, out)?;
    }
    Ok(())
}

/// The constant specifications of a file, in order.
pub fn specs_in(alloc: Global, nodes: &[Node]) -> Result<Vec<Spec>, NoMemory>
    ensures { IfOk result (λ specs. specs.items ≡ specs_in nodes.now) }
{
    let mut out = Vec::new(alloc);
    for n in 0..nodes.len() {
        add_at(nodes, n, &mut out)?;
    }
    Ok(out)
}

/// The first place from this one on of a specification that isn't before a node, or the end.
fn next_from(specs: &[Spec], from: usize, n: usize) -> usize
    requires within { from ≤ length specs.now }
    requires before { AreBefore specs.now from n }
    ensures within { result ≤ length specs.now }
    ensures before { AreBefore specs.now result n }
    ensures first { slice_get specs.now result ≡ first_from n specs.now }
{
    let mut at = from;
    while at < specs.len() {
        if specs[at].node as usize >= n {
            return at;
        }
        at += 1;
    }
    at
}

/// For each node of a file the specification to which it belongs.
pub fn spec_row(
    alloc: Global,
    nodes: &[Node],
    specs: &[Spec],
) -> Result<Vec<Option<Spec>>, NoMemory>
    ensures size { IfOk result (λ row. length row.items ≡ length nodes.now) }
    ensures each { IfOk result (λ row. (n : ℕ) → n < length nodes.now → slice_index_or row.items n None ≡ first_from n specs.now) }
{
    let mut row = Vec::with_capacity(alloc, nodes.len())?;
    let mut at = 0;
    for n in 0..nodes.len() {
        at = next_from(specs, at, n);
        row.push(specs.get(at).copied())?;
    }
    Ok(row)
}
