//! Nodes of a file, and the names or expressions that they stand for.
ghost use Rattle.std.specs.Prelude.{◌≡◌, ◌∷◌, [], length, slice_get};
ghost use Rattle.std.specs.Option.{option_copied};
ghost use Rattle.package_objects.specs.Declares.{is_list, listed, items_at, items, part, kind_at};

use go_tree::{Node, NodeKind};

/// A node by its number, if it is there.
pub fn node_of(nodes: &[Node], n: u32) -> Option<&Node>
    ensures { option_copied result ≡ slice_get nodes.now n }
{
    nodes.get(n as usize)
}

/// The kind of a node; the kind of a package clause, where there is no such node.
pub fn kind_of(nodes: &[Node], n: u32) -> NodeKind
    ensures { result ≡ kind_at nodes.now n }
{
    match node_of(nodes, n) {
        Some(node) => node.kind,
        None => NodeKind::Package,
    }
}

/// The number of a node's part, if it has so many.
pub fn part_of(node: &Node, i: usize) -> Option<u32>
    ensures { result ≡ part node.now i }
{
    node.parts.as_slice().get(i).copied()
}

/// How many parts a node has.
pub fn part_count(node: &Node) -> usize
    ensures { result ≡ length node.now.parts }
{
    node.parts.as_slice().len()
}

fn is_list_node(kind: NodeKind) -> bool
    ensures { result ≡ is_list kind }
{
    match kind {
        NodeKind::Names => true,
        NodeKind::Exprs => true,
        _ => false,
    }
}

fn count_in(node: &Node, n: u32) -> usize
    ensures { result ≡ length (listed n node.now) }
{
    if is_list_node(node.kind) {
        return part_count(node);
    }
    1
}

fn count_at(nodes: &[Node], n: u32) -> usize
    ensures { result ≡ length (items_at nodes.now n) }
{
    match node_of(nodes, n) {
        Some(node) => count_in(node, n),
        None => 0,
    }
}

/// How many names or expressions a node stands for.
pub fn count(nodes: &[Node], n: Option<u32>) -> usize
    ensures { result ≡ length (items nodes.now n) }
{
    match n {
        Some(n) => count_at(nodes, n),
        None => 0,
    }
}

#[tactic(auto, using(crate::proofs::GatherLemmas::single))]
fn only(n: u32, i: usize) -> Option<u32>
    ensures { result ≡ slice_get (n ∷ []) i }
{
    if i == 0 { Some(n) } else { None }
}

fn item_in(node: &Node, n: u32, i: usize) -> Option<u32>
    ensures { result ≡ slice_get (listed n node.now) i }
{
    if is_list_node(node.kind) {
        return part_of(node, i);
    }
    only(n, i)
}

fn item_at(nodes: &[Node], n: u32, i: usize) -> Option<u32>
    ensures { result ≡ slice_get (items_at nodes.now n) i }
{
    match node_of(nodes, n) {
        Some(node) => item_in(node, n, i),
        None => None,
    }
}

/// One of the names or expressions that a node stands for, if it stands for so many.
pub fn item(nodes: &[Node], n: Option<u32>, i: usize) -> Option<u32>
    ensures { result ≡ slice_get (items nodes.now n) i }
{
    match n {
        Some(n) => item_at(nodes, n, i),
        None => None,
    }
}
