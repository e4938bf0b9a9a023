//! Where functions are declared, and their bodies.
ghost use Rattle.std.specs.Prelude.{◌≡◌, ℕ, List, map, option_map, slice_get};
ghost use Rattle.go_tree.specs.Lexeme.{place_of};
ghost use Rattle.unit_read.specs.Index.{found};
ghost use Rattle.findings.specs.Passes.{unit_in};
ghost use Rattle.own_functions.specs.Functions.{functions, names, declared_at, is_block, last_part, if_block, block_of, block_at};
ghost use Rattle.own_functions.specs.InCode.{named_in};

use crate::functions::Declared;
use findings::Pass;
use go_tree::{Node, NodeKind, NodeRef};
use package_objects::{kind_of, node_of, part_of};
use std::collections::HashMap;
use unit_read::find;

// ---- bodies

fn is_block(kind: NodeKind) -> bool
    ensures { result ≡ is_block kind }
{
    matches!(kind, NodeKind::Block)
}

fn last_part(node: &Node) -> Option<u32>
    ensures { result ≡ last_part node.now }
{
    let count = node.parts.as_slice().len();
    if count == 0 {
        return part_of(node, 0);
    }
    part_of(node, count - 1)
}

fn if_block(nodes: &[Node], n: u32) -> Option<u32>
    ensures { result ≡ if_block nodes.now n }
{
    if is_block(kind_of(nodes, n)) {
        Some(n)
    } else {
        None
    }
}

fn block_of(nodes: &[Node], node: &Node) -> Option<u32>
    ensures { result ≡ block_of nodes.now node.now }
{
    match last_part(node) {
        Some(n) => if_block(nodes, n),
        None => None,
    }
}

/// The block of the declaration that is a node, if it has one.
pub fn block_at(nodes: &[Node], n: u32) -> Option<u32>
    ensures { result ≡ block_at nodes.now n }
{
    match node_of(nodes, n) {
        Some(node) => block_of(nodes, node),
        None => None,
    }
}

fn nth_at(list: &[Declared], i: usize) -> Option<NodeRef>
    ensures { result ≡ option_map (λ d. d.at) (slice_get list.now i) }
{
    match list.get(i) {
        Some(d) => Some(d.at),
        None => None,
    }
}

/// Where the first function or method of a name is declared.
pub fn declared_at(
    p: &Pass,
    list: &[Declared],
    numbers: &HashMap<&[u8], usize>,
    name: &[u8],
) -> Option<NodeRef>
    requires list { map named_in list.now ≡ functions (unit_in p.now) }
    requires numbers { (q : List ℕ) → found numbers.now q ≡ place_of (names (unit_in p.now)) q }
    ensures { result ≡ declared_at (unit_in p.now) name.now }
{
    let _ = p;
    match find(numbers, name) {
        Some(i) => nth_at(list, i),
        None => None,
    }
}
