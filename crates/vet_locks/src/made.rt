//! Values that are copied where they stand, unless they are made there.
ghost use Rattle.std.specs.Prelude.{◌≡◌, false, option_and_then, slice_get};
ghost use Rattle.std.specs.Option.{option_map_or};
ghost use Rattle.package_objects.specs.Declares.{items, part};
ghost use Rattle.vet_locks.specs.Suspects.{is_literal, is_star, is_call_at, is_led, is_made, is_made_at, copied, pair_words, copied_to, pair_at, is_pair, value_in, value_at, element_at, returned_at};

use crate::suspected::{Suspect, Words};
use go_tree::{Node, NodeKind};
use package_objects::{item, kind_of, node_of, part_of};
use typed_marks::Stage;
use vet_words::{bare, is_call};

// ---- values that are made where they stand

fn is_literal(kind: NodeKind) -> bool
    ensures { result ≡ is_literal kind }
{
    matches!(kind, NodeKind::Composite | NodeKind::Value)
}

fn is_star(kind: NodeKind) -> bool
    ensures { result ≡ is_star kind }
{
    matches!(kind, NodeKind::Star)
}

fn is_call_at(nodes: &[Node], n: u32) -> bool
    ensures { result ≡ is_call_at nodes.now n }
{
    is_call(kind_of(nodes, bare(nodes, n)))
}

fn is_call_part(nodes: &[Node], node: &Node) -> bool
    ensures { result ≡ option_map_or (is_call_at nodes.now) (part node.now 0) false }
{
    match part_of(node, 0) {
        Some(n) => is_call_at(nodes, n),
        None => false,
    }
}

fn is_led(nodes: &[Node], node: &Node) -> bool
    ensures { result ≡ is_led nodes.now node.now }
{
    is_star(node.kind) && is_call_part(nodes, node)
}

fn is_made(nodes: &[Node], node: &Node) -> bool
    ensures { result ≡ is_made nodes.now node.now }
{
    is_literal(node.kind) || (is_call(node.kind) || is_led(nodes, node))
}

fn is_made_at(nodes: &[Node], n: u32) -> bool
    ensures { result ≡ is_made_at nodes.now n }
{
    match node_of(nodes, bare(nodes, n)) {
        Some(node) => is_made(nodes, node),
        None => false,
    }
}

/// A value, unless it is made there.
pub fn copied(nodes: &[Node], words: Words, n: u32) -> Option<Suspect>
    ensures { result ≡ copied nodes.now words n }
{
    if is_made_at(nodes, n) {
        None
    } else {
        Some(Suspect {
            stage: Stage::Placed,
            node: n,
            words,
        })
    }
}

// ---- assignments and variables

fn pair_words(declares: bool, x: u32) -> Words
    ensures { result ≡ pair_words declares x }
{
    if declares {
        Words::Declared(x)
    } else {
        Words::Assigned(x)
    }
}

fn copied_from(
    nodes: &[Node],
    declares: bool,
    left: Option<u32>,
    i: usize,
    y: u32,
) -> Option<Suspect>
    ensures { result ≡ option_and_then (copied_to nodes.now declares y) (slice_get (items nodes.now left) i) }
{
    match item(nodes, left, i) {
        Some(x) => copied(nodes, pair_words(declares, x), y),
        None => None,
    }
}

/// One on the right, with the one on the left.
pub fn pair_at(
    nodes: &[Node],
    declares: bool,
    left: Option<u32>,
    right: Option<u32>,
    i: usize,
) -> Option<Suspect>
    ensures { result ≡ pair_at nodes.now declares left right i }
{
    match item(nodes, right, i) {
        Some(y) => copied_from(nodes, declares, left, i, y),
        None => None,
    }
}

// ---- literals and returned values

fn is_pair(kind: NodeKind) -> bool
    ensures { result ≡ is_pair kind }
{
    matches!(kind, NodeKind::KeyValue)
}

fn value_in(node: &Node, own: Option<u32>) -> Option<u32>
    ensures { result ≡ value_in node.now own }
{
    if is_pair(node.kind) {
        part_of(node, 1)
    } else {
        own
    }
}

fn value_at(nodes: &[Node], n: u32) -> Option<u32>
    ensures { result ≡ value_at nodes.now n }
{
    match node_of(nodes, n) {
        Some(node) => value_in(node, Some(n)),
        None => None,
    }
}

fn value_of(nodes: &[Node], node: &Node, i: usize) -> Option<u32>
    ensures { result ≡ option_and_then (value_at nodes.now) (part node.now i) }
{
    match part_of(node, i) {
        Some(n) => value_at(nodes, n),
        None => None,
    }
}

/// The value of an element.
pub fn element_at(nodes: &[Node], node: &Node, i: usize) -> Option<Suspect>
    ensures { result ≡ element_at nodes.now node.now i }
{
    match value_of(nodes, node, i) {
        Some(n) => copied(nodes, Words::Literal, n),
        None => None,
    }
}

/// A returned value.
pub fn returned_at(nodes: &[Node], node: &Node, i: usize) -> Option<Suspect>
    ensures { result ≡ returned_at nodes.now node.now i }
{
    match item(nodes, part_of(node, 0), i) {
        Some(n) => copied(nodes, Words::Returned, n),
        None => None,
    }
}
