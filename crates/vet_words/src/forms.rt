//! Forms of nodes.
ghost use Rattle.std.specs.Prelude.{◌≡◌, slice_get};
ghost use Rattle.std.specs.Option.{option_copied};
ghost use Rattle.vet_words.specs.Forms.{is_paren, is_call, is_plain_call, is_name, is_selector, is_unary, between, between_at, bare_from, bare};

use go_tree::{Node, NodeKind};
use package_objects::{node_of, part_of};

// ---- kinds

fn is_paren(kind: NodeKind) -> bool
    ensures { result ≡ is_paren kind }
{
    matches!(kind, NodeKind::Paren)
}

/// A call, with `...` or without.
pub fn is_call(kind: NodeKind) -> bool
    ensures { result ≡ is_call kind }
{
    matches!(kind, NodeKind::Call | NodeKind::CallSpread)
}

pub(crate) fn is_plain_call(kind: NodeKind) -> bool
    ensures { result ≡ is_plain_call kind }
{
    matches!(kind, NodeKind::Call)
}

pub(crate) fn is_name(kind: NodeKind) -> bool
    ensures { result ≡ is_name kind }
{
    matches!(kind, NodeKind::Name)
}

pub(crate) fn is_selector(kind: NodeKind) -> bool
    ensures { result ≡ is_selector kind }
{
    matches!(kind, NodeKind::Selector)
}

pub(crate) fn is_unary(kind: NodeKind) -> bool
    ensures { result ≡ is_unary kind }
{
    matches!(kind, NodeKind::Unary)
}

// ---- parentheses dropped

fn between(node: &Node) -> Option<u32>
    ensures { result ≡ between node.now }
{
    if is_paren(node.kind) {
        part_of(node, 0)
    } else {
        None
    }
}

fn between_at(nodes: &[Node], n: u32) -> Option<u32>
    ensures { result ≡ between_at nodes.now n }
{
    match node_of(nodes, n) {
        Some(node) => between(node),
        None => None,
    }
}

fn bare_from(nodes: &[Node], most: usize, n: u32) -> u32
    ensures { result ≡ bare_from nodes.now most n }
{
    if most == 0 {
        return n;
    }
    match between_at(nodes, n) {
        Some(m) => bare_from(nodes, most - 1, m),
        None => n,
    }
}

/// The node, with all parentheses round it dropped.
pub fn bare(nodes: &[Node], n: u32) -> u32
    ensures { result ≡ bare nodes.now n }
{
    bare_from(nodes, nodes.len(), n)
}
