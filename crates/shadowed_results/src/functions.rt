//! The innermost function that holds each node, and its body.
ghost use Rattle.std.specs.Prelude.{◌≡◌, ◌==◌, ◌≤◌, ◌<◌, ℕ, Option, None, IfOk, length, get_or};
ghost use Rattle.go_tree.specs.Kinds.{is_function};
ghost use Rattle.node_values.specs.Parents.{AreParents};
ghost use Rattle.node_values.specs.Trees.{IsTree, AreInnermost};
ghost use Rattle.shadowed_results.specs.Kinds.{from_last, is_body_of};

use go_tree::{Node, NodeKind, is_function};
use gv_base::NoMemory;
use node_values::{Stops, innermost};
use std::alloc::Global;

struct Functions;

impl Stops for Functions {
    ghost kinds = { λ s. is_function };

    fn is_one(&self, kind: NodeKind) -> bool {
        is_function(kind)
    }
}

/// The innermost function that holds each node.
pub(crate) fn functions_of(
    alloc: Global,
    nodes: &[Node],
    parents: &[usize],
) -> Result<Vec<Option<usize>>, NoMemory>
    requires tree { IsTree nodes.now }
    requires parents { AreParents nodes.now (length nodes.now) parents.now }
    ensures { IfOk result (λ found. AreInnermost is_function nodes.now found.items) }
{
    let found = innermost(alloc, &Functions, nodes, parents)?;
    Ok(found)
}

pub(crate) fn number_at(numbers: &[Option<usize>], n: usize) -> Option<usize>
    ensures { result ≡ get_or numbers.now n None }
{
    if n < numbers.len() { numbers[n] } else { None }
}

/// The part this many from the end.
pub(crate) fn from_last(parts: &[u32], i: usize) -> u32
    requires within { i ≤ length parts.now }
    requires some { 0 < i }
    ensures { result ≡ from_last parts.now i }
{
    parts[parts.len() - i]
}

fn is_last(parts: &[u32], n: usize) -> bool
    ensures { result ≡ (from_last parts.now 1 == n) }
{
    match parts.last() {
        Some(part) => *part as usize == n,
        None => n == 0,
    }
}

/// Whether a node is the last part of a function.
pub(crate) fn is_body_of(nodes: &[Node], f: usize, b: usize) -> bool
    ensures { result ≡ is_body_of nodes.now f b }
{
    match nodes.get(f) {
        Some(node) => is_last(node.parts.as_slice(), b),
        None => false,
    }
}
