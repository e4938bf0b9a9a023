//! Whether a body never returns.
ghost use Rattle.std.specs.Prelude.{◌≡◌, ◌↔◌, ℕ, List, Option, true, IsTrue, IfOk, slice_get, slice_index_or, false, option_map, Contains};
ghost use Rattle.flow.specs.Flow.{is_return, returns_at, is_before_return, is_exit, NeverReturns, stops_of};
ghost use Rattle.flow.specs.Search.{IsGraph, NeverBy};

use crate::edges::{after, before};
use crate::graph::Graph;
use crate::point::Call;
use crate::search::reach;
use go_tree::{FileTree, Node, NodeKind};
use gv_base::NoMemory;
use std::alloc::Global;

fn is_return(kind: NodeKind) -> bool
    ensures { result ≡ is_return kind }
{
    matches!(kind, NodeKind::Return)
}

fn returns_at(node: Option<&Node>) -> bool
    ensures { result ≡ returns_at (option_map (λ n. n.now) node.entry) }
{
    match node {
        None => false,
        Some(node) => is_return(node.kind),
    }
}

fn is_before_return(tree: &FileTree, p: usize) -> bool
    ensures { result ≡ is_before_return tree.now p }
{
    p % 2 == 0 && returns_at(tree.nodes.as_slice().get(p / 2))
}

fn is_exit(tree: &FileTree, body: u32, p: usize) -> bool
    ensures { result ≡ is_exit tree.now body p }
{
    p == after(body) || is_before_return(tree, p)
}

/// Whether one of the points is the end of the body or before a return.
fn some_exit(tree: &FileTree, body: u32, points: &[usize]) -> bool
    ensures { (result ≡ true) ↔ ((p : ℕ) × Contains points.now p × (is_exit tree.now body p ≡ true)) }
{
    for p in points {
        if is_exit(tree, body, *p) {
            return true;
        }
    }
    false
}

/// Whether neither a return nor the end is reached from the start of a body, the block of this number,
/// where `calls` has for the node of an expression statement what it calls, and `members` are the
/// functions that never return. In time in step with what is reached of the body,
/// and a byte for each of its points.
pub fn never_returns(
    alloc: Global,
    tree: &FileTree,
    graph: &Graph,
    calls: &[Call],
    members: &[bool],
    body: u32,
) -> Result<bool, NoMemory>
    ensures rows { IfOk result (λ never. IsTrue never ↔ NeverBy tree.now graph.now (stops_of calls.now (λ f. slice_index_or members.now f false)) body) }
    ensures graph { IfOk result (λ never. (labels : List (Option ℕ)) → IsGraph tree.now labels graph.now → IsTrue never ↔ NeverReturns tree.now labels (stops_of calls.now (λ f. slice_index_or members.now f false)) body) }
{
    let found = reach(alloc, graph.rows(), calls, members, before(body))?;
    Ok(!some_exit(tree, body, &found))
}
