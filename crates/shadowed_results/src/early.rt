//! Whether a `return` without values stands in a function whose results have names. Where none does, no result is shadowed, and no more is looked at.
ghost use Rattle.std.specs.Prelude.{◌≡◌, ◌<◌, ◌==◌, ◌&&◌, ◌↔◌, not, ℕ, true, length};
ghost use Rattle.go_tree.specs.Kinds.{is_function};
ghost use Rattle.node_values.specs.Trees.{IsTree};
ghost use Rattle.scopes.specs.Regions.{form_of, is_param};
ghost use Rattle.shadowed_results.specs.Early.{is_param_at, any_param, lists_param, names_results, ReturnsBare, MayShadow};

use crate::bare::is_bare;
use crate::functions::from_last;
use crate::results::{bare_parts, is_param};
use go_tree::{Node, NodeKind, is_function};
use scopes::role;

fn is_param_at(nodes: &[Node], n: u32) -> bool
    ensures { result ≡ is_param_at nodes.now n }
{
    match nodes.get(n as usize) {
        Some(node) => is_param(role(node.kind).form),
        None => false,
    }
}

fn any_param(nodes: &[Node], parts: &[u32]) -> bool
    ensures { result ≡ any_param nodes.now parts.now }
{
    for part in parts {
        if is_param_at(nodes, *part) {
            return true;
        }
    }
    false
}

fn lists_param(nodes: &[Node], n: u32) -> bool
    ensures { result ≡ lists_param nodes.now n }
{
    match nodes.get(n as usize) {
        Some(node) => any_param(nodes, node.parts.as_slice()),
        None => false,
    }
}

/// Whether the results of a function have names.
fn names_results(nodes: &[Node], kind: NodeKind, parts: &[u32]) -> bool
    ensures { result ≡ names_results nodes.now kind parts.now }
{
    if parts.len() < 2 {
        return false;
    }
    if bare_parts(kind) >= parts.len() {
        return false;
    }
    lists_param(nodes, from_last(parts, 2))
}

fn is_other(kind: NodeKind, f: usize, n: usize) -> bool
    ensures { result ≡ (not (n == f) && is_function kind) }
{
    if n == f {
        return false;
    }
    is_function(kind)
}

/// Whether a `return` without values stands in a node of the function `f`, outside the functions in it. It calls itself as deep as the tree is.
fn returns_bare(nodes: &[Node], f: usize, n: usize) -> bool
    requires tree { IsTree nodes.now }
    requires node { n < length nodes.now }
    ensures { (result ≡ true) ↔ ((r : ℕ) × ReturnsBare nodes.now f n r) }
{
    let node = &nodes[n];
    if is_bare(node) {
        return true;
    }
    if is_other(node.kind, f, n) {
        return false;
    }
    for part in node.parts.as_slice() {
        if returns_bare(nodes, f, *part as usize) {
            return true;
        }
    }
    false
}

/// Whether a node is a function whose results have names.
fn is_named(nodes: &[Node], node: &Node) -> bool
    ensures { result ≡ (is_function node.now.kind && names_results nodes.now node.now.kind node.now.parts) }
{
    if is_function(node.kind) {
        return names_results(nodes, node.kind, node.parts.as_slice());
    }
    false
}

/// Whether a node is such a function, with a `return` without values.
fn may_shadow(nodes: &[Node], f: usize) -> bool
    requires tree { IsTree nodes.now }
    requires node { f < length nodes.now }
    ensures { (result ≡ true) ↔ ((n : ℕ) × MayShadow nodes.now f n) }
{
    if is_named(nodes, &nodes[f]) {
        return returns_bare(nodes, f, f);
    }
    false
}

/// Whether one of the nodes is such a function.
pub(crate) fn any_may_shadow(nodes: &[Node]) -> bool
    requires tree { IsTree nodes.now }
    ensures { (result ≡ true) ↔ ((f : ℕ) × (n : ℕ) × MayShadow nodes.now f n) }
{
    for f in 0..nodes.len() {
        if may_shadow(nodes, f) {
            return true;
        }
    }
    false
}
