//! Whether the late rules of bodies may find anything in a package. Where none may, none of their tables is made.
ghost use Rattle.std.specs.Prelude.{◌≡◌, ◌<◌, ◌≤◌, ◌^◌, ◌↔◌, ◌&&◌, ℕ, true, nat_lt, IfOk, length, get_or};
ghost use Rattle.go_tree.specs.Pieces.{Spelled};
ghost use Rattle.go_tree.specs.Kinds.{is_function};
ghost use Rattle.node_values.specs.Ranges.{starts, IsTiled};
ghost use Rattle.node_values.specs.Trees.{IsTree};
ghost use Rattle.label_uses.specs.Labels.{is_label};
ghost use Rattle.shadowed_results.specs.Kinds.{is_return, is_nil, is_bare};
ghost use Rattle.unit_read.specs.Index.{texts_of};
ghost use Rattle.body_facts.specs.Asking.{leads, LeadsAt, past_of, DeclaresIn, MayFail, Asks};
ghost use Rattle.body_facts.specs.Bodies.{AreBodies};

use crate::bodies::{text_at, tree_at};
use crate::variable_tables::is_declaring;
use body_rules::acts;
use go_tree::{FileTree, Node, NodeKind, is_function};
use gv_base::NoMemory;
use node_values::{spelled_nodes, starts_of};
use std::alloc::Global;
use unit_read::Subject;

fn is_label(kind: NodeKind) -> bool
    ensures { result ≡ is_label kind }
{
    matches!(kind, NodeKind::Label)
}

fn is_return(kind: NodeKind) -> bool
    ensures { result ≡ is_return kind }
{
    matches!(kind, NodeKind::Return)
}

fn is_nil(parts: &[u32]) -> bool
    ensures { result ≡ is_nil parts.now }
{
    parts.is_empty()
}

/// A `return` without values.
fn is_bare(node: &Node) -> bool
    ensures { result ≡ is_bare node.now }
{
    if is_return(node.kind) {
        return is_nil(node.parts.as_slice());
    }
    false
}

/// A function with results and a body, a jump, a `fallthrough`, a label, or a `return` without values.
fn leads(nodes: &[Node], node: &Node) -> bool
    ensures { result ≡ leads nodes.now node.now }
{
    if acts(nodes, node) {
        return true;
    }
    if is_label(node.kind) {
        return true;
    }
    is_bare(node)
}

/// Whether there is one.
fn any_leads(nodes: &[Node]) -> bool
    ensures { (result ≡ true) ↔ ((n : ℕ) × LeadsAt nodes.now n) }
{
    for n in 0..nodes.len() {
        if leads(nodes, &nodes[n]) {
            return true;
        }
    }
    false
}

fn begin_at(begins: &[usize], n: usize) -> usize
    ensures { result ≡ get_or begins.now n 0 }
{
    if n < begins.len() { begins[n] } else { 0 }
}

/// One more than the last node so far that declares variables.
fn past_of(kind: NodeKind, n: usize, past: usize) -> usize
    requires { n < 2 ^ 32 }
    ensures { result ≡ past_of kind n past }
{
    if is_declaring(kind) { n + 1 } else { past }
}

/// Whether such a function begins before the last node so far that declares variables: then it holds that node.
fn is_round(kind: NodeKind, begin: usize, past: usize) -> bool
    ensures { result ≡ (is_function kind && nat_lt begin past) }
{
    if is_function(kind) {
        return begin < past;
    }
    false
}

/// Whether some function holds a node that declares variables.
fn any_declares(nodes: &[Node], begins: &[usize]) -> bool
    requires few { length nodes.now ≤ 2 ^ 32 }
    requires tree { IsTree nodes.now }
    requires tiled { IsTiled nodes.now }
    requires begins { begins.now ≡ starts nodes.now }
    ensures { (result ≡ true) ↔ ((f : ℕ) × (d : ℕ) × DeclaresIn nodes.now f d) }
{
    let mut past = 0;
    for n in 0..nodes.len() {
        let kind = nodes[n].kind;
        if is_round(kind, begin_at(begins, n), past) {
            return true;
        }
        past = past_of(kind, n, past);
    }
    false
}

/// Whether something of a file may be a fault.
fn may_fail(alloc: Global, nodes: &[Node]) -> Result<bool, NoMemory>
    requires few { length nodes.now ≤ 2 ^ 32 }
    requires tree { IsTree nodes.now }
    requires tiled { IsTiled nodes.now }
    ensures { IfOk result (λ may. (may ≡ true) ↔ MayFail nodes.now) }
{
    if any_leads(nodes) {
        return Ok(true);
    }
    let begins = starts_of(alloc, nodes)?;
    let may = any_declares(nodes, &begins);
    Ok(may)
}

fn tree_may_fail(alloc: Global, bytes: &[u8], tree: &FileTree) -> Result<bool, NoMemory>
    requires few { length tree.now.nodes ≤ 2 ^ 32 }
    requires spelled { Spelled tree.now.tokens bytes.now tree.now }
    ensures { IfOk result (λ may. (may ≡ true) ↔ MayFail tree.now.nodes) }
{
    spelled_nodes(tree, bytes);
    let may = may_fail(alloc, tree.nodes.as_slice())?;
    Ok(may)
}

/// Whether something of the package may be a fault of a body. Where nothing may there is no such fault, whatever its names mean.
pub fn asks_bodies(alloc: Global, u: &Subject) -> Result<bool, NoMemory>
    requires { AreBodies (texts_of u.now.texts.now) u.now.trees.now }
    ensures { IfOk result (λ asks. (asks ≡ true) ↔ Asks u.now.trees.now) }
{
    for k in 0..u.trees.len() {
        let may = tree_may_fail(alloc, text_at(u, k), tree_at(u, k))?;
        if may {
            return Ok(true);
        }
    }
    Ok(false)
}
