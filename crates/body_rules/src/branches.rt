//! What each `break` leaves, and what each `continue` goes on with.
ghost use Rattle.std.specs.Prelude.{◌≡◌, ◌<◌, ◌≤◌, ◌^◌, ◌↔◌, ◌&&◌, [], ℕ, Bool, true, false, cond, ◌+◌, OnOk, IfOk, IsTrue, Option, Some, None, length, get_or, slice_get};
ghost use Rattle.node_values.specs.Parents.{at, AreParents};
ghost use Rattle.node_values.specs.Ranges.{starts, IsTiled, IsWithin};
ghost use Rattle.node_values.specs.Trees.{IsTree, AreInnermost};
ghost use Rattle.node_values.specs.Flagged.{IsOnly};
ghost use Rattle.go_tree.specs.declared.tree.Node.{Node};
ghost use Rattle.go_tree.specs.declared.tree.NodeKind.{NodeKind};
ghost use Rattle.body_rules.specs.declared.branches.Branch.TheVariants as w;
ghost use Rattle.body_rules.specs.Branches.{is_of, branch_of, can_leave, stops, IsLabelOn, LeavesNearest, LeavesNamed, LeavesBy, Leaves, AreLeft, is_first, labelled, stand_of};
ghost use Rattle.body_rules.specs.Endings.{kind_of};
ghost use Rattle.body_rules.specs.Files.{is_nil};
ghost use Rattle.body_rules.specs.Jumping.{IsBareAt, AreNearest, IsKnown, LeavesRound};

use crate::endings::kind_of;
use crate::jumps::{is_within, place_at};
use crate::kinds::{can_break, is_break, is_continue, is_label, is_loop};
use crate::latest::number_at;
use crate::nodes::is_nil;
use go_tree::{Node, NodeKind, is_function};
use gv_base::NoMemory;
use node_values::{Stops, Targets, flag_targets, innermost};
use std::alloc::Global;

/// A word that leaves a statement or goes on with it.
#[derive(Clone, Copy, Drop)]
pub enum Branch {
    Break,
    Continue,
}

/// A statement of this word.
pub(crate) fn is_of(which: Branch, kind: NodeKind) -> bool
    ensures { result ≡ is_of which kind }
{
    match which {
        Branch::Break => is_break(kind),
        Branch::Continue => is_continue(kind),
    }
}

pub(crate) fn branch_of(kind: NodeKind) -> Option<Branch>
    ensures { result ≡ branch_of kind }
{
    if is_break(kind) {
        return Some(Branch::Break);
    }
    if is_continue(kind) {
        return Some(Branch::Continue);
    }
    None
}

fn can_leave(which: Branch, kind: NodeKind) -> bool
    ensures { result ≡ can_leave which kind }
{
    match which {
        Branch::Break => can_break(kind),
        Branch::Continue => is_loop(kind),
    }
}

fn stops(which: Branch, kind: NodeKind) -> bool
    ensures { result ≡ stops which kind }
{
    if is_function(kind) {
        return true;
    }
    can_leave(which, kind)
}

/// What a `break` leaves, and functions.
struct Breaks;

impl Stops for Breaks {
    ghost kinds = { λ s. stops w.Break };

    fn is_one(&self, kind: NodeKind) -> bool {
        stops(Branch::Break, kind)
    }
}

/// What a `continue` goes on with, and functions.
struct Continues;

impl Stops for Continues {
    ghost kinds = { λ s. stops w.Continue };

    fn is_one(&self, kind: NodeKind) -> bool {
        stops(Branch::Continue, kind)
    }
}

/// The innermost node round each that such a word leaves, or a function.
fn nearest_of(
    alloc: Global,
    which: Branch,
    nodes: &[Node],
    parents: &[usize],
) -> Result<Vec<Option<usize>>, NoMemory>
    requires tree { IsTree nodes.now }
    requires parents { AreParents nodes.now (length nodes.now) parents.now }
    ensures { IfOk result (λ found. AreInnermost (stops which) nodes.now found.items) }
{
    match which {
        Branch::Break => {
            let found = innermost(alloc, &Breaks, nodes, parents)?;
            Ok(found)
        }
        Branch::Continue => {
            let found = innermost(alloc, &Continues, nodes, parents)?;
            Ok(found)
        }
    }
}

/// Whether a node is a statement of this word that names no label.
fn is_bare(which: Branch, node: &Node) -> bool
    ensures { result ≡ (is_of which node.now.kind && is_nil node.now.parts) }
{
    if is_of(which, node.kind) {
        return is_nil(node.parts.as_slice());
    }
    false
}

/// Whether there is one.
fn has_bare(which: Branch, nodes: &[Node]) -> bool
    ensures { (result ≡ true) ↔ ((n : ℕ) × IsBareAt which nodes.now n) }
{
    for n in 0..nodes.len() {
        if is_bare(which, &nodes[n]) {
            return true;
        }
    }
    false
}

/// The same, where a statement of this word names no label.
pub(crate) fn nearest_in(
    alloc: Global,
    which: Branch,
    nodes: &[Node],
    parents: &[usize],
) -> Result<Vec<Option<usize>>, NoMemory>
    requires tree { IsTree nodes.now }
    requires parents { AreParents nodes.now (length nodes.now) parents.now }
    ensures { IfOk result (λ found. AreNearest which nodes.now found.items) }
{
    if !has_bare(which, nodes) {
        return Ok(Vec::new(alloc));
    }
    let found = nearest_of(alloc, which, nodes, parents)?;
    Ok(found)
}

/// A node that such a word can leave.
fn if_leavable(which: Branch, nodes: &[Node], t: usize) -> Option<usize>
    requires few { length nodes.now ≤ 2 ^ 32 }
    ensures { result ≡ cond (can_leave which (kind_of nodes.now t)) (Some t) None }
{
    if t >= nodes.len() {
        return None;
    }
    if can_leave(which, kind_of(nodes, t as u32)) {
        Some(t)
    } else {
        None
    }
}

fn nearest_left(which: Branch, nodes: &[Node], nearest: &[Option<usize>], n: usize) -> Option<usize>
    requires few { length nodes.now ≤ 2 ^ 32 }
    requires tree { IsTree nodes.now }
    requires node { n < length nodes.now }
    requires nearest { AreInnermost (stops which) nodes.now nearest.now }
    ensures { IsOnly (LeavesNearest which nodes.now n) result }
{
    match number_at(nearest, n) {
        Some(t) => if_leavable(which, nodes, t),
        None => None,
    }
}

/// Whether a number stands first.
pub(crate) fn is_first(parts: &[u32], l: usize) -> bool
    ensures { result ≡ is_first parts.now l }
{
    match parts.first() {
        Some(part) => *part as usize == l,
        None => false,
    }
}

fn second(parts: &[u32]) -> Option<usize>
    ensures { result ≡ slice_get parts.now 1 }
{
    match parts.get(1) {
        Some(part) => Some(*part as usize),
        None => None,
    }
}

fn labelled(l: usize, node: &Node) -> Option<usize>
    ensures { result ≡ labelled l node.now }
{
    let parts = node.parts.as_slice();
    if !is_label(node.kind) {
        return None;
    }
    if !is_first(parts, l) {
        return None;
    }
    second(parts)
}

fn stand_of(nodes: &[Node], q: usize, l: usize) -> Option<usize>
    ensures { result ≡ stand_of nodes.now q l }
{
    match nodes.get(q) {
        Some(node) => labelled(l, node),
        None => None,
    }
}

/// The statement on which the label of a name stands.
fn labelled_by(nodes: &[Node], parents: &[usize], l: usize) -> Option<usize>
    requires tree { IsTree nodes.now }
    requires parents { AreParents nodes.now (length nodes.now) parents.now }
    ensures { IsOnly (IsLabelOn nodes.now l) result }
{
    stand_of(nodes, place_at(parents, l), l)
}

/// A node that such a word at n can leave.
fn if_round(which: Branch, nodes: &[Node], begins: &[usize], t: usize, n: usize) -> Option<usize>
    requires few { length nodes.now ≤ 2 ^ 32 }
    requires tree { IsTree nodes.now }
    requires tiled { IsTiled nodes.now }
    requires begins { begins.now ≡ starts nodes.now }
    ensures { IsOnly (LeavesRound which nodes.now t n) result }
{
    if !is_within(begins, t, n) {
        return None;
    }
    if_leavable(which, nodes, t)
}

fn label_left(
    which: Branch,
    nodes: &[Node],
    parents: &[usize],
    begins: &[usize],
    l: usize,
    n: usize,
) -> Option<usize>
    requires few { length nodes.now ≤ 2 ^ 32 }
    requires tree { IsTree nodes.now }
    requires tiled { IsTiled nodes.now }
    requires parents { AreParents nodes.now (length nodes.now) parents.now }
    requires begins { begins.now ≡ starts nodes.now }
    ensures { IsOnly (LeavesNamed which nodes.now (Some l) n) result }
{
    match labelled_by(nodes, parents, l) {
        Some(t) => if_round(which, nodes, begins, t, n),
        None => None,
    }
}

fn named_left(
    which: Branch,
    nodes: &[Node],
    parents: &[usize],
    begins: &[usize],
    label: Option<usize>,
    n: usize,
) -> Option<usize>
    requires few { length nodes.now ≤ 2 ^ 32 }
    requires tree { IsTree nodes.now }
    requires tiled { IsTiled nodes.now }
    requires parents { AreParents nodes.now (length nodes.now) parents.now }
    requires begins { begins.now ≡ starts nodes.now }
    ensures { IsOnly (LeavesNamed which nodes.now label n) result }
{
    match label {
        Some(l) => label_left(which, nodes, parents, begins, l, n),
        None => None,
    }
}

/// What is known of the nodes, and the label that each name behind a jump denotes.
#[derive(Clone, Copy, Drop)]
pub(crate) struct Jumping<'a> {
    pub which: Branch,
    pub nodes: &'a [Node],
    pub labels: &'a [Option<usize>],
    pub parents: &'a [usize],
    pub begins: &'a [usize],
    pub nearest: &'a [Option<usize>],
}

fn left_by(j: &Jumping, parts: &[u32], n: usize) -> Option<usize>
    requires known { IsKnown j.now }
    requires node { n < length j.now.nodes.now }
    requires nearest { parts.now ≡ [] → AreInnermost (stops j.now.which) j.now.nodes.now j.now.nearest.now }
    ensures { IsOnly (LeavesBy j.now.which j.now.nodes.now j.now.labels.now parts.now n) result }
{
    match parts.first() {
        Some(m) => named_left(
            j.which,
            j.nodes,
            j.parents,
            j.begins,
            number_at(j.labels, *m as usize),
            n,
        ),
        None => nearest_left(j.which, j.nodes, j.nearest, n),
    }
}

/// What the node n leaves, if it is such a statement.
pub(crate) fn left_of(j: &Jumping, n: usize) -> Option<usize>
    requires known { IsKnown j.now }
    requires node { n < length j.now.nodes.now }
    ensures { IsOnly (Leaves j.now.which j.now.nodes.now j.now.labels.now n) result }
{
    let node = &j.nodes[n];
    if is_of(j.which, node.kind) {
        return left_by(j, node.parts.as_slice(), n);
    }
    None
}

impl<'a> Targets for Jumping<'a> {
    ghost IsState = { λ j. IsKnown j };

    ghost count = { λ j. length j.nodes.now };

    ghost Leads = { λ j. Leaves j.which j.nodes.now j.labels.now };

    fn count(&self) -> usize {
        self.nodes.len()
    }

    fn target(&self, n: usize) -> Option<usize> {
        left_of(self, n)
    }
}

/// The statements that a `break` leaves.
pub(crate) fn left_flags(alloc: Global, j: &Jumping) -> Result<Vec<bool>, NoMemory>
    requires known { IsKnown j.now }
    requires which { j.now.which ≡ w.Break }
    ensures { IfOk result (λ left. AreLeft j.now.nodes.now j.now.labels.now left.items) }
{
    let left = flag_targets(alloc, j, j.nodes.len())?;
    Ok(left)
}
