//! A tree over the slots, by which an overlapping one is found.
//!
//! The slots are its leaves: of n slots, slot p is node n + p. Node x below n stands above the nodes 2x and
//! 2x + 1, and node 1 above all. A node bounds what stands below it.
ghost use Rattle.std.specs.Prelude.{◌≡◌, ◌≢◌, ◌<◌, ◌≤◌, ◌+◌, ◌*◌, ◌↔◌, ℕ, IsTrue, IfOk, MatchOption, length};
ghost use Rattle.fix_apply.specs.declared.tree.Node.{Node};
ghost use Rattle.fix_apply.specs.Trees.{widest, Bounds, IsLeaf, IsOrdered, IsTree, IsOpen, AllOpen, SameLeaves, OthersStay, Meets, MayMeet, Hits, NoneBelow, NoHit, node_at};

use crate::slot::Slot;
use gv_base::NoMemory;
use std::alloc::Global;

/// Bounds of the open slots below a node: their files, their starts, and one more than their greatest
/// end, which is 0 where none is open.
#[derive(Clone, Copy, Drop)]
pub(crate) struct Node {
    pub(crate) first_file: u32,
    pub(crate) last_file: u32,
    pub(crate) low: u32,
    pub(crate) high: u32,
    pub(crate) reach: u64,
}

/// What bounds every slot.
fn widest() -> Node
    ensures { result ≡ widest }
{
    Node {
        first_file: 0,
        last_file: u32::MAX,
        low: 0,
        high: u32::MAX,
        reach: 1 << 32,
    }
}

/// The bounds of one slot.
fn leaf(slot: Slot) -> Node
    ensures leaf { IsLeaf result slot }
    ensures some { 0 < result.reach }
    ensures within { Bounds widest result }
{
    Node {
        first_file: slot.file,
        last_file: slot.file,
        low: slot.start,
        high: slot.start,
        reach: u64::from(slot.end) + 1,
    }
}

/// The bounds of two nodes.
fn join(a: Node, b: Node) -> Node
    ensures first { Bounds result a }
    ensures second { Bounds result b }
    ensures least { (c : Node) → Bounds c a → Bounds c b → Bounds c result }
{
    Node {
        first_file: a.first_file.min(b.first_file),
        last_file: a.last_file.max(b.last_file),
        low: a.low.min(b.low),
        high: a.high.max(b.high),
        reach: a.reach.max(b.reach),
    }
}

/// Bounds a node by the two below it.
fn tighten(nodes: &mut Vec<Node>, x: usize)
    requires some { 1 ≤ x }
    requires inner { 2 * x + 1 < length nodes.old.items }
    requires ordered { IsOrdered nodes.old.items }
    ensures ordered { IsOrdered nodes.new.items }
    ensures size { length nodes.new.items ≡ length nodes.old.items }
    ensures others { (y : ℕ) → y ≢ x → node_at nodes.new.items y ≡ node_at nodes.old.items y }
{
    let a = nodes[2 * x];
    let b = nodes[2 * x + 1];
    nodes[x] = join(a, b);
}

/// Nodes that bound everything, above all slots.
fn flat_tree(alloc: Global, slots: &[Slot]) -> Result<Vec<Node>, NoMemory>
    ensures tree { IfOk result (λ nodes. IsTree slots.now nodes.items) }
    ensures all_open { IfOk result (λ nodes. AllOpen slots.now nodes.items) }
{
    let mut nodes = vec![in alloc; widest(); slots.len()]?;
    for slot in slots {
        nodes.push(leaf(*slot))?;
    }
    Ok(nodes)
}

/// The tree over the slots, which are all open.
pub(crate) fn build(alloc: Global, slots: &[Slot]) -> Result<Vec<Node>, NoMemory>
    ensures tree { IfOk result (λ nodes. IsTree slots.now nodes.items) }
    ensures all_open { IfOk result (λ nodes. AllOpen slots.now nodes.items) }
{
    let mut nodes = flat_tree(alloc, slots)?;
    let mut x = slots.len();
    while x > 1 {
        x -= 1;
        tighten(&mut nodes, x);
    }
    Ok(nodes)
}

/// Bounds a node and each above it by the two below it.
fn refresh(slots: &[Slot], nodes: &mut Vec<Node>, lowest: usize)
    requires inner { lowest < length slots.now }
    requires tree { IsTree slots.now nodes.old.items }
    ensures tree { IsTree slots.now nodes.new.items }
    ensures leaves { SameLeaves slots.now nodes.old.items nodes.new.items }
{
    let mut x = lowest;
    while x >= 1 {
        tighten(nodes, x);
        x /= 2;
    }
}

/// Closes a slot.
pub(crate) fn close(slots: &[Slot], nodes: &mut Vec<Node>, p: usize)
    requires within { p < length slots.now }
    requires tree { IsTree slots.now nodes.old.items }
    ensures tree { IsTree slots.now nodes.new.items }
    ensures closed { ¬ (IsOpen slots.now nodes.new.items p) }
    ensures others { OthersStay slots.now nodes.old.items nodes.new.items p }
{
    let lowest = slots.len() + p;
    nodes[lowest].reach = 0;
    refresh(slots, nodes, lowest / 2);
}

/// Whether the slot is in the file, and overlaps the edit from `start` to `end`.
fn meets(slot: Slot, file: u32, start: u32, end: u32) -> bool
    ensures { IsTrue result ↔ Meets slot file start end }
{
    slot.file == file && (slot.start == start || (slot.start < end && start < slot.end))
}

/// Whether what stands below the node may meet it.
fn may_meet(node: Node, file: u32, start: u32, end: u32) -> bool
    ensures { IsTrue result ↔ MayMeet node file start end }
{
    node.first_file <= file
        && file <= node.last_file
        && node.reach > 0
        && ((node.low <= start && start <= node.high)
            || (node.low < end && u64::from(start) + 1 < node.reach))
}

/// An open slot below the node that meets the edit.
fn search(
    slots: &[Slot],
    nodes: &Vec<Node>,
    x: usize,
    file: u32,
    start: u32,
    end: u32,
) -> Option<usize>
    requires tree { IsTree slots.now nodes.now.items }
    requires some { 1 ≤ x }
    requires within { x < length nodes.now.items }
    ensures { MatchOption result
        (NoneBelow slots.now nodes.now.items x file start end)
        (λ p. Hits slots.now nodes.now.items p file start end) }
{
    if !may_meet(nodes[x], file, start, end) {
        return None;
    }
    if x >= slots.len() {
        let p = x - slots.len();
        return if meets(slots[p], file, start, end) {
            Some(p)
        } else {
            None
        };
    }
    if let Some(p) = search(slots, nodes, 2 * x, file, start, end) {
        return Some(p);
    }
    search(slots, nodes, 2 * x + 1, file, start, end)
}

/// An open slot that meets the edit.
pub(crate) fn find(
    slots: &[Slot],
    nodes: &Vec<Node>,
    file: u32,
    start: u32,
    end: u32,
) -> Option<usize>
    requires { IsTree slots.now nodes.now.items }
    ensures { MatchOption result
        (NoHit slots.now nodes.now.items file start end)
        (λ p. Hits slots.now nodes.now.items p file start end) }
{
    if slots.is_empty() {
        None
    } else {
        search(slots, nodes, 1, file, start, end)
    }
}
