//! Which nodes are the first part of a label or of a jump. Most files have few of them, if any, and these stand close together.
ghost use Rattle.std.specs.Prelude.{◌≡◌, ◌<◌, ◌≤◌, ◌↔◌, ℕ, suc, min, max, Some, true, false, IfOk, length, replicate, slice_get, get_or};
ghost use Rattle.label_uses.specs.Labels.{is_label, is_jump};
ghost use Rattle.label_uses.specs.Heads.{head_in, AreHeads, IsNoted};
ghost use Rattle.label_uses.specs.Rows.{Sets};

use crate::rows::{all_false, set};
use go_tree::{Node, NodeKind};
use gv_base::NoMemory;
use std::alloc::Global;

/// A flag for each node. What is flagged stands from `low` on and before `high`.
#[derive(Drop)]
pub(crate) struct Headed {
    pub flags: Vec<bool>,
    pub low: usize,
    pub high: usize,
}

pub(crate) fn is_label(kind: NodeKind) -> bool
    ensures { result ≡ is_label kind }
{
    matches!(kind, NodeKind::Label)
}

pub(crate) fn is_jump(kind: NodeKind) -> bool
    ensures { result ≡ is_jump kind }
{
    matches!(kind, NodeKind::Break | NodeKind::Continue | NodeKind::Goto)
}

fn first_of(parts: &[u32]) -> Option<usize>
    ensures { result ≡ slice_get parts.now 0 }
{
    match parts.first() {
        Some(part) => Some(*part as usize),
        None => None,
    }
}

/// The name of the label that a node is.
fn label_in(node: &Node) -> Option<usize>
    ensures { result ≡ head_in is_label node.now }
{
    if is_label(node.kind) {
        return first_of(node.parts.as_slice());
    }
    None
}

/// The name of the label that a node jumps to.
fn jump_in(node: &Node) -> Option<usize>
    ensures { result ≡ head_in is_jump node.now }
{
    if is_jump(node.kind) {
        return first_of(node.parts.as_slice());
    }
    None
}

fn nothing_headed(alloc: Global, count: usize) -> Result<Headed, NoMemory>
    ensures flags { IfOk result (λ h. h.flags.items ≡ replicate count false) }
    ensures low { IfOk result (λ h. h.low ≡ count) }
    ensures high { IfOk result (λ h. h.high ≡ 0) }
{
    let flags = all_false(alloc, count)?;
    Ok(Headed {
        flags,
        low: count,
        high: 0,
    })
}

fn note_one(h: &mut Headed, n: usize)
    requires { n < length h.old.flags.items }
    ensures flags { Sets h.old.flags.items h.new.flags.items n }
    ensures low { h.new.low ≡ min h.old.low n }
    ensures high { h.new.high ≡ max h.old.high (suc n) }
{
    set(&mut h.flags, n);
    h.low = h.low.min(n);
    h.high = h.high.max(n + 1);
}

fn count_of(h: &Headed) -> usize
    ensures { result ≡ length h.now.flags.items }
{
    h.flags.as_slice().len()
}

/// Flags a node, if it is there.
fn note_at(h: &mut Headed, n: usize)
    ensures { IsNoted (Some n) h.old h.new }
{
    if n < count_of(h) {
        note_one(h, n);
    }
}

fn note(h: &mut Headed, head: Option<usize>)
    ensures { IsNoted head h.old h.new }
{
    match head {
        None => {}
        Some(n) => note_at(h, n),
    }
}

/// The names of labels.
pub(crate) fn label_heads(alloc: Global, nodes: &[Node]) -> Result<Headed, NoMemory>
    ensures { IfOk result (AreHeads is_label nodes.now (length nodes.now)) }
{
    let mut heads = nothing_headed(alloc, nodes.len())?;
    for p in 0..nodes.len() {
        note(&mut heads, label_in(&nodes[p]));
    }
    Ok(heads)
}

/// The names behind `break`, `continue` and `goto`.
pub(crate) fn jump_heads(alloc: Global, nodes: &[Node]) -> Result<Headed, NoMemory>
    ensures { IfOk result (AreHeads is_jump nodes.now (length nodes.now)) }
{
    let mut heads = nothing_headed(alloc, nodes.len())?;
    for p in 0..nodes.len() {
        note(&mut heads, jump_in(&nodes[p]));
    }
    Ok(heads)
}

/// Whether a node is flagged.
pub(crate) fn is_headed(h: &Headed, n: usize) -> bool
    ensures { result ≡ get_or h.now.flags.items n false }
{
    let flags = h.flags.as_slice();
    if n < flags.len() { flags[n] } else { false }
}

/// Before which node all stand that are flagged, from `low` on.
pub(crate) fn end_of(h: &Headed) -> usize
    ensures low { h.now.low ≤ result }
    ensures high { h.now.high ≤ result }
    ensures least { (c : ℕ) → h.now.low ≤ c → h.now.high ≤ c → result ≤ c }
{
    h.low.max(h.high)
}
