//! Where jumps lead.
ghost use Rattle.std.specs.Prelude.{◌≡◌, slice_get, option_and_then, option_map, Option, ℕ};
ghost use Rattle.flow.specs.Around.{bare_target, turn_of, labeled_turn, labeled_target, label_at, target_with, target_of};

use crate::edges::{after, before, turn_point};
use crate::kinds::is_loop;
use crate::point::Around;
use go_tree::{FileTree, Node, NodeKind};

/// Where a jump without a label leads.
fn bare_target(kind: NodeKind, around: Around) -> Option<usize>
    ensures { result ≡ bare_target kind around }
{
    if matches!(kind, NodeKind::Break) {
        return around.leave;
    }
    if matches!(kind, NodeKind::Continue) {
        return around.again;
    }
    if matches!(kind, NodeKind::Fallthrough) {
        return around.fall;
    }
    None
}

/// The next turn of a statement, if it is a loop.
fn turn_of(tree: &FileTree, s: u32) -> Option<usize>
    ensures { result ≡ turn_of tree.now s }
{
    match tree.nodes.as_slice().get(s as usize) {
        None => None,
        Some(node) => {
            if is_loop(node.kind) {
                return Some(turn_point(tree, s, node.parts.as_slice()));
            }
            None
        }
    }
}

fn turn_of_part(tree: &FileTree, part: Option<&u32>) -> Option<usize>
    ensures { result ≡ option_and_then (turn_of tree.now) (option_map (λ p. p.now) part.entry) }
{
    match part {
        None => None,
        Some(part) => turn_of(tree, *part),
    }
}

/// The next turn of the loop that a labeled statement is.
fn labeled_turn(tree: &FileTree, l: u32) -> Option<usize>
    ensures { result ≡ labeled_turn tree.now l }
{
    match tree.nodes.as_slice().get(l as usize) {
        None => None,
        Some(node) => turn_of_part(tree, node.parts.as_slice().get(1)),
    }
}

/// Where a jump to a labeled statement leads.
fn labeled_target(tree: &FileTree, kind: NodeKind, l: u32) -> Option<usize>
    ensures { result ≡ labeled_target tree.now kind l }
{
    if matches!(kind, NodeKind::Break) {
        return Some(after(l));
    }
    if matches!(kind, NodeKind::Continue) {
        return labeled_turn(tree, l);
    }
    if matches!(kind, NodeKind::Goto) {
        return Some(before(l));
    }
    None
}

pub(crate) fn label_at(labels: &[Option<u32>], j: u32) -> Option<u32>
    ensures { result ≡ label_at labels.now j }
{
    if (j as usize) < labels.len() {
        labels[j as usize]
    } else {
        None
    }
}

fn labeled(tree: &FileTree, kind: NodeKind, label: Option<u32>) -> Option<usize>
    ensures { result ≡ option_and_then (labeled_target tree.now kind) label }
{
    match label {
        None => None,
        Some(l) => labeled_target(tree, kind, l),
    }
}

/// Where a node leads, if it is a jump.
pub(crate) fn target_of(
    tree: &FileTree,
    labels: &[Option<u32>],
    node: &Node,
    around: Around,
) -> Option<usize>
    ensures { result ≡ target_of tree.now labels.now node.now around }
{
    match node.parts.as_slice().get(0) {
        None => bare_target(node.kind, around),
        Some(j) => labeled(tree, node.kind, label_at(labels, *j)),
    }
}
