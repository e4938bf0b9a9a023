//! What a `break` leaves and what a `goto` names, as marks of points.
ghost use Rattle.std.specs.Prelude.{◌≡◌, ◌≤◌, ◌^◌, ◌*◌, IfOk, length, replicate, false, slice_get, option_map, option_and_then, Option, Some, ℕ};
ghost use Rattle.flow.specs.Around.{AreAround, IsTree};
ghost use Rattle.flow.specs.Edges.{after, before};
ghost use Rattle.flow.specs.Passing.{is_break, is_goto, labeled_part, left_with, named_with, break_point, goto_point, AreMarked, IsMarkedToo, Leaves, Names};

use crate::around::around_at;
use crate::edges::{after, before};
use crate::point::Around;
use crate::targets::label_at;
use go_tree::{FileTree, Node, NodeKind};
use gv_base::NoMemory;
use std::alloc::Global;

fn is_break(kind: NodeKind) -> bool
    ensures { result ≡ is_break kind }
{
    matches!(kind, NodeKind::Break)
}

fn is_goto(kind: NodeKind) -> bool
    ensures { result ≡ is_goto kind }
{
    matches!(kind, NodeKind::Goto)
}

/// The statement that is labeled.
fn labeled_part(tree: &FileTree, l: u32) -> Option<u32>
    ensures { result ≡ labeled_part tree.now l }
{
    match tree.nodes.as_slice().get(l as usize) {
        None => None,
        Some(node) => match node.parts.as_slice().get(1) {
            None => None,
            Some(part) => Some(*part),
        },
    }
}

fn labeled_of(tree: &FileTree, label: Option<u32>) -> Option<u32>
    ensures { result ≡ option_and_then (labeled_part tree.now) label }
{
    match label {
        None => None,
        Some(l) => labeled_part(tree, l),
    }
}

fn after_it(statement: Option<u32>) -> Option<usize>
    ensures { result ≡ option_map after statement }
{
    match statement {
        None => None,
        Some(n) => Some(after(n)),
    }
}

fn before_it(statement: Option<u32>) -> Option<usize>
    ensures { result ≡ option_map before statement }
{
    match statement {
        None => None,
        Some(n) => Some(before(n)),
    }
}

/// The point behind the statement that a node leaves, if it is a `break`.
fn break_point(
    tree: &FileTree,
    labels: &[Option<u32>],
    node: &Node,
    around: Around,
) -> Option<usize>
    ensures { result ≡ break_point tree.now labels.now node.now around }
{
    if !is_break(node.kind) {
        return None;
    }
    match node.parts.as_slice().get(0) {
        None => around.leave,
        Some(j) => after_it(labeled_of(tree, label_at(labels, *j))),
    }
}

/// The point in front of the labeled statement that a node names, if it is a `goto`.
fn goto_point(labels: &[Option<u32>], node: &Node) -> Option<usize>
    ensures { result ≡ goto_point labels.now node.now }
{
    if !is_goto(node.kind) {
        return None;
    }
    match node.parts.as_slice().get(0) {
        None => None,
        Some(j) => before_it(label_at(labels, *j)),
    }
}

fn set(marks: &mut Vec<bool>, at: usize)
    ensures { IsMarkedToo (Some at) marks.old.items marks.new.items }
{
    if at < marks.as_slice().len() {
        marks[at] = true;
    }
}

/// Marks a number, if there is one and it is below the number of marks.
pub(crate) fn mark(marks: &mut Vec<bool>, at: Option<usize>)
    ensures { IsMarkedToo at marks.old.items marks.new.items }
{
    match at {
        None => {}
        Some(at) => set(marks, at),
    }
}

/// As many marks, none of them set.
pub(crate) fn no_marks(alloc: Global, count: usize) -> Result<Vec<bool>, NoMemory>
    ensures { IfOk result (λ marks. marks.items ≡ replicate count false) }
{
    let marks = vec![in alloc; false; count]?;
    Ok(marks)
}

/// The points behind statements that a `break` leaves.
pub(crate) fn left_points(
    alloc: Global,
    tree: &FileTree,
    labels: &[Option<u32>],
    table: &[Around],
) -> Result<Vec<bool>, NoMemory>
    requires tree { IsTree tree.now.nodes }
    requires few { length tree.now.nodes ≤ 2 ^ 32 }
    requires around { AreAround tree.now table.now }
    ensures { IfOk result (λ marks. AreMarked (Leaves tree.now labels.now) (length tree.now.nodes) (2 * length tree.now.nodes) marks.items) }
{
    let nodes = tree.nodes.as_slice();
    let mut marks = no_marks(alloc, 2 * nodes.len())?;
    for n in 0..nodes.len() {
        let point = break_point(tree, labels, &nodes[n], around_at(table, n));
        mark(&mut marks, point);
    }
    Ok(marks)
}

/// The points in front of labeled statements that a `goto` names.
pub(crate) fn named_points(
    alloc: Global,
    tree: &FileTree,
    labels: &[Option<u32>],
) -> Result<Vec<bool>, NoMemory>
    requires few { length tree.now.nodes ≤ 2 ^ 32 }
    ensures { IfOk result (λ marks. AreMarked (Names tree.now labels.now) (length tree.now.nodes) (2 * length tree.now.nodes) marks.items) }
{
    let nodes = tree.nodes.as_slice();
    let mut marks = no_marks(alloc, 2 * nodes.len())?;
    for n in 0..nodes.len() {
        let point = goto_point(labels, &nodes[n]);
        mark(&mut marks, point);
    }
    Ok(marks)
}
