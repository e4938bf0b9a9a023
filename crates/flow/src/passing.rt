//! Whether statements pass, by their syntax.
ghost use Rattle.std.specs.Prelude.{◌≡◌, ◌||◌, ◌≤◌, ◌^◌, ◌*◌, IfOk, length, cond, false, List, Option, ℕ, None};
ghost use Rattle.flow.specs.Around.{IsTree};
ghost use Rattle.flow.specs.Edges.{has_role};
ghost use Rattle.flow.specs.Passing.{is_leavable, last_of, last_step, some_passes, passes_if, is_left_at, passes_by, flag_of, AreMarked, Leaves, ArePassing, AreSurelyPassing};
ghost use Rattle.flow.specs.declared.point.Role.TheVariants as r;

use crate::edges::after;
use crate::kinds::{is_branching, is_ending, is_left, is_loop, is_sequence, step_role, steps_of};
use crate::passes::{may_end, may_pass};
use crate::point::Role;
use crate::roles::has_role;
use go_tree::{FileTree, Node, NodeKind};
use gv_base::NoMemory;
use std::alloc::Global;

pub(crate) fn flag_at(flags: &[bool], n: usize) -> bool
    ensures { result ≡ flag_of flags.now n }
{
    if n < flags.len() { flags[n] } else { false }
}

fn is_leavable(kind: NodeKind) -> bool
    ensures { result ≡ is_leavable kind }
{
    is_loop(kind) || is_left(kind)
}

/// The last of the parts of a role.
fn last_of(tree: &FileTree, role: Role, parts: &[u32]) -> Option<u32>
    ensures { result ≡ last_of tree.now role None parts.now }
{
    let mut last = None;
    for part in parts {
        if has_role(tree, role, *part) {
            last = Some(*part);
        }
    }
    last
}

fn last_step(tree: &FileTree, node: &Node) -> Option<u32>
    ensures { result ≡ last_step tree.now node.now }
{
    last_of(
        tree,
        step_role(node.kind),
        steps_of(node.kind, node.parts.as_slice()),
    )
}

fn passes_if(flags: &[bool], step: Option<u32>) -> bool
    ensures { result ≡ passes_if (flag_of flags.now) step }
{
    match step {
        None => true,
        Some(m) => flag_at(flags, m as usize),
    }
}

fn has_passing(tree: &FileTree, role: Role, flags: &[bool], part: u32) -> bool
    ensures { result ≡ cond (has_role tree.now role part) (flag_of flags.now part) false }
{
    if has_role(tree, role, part) {
        return flag_at(flags, part as usize);
    }
    false
}

/// Whether one of the parts of a role passes.
fn some_passes(tree: &FileTree, role: Role, flags: &[bool], parts: &[u32]) -> bool
    ensures { result ≡ some_passes tree.now role (flag_of flags.now) parts.now }
{
    for part in parts {
        if has_passing(tree, role, flags, *part) {
            return true;
        }
    }
    false
}

fn is_left_at(left: &[bool], n: u32, kind: NodeKind) -> bool
    ensures { result ≡ is_left_at (flag_of left.now) n kind }
{
    if is_leavable(kind) {
        return flag_at(left, after(n));
    }
    false
}

/// Whether a node passes, by the flags of its parts.
fn passes(
    tree: &FileTree,
    stops: &[bool],
    left: &[bool],
    flags: &[bool],
    n: u32,
    node: &Node,
) -> bool
    ensures { result ≡ passes_by tree.now (flag_of stops.now) (flag_of left.now) (flag_of flags.now) n node.now }
{
    let parts = node.parts.as_slice();
    if is_sequence(node.kind) {
        return passes_if(flags, last_step(tree, node));
    }
    if is_branching(node.kind) {
        return is_left_at(left, n, node.kind)
            || (may_pass(tree, node.kind, parts) || some_passes(tree, Role::Arm, flags, parts));
    }
    if is_loop(node.kind) {
        return is_left_at(left, n, node.kind) || may_end(tree, node.kind, parts);
    }
    if is_ending(node.kind) {
        return false;
    }
    !flag_at(stops, n as usize)
}

/// Which nodes pass. `left` are the points behind statements that a `break` leaves.
pub(crate) fn passing(
    alloc: Global,
    tree: &FileTree,
    labels: &[Option<u32>],
    stops: &[bool],
    left: &[bool],
) -> Result<Vec<bool>, NoMemory>
    requires tree { IsTree tree.now.nodes }
    requires few { length tree.now.nodes ≤ 2 ^ 32 }
    requires left { AreMarked (Leaves tree.now labels.now) (length tree.now.nodes) (2 * length tree.now.nodes) left.now }
    ensures { IfOk result (λ flags. ArePassing tree.now labels.now (flag_of stops.now) (length tree.now.nodes) flags.items) }
{
    let nodes = tree.nodes.as_slice();
    let mut flags = Vec::new(alloc);
    for n in 0..nodes.len() {
        let flag = passes(tree, stops, left, &flags, n as u32, &nodes[n]);
        flags.push(flag)?;
    }
    Ok(flags)
}

/// Which nodes pass whatever a `break` leaves. Others may pass too: for these jumps must be asked.
pub(crate) fn surely_passing(
    alloc: Global,
    tree: &FileTree,
    stops: &[bool],
) -> Result<Vec<bool>, NoMemory>
    requires tree { IsTree tree.now.nodes }
    requires few { length tree.now.nodes ≤ 2 ^ 32 }
    ensures { IfOk result (λ flags. (labels : List (Option ℕ)) → AreSurelyPassing tree.now labels (flag_of stops.now) (length tree.now.nodes) flags.items) }
{
    let nodes = tree.nodes.as_slice();
    let mut flags = Vec::new(alloc);
    for n in 0..nodes.len() {
        let flag = passes(tree, stops, &[], &flags, n as u32, &nodes[n]);
        flags.push(flag)?;
    }
    Ok(flags)
}
