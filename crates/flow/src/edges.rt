//! Where each statement lets control pass.
ghost use Rattle.std.specs.Prelude.{◌≡◌, ◌++◌, ◌∷◌, [], OnOk};
ghost use Rattle.flow.specs.Edges.{before, after, edge, chain, end_of, through, back, again_in, if_so, choice_point, turn_point, sequence, branching, looping, edges_of, jump_edges};

use crate::kinds::{is_branching, is_ending, is_loop, is_sequence, step_role, steps_of};
use crate::passes::{may_end, may_pass};
use crate::point::{Edge, Role};
use crate::roles::has_role;
use go_tree::{FileTree, NodeKind};
use gv_base::NoMemory;

/// The point before a statement.
pub(crate) fn before(n: u32) -> usize
    ensures { result ≡ before n }
{
    2 * n as usize
}

/// The point after a statement.
pub(crate) fn after(n: u32) -> usize
    ensures { result ≡ after n }
{
    2 * n as usize + 1
}

fn add(edges: &mut Vec<Edge>, from: usize, to: usize) -> Result<(), NoMemory>
    ensures { OnOk result (edges.new.items ≡ edges.old.items ++ edge from to ∷ []) }
{
    edges.push(Edge { from, to })?;
    Ok(())
}

fn add_if(edges: &mut Vec<Edge>, so: bool, from: usize, to: usize) -> Result<(), NoMemory>
    ensures { OnOk result (edges.new.items ≡ edges.old.items ++ if_so so from to) }
{
    if so {
        add(edges, from, to)?;
    }
    Ok(())
}

fn add_chain(
    edges: &mut Vec<Edge>,
    tree: &FileTree,
    role: Role,
    from: usize,
    parts: &[u32],
) -> Result<(), NoMemory>
    ensures { OnOk result (edges.new.items ≡ edges.old.items ++ chain tree.now role from parts.now) }
{
    let mut point = from;
    for part in parts {
        if has_role(tree, role, *part) {
            add(edges, point, before(*part))?;
            point = after(*part);
        }
    }
    Ok(())
}

fn end_of(tree: &FileTree, role: Role, from: usize, parts: &[u32]) -> usize
    ensures { result ≡ end_of tree.now role from parts.now }
{
    let mut point = from;
    for part in parts {
        if has_role(tree, role, *part) {
            point = after(*part);
        }
    }
    point
}

fn add_through(
    edges: &mut Vec<Edge>,
    tree: &FileTree,
    role: Role,
    from: usize,
    end: usize,
    parts: &[u32],
) -> Result<(), NoMemory>
    ensures { OnOk result (edges.new.items ≡ edges.old.items ++ through tree.now role from end parts.now) }
{
    for part in parts {
        if has_role(tree, role, *part) {
            add(edges, from, before(*part))?;
            add(edges, after(*part), end)?;
        }
    }
    Ok(())
}

fn add_back(
    edges: &mut Vec<Edge>,
    tree: &FileTree,
    role: Role,
    end: usize,
    parts: &[u32],
) -> Result<(), NoMemory>
    ensures { OnOk result (edges.new.items ≡ edges.old.items ++ back tree.now role end parts.now) }
{
    for part in parts {
        if has_role(tree, role, *part) {
            add(edges, after(*part), end)?;
        }
    }
    Ok(())
}

fn again_in(tree: &FileTree, end: usize, parts: &[u32]) -> usize
    ensures { result ≡ again_in tree.now end parts.now }
{
    for part in parts {
        if has_role(tree, Role::Post, *part) {
            return before(*part);
        }
    }
    end
}

fn choice_point(tree: &FileTree, n: u32, parts: &[u32]) -> usize
    ensures { result ≡ choice_point tree.now n parts.now }
{
    end_of(tree, Role::Opening, before(n), parts)
}

/// Where the next turn of a loop begins.
pub(crate) fn turn_point(tree: &FileTree, n: u32, parts: &[u32]) -> usize
    ensures { result ≡ turn_point tree.now n parts.now }
{
    again_in(tree, choice_point(tree, n, parts), parts)
}

fn add_sequence(
    edges: &mut Vec<Edge>,
    tree: &FileTree,
    n: u32,
    role: Role,
    parts: &[u32],
) -> Result<(), NoMemory>
    ensures { OnOk result (edges.new.items ≡ edges.old.items ++ sequence tree.now n role parts.now) }
{
    let end = end_of(tree, role, before(n), parts);
    add_chain(edges, tree, role, before(n), parts)?;
    add(edges, end, after(n))?;
    Ok(())
}

fn add_branching(
    edges: &mut Vec<Edge>,
    tree: &FileTree,
    n: u32,
    kind: NodeKind,
    parts: &[u32],
) -> Result<(), NoMemory>
    ensures { OnOk result (edges.new.items ≡ edges.old.items ++ branching tree.now n kind parts.now) }
{
    let choice = choice_point(tree, n, parts);
    let passes = may_pass(tree, kind, parts);
    add_chain(edges, tree, Role::Opening, before(n), parts)?;
    add_through(edges, tree, Role::Arm, choice, after(n), parts)?;
    add_if(edges, passes, choice, after(n))?;
    Ok(())
}

fn add_looping(
    edges: &mut Vec<Edge>,
    tree: &FileTree,
    n: u32,
    kind: NodeKind,
    parts: &[u32],
) -> Result<(), NoMemory>
    ensures { OnOk result (edges.new.items ≡ edges.old.items ++ looping tree.now n kind parts.now) }
{
    let choice = choice_point(tree, n, parts);
    let turn = turn_point(tree, n, parts);
    let ends = may_end(tree, kind, parts);
    add_chain(edges, tree, Role::Opening, before(n), parts)?;
    add_through(edges, tree, Role::Body, choice, turn, parts)?;
    add_back(edges, tree, Role::Post, choice, parts)?;
    add_if(edges, ends, choice, after(n))?;
    Ok(())
}

/// Where a node lets control pass among its points and those of its parts.
pub(crate) fn add_edges(
    edges: &mut Vec<Edge>,
    tree: &FileTree,
    n: u32,
    kind: NodeKind,
    parts: &[u32],
) -> Result<(), NoMemory>
    ensures { OnOk result (edges.new.items ≡ edges.old.items ++ edges_of tree.now n kind parts.now) }
{
    if is_sequence(kind) {
        add_sequence(edges, tree, n, step_role(kind), steps_of(kind, parts))?;
        return Ok(());
    }
    if is_branching(kind) {
        add_branching(edges, tree, n, kind, parts)?;
        return Ok(());
    }
    if is_loop(kind) {
        add_looping(edges, tree, n, kind, parts)?;
        return Ok(());
    }
    if is_ending(kind) {
        return Ok(());
    }
    add(edges, before(n), after(n))?;
    Ok(())
}

/// Where a jump leads, if it leads anywhere.
pub(crate) fn add_jump(edges: &mut Vec<Edge>, n: u32, target: Option<usize>) -> Result<(), NoMemory>
    ensures { OnOk result (edges.new.items ≡ edges.old.items ++ jump_edges n target) }
{
    match target {
        None => Ok(()),
        Some(to) => {
            add(edges, before(n), to)?;
            Ok(())
        }
    }
}
