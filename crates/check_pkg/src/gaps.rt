//! What is left out of the nodes that are marked first: bodies, and what asks for nodes that stand behind it. No mark rests on it.
ghost use Rattle.unit_read.specs.Subjects.{IsRead};

use elaborate::Stretch;
use go_tree::{Node, NodeKind, NodeRef};
use gv_base::NoMemory;
use package_objects::{kind_of, node_of, part_count, part_of};
use unit_read::Subject;

/// Nodes that are left out, from this one on and before that.
#[derive(Clone, Copy, Debug, PartialEq, Eq, Drop)]
struct Gap {
    low: usize,
    end: usize,
}

// ---- bodies

/// The last part of a node, where that is a block and stands behind this part.
fn last_behind(nodes: &[Node], node: &Node, n: u32) -> Option<u32> {
    let count = part_count(node);
    if count < 2 {
        return None;
    }
    if part_of(node, count - 2) != Some(n) {
        return None;
    }
    block_of(nodes, part_of(node, count - 1))
}

fn block_of(nodes: &[Node], part: Option<u32>) -> Option<u32> {
    let Some(n) = part else {
        return None;
    };
    if kind_of(nodes, n) == NodeKind::Block {
        Some(n)
    } else {
        None
    }
}

fn block_in(nodes: &[Node], around: u32, n: u32) -> Option<u32> {
    match node_of(nodes, around) {
        Some(node) => last_behind(nodes, node, n),
        None => None,
    }
}

/// The body that begins behind a node, if one does: a node comes directly after its parts.
fn body_behind(u: &Subject, at: NodeRef) -> Option<u32>
    requires { IsRead u.now }
{
    match u.place_at(at) {
        Some(place) => block_in(u.nodes_at(at.file), place.around, at.node),
        None => None,
    }
}

// ---- what comes last

/// `[...]T` asks for the keys of its literal, which stand behind it.
fn comes_last(nodes: &[Node], n: u32) -> bool {
    match node_of(nodes, n) {
        Some(node) => node.kind == NodeKind::DotsType,
        None => false,
    }
}

/// One of these nodes comes last.
pub fn has_last(nodes: &[Node], low: u32, end: u32) -> bool {
    for n in low..end {
        if comes_last(nodes, n) {
            return true;
        }
    }
    false
}

// ---- gaps

fn body_gap(u: &Subject, at: NodeRef) -> Option<Gap>
    requires { IsRead u.now }
{
    match body_behind(u, at) {
        Some(body) => Some(Gap {
            low: at.node as usize + 1,
            end: body as usize + 1,
        }),
        None => None,
    }
}

/// What is left out at a node; bodies too, if they are to be.
fn gap_at(u: &Subject, at: NodeRef, bodies: bool) -> Option<Gap>
    requires { IsRead u.now }
{
    if comes_last(u.nodes_at(at.file), at.node) {
        return Some(Gap {
            low: at.node as usize,
            end: at.node as usize + 1,
        });
    }
    if bodies { body_gap(u, at) } else { None }
}

/// Adds the nodes before what is left out at a node, and answers where they go on.
fn add_before(
    u: &Subject,
    at: NodeRef,
    bodies: bool,
    from: usize,
    out: &mut Vec<Stretch>,
) -> Result<usize, NoMemory>
    requires { IsRead u.now }
{
    match gap_at(u, at, bodies) {
        Some(gap) => {
            out.push(Stretch {
                block: at.file as usize,
                low: from,
                end: gap.low,
            })?;
            Ok(gap.end)
        }
        None => Ok(from),
    }
}

/// Adds the nodes from one on to the end of what it stands in, without what is left out.
pub fn add_apart(
    u: &Subject,
    file: u32,
    low: u32,
    whole: u32,
    bodies: bool,
    out: &mut Vec<Stretch>,
) -> Result<(), NoMemory>
    requires { IsRead u.now }
{
    let mut from = low as usize;
    for node in low..whole {
        if node as usize >= from {
            from = add_before(u, NodeRef { file, node }, bodies, from, out)?;
        }
    }
    out.push(Stretch {
        block: file as usize,
        low: from,
        end: whole as usize + 1,
    })?;
    Ok(())
}
