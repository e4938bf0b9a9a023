//! The nodes of a file while they are made, each directly after those of its parts.
ghost use Rattle.std.specs.Prelude.{◌≡◌, suc, ◌≤◌, ◌<◌, ◌^◌, IfOk, ◌++◌, ◌∷◌, [], length, take, drop, vec_len, OnOk};
ghost use Rattle.go_tree.specs.Arena.{highest, node_of};
ghost use Rattle.go_tree.specs.Shape.{shape};

use go_grammar::{add, sort};
use go_tree::{Node, NodeKind, Parts, Shape};
use std::alloc::AllocError;

/// The number of the next node. Numbers past 32 bits are as memory that is wanting.
fn number(length: usize) -> Result<u32, AllocError>
    ensures below { OnOk result (length < 2 ^ 32) }
    ensures same { IfOk result (λ n. n ≡ length) }
{
    if length > u32::MAX as usize {
        Err(AllocError)
    } else {
        Ok(length as u32)
    }
}

/// The numbers of the pending nodes from `base` on, which wait no longer.
#[inline(always)]
fn parts_from(pending: &mut Vec<u32>, base: usize) -> Result<Parts, AllocError>
    requires { base ≤ vec_len pending.old }
    ensures parts { IfOk result (λ parts. parts ≡ drop base pending.old.items) }
    ensures rest { OnOk result (pending.new.items ≡ take base pending.old.items) }
{
    match Parts::few(&pending[base..]) {
        Some(parts) => {
            pending.truncate(base);
            Ok(parts)
        }
        None => {
            let list = pending.split_off(base)?;
            Ok(Parts::new(list))
        }
    }
}

/// Makes a node whose parts are the pending nodes from `base` on, and leaves it pending in their place.
pub fn close(
    nodes: &mut Vec<Node>,
    pending: &mut Vec<u32>,
    kind: NodeKind,
    first: u32,
    last: u32,
    base: usize,
) -> Result<(), AllocError>
    requires { base ≤ vec_len pending.old }
    ensures nodes { OnOk result (nodes.new.items ≡ nodes.old.items ++ (node_of kind first last (drop base pending.old.items)) ∷ []) }
    ensures pending { OnOk result (pending.new.items ≡ take base pending.old.items ++ (length nodes.old.items) ∷ []) }
{
    let parts = parts_from(pending, base)?;
    let number = number(nodes.len())?;
    nodes.push(Node {
        kind,
        first,
        last,
        parts,
    })?;
    pending.push(number)?;
    Ok(())
}

/// The greatest of the heights, 0 of none.
pub fn highest(heights: &[u32]) -> u32
    ensures { result ≡ highest heights.now }
{
    let mut most = 0;
    let mut i = heights.len();
    while i > 0 {
        i -= 1;
        most = most.max(heights[i]);
    }
    most
}

/// Puts the height of a node over the trees from `base` on in their place.
pub fn raise(heights: &mut Vec<u32>, base: usize) -> Result<(), AllocError>
    requires { base ≤ vec_len heights.old }
    ensures { OnOk result (heights.new.items ≡ take base heights.old.items ++ (suc (highest (drop base heights.old.items))) ∷ []) }
{
    let height = highest(&heights[base..]);
    if height == u32::MAX {
        return Err(AllocError);
    }
    heights.truncate(base);
    heights.push(height + 1)?;
    Ok(())
}

/// Puts the kind of a node over the trees from `base` on in their place.
pub fn name(kinds: &mut Vec<NodeKind>, base: usize, kind: NodeKind) -> Result<(), AllocError>
    requires { base ≤ vec_len kinds.old }
    ensures { OnOk result (kinds.new.items ≡ take base kinds.old.items ++ kind ∷ []) }
{
    kinds.truncate(base);
    kinds.push(kind)?;
    Ok(())
}

/// The shape of parts of these kinds.
pub fn shape(kinds: &[NodeKind]) -> Shape
    ensures { result ≡ shape kinds.now }
{
    let mut found = Shape::Nothing;
    let mut i = kinds.len();
    while i > 0 {
        i -= 1;
        found = add(found, sort(kinds[i]));
    }
    found
}
