//! Where the nodes of a file stand.
ghost use Rattle.std.specs.Prelude.{◌≡◌, ◌<◌, ◌≤◌, ◌^◌, ℕ, length, None, slice_index_or, IfOk};
ghost use Rattle.package_objects.specs.Declares.{is_list};
ghost use Rattle.unit_read.specs.Places.{standing, part_items, standing_in, standing_at, place_of, Puts, PutsAll};

use crate::place::{Place, Standing};
use go_tree::{Node, NodeKind};
use gv_base::NoMemory;
use package_objects::{count, item, node_of, part_count, part_of};
use std::alloc::Global;

/// Puts a place into the row of its node, unless one stands there.
fn put(row: &mut Vec<Option<Place>>, standing: Standing)
    ensures { Puts row.old.items row.new.items standing }
{
    let n = standing.node as usize;
    if n < row.len() && row[n].is_none() {
        row[n] = Some(standing.place);
    }
}

fn put_item(around: u32, slot: usize, index: usize, node: Option<u32>, row: &mut Vec<Option<Place>>)
    ensures { PutsAll row.old.items row.new.items (standing around slot index node) }
{
    match node {
        Some(node) => put(
            row,
            Standing {
                node,
                place: Place {
                    around,
                    slot,
                    index,
                },
            },
        ),
        None => {}
    }
}

/// Puts the place of a part, or of what it lists.
fn put_part(
    nodes: &[Node],
    around: u32,
    slot: usize,
    list: Option<u32>,
    row: &mut Vec<Option<Place>>,
)
    ensures { PutsAll row.old.items row.new.items (part_items nodes.now around slot list) }
{
    for index in 0..count(nodes, list) {
        put_item(around, slot, index, item(nodes, list, index), row);
    }
}

fn is_list(kind: NodeKind) -> bool
    ensures { result ≡ is_list kind }
{
    match kind {
        NodeKind::Names => true,
        NodeKind::Exprs => true,
        _ => false,
    }
}

/// Puts the places of what stands in a node.
fn put_parts(nodes: &[Node], around: u32, node: &Node, row: &mut Vec<Option<Place>>)
    ensures { PutsAll row.old.items row.new.items (standing_in nodes.now around node.now) }
{
    if is_list(node.kind) {
        return;
    }
    for slot in 0..part_count(node) {
        put_part(nodes, around, slot, part_of(node, slot), row);
    }
}

fn put_node(nodes: &[Node], n: u32, row: &mut Vec<Option<Place>>)
    ensures { PutsAll row.old.items row.new.items (standing_at nodes.now n) }
{
    match node_of(nodes, n) {
        Some(node) => put_parts(nodes, n, node, row),
        None => {}
    }
}

/// For each node of a file where it stands.
pub fn place_row(alloc: Global, nodes: &[Node]) -> Result<Vec<Option<Place>>, NoMemory>
    requires { length nodes.now ≤ 2 ^ 32 }
    ensures size { IfOk result (λ row. length row.items ≡ length nodes.now) }
    ensures each { IfOk result (λ row. (n : ℕ) → n < length nodes.now → slice_index_or row.items n None ≡ place_of nodes.now n) }
{
    let mut row = vec![in alloc; None; nodes.len()]?;
    for n in 0..nodes.len() {
        put_node(nodes, n as u32, &mut row);
    }
    Ok(row)
}
