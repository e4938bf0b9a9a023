//! Where the search goes on from a spot.
ghost use Rattle.std.specs.Prelude.{◌≡◌, ◌==◌, ◌++◌, OnOk};
ghost use Rattle.std.specs.List.{flat_map};
ghost use Rattle.object_order.specs.Spots.{down, across, first_part, to_kin};
ghost use Rattle.object_order.specs.Trimmed.{trimmed_down, trimmed_into, trimmed_root, trimmed_under, trimmed_beside, trimmed_moves};
ghost use Rattle.object_order.specs.Quiet.{quiet_at};
ghost use Rattle.object_order.specs.Views.{world_of};

use crate::quiet::is_quiet;
use crate::spot::{Entry, Form, Mode, Root, Spot};
use crate::tables::{is_inner, is_joined, lay_crossing, lay_descent, lay_entry, lay_kin};
use crate::view::{View, entry_at, kin_at, meant_at};
use go_tree::{Node, NodeRef, node_in};
use gv_base::NoMemory;

fn first_of(node: &Node) -> u32
    ensures { result ≡ first_part node.now }
{
    let parts = node.parts.as_slice();
    if parts.is_empty() { 0 } else { parts[0] }
}

/// Adds what is looked for in one part of a node.
fn go_down(
    view: &View,
    spot: Spot,
    node: &Node,
    part: u32,
    row: &mut Vec<Spot>,
) -> Result<(), NoMemory>
    ensures { OnOk result (row.new.items ≡ row.old.items ++ down (world_of view.now) spot node.now part) }
{
    let at = NodeRef {
        file: spot.at.file,
        node: part,
    };
    let first = part == first_of(node);
    if let Some(inner) = node_in(view.trees, at) {
        lay_descent(row, spot.mode, node.kind, first, inner.kind, at)?;
    }
    Ok(())
}

/// Adds what is looked for in one part of a node, unless that is quiet.
fn go_on_down(
    view: &View,
    quiet: &Vec<Vec<bool>>,
    spot: Spot,
    node: &Node,
    part: u32,
    row: &mut Vec<Spot>,
) -> Result<(), NoMemory>
    ensures { OnOk result (row.new.items ≡ row.old.items ++ trimmed_down (quiet_at quiet.now.items) (world_of view.now) spot node.now part) }
{
    let at = NodeRef {
        file: spot.at.file,
        node: part,
    };
    if is_quiet(quiet, at) {
        return Ok(());
    }
    go_down(view, spot, node, part, row)
}

/// Adds what is looked for in the parts of a node.
fn go_into_parts(
    view: &View,
    quiet: &Vec<Vec<bool>>,
    spot: Spot,
    node: &Node,
    row: &mut Vec<Spot>,
) -> Result<(), NoMemory>
    ensures { OnOk result (row.new.items ≡ row.old.items ++ flat_map (trimmed_down (quiet_at quiet.now.items) (world_of view.now) spot node.now) node.now.parts) }
{
    for part in node.parts.as_slice() {
        go_on_down(view, quiet, spot, node, *part, row)?;
    }
    Ok(())
}

fn go_into(
    view: &View,
    quiet: &Vec<Vec<bool>>,
    spot: Spot,
    row: &mut Vec<Spot>,
) -> Result<(), NoMemory>
    ensures { OnOk result (row.new.items ≡ row.old.items ++ trimmed_into (quiet_at quiet.now.items) (world_of view.now) spot) }
{
    if let Some(node) = node_in(view.trees, spot.at) {
        go_into_parts(view, quiet, spot, node, row)?;
    }
    Ok(())
}

/// Adds what is looked for at the object that a node mentions.
fn go_across(view: &View, spot: Spot, row: &mut Vec<Spot>) -> Result<(), NoMemory>
    ensures { OnOk result (row.new.items ≡ row.old.items ++ across (world_of view.now) spot) }
{
    if let Some(object) = meant_at(view, spot.at) {
        if let Some(entry) = entry_at(view, object) {
            lay_crossing(row, spot.mode, entry.form, object)?;
        }
    }
    Ok(())
}

/// Adds what is looked for in one node of a declaration, unless that is quiet.
fn go_to_root(
    quiet: &Vec<Vec<bool>>,
    spot: Spot,
    form: Form,
    root: Root,
    row: &mut Vec<Spot>,
) -> Result<(), NoMemory>
    ensures { OnOk result (row.new.items ≡ row.old.items ++ trimmed_root (quiet_at quiet.now.items) spot form root) }
{
    let at = NodeRef {
        file: spot.at.file,
        node: root.node,
    };
    if is_quiet(quiet, at) {
        return Ok(());
    }
    lay_entry(row, spot.mode, form, root.role, at)
}

/// Adds what is looked for in the nodes of a declaration.
fn go_under_roots(
    quiet: &Vec<Vec<bool>>,
    spot: Spot,
    entry: &Entry,
    row: &mut Vec<Spot>,
) -> Result<(), NoMemory>
    ensures { OnOk result (row.new.items ≡ row.old.items ++ flat_map (trimmed_root (quiet_at quiet.now.items) spot entry.now.form) entry.now.roots) }
{
    for root in entry.roots.as_slice() {
        go_to_root(quiet, spot, entry.form, *root, row)?;
    }
    Ok(())
}

fn go_under(
    view: &View,
    quiet: &Vec<Vec<bool>>,
    spot: Spot,
    row: &mut Vec<Spot>,
) -> Result<(), NoMemory>
    ensures { OnOk result (row.new.items ≡ row.old.items ++ trimmed_under (quiet_at quiet.now.items) (world_of view.now) spot) }
{
    if let Some(entry) = entry_at(view, spot.at) {
        go_under_roots(quiet, spot, entry, row)?;
    }
    Ok(())
}

fn go_to_kin(view: &View, mode: Mode, at: NodeRef, row: &mut Vec<Spot>) -> Result<(), NoMemory>
    ensures { OnOk result (row.new.items ≡ row.old.items ++ to_kin (world_of view.now) mode at) }
{
    if let Some(entry) = entry_at(view, at) {
        lay_kin(row, mode, entry.form, at)?;
    }
    Ok(())
}

fn go_to_all(view: &View, mode: Mode, kin: &[NodeRef], row: &mut Vec<Spot>) -> Result<(), NoMemory>
    ensures { OnOk result (row.new.items ≡ row.old.items ++ flat_map (to_kin (world_of view.now) mode) kin.now) }
{
    for at in kin {
        go_to_kin(view, mode, *at, row)?;
    }
    Ok(())
}

/// Adds what is looked for at the methods of a type.
fn go_beside(view: &View, spot: Spot, row: &mut Vec<Spot>) -> Result<(), NoMemory>
    ensures { OnOk result (row.new.items ≡ row.old.items ++ trimmed_beside (world_of view.now) spot) }
{
    if is_joined(spot.mode) {
        let kin = kin_at(view, spot.at);
        go_to_all(view, spot.mode, kin, row)?;
    }
    Ok(())
}

/// Where the search goes on from a spot, but for quiet nodes, in place of what the row had.
pub fn moves(
    view: &View,
    quiet: &Vec<Vec<bool>>,
    spot: Spot,
    row: &mut Vec<Spot>,
) -> Result<(), NoMemory>
    ensures { OnOk result (row.new.items ≡ trimmed_moves (quiet_at quiet.now.items) (world_of view.now) spot) }
{
    row.clear();
    if is_inner(spot.mode) {
        go_into(view, quiet, spot, row)?;
        go_across(view, spot, row)?;
    } else {
        go_under(view, quiet, spot, row)?;
        go_beside(view, spot, row)?;
    }
    Ok(())
}
