//! What is read of a package: nodes, what they denote, declarations, flags.
ghost use Rattle.std.specs.Prelude.{◌≡◌, ◌==◌, false, slice_get, slice_index_or, option_and_then, option_map};
ghost use Rattle.std.specs.Option.{option_copied};
ghost use Rattle.object_order.specs.Spots.{place};
ghost use Rattle.object_order.specs.Views.{number_in, entry_in, itself, meant_in, world_of};
ghost use Rattle.package_needs.specs.Follow.{kind_at as kind_in, part_in};
ghost use Rattle.package_needs.specs.Keys.{flagged};

use go_tree::{Node, NodeKind, NodeRef, node_in};
use object_order::{Entry, View};
use std::collections::HashMap;

/// The node of this number in the file of the other.
pub fn beside(at: NodeRef, node: u32) -> NodeRef
    ensures { result ≡ place at.file node }
{
    NodeRef {
        file: at.file,
        node,
    }
}

/// A node, if it is there.
pub fn node_at<'a>(view: &'a View, at: NodeRef) -> Option<&'a Node>
    ensures { option_copied result ≡ (world_of view.now).node at }
{
    node_in(view.trees, at)
}

/// The kind of a node; that of a package clause, where there is no such node.
pub fn kind_at(view: &View, at: NodeRef) -> NodeKind
    ensures { result ≡ kind_in (world_of view.now) at }
{
    match node_at(view, at) {
        Some(node) => node.kind,
        None => NodeKind::Package,
    }
}

fn part_of(node: &Node, i: usize, at: NodeRef) -> Option<NodeRef>
    ensures { result ≡ option_map (λ n. place at.file n) (slice_get node.now.parts i) }
{
    match node.part(i) {
        Some(part) => Some(beside(at, part)),
        None => None,
    }
}

/// The part at a place of a node, if it has so many.
pub fn part_at(view: &View, i: usize, at: NodeRef) -> Option<NodeRef>
    ensures { result ≡ part_in (world_of view.now) i at }
{
    match node_at(view, at) {
        Some(node) => part_of(node, i, at),
        None => None,
    }
}

/// The number of a declared name.
pub fn number_of(numbers: &HashMap<(usize, usize), u32>, at: NodeRef) -> Option<u32>
    ensures { result ≡ number_in numbers.now (at.file, at.node) }
{
    let key = (at.file as usize, at.node as usize);
    numbers.get(&key).copied()
}

/// A declaration by its number.
pub fn entry_of<'a>(entries: &'a Vec<Entry>, n: u32) -> Option<&'a Entry>
    ensures { option_copied result ≡ slice_get entries.now.items n }
{
    entries.get(n as usize)
}

fn entry_in_list<'a>(
    entries: &'a Vec<Entry>,
    numbers: &HashMap<(usize, usize), u32>,
    at: NodeRef,
) -> Option<&'a Entry>
    ensures { option_copied result ≡ entry_in entries.now.items numbers.now at }
{
    match number_of(numbers, at) {
        Some(number) => entry_of(entries, number),
        None => None,
    }
}

/// The declaration of a name, if it is one.
pub fn entry_at<'a>(view: &'a View, at: NodeRef) -> Option<&'a Entry>
    ensures { option_copied result ≡ (world_of view.now).entry at }
{
    entry_in_list(&view.entries, &view.numbers, at)
}

fn row_at<'a>(meant: &'a [Vec<Option<NodeRef>>], file: u32) -> Option<&'a Vec<Option<NodeRef>>>
    ensures { option_copied result ≡ slice_get meant.now file }
{
    meant.get(file as usize)
}

fn cell_of(row: &Vec<Option<NodeRef>>, node: u32) -> Option<NodeRef>
    ensures { result ≡ option_and_then itself (slice_get row.now.items node) }
{
    match row.get(node as usize) {
        Some(cell) => *cell,
        None => None,
    }
}

/// The declared name that a node denotes.
pub fn denoted_at(view: &View, at: NodeRef) -> Option<NodeRef>
    ensures { result ≡ (world_of view.now).meant at }
{
    match row_at(view.meant, at.file) {
        Some(row) => cell_of(row, at.node),
        None => None,
    }
}

fn flags_at(rows: &Vec<Vec<bool>>, file: u32) -> Option<&Vec<bool>>
    ensures { option_copied result ≡ slice_get rows.now.items file }
{
    rows.get(file as usize)
}

fn flag_in(row: &Vec<bool>, node: u32) -> bool
    ensures { result ≡ slice_index_or row.now.items node false }
{
    match row.get(node as usize) {
        Some(flag) => *flag,
        None => false,
    }
}

/// What a table of flags has for a node.
pub fn flag_of(rows: &Vec<Vec<bool>>, at: NodeRef) -> bool
    ensures { result ≡ flagged rows.now.items at }
{
    match flags_at(rows, at.file) {
        Some(row) => flag_in(row, at.node),
        None => false,
    }
}
