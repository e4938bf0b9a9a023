//! What each node mentions: what it denotes, unless it is a field key.
ghost use Rattle.std.specs.Prelude.{◌≡◌, ◌<◌, ◌+◌, ◌↔◌, ◌||◌, ◌≤◌, ◌^◌, ℕ, true, false, length, slice_get, slice_set, replicate, IfOk, Some, None};
ghost use Rattle.std.specs.Option.{option_map_or};
ghost use Rattle.go_tree.specs.declared.tree.FileTree.{FileTree};
ghost use Rattle.object_order.specs.Spots.{place};
ghost use Rattle.package_objects.specs.Declares.{AreSmall};
ghost use Rattle.object_order.specs.Views.{world_of, meant_in};
ghost use Rattle.package_needs.specs.Links.{AreEnds, cell};
ghost use Rattle.package_needs.specs.Keys.{up, written, held, is_struct_at, flagged, IsLiteral, AreLiterals, AreAbove, IsKey, IsMentioned, IsMentionRow, AreMentions};

use crate::above::above_nodes;
use crate::ends::{cell_at, end_of};
use crate::literal::{Held, held_at, inner_type, is_struct_type, written_at};
use crate::read::{denoted_at, flag_of, kind_at};
use go_tree::{FileTree, NodeRef};
use gv_base::NoMemory;
use object_order::View;
use std::alloc::Global;

fn literal_held(
    view: &View,
    far: &Vec<Option<NodeRef>>,
    types: &Vec<Option<NodeRef>>,
    at: NodeRef,
    inside: Held,
) -> Option<NodeRef>
    requires far { AreEnds (world_of view.now) view.now.entries.items true far.now.items }
    requires known { AreLiterals (world_of view.now) (up view.now.trees.now) at.file types.now.items (at.node + 1) }
    requires bare { written (world_of view.now) (up view.now.trees.now) at ≡ None }
    requires holds { held (world_of view.now) (up view.now.trees.now) at ≡ Some inside }
    ensures { IsLiteral (world_of view.now) (up view.now.trees.now) at result }
{
    match cell_at(types, inside.braces.node) {
        Some(of) => inner_type(view, far, inside.key, of),
        None => None,
    }
}

fn literal_bare(
    view: &View,
    far: &Vec<Option<NodeRef>>,
    table: &Vec<Option<u32>>,
    types: &Vec<Option<NodeRef>>,
    at: NodeRef,
) -> Option<NodeRef>
    requires far { AreEnds (world_of view.now) view.now.entries.items true far.now.items }
    requires above { AreAbove view.now.trees.now at.file table.now.items }
    requires known { AreLiterals (world_of view.now) (up view.now.trees.now) at.file types.now.items (at.node + 1) }
    requires bare { written (world_of view.now) (up view.now.trees.now) at ≡ None }
    ensures { IsLiteral (world_of view.now) (up view.now.trees.now) at result }
{
    match held_at(view, table, at) {
        Some(inside) => literal_held(view, far, types, at, inside),
        None => None,
    }
}

/// The type of the literal whose braces stand there, where it is known of those that come later.
fn literal_at(
    view: &View,
    far: &Vec<Option<NodeRef>>,
    table: &Vec<Option<u32>>,
    types: &Vec<Option<NodeRef>>,
    at: NodeRef,
) -> Option<NodeRef>
    requires far { AreEnds (world_of view.now) view.now.entries.items true far.now.items }
    requires above { AreAbove view.now.trees.now at.file table.now.items }
    requires known { AreLiterals (world_of view.now) (up view.now.trees.now) at.file types.now.items (at.node + 1) }
    ensures { IsLiteral (world_of view.now) (up view.now.trees.now) at result }
{
    match written_at(view, table, at) {
        Some(of) => Some(of),
        None => literal_bare(view, far, table, types, at),
    }
}

fn blank(alloc: Global, count: usize) -> Result<Vec<Option<NodeRef>>, NoMemory>
    ensures { IfOk result (λ types. types.items ≡ replicate count None) }
{
    let types = vec![in alloc; None; count]?;
    Ok(types)
}

fn put(types: &mut Vec<Option<NodeRef>>, n: usize, of: Option<NodeRef>)
    requires { n < length types.old.items }
    ensures { types.new.items ≡ slice_set types.old.items n of }
{
    types[n] = of;
}

/// The types of the literals of a file.
fn literals_in(
    alloc: Global,
    view: &View,
    far: &Vec<Option<NodeRef>>,
    table: &Vec<Option<u32>>,
    file: u32,
    count: usize,
) -> Result<Vec<Option<NodeRef>>, NoMemory>
    requires far { AreEnds (world_of view.now) view.now.entries.items true far.now.items }
    requires above { AreAbove view.now.trees.now file table.now.items }
    requires count { count ≡ option_map_or (λ (tree : FileTree). length tree.nodes) (slice_get view.now.trees.now file) 0 }
    requires few { count ≤ 2 ^ 32 }
    ensures { IfOk result (λ types. AreLiterals (world_of view.now) (up view.now.trees.now) file types.items 0) }
{
    let mut types = blank(alloc, count)?;
    let mut left = count;
    while left > 0 {
        left -= 1;
        let at = NodeRef {
            file,
            node: left as u32,
        };
        let of = literal_at(view, far, table, &types, at);
        put(&mut types, left, of);
    }
    Ok(types)
}

fn either(a: bool, b: bool) -> bool
    ensures { result ≡ (a || b) }
{
    a || b
}

/// Whether a type ends here at a struct: one that is written, or one that another package declares.
fn is_struct_here(view: &View, elsewhere: &Vec<Vec<bool>>, end: NodeRef) -> bool
    ensures { result ≡ is_struct_at (world_of view.now) (flagged elsewhere.now.items) end }
{
    let outside = flag_of(elsewhere, end);
    either(is_struct_type(kind_at(view, end)), outside)
}

fn is_struct_end(view: &View, elsewhere: &Vec<Vec<bool>>, end: Option<NodeRef>) -> bool
    ensures { result ≡ option_map_or (λ e. is_struct_at (world_of view.now) (flagged elsewhere.now.items) e) end false }
{
    match end {
        Some(end) => is_struct_here(view, elsewhere, end),
        None => false,
    }
}

fn is_key_of(
    view: &View,
    elsewhere: &Vec<Vec<bool>>,
    far: &Vec<Option<NodeRef>>,
    types: &Vec<Option<NodeRef>>,
    at: NodeRef,
    inside: Held,
) -> bool
    requires far { AreEnds (world_of view.now) view.now.entries.items true far.now.items }
    requires known { AreLiterals (world_of view.now) (up view.now.trees.now) at.file types.now.items 0 }
    requires holds { held (world_of view.now) (up view.now.trees.now) at ≡ Some inside }
    requires key { inside.key ≡ true }
    ensures { (result ≡ true) ↔ IsKey (world_of view.now) (flagged elsewhere.now.items) (up view.now.trees.now) at }
{
    match cell_at(types, inside.braces.node) {
        Some(of) => is_struct_end(view, elsewhere, end_of(view, true, far, of)),
        None => false,
    }
}

fn is_key_in(
    view: &View,
    elsewhere: &Vec<Vec<bool>>,
    far: &Vec<Option<NodeRef>>,
    types: &Vec<Option<NodeRef>>,
    at: NodeRef,
    inside: Held,
) -> bool
    requires far { AreEnds (world_of view.now) view.now.entries.items true far.now.items }
    requires known { AreLiterals (world_of view.now) (up view.now.trees.now) at.file types.now.items 0 }
    requires holds { held (world_of view.now) (up view.now.trees.now) at ≡ Some inside }
    ensures { (result ≡ true) ↔ IsKey (world_of view.now) (flagged elsewhere.now.items) (up view.now.trees.now) at }
{
    if inside.key {
        return is_key_of(view, elsewhere, far, types, at, inside);
    }
    false
}

/// Whether a node is a field key.
fn is_key(
    view: &View,
    elsewhere: &Vec<Vec<bool>>,
    far: &Vec<Option<NodeRef>>,
    table: &Vec<Option<u32>>,
    types: &Vec<Option<NodeRef>>,
    at: NodeRef,
) -> bool
    requires far { AreEnds (world_of view.now) view.now.entries.items true far.now.items }
    requires above { AreAbove view.now.trees.now at.file table.now.items }
    requires known { AreLiterals (world_of view.now) (up view.now.trees.now) at.file types.now.items 0 }
    ensures { (result ≡ true) ↔ IsKey (world_of view.now) (flagged elsewhere.now.items) (up view.now.trees.now) at }
{
    match held_at(view, table, at) {
        Some(inside) => is_key_in(view, elsewhere, far, types, at, inside),
        None => false,
    }
}

/// What a node mentions.
fn mention_at(
    view: &View,
    elsewhere: &Vec<Vec<bool>>,
    far: &Vec<Option<NodeRef>>,
    table: &Vec<Option<u32>>,
    types: &Vec<Option<NodeRef>>,
    at: NodeRef,
) -> Option<NodeRef>
    requires far { AreEnds (world_of view.now) view.now.entries.items true far.now.items }
    requires above { AreAbove view.now.trees.now at.file table.now.items }
    requires known { AreLiterals (world_of view.now) (up view.now.trees.now) at.file types.now.items 0 }
    ensures { IsMentioned (world_of view.now) (flagged elsewhere.now.items) (up view.now.trees.now) at result }
{
    if is_key(view, elsewhere, far, table, types, at) {
        return None;
    }
    denoted_at(view, at)
}

/// What the nodes of a file mention.
fn mention_row(
    alloc: Global,
    view: &View,
    elsewhere: &Vec<Vec<bool>>,
    far: &Vec<Option<NodeRef>>,
    table: &Vec<Option<u32>>,
    types: &Vec<Option<NodeRef>>,
    file: u32,
    end: usize,
) -> Result<Vec<Option<NodeRef>>, NoMemory>
    requires small { end ≤ 2 ^ 32 }
    requires far { AreEnds (world_of view.now) view.now.entries.items true far.now.items }
    requires above { AreAbove view.now.trees.now file table.now.items }
    requires known { AreLiterals (world_of view.now) (up view.now.trees.now) file types.now.items 0 }
    ensures { IfOk result (λ row. IsMentionRow (world_of view.now) (flagged elsewhere.now.items) (up view.now.trees.now) file row.items end) }
{
    let mut row = Vec::with_capacity(alloc, end)?;
    for node in 0..end {
        let at = NodeRef {
            file,
            node: node as u32,
        };
        row.push(mention_at(view, elsewhere, far, table, types, at))?;
    }
    Ok(row)
}

fn tree_row(
    alloc: Global,
    view: &View,
    elsewhere: &Vec<Vec<bool>>,
    far: &Vec<Option<NodeRef>>,
    file: u32,
    tree: &FileTree,
) -> Result<Vec<Option<NodeRef>>, NoMemory>
    requires far { AreEnds (world_of view.now) view.now.entries.items true far.now.items }
    requires at { slice_get view.now.trees.now file ≡ Some tree.now }
    requires small { length tree.now.nodes ≤ 2 ^ 32 }
    ensures { IfOk result (λ row. IsMentionRow (world_of view.now) (flagged elsewhere.now.items) (up view.now.trees.now) file row.items (length tree.now.nodes)) }
{
    let nodes = tree.nodes.as_slice();
    let end = nodes.len();
    let table = above_nodes(alloc, nodes)?;
    let types = literals_in(alloc, view, far, &table, file, end)?;
    let row = mention_row(alloc, view, elsewhere, far, &table, &types, file, end)?;
    Ok(row)
}

/// What each node mentions: what it denotes, unless it is a field key.
pub fn mentions_of(
    alloc: Global,
    view: &View,
    elsewhere: &Vec<Vec<bool>>,
    far: &Vec<Option<NodeRef>>,
) -> Result<Vec<Vec<Option<NodeRef>>>, NoMemory>
    requires small { AreSmall view.now.trees.now }
    requires few { length view.now.trees.now ≤ 2 ^ 32 }
    requires far { AreEnds (world_of view.now) view.now.entries.items true far.now.items }
    ensures { IfOk result (λ rows. AreMentions (world_of view.now) (flagged elsewhere.now.items) (up view.now.trees.now) (meant_in rows.items)) }
{
    let mut rows = Vec::new(alloc);
    let end = view.trees.len();
    for file in 0..end {
        rows.push(tree_row(alloc, view, elsewhere, far, file as u32, &view.trees[file])?)?;
    }
    Ok(rows)
}
