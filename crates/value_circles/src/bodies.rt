//! The functions and methods of a package, with their bodies.
ghost use Rattle.std.specs.Prelude.{◌≡◌, ◌≤◌, ◌^◌, ◌++◌, [], length, slice_get, IfOk, OnOk};
ghost use Rattle.std.specs.Option.{option_copied};
ghost use Rattle.object_order.specs.Spots.{is_block};
ghost use Rattle.package_objects.specs.Declares.{kind_at, part};
ghost use Rattle.value_circles.specs.Bodies.{name_slot, block_root, nth_block, body_roots, body_entry, named_body, body_of, body_at, nth_body, tree_bodies, file_bodies, body_entries};

use crate::values::{nth_number, top_count, tree_of};
use go_tree::{FileTree, Node, NodeKind, NodeRef};
use gv_base::{NoMemory, Row};
use object_order::{Entry, Form, Role, Root};
use package_objects::{kind_of, node_of, part_count, part_of};
use std::alloc::Global;

/// In which slot the name of a function or of a method stands.
fn name_slot(kind: NodeKind) -> Option<usize>
    ensures { result ≡ name_slot kind }
{
    match kind {
        NodeKind::FuncDecl => Some(0),
        NodeKind::MethodDecl => Some(1),
        _ => None,
    }
}

fn is_block(kind: NodeKind) -> bool
    ensures { result ≡ is_block kind }
{
    match kind {
        NodeKind::Block => true,
        _ => false,
    }
}

fn add_block(nodes: &[Node], n: u32, out: &mut Vec<Root>) -> Result<(), NoMemory>
    ensures { OnOk result (out.new.items ≡ out.old.items ++ block_root nodes.now n) }
{
    if is_block(kind_of(nodes, n)) {
        out.push(Root {
            role: Role::Resting,
            node: n,
        })?;
    }
    Ok(())
}

fn add_nth_block(nodes: &[Node], node: &Node, i: usize, out: &mut Vec<Root>) -> Result<(), NoMemory>
    ensures { OnOk result (out.new.items ≡ out.old.items ++ nth_block nodes.now node.now i) }
{
    match part_of(node, i) {
        Some(n) => add_block(nodes, n, out),
        None => Ok(()),
    }
}

/// The body of a declaration, if it has one.
fn body_roots(alloc: Global, nodes: &[Node], node: &Node) -> Result<Vec<Root>, NoMemory>
    ensures { IfOk result (λ list. list.items ≡ body_roots nodes.now node.now) }
{
    let mut list = Vec::new(alloc);
    for i in 0..part_count(node) {
        add_nth_block(nodes, node, i, &mut list)?;
    }
    Ok(list)
}

fn body_entry(
    alloc: Global,
    file: u32,
    nodes: &[Node],
    node: &Node,
    n: u32,
) -> Result<Entry, NoMemory>
    ensures { IfOk result (λ e. e ≡ body_entry file nodes.now node.now n) }
{
    let list = body_roots(alloc, nodes, node)?;
    Ok(Entry {
        name: NodeRef { file, node: n },
        form: Form::Other,
        roots: Row::new(list),
    })
}

fn add_named(
    alloc: Global,
    file: u32,
    nodes: &[Node],
    node: &Node,
    slot: usize,
    out: &mut Vec<Entry>,
) -> Result<(), NoMemory>
    ensures { OnOk result (out.new.items ≡ out.old.items ++ named_body file nodes.now node.now slot) }
{
    if let Some(n) = part_of(node, slot) {
        let entry = body_entry(alloc, file, nodes, node, n)?;
        out.push(entry)?;
    }
    Ok(())
}

fn add_body(
    alloc: Global,
    file: u32,
    nodes: &[Node],
    node: &Node,
    out: &mut Vec<Entry>,
) -> Result<(), NoMemory>
    ensures { OnOk result (out.new.items ≡ out.old.items ++ body_of file nodes.now node.now) }
{
    match name_slot(node.kind) {
        Some(slot) => add_named(alloc, file, nodes, node, slot, out),
        None => Ok(()),
    }
}

fn add_body_at(
    alloc: Global,
    file: u32,
    nodes: &[Node],
    n: u32,
    out: &mut Vec<Entry>,
) -> Result<(), NoMemory>
    ensures { OnOk result (out.new.items ≡ out.old.items ++ body_at file nodes.now n) }
{
    match node_of(nodes, n) {
        Some(node) => add_body(alloc, file, nodes, node, out),
        None => Ok(()),
    }
}

fn add_nth_body(
    alloc: Global,
    file: u32,
    tree: &FileTree,
    i: usize,
    out: &mut Vec<Entry>,
) -> Result<(), NoMemory>
    ensures { OnOk result (out.new.items ≡ out.old.items ++ nth_body file tree.now i) }
{
    match nth_number(tree.tops.as_slice(), i) {
        Some(n) => add_body_at(alloc, file, tree.nodes.as_slice(), n, out),
        None => Ok(()),
    }
}

fn add_tree(alloc: Global, file: u32, tree: &FileTree, out: &mut Vec<Entry>) -> Result<(), NoMemory>
    ensures { OnOk result (out.new.items ≡ out.old.items ++ tree_bodies file tree.now) }
{
    for i in 0..top_count(tree) {
        add_nth_body(alloc, file, tree, i, out)?;
    }
    Ok(())
}

fn add_file(
    alloc: Global,
    trees: &[FileTree],
    file: u32,
    out: &mut Vec<Entry>,
) -> Result<(), NoMemory>
    ensures { OnOk result (out.new.items ≡ out.old.items ++ file_bodies trees.now file) }
{
    match tree_of(trees, file) {
        Some(tree) => add_tree(alloc, file, tree, out),
        None => Ok(()),
    }
}

/// The functions and methods that a package's files declare, each with the block that is its body.
pub fn body_entries(alloc: Global, trees: &[FileTree]) -> Result<Vec<Entry>, NoMemory>
    requires few { length trees.now ≤ 2 ^ 32 }
    ensures { IfOk result (λ entries. entries.items ≡ body_entries trees.now) }
{
    let mut entries = Vec::new(alloc);
    for file in 0..trees.len() {
        add_file(alloc, trees, file as u32, &mut entries)?;
    }
    Ok(entries)
}
