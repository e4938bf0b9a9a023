//! The variables of a package that have initial values.
ghost use Rattle.std.specs.Prelude.{◌≡◌, ◌≤◌, ◌^◌, ◌++◌, [], true, length, slice_get, IfOk, OnOk};
ghost use Rattle.std.specs.List.{cons_option};
ghost use Rattle.std.specs.Option.{option_copied};
ghost use Rattle.package_objects.specs.Declares.{items, part, value_place};
ghost use Rattle.value_circles.specs.Values.{is_vars, value_slot, value_of, roots, valued_entry, nth_entry, valued, spec_entries, spec_at, nth_spec, specs_of, top_entries, nth_top, tree_entries, file_entries, value_entries};

use go_tree::{FileTree, Node, NodeKind, NodeRef};
use gv_base::{NoMemory, Row};
use object_order::{Entry, Form, Role, Root};
use package_objects::{count, item, node_of, part_count, part_of};
use std::alloc::Global;

fn is_vars(kind: NodeKind) -> bool
    ensures { result ≡ is_vars kind }
{
    match kind {
        NodeKind::Var => true,
        NodeKind::VarGroup => true,
        _ => false,
    }
}

/// In which slot the values of a specification stand.
fn value_slot(kind: NodeKind) -> Option<usize>
    ensures { result ≡ value_slot kind }
{
    match kind {
        NodeKind::VarValues => Some(1),
        NodeKind::VarTypedValues => Some(2),
        _ => None,
    }
}

fn value_place(count: usize, i: usize) -> usize
    ensures { result ≡ value_place true count i }
{
    if count == 1 { 0 } else { i }
}

/// The expression that gives the value of the name at a place.
fn value_of(nodes: &[Node], values: Option<u32>, i: usize) -> Option<u32>
    ensures { result ≡ value_of nodes.now values i }
{
    item(nodes, values, value_place(count(nodes, values), i))
}

fn roots_of(
    alloc: Global,
    nodes: &[Node],
    values: Option<u32>,
    i: usize,
) -> Result<Vec<Root>, NoMemory>
    ensures { IfOk result (λ list. list.items ≡ roots nodes.now values i) }
{
    let mut list = Vec::new(alloc);
    if let Some(node) = value_of(nodes, values, i) {
        list.push(Root {
            role: Role::Resting,
            node,
        })?;
    }
    Ok(list)
}

fn entry_of(
    alloc: Global,
    file: u32,
    nodes: &[Node],
    values: Option<u32>,
    i: usize,
    n: u32,
) -> Result<Entry, NoMemory>
    ensures { IfOk result (λ e. e ≡ valued_entry file nodes.now values i n) }
{
    let list = roots_of(alloc, nodes, values, i)?;
    Ok(Entry {
        name: NodeRef { file, node: n },
        form: Form::Other,
        roots: Row::new(list),
    })
}

fn add_nth(
    alloc: Global,
    file: u32,
    nodes: &[Node],
    spec: &Node,
    values: Option<u32>,
    i: usize,
    out: &mut Vec<Entry>,
) -> Result<(), NoMemory>
    ensures { OnOk result (out.new.items ≡ out.old.items ++ nth_entry file nodes.now spec.now values i) }
{
    if let Some(n) = item(nodes, part_of(spec, 0), i) {
        let entry = entry_of(alloc, file, nodes, values, i, n)?;
        out.push(entry)?;
    }
    Ok(())
}

/// Adds the names of a specification with values.
fn add_valued(
    alloc: Global,
    file: u32,
    nodes: &[Node],
    spec: &Node,
    slot: usize,
    out: &mut Vec<Entry>,
) -> Result<(), NoMemory>
    ensures { OnOk result (out.new.items ≡ out.old.items ++ valued file nodes.now spec.now slot) }
{
    let values = part_of(spec, slot);
    let end = count(nodes, part_of(spec, 0));
    for i in 0..end {
        add_nth(alloc, file, nodes, spec, values, i, out)?;
    }
    Ok(())
}

fn add_spec(
    alloc: Global,
    file: u32,
    nodes: &[Node],
    spec: &Node,
    out: &mut Vec<Entry>,
) -> Result<(), NoMemory>
    ensures { OnOk result (out.new.items ≡ out.old.items ++ spec_entries file nodes.now spec.now) }
{
    match value_slot(spec.kind) {
        Some(slot) => add_valued(alloc, file, nodes, spec, slot, out),
        None => Ok(()),
    }
}

fn add_spec_at(
    alloc: Global,
    file: u32,
    nodes: &[Node],
    n: u32,
    out: &mut Vec<Entry>,
) -> Result<(), NoMemory>
    ensures { OnOk result (out.new.items ≡ out.old.items ++ spec_at file nodes.now n) }
{
    match node_of(nodes, n) {
        Some(spec) => add_spec(alloc, file, nodes, spec, out),
        None => Ok(()),
    }
}

fn add_nth_spec(
    alloc: Global,
    file: u32,
    nodes: &[Node],
    node: &Node,
    i: usize,
    out: &mut Vec<Entry>,
) -> Result<(), NoMemory>
    ensures { OnOk result (out.new.items ≡ out.old.items ++ nth_spec file nodes.now node.now i) }
{
    match part_of(node, i) {
        Some(n) => add_spec_at(alloc, file, nodes, n, out),
        None => Ok(()),
    }
}

fn add_specs(
    alloc: Global,
    file: u32,
    nodes: &[Node],
    node: &Node,
    out: &mut Vec<Entry>,
) -> Result<(), NoMemory>
    ensures { OnOk result (out.new.items ≡ out.old.items ++ specs_of file nodes.now node.now) }
{
    if !is_vars(node.kind) {
        return Ok(());
    }
    for i in 0..part_count(node) {
        add_nth_spec(alloc, file, nodes, node, i, out)?;
    }
    Ok(())
}

fn add_top(
    alloc: Global,
    file: u32,
    nodes: &[Node],
    n: u32,
    out: &mut Vec<Entry>,
) -> Result<(), NoMemory>
    ensures { OnOk result (out.new.items ≡ out.old.items ++ top_entries file nodes.now n) }
{
    match node_of(nodes, n) {
        Some(node) => add_specs(alloc, file, nodes, node, out),
        None => Ok(()),
    }
}

pub fn nth_number(list: &[u32], i: usize) -> Option<u32>
    ensures { result ≡ slice_get list.now i }
{
    list.get(i).copied()
}

fn add_nth_top(
    alloc: Global,
    file: u32,
    tree: &FileTree,
    i: usize,
    out: &mut Vec<Entry>,
) -> Result<(), NoMemory>
    ensures { OnOk result (out.new.items ≡ out.old.items ++ nth_top file tree.now i) }
{
    match nth_number(tree.tops.as_slice(), i) {
        Some(n) => add_top(alloc, file, tree.nodes.as_slice(), n, out),
        None => Ok(()),
    }
}

pub fn top_count(tree: &FileTree) -> usize
    ensures { result ≡ length tree.now.tops }
{
    tree.tops.as_slice().len()
}

fn add_tree(alloc: Global, file: u32, tree: &FileTree, out: &mut Vec<Entry>) -> Result<(), NoMemory>
    ensures { OnOk result (out.new.items ≡ out.old.items ++ tree_entries file tree.now) }
{
    for i in 0..top_count(tree) {
        add_nth_top(alloc, file, tree, i, out)?;
    }
    Ok(())
}

pub fn tree_of(trees: &[FileTree], file: u32) -> Option<&FileTree>
    ensures { option_copied result ≡ slice_get trees.now file }
{
    trees.get(file as usize)
}

fn add_file(
    alloc: Global,
    trees: &[FileTree],
    file: u32,
    out: &mut Vec<Entry>,
) -> Result<(), NoMemory>
    ensures { OnOk result (out.new.items ≡ out.old.items ++ file_entries trees.now file) }
{
    match tree_of(trees, file) {
        Some(tree) => add_tree(alloc, file, tree, out),
        None => Ok(()),
    }
}

/// The variables that a package's files declare with values, each with the expression that gives its value.
pub fn value_entries(alloc: Global, trees: &[FileTree]) -> Result<Vec<Entry>, NoMemory>
    requires few { length trees.now ≤ 2 ^ 32 }
    ensures { IfOk result (λ entries. entries.items ≡ value_entries trees.now) }
{
    let mut entries = Vec::new(alloc);
    for file in 0..trees.len() {
        add_file(alloc, trees, file as u32, &mut entries)?;
    }
    Ok(entries)
}
