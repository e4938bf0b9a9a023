//! Where jumps without a label lead, for each node.
ghost use Rattle.std.specs.Prelude.{◌≡◌, ◌<◌, ◌≤◌, ◌^◌, ◌↔◌, IfOk, true, false, suc, length, replicate, slice_set, slice_get, Some, None, cond};
ghost use Rattle.flow.specs.Kinds.{is_switch, is_loop, is_left};
ghost use Rattle.flow.specs.Around.{nowhere, looped, chosen, next_part, inside, around_at, IsTree, AreAround, AreGiven, AreFilled};

use crate::edges::{after, before, turn_point};
use crate::kinds::{is_left, is_loop, is_switch};
use crate::point::Around;
use go_tree::{FileTree, Node, NodeKind, is_function};
use gv_base::NoMemory;
use std::alloc::Global;

fn nowhere() -> Around
    ensures { result ≡ nowhere }
{
    Around {
        leave: None,
        again: None,
        fall: None,
    }
}

fn looped(leave: usize, again: usize) -> Around
    ensures { result ≡ looped leave again }
{
    Around {
        leave: Some(leave),
        again: Some(again),
        fall: None,
    }
}

fn chosen(leave: usize, around: Around, fall: Option<usize>) -> Around
    ensures { result ≡ chosen leave around fall }
{
    Around {
        leave: Some(leave),
        again: around.again,
        fall,
    }
}

fn next_part(parts: &[u32], i: usize) -> Option<usize>
    requires { i < length parts.now }
    ensures { result ≡ next_part parts.now i }
{
    match parts.get(i + 1) {
        None => None,
        Some(part) => Some(before(*part)),
    }
}

/// Where a `fallthrough` leads from the part at a place.
fn fall(kind: NodeKind, parts: &[u32], i: usize) -> Option<usize>
    requires { i < length parts.now }
    ensures { result ≡ cond (is_switch kind) (next_part parts.now i) None }
{
    if is_switch(kind) {
        return next_part(parts, i);
    }
    None
}

/// Where jumps lead inside the part at a place.
fn inside(tree: &FileTree, p: u32, node: &Node, i: usize, around: Around) -> Around
    requires { i < length node.now.parts }
    ensures { result ≡ inside tree.now p node.now i around }
{
    let parts = node.parts.as_slice();
    if is_function(node.kind) {
        return nowhere();
    }
    if is_loop(node.kind) {
        return looped(after(p), turn_point(tree, p, parts));
    }
    if is_left(node.kind) {
        return chosen(after(p), around, fall(node.kind, parts, i));
    }
    around
}

/// What is told of a node.
pub(crate) fn around_at(table: &[Around], n: usize) -> Around
    ensures { result ≡ around_at table.now n }
{
    if n < table.len() { table[n] } else { nowhere() }
}

fn put(table: &mut Vec<Around>, n: u32, around: Around)
    requires { n < length table.old.items }
    ensures { table.new.items ≡ slice_set table.old.items n around }
{
    table[n as usize] = around;
}

/// Gives the parts of a node what is inside of it.
fn give(table: &mut Vec<Around>, tree: &FileTree, p: u32, node: &Node, around: Around)
    requires tree { IsTree tree.now.nodes }
    requires size { length table.old.items ≡ length tree.now.nodes }
    requires p { p < length tree.now.nodes }
    requires node { slice_get tree.now.nodes p ≡ Some node.now }
    ensures { AreGiven tree.now p node.now around (length node.now.parts) table.old.items table.new.items }
{
    let parts = node.parts.as_slice();
    for i in 0..parts.len() {
        put(table, parts[i], inside(tree, p, node, i, around));
    }
}

/// Whether jumps lead nowhere.
fn is_nowhere(around: Around) -> bool
    ensures { (result ≡ true) ↔ (around ≡ nowhere) }
{
    if around.leave.is_some() {
        return false;
    }
    if around.again.is_some() {
        return false;
    }
    !around.fall.is_some()
}

/// Whether jumps lead nowhere inside a node, since it can't be left and they lead nowhere around it.
fn gives_nothing(kind: NodeKind, around: Around) -> bool
    ensures { (result ≡ true) ↔ (is_loop kind ≡ false) × (is_left kind ≡ false) × (around ≡ nowhere) }
{
    if is_loop(kind) {
        return false;
    }
    if is_left(kind) {
        return false;
    }
    is_nowhere(around)
}

/// Gives the parts of a node what is inside of it. Mostly that is nothing, and they have it already.
fn give_some(table: &mut Vec<Around>, tree: &FileTree, p: u32, node: &Node, around: Around)
    requires tree { IsTree tree.now.nodes }
    requires p { p < length tree.now.nodes }
    requires node { slice_get tree.now.nodes p ≡ Some node.now }
    requires filled { AreFilled tree.now (suc p) table.old.items }
    requires around { around ≡ around_at table.old.items p }
    ensures { AreFilled tree.now p table.new.items }
{
    if gives_nothing(node.kind, around) {
        return;
    }
    give(table, tree, p, node, around);
}

fn all_nowhere(alloc: Global, count: usize) -> Result<Vec<Around>, NoMemory>
    ensures { IfOk result (λ table. table.items ≡ replicate count nowhere) }
{
    let table = vec![in alloc; nowhere(); count]?;
    Ok(table)
}

/// Where jumps without a label lead in each node.
pub(crate) fn around_of(alloc: Global, tree: &FileTree) -> Result<Vec<Around>, NoMemory>
    requires tree { IsTree tree.now.nodes }
    requires few { length tree.now.nodes ≤ 2 ^ 32 }
    ensures { IfOk result (λ table. AreAround tree.now table.items) }
{
    let nodes = tree.nodes.as_slice();
    let mut table = all_nowhere(alloc, nodes.len())?;
    let mut left = nodes.len();
    while left > 0 {
        left -= 1;
        let around = around_at(&table, left);
        give_some(&mut table, tree, left as u32, &nodes[left], around);
    }
    Ok(table)
}
