//! The declarations of a package in the order in which their nodes are marked. No mark rests on it, only the time: what a declaration
//! needs stands before it, and the methods of a type stand beside it. Bodies of functions are left out, since what they name may be
//! declared anywhere: they come when the declarations are marked. Left out is `[...]T` too, which asks for the keys of its literal, which
//! stand behind it: it comes last.
ghost use Rattle.std.specs.Prelude.{◌<◌, length};
ghost use Rattle.unit_read.specs.Subjects.{IsRead};

use crate::gaps::{add_apart, has_last};
use elaborate::Stretch;
use go_tree::{Node, NodeKind, NodeRef};
use gv_base::NoMemory;
use object_order::Needed;
use package_objects::{kind_of, part_of};
use std::alloc::Global;
use std::collections::HashSet;
use unit_read::Subject;

// ---- names

/// What a declared name stands in.
fn around(u: &Subject, name: NodeRef) -> Option<u32>
    requires { IsRead u.now }
{
    match u.place_at(name) {
        Some(place) => Some(place.around),
        None => None,
    }
}

/// The first part of a node.
fn first_part(node: Option<&Node>) -> Option<u32> {
    match node {
        Some(node) => part_of(node, 0),
        None => None,
    }
}

/// A node of a file by its number, if there is one.
fn node_of(file: u32, node: Option<u32>) -> Option<NodeRef> {
    match node {
        Some(node) => Some(NodeRef { file, node }),
        None => None,
    }
}

/// A declaration begins with a list of names.
fn has_names(u: &Subject, file: u32, whole: u32) -> bool {
    match first_part(u.node_at(NodeRef { file, node: whole })) {
        Some(part) => kind_of(u.nodes_at(file), part) == NodeKind::Names,
        None => false,
    }
}

/// Whether a declaration of several names was met before.
fn is_again(
    u: &Subject,
    met: &mut HashSet<(u32, u32)>,
    file: u32,
    whole: u32,
) -> Result<bool, NoMemory> {
    if !has_names(u, file, whole) {
        return Ok(false);
    }
    let first = met.insert((file, whole))?;
    Ok(!first)
}

/// From a declared name to the end of its specification or declaration. The next of its names adds nothing.
fn add_declaration(
    u: &Subject,
    name: NodeRef,
    met: &mut HashSet<(u32, u32)>,
    out: &mut Vec<Stretch>,
) -> Result<(), NoMemory>
    requires { IsRead u.now }
{
    let Some(whole) = around(u, name) else {
        return Ok(());
    };
    let again = is_again(u, met, name.file, whole)?;
    if !again {
        add_apart(u, name.file, name.node, whole, true, out)?;
    }
    Ok(())
}

// ---- methods

/// The list of a method's receivers.
fn receivers(u: &Subject, at: NodeRef) -> Option<NodeRef> {
    node_of(at.file, first_part(u.node_at(at)))
}

/// The first entry of a list.
fn entry(u: &Subject, list: Option<NodeRef>) -> Option<NodeRef> {
    match list {
        Some(list) => node_of(list.file, first_part(u.node_at(list))),
        None => None,
    }
}

/// The receiver of a method.
fn add_receiver(u: &Subject, at: NodeRef, out: &mut Vec<Stretch>) -> Result<(), NoMemory> {
    if let Some(entry) = entry(u, receivers(u, at)) {
        out.push(Stretch {
            block: entry.file as usize,
            low: entry.node as usize,
            end: entry.node as usize + 1,
        })?;
    }
    Ok(())
}

/// From behind the list of a method's receivers to the end of its declaration. That list asks for the type, which asks for the
/// signatures and receivers of all its methods, so that it comes later.
fn add_signature(u: &Subject, at: NodeRef, out: &mut Vec<Stretch>) -> Result<(), NoMemory>
    requires { IsRead u.now }
{
    if let Some(list) = receivers(u, at) {
        let low = list.node.saturating_add(1);
        add_apart(u, at.file, low, at.node, true, out)?;
    }
    Ok(())
}

fn nth(list: &[NodeRef], i: usize) -> NodeRef
    requires { i < length list.now }
{
    list[i]
}

fn add_methods(u: &Subject, name: NodeRef, out: &mut Vec<Stretch>) -> Result<(), NoMemory>
    requires { IsRead u.now }
{
    let methods = u.methods_of(name);
    for i in 0..methods.len() {
        let method = nth(methods, i);
        add_receiver(u, method, out)?;
        add_signature(u, method, out)?;
    }
    Ok(())
}

// ---- declarations without bodies

fn add_declared(
    u: &Subject,
    name: NodeRef,
    met: &mut HashSet<(u32, u32)>,
    out: &mut Vec<Stretch>,
) -> Result<(), NoMemory>
    requires { IsRead u.now }
{
    add_declaration(u, name, met, out)?;
    add_methods(u, name, out)?;
    Ok(())
}

fn needed_at(order: &[Needed], i: usize) -> Needed
    requires { i < length order.now }
{
    order[i]
}

fn add_order(
    alloc: Global,
    u: &Subject,
    order: &[Needed],
    out: &mut Vec<Stretch>,
) -> Result<(), NoMemory>
    requires { IsRead u.now }
{
    let mut met = HashSet::new(alloc);
    for i in 0..order.len() {
        add_declared(u, needed_at(order, i).object, &mut met, out)?;
    }
    Ok(())
}

// ---- bodies

/// What a list has stands in the node around it, and the list nowhere.
fn is_list(kind: NodeKind) -> bool {
    match kind {
        NodeKind::Names => true,
        NodeKind::Exprs => true,
        _ => false,
    }
}

/// A node that stands in no other ends a declaration.
fn ends(u: &Subject, at: NodeRef) -> bool
    requires { IsRead u.now }
{
    match u.place_at(at) {
        Some(_) => false,
        None => !is_list(kind_of(u.nodes_at(at.file), at.node)),
    }
}

/// Files and nodes have numbers below 2^32.
fn number(n: usize) -> u32 {
    if n < 4_294_967_296 {
        n as u32
    } else {
        4_294_967_295
    }
}

/// The declarations of a file in which something comes last, with their bodies.
fn add_file(u: &Subject, file: u32, out: &mut Vec<Stretch>) -> Result<(), NoMemory>
    requires { IsRead u.now }
{
    let nodes = u.nodes_at(file);
    let mut low = 0;
    for node in 0..number(nodes.len()) {
        if ends(u, NodeRef { file, node }) {
            if has_last(nodes, low, node) {
                add_apart(u, file, low, node, false, out)?;
            }
            low = node + 1;
        }
    }
    Ok(())
}

fn add_files(u: &Subject, out: &mut Vec<Stretch>) -> Result<(), NoMemory>
    requires { IsRead u.now }
{
    for file in 0..number(u.trees.len()) {
        add_file(u, file, out)?;
    }
    Ok(())
}

/// The declarations of the objects of an order of need, each with the signatures of its methods; then those in whose bodies something comes
/// last. Other bodies are marked in the order in which they stand.
pub fn stretches(alloc: Global, u: &Subject, order: &[Needed]) -> Result<Vec<Stretch>, NoMemory>
    requires { IsRead u.now }
{
    let mut out = Vec::new(alloc);
    add_order(alloc, u, order, &mut out)?;
    add_files(u, &mut out)?;
    Ok(out)
}
