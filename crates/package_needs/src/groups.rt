//! The methods of all types of a package.
ghost use Rattle.std.specs.Prelude.{◌≡◌, ◌<◌, ◌≤◌, ◌^◌, ℕ, [], true, false, length, slice_get, Some, IfOk, OnOk};
ghost use Rattle.std.specs.Option.{option_map_or};
ghost use Rattle.go_tree.specs.declared.tree.FileTree.{FileTree};
ghost use Rattle.go_tree.specs.declared.tree.NodeRef.{NodeRef};
ghost use Rattle.object_order.specs.declared.spot.Entry.{Entry};
ghost use Rattle.package_objects.specs.Declares.{AreSmall};
ghost use Rattle.object_order.specs.Names.{AreNamed};
ghost use Rattle.object_order.specs.Spots.{place};
ghost use Rattle.object_order.specs.Views.{world_of, group_in, kin_in};
ghost use Rattle.package_needs.specs.Links.{AreEnds};
ghost use Rattle.package_needs.specs.Kin.{IsMethod, AreMethods};
ghost use Rattle.package_needs.specs.Groups.{PushesAt, GroupsGain, IsThis, InNodes, InFiles};

use crate::kin::{Method, Tables, method_at};
use crate::read::number_of;
use go_tree::{NodeRef, tree_in};
use gv_base::NoMemory;
use object_order::View;
use std::alloc::Global;

/// So many empty lists.
pub fn blank_groups(alloc: Global, count: usize) -> Result<Vec<Vec<NodeRef>>, NoMemory>
    ensures size { IfOk result (λ groups. length groups.items ≡ count) }
    ensures empty { IfOk result (λ groups. (k : ℕ) → group_in groups.items k ≡ []) }
{
    let mut groups = Vec::new(alloc);
    for _n in 0..count {
        groups.push(Vec::new(alloc))?;
    }
    Ok(groups)
}

/// Adds a node to the list of this number.
pub fn push_at(groups: &mut Vec<Vec<NodeRef>>, n: usize, m: NodeRef) -> Result<(), NoMemory>
    requires { n < length groups.old.items }
    ensures { OnOk result (PushesAt groups.old.items groups.new.items n m) }
{
    groups[n].push(m)?;
    Ok(())
}

fn size(groups: &Vec<Vec<NodeRef>>) -> usize
    ensures { result ≡ length groups.now.items }
{
    groups.len()
}

fn count(view: &View) -> usize
    ensures { result ≡ length view.now.entries.items }
{
    view.entries.len()
}

/// Adds a method to its type.
fn add_method(view: &View, method: Method, groups: &mut Vec<Vec<NodeRef>>) -> Result<(), NoMemory>
    requires named { AreNamed view.now.entries.items view.now.numbers }
    requires size { length groups.old.items ≡ length view.now.entries.items }
    requires known { (e : Entry) × ((world_of view.now).entry method.of ≡ Some e) }
    ensures { OnOk result (GroupsGain view.now.numbers groups.old.items groups.new.items (IsThis (Some method))) }
{
    match number_of(&view.numbers, method.of) {
        Some(n) => {
            push_at(groups, n as usize, method.name)?;
            Ok(())
        }
        None => unreachable!(),
    }
}

/// Adds the method that a node declares, if it declares one.
fn add_at(
    view: &View,
    tables: &Tables,
    at: NodeRef,
    groups: &mut Vec<Vec<NodeRef>>,
) -> Result<(), NoMemory>
    requires named { AreNamed view.now.entries.items view.now.numbers }
    requires size { length groups.old.items ≡ length view.now.entries.items }
    requires near { AreEnds (world_of view.now) view.now.entries.items false tables.now.near.items }
    requires far { AreEnds (world_of view.now) view.now.entries.items true tables.now.far.items }
    ensures { OnOk result (GroupsGain view.now.numbers groups.old.items groups.new.items (IsMethod (world_of view.now) at)) }
{
    match method_at(view, tables, at) {
        Some(method) => {
            add_method(view, method, groups)?;
            Ok(())
        }
        None => Ok(()),
    }
}

/// How many nodes a file has.
fn nodes_in(view: &View, file: u32) -> usize
    requires { AreSmall view.now.trees.now }
    ensures small { result ≤ 2 ^ 32 }
    ensures value { result ≡ option_map_or (λ (tree : FileTree). length tree.nodes) (slice_get view.now.trees.now file) 0 }
{
    match tree_in(view.trees, file) {
        Some(tree) => tree.nodes.as_slice().len(),
        None => 0,
    }
}

/// Adds the methods that the nodes of a file declare.
fn add_nodes(
    view: &View,
    tables: &Tables,
    file: u32,
    end: usize,
    groups: &mut Vec<Vec<NodeRef>>,
) -> Result<(), NoMemory>
    requires small { end ≤ 2 ^ 32 }
    requires named { AreNamed view.now.entries.items view.now.numbers }
    requires size { length groups.old.items ≡ length view.now.entries.items }
    requires near { AreEnds (world_of view.now) view.now.entries.items false tables.now.near.items }
    requires far { AreEnds (world_of view.now) view.now.entries.items true tables.now.far.items }
    ensures { OnOk result (GroupsGain view.now.numbers groups.old.items groups.new.items (InNodes (world_of view.now) file end)) }
{
    for node in 0..end {
        let at = NodeRef {
            file,
            node: node as u32,
        };
        add_at(view, tables, at, groups)?;
    }
    Ok(())
}

/// Adds the methods that a file declares.
fn add_file(
    view: &View,
    tables: &Tables,
    file: u32,
    groups: &mut Vec<Vec<NodeRef>>,
) -> Result<(), NoMemory>
    requires small { AreSmall view.now.trees.now }
    requires named { AreNamed view.now.entries.items view.now.numbers }
    requires size { length groups.old.items ≡ length view.now.entries.items }
    requires near { AreEnds (world_of view.now) view.now.entries.items false tables.now.near.items }
    requires far { AreEnds (world_of view.now) view.now.entries.items true tables.now.far.items }
    ensures { OnOk result (GroupsGain view.now.numbers groups.old.items groups.new.items (λ t m. (n : ℕ) × IsMethod (world_of view.now) (place file n) t m)) }
{
    let end = nodes_in(view, file);
    add_nodes(view, tables, file, end, groups)?;
    Ok(())
}

/// The methods of each declared type, and nothing else.
pub fn groups_of(alloc: Global, view: &View, tables: &Tables) -> Result<Vec<Vec<NodeRef>>, NoMemory>
    requires small { AreSmall view.now.trees.now }
    requires few { length view.now.trees.now ≤ 2 ^ 32 }
    requires named { AreNamed view.now.entries.items view.now.numbers }
    requires near { AreEnds (world_of view.now) view.now.entries.items false tables.now.near.items }
    requires far { AreEnds (world_of view.now) view.now.entries.items true tables.now.far.items }
    ensures { IfOk result (λ groups. AreMethods (world_of view.now) (kin_in groups.items view.now.numbers)) }
{
    let mut groups = blank_groups(alloc, count(view))?;
    let end = view.trees.len();
    for file in 0..end {
        add_file(view, tables, file as u32, &mut groups)?;
    }
    Ok(groups)
}
