//! The methods of a package's types (Go 1.17, "Method declarations").
ghost use Rattle.std.specs.Prelude.{◌≡◌, ◌≤◌, ◌^◌, ◌++◌, ℕ, length, map, slice_get, IfOk, OnOk, [], option_and_then};
ghost use Rattle.std.specs.Option.{option_map_or};
ghost use Rattle.go_tree.specs.declared.tree.NodeRef.{NodeRef as ANode};
ghost use Rattle.object_order.specs.Spots.{place};
ghost use Rattle.package_objects.specs.Declares.{gather, AreSmall};
ghost use Rattle.unit_read.specs.Index.{texts_of};
ghost use Rattle.unit_read.specs.Methods.{if_method, methods_in, all_methods, methods_of, part_name, method_name, method_names, named_again, owners, nth_group, nth_named_again, repeated_methods, is_repeated_method};
ghost use Rattle.unit_read.specs.Rows.{AreRows};
ghost use Rattle.object_order.specs.Views.{group_in};
ghost use Rattle.unit_read.specs.Subjects.{cell, flag, kept_methods, unit_of};
ghost use Rattle.unit_read.specs.Units.{nodes_at};
ghost use Rattle.unit_rows.specs.Grouping.{number_of, PutsBy, AreGroups};
ghost use Rattle.unit_rows.specs.Rows.{first_in};
ghost use Rattle.unit_rows.specs.Tables.{is_listed};

use crate::again::add_again;
use crate::firsts::first_rows;
use crate::flags::listed_rows;
use go_tree::{FileTree, Node, NodeRef};
use gv_base::NoMemory;
use package_needs::{blank_groups, push_at};
use package_objects::part_of;
use std::alloc::Global;
use unit_read::{Entries, Subject, cell, entry_rows};

fn add_at(s: &Subject, at: NodeRef, out: &mut Vec<NodeRef>) -> Result<(), NoMemory>
    ensures { OnOk result (out.new.items ≡ out.old.items ++ if_method (unit_of s.now) at) }
{
    if s.owner(at).is_some() {
        out.push(at)?;
    }
    Ok(())
}

/// Adds the nodes of a file that declare methods.
fn add_file(s: &Subject, file: u32, out: &mut Vec<NodeRef>) -> Result<(), NoMemory>
    requires { length (nodes_at (unit_of s.now) file) ≤ 2 ^ 32 }
    ensures { OnOk result (out.new.items ≡ out.old.items ++ methods_in (unit_of s.now) file) }
{
    for n in 0..s.nodes_at(file).len() {
        let at = NodeRef {
            file,
            node: n as u32,
        };
        add_at(s, at, out)?;
    }
    Ok(())
}

/// The nodes that declare methods.
fn all_methods(alloc: Global, s: &Subject) -> Result<Vec<NodeRef>, NoMemory>
    requires small { AreSmall s.now.trees.now }
    requires few { length s.now.trees.now ≤ 2 ^ 32 }
    ensures { IfOk result (λ list. list.items ≡ all_methods (unit_of s.now)) }
{
    if s.owners.as_slice().is_empty() {
        return Ok(Vec::new(alloc));
    }
    let mut out = Vec::new(alloc);
    for file in 0..s.trees.len() {
        add_file(s, file as u32, &mut out)?;
    }
    Ok(out)
}

/// The types of some methods.
fn owners_of(
    alloc: Global,
    s: &Subject,
    methods: &[NodeRef],
) -> Result<Vec<Option<NodeRef>>, NoMemory>
    ensures { IfOk result (λ list. list.items ≡ map (unit_of s.now).owner methods.now) }
{
    let mut out = Vec::new(alloc);
    for method in methods {
        out.push(s.owner(*method))?;
    }
    Ok(out)
}

fn number_of(kin: &Vec<Vec<Option<usize>>>, owner: Option<NodeRef>) -> Option<usize>
    ensures { result ≡ number_of kin.now.items owner }
{
    match owner {
        Some(t) => cell(kin, t),
        None => None,
    }
}

/// Adds a method to the list of this number, if there is one.
fn put_by(
    groups: &mut Vec<Vec<NodeRef>>,
    number: Option<usize>,
    at: NodeRef,
) -> Result<(), NoMemory>
    ensures { OnOk result (PutsBy number at groups.old.items groups.new.items) }
{
    if let Some(k) = number {
        if k < groups.len() {
            push_at(groups, k, at)?;
        }
    }
    Ok(())
}

/// The methods of each type, at the place of the first of them among all.
fn groups_of(
    alloc: Global,
    kin: &Vec<Vec<Option<usize>>>,
    owners: &[Option<NodeRef>],
    methods: &[NodeRef],
) -> Result<Vec<Vec<NodeRef>>, NoMemory>
    requires { length owners.now ≡ length methods.now }
    ensures { IfOk result (λ groups. AreGroups kin.now.items owners.now methods.now (length methods.now) groups.items) }
{
    let mut groups = blank_groups(alloc, methods.len())?;
    for i in 0..methods.len() {
        put_by(&mut groups, number_of(kin, owners[i]), methods[i])?;
    }
    Ok(groups)
}

/// The methods of a package's types.
#[derive(Drop)]
pub struct Kin {
    pub groups: Vec<Vec<NodeRef>>,
    pub kin: Vec<Entries<usize>>,
    pub repeated: Vec<Vec<bool>>,
}

fn part_name<'a>(s: &Subject<'a>, file: u32, node: &Node) -> &'a [u8]
    ensures { result.now ≡ part_name (unit_of s.now) file node.now }
{
    match part_of(node, 1) {
        Some(n) => s.name_at(NodeRef { file, node: n }),
        None => &[],
    }
}

fn method_name<'a>(s: &Subject<'a>, at: NodeRef) -> &'a [u8]
    ensures { result.now ≡ method_name (unit_of s.now) at }
{
    match s.node_at(at) {
        Some(node) => part_name(s, at.file, node),
        None => &[],
    }
}

fn method_names<'a>(
    alloc: Global,
    s: &Subject<'a>,
    methods: &[NodeRef],
) -> Result<Vec<&'a [u8]>, NoMemory>
    ensures { IfOk result (λ names. texts_of names.items ≡ method_names (unit_of s.now) methods.now) }
{
    let mut names = Vec::new(alloc);
    for method in methods {
        names.push(method_name(s, *method))?;
    }
    Ok(names)
}

/// Adds those of some methods that have the name of an earlier one.
fn add_named_again(
    alloc: Global,
    s: &Subject,
    methods: &[NodeRef],
    out: &mut Vec<NodeRef>,
) -> Result<(), NoMemory>
    ensures { OnOk result (out.new.items ≡ out.old.items ++ named_again (unit_of s.now) methods.now) }
{
    let names = method_names(alloc, s, methods)?;
    add_again(alloc, &names, methods, out)?;
    Ok(())
}

/// The methods that have the name of an earlier one of their type.
fn repeated_methods(
    alloc: Global,
    s: &Subject,
    groups: &Vec<Vec<NodeRef>>,
) -> Result<Vec<NodeRef>, NoMemory>
    ensures { IfOk result (λ list. list.items ≡ gather (λ k. named_again (unit_of s.now) (group_in groups.now.items k)) (length groups.now.items)) }
{
    let mut out = Vec::new(alloc);
    for k in 0..groups.len() {
        add_named_again(alloc, s, &groups[k], &mut out)?;
    }
    Ok(out)
}

/// What is kept where there are no methods.
fn no_kin(alloc: Global) -> Kin
    ensures groups { result.groups.items ≡ [] }
    ensures kin { result.kin.items ≡ [] }
    ensures repeated { result.repeated.items ≡ [] }
{
    Kin {
        groups: Vec::new(alloc),
        kin: Vec::new(alloc),
        repeated: Vec::new(alloc),
    }
}

/// The methods of each type, as lists whose numbers stand at the nodes of their names, and which have the name of an earlier one.
pub fn method_rows(alloc: Global, s: &Subject) -> Result<Kin, NoMemory>
    requires small { AreSmall s.now.trees.now }
    requires few { length s.now.trees.now ≤ 2 ^ 32 }
    ensures methods { IfOk result (λ k. (t : ANode) → kept_methods k.groups.items k.kin.items t ≡ methods_of (unit_of s.now) t) }
    ensures repeated { IfOk result (λ k. (at : ANode) → flag k.repeated.items at ≡ is_repeated_method (unit_of s.now) at) }
{
    let methods = all_methods(alloc, s)?;
    if methods.as_slice().is_empty() {
        return Ok(no_kin(alloc));
    }
    let owners = owners_of(alloc, s, &methods)?;
    let cells = first_rows(alloc, s.trees, &owners)?;
    let groups = groups_of(alloc, &cells, &owners, &methods)?;
    let kin = entry_rows(alloc, cells)?;
    let list = repeated_methods(alloc, s, &groups)?;
    let repeated = listed_rows(alloc, s.trees, &list)?;
    Ok(Kin {
        groups,
        kin,
        repeated,
    })
}
