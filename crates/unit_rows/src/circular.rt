//! Which names lead back to themselves.
ghost use Rattle.std.specs.Prelude.{◌≡◌, ◌≤◌, ◌^◌, ◌&&◌, ◌++◌, [], IfOk, OnOk, length, map, slice_get};
ghost use Rattle.std.specs.List.{flat_map};
ghost use Rattle.std.specs.Option.{option_copied};
ghost use Rattle.package_needs.specs.Worlds.{name_of};
ghost use Rattle.object_order.specs.Names.{AreNamed};
ghost use Rattle.object_order.specs.Views.{number_in, world_of as world_in};
ghost use Rattle.name_circles.specs.Circles.{AreMarked};
ghost use Rattle.object_order.specs.Spots.{place};
ghost use Rattle.package_objects.specs.Declares.{declared, AreSmall};
ghost use Rattle.unit_read.specs.Rows.{IsRow, AreRows};
ghost use Rattle.unit_read.specs.Subjects.{flag, unit_of, IsRead};
ghost use Rattle.unit_rows.specs.Circular.{named_at, is_defined, part_at, name_in, method_names, methods_by, group_items, is_value, is_number, if_value, nth_value, all_values, if_flagged, flagged, AreCircular};
ghost use Rattle.unit_rows.specs.Tables.{is_listed};

use crate::cyclic::all_cyclic;
use crate::flags::listed_rows;
use go_tree::{FileTree, Node, NodeRef, Object};
use gv_base::NoMemory;
use name_circles::{circles_of, value_circles};
use object_order::{Entry, Form, View, numbers_of};
use package_objects::part_of;
use std::alloc::Global;
use std::collections::HashMap;
use unit_read::{Subject, flag};

// ---- what nodes denote

fn name_of(object: Object) -> Option<NodeRef>
    ensures { result ≡ name_of object }
{
    match object {
        Object::Universe(_) => None,
        Object::Import(_) => None,
        Object::Local(name) => Some(name),
        Object::Package(name) => Some(name),
    }
}

/// The declared name that a node denotes.
fn named_at(s: &Subject, at: NodeRef) -> Option<NodeRef>
    requires { IsRead s.now }
    ensures { result ≡ named_at (unit_of s.now) at }
{
    match s.object_at(at) {
        Some(object) => name_of(object),
        None => None,
    }
}

fn named_row(
    alloc: Global,
    s: &Subject,
    file: u32,
    end: usize,
) -> Result<Vec<Option<NodeRef>>, NoMemory>
    requires read { IsRead s.now }
    requires few { end ≤ 2 ^ 32 }
    ensures { IfOk result (λ row. IsRow (λ n. named_at (unit_of s.now) (place file n)) row.items end) }
{
    let mut row = Vec::with_capacity(alloc, end)?;
    for node in 0..end {
        let at = NodeRef {
            file,
            node: node as u32,
        };
        row.push(named_at(s, at))?;
    }
    Ok(row)
}

fn tree_row(
    alloc: Global,
    s: &Subject,
    file: u32,
    tree: &FileTree,
) -> Result<Vec<Option<NodeRef>>, NoMemory>
    requires read { IsRead s.now }
    requires small { length tree.now.nodes ≤ 2 ^ 32 }
    ensures { IfOk result (λ row. IsRow (λ n. named_at (unit_of s.now) (place file n)) row.items (length tree.now.nodes)) }
{
    let row = named_row(alloc, s, file, tree.nodes.as_slice().len())?;
    Ok(row)
}

/// For each node of each file the declared name that it denotes.
fn named_rows(alloc: Global, s: &Subject) -> Result<Vec<Vec<Option<NodeRef>>>, NoMemory>
    requires read { IsRead s.now }
    requires small { AreSmall s.now.trees.now }
    requires few { length s.now.trees.now ≤ 2 ^ 32 }
    ensures { IfOk result (λ rows. AreRows (λ f tree n. named_at (unit_of s.now) (place f n)) s.now.trees.now rows.items (length s.now.trees.now)) }
{
    let mut rows = Vec::new(alloc);
    for file in 0..s.trees.len() {
        rows.push(tree_row(alloc, s, file as u32, &s.trees[file])?)?;
    }
    Ok(rows)
}

// ---- methods

fn is_defined(form: Form) -> bool
    ensures { result ≡ is_defined form }
{
    match form {
        Form::Other => false,
        Form::Defined => true,
        Form::Alias => false,
    }
}

fn add_part(file: u32, node: &Node, out: &mut Vec<NodeRef>) -> Result<(), NoMemory>
    ensures { OnOk result (out.new.items ≡ out.old.items ++ part_at file node.now) }
{
    if let Some(n) = part_of(node, 1) {
        out.push(NodeRef { file, node: n })?;
    }
    Ok(())
}

fn add_name(s: &Subject, at: NodeRef, out: &mut Vec<NodeRef>) -> Result<(), NoMemory>
    ensures { OnOk result (out.new.items ≡ out.old.items ++ name_in (unit_of s.now) at) }
{
    if let Some(node) = s.node_at(at) {
        add_part(at.file, node, out)?;
    }
    Ok(())
}

fn names_of(alloc: Global, s: &Subject, methods: &[NodeRef]) -> Result<Vec<NodeRef>, NoMemory>
    ensures { IfOk result (λ names. names.items ≡ flat_map (name_in (unit_of s.now)) methods.now) }
{
    let mut out = Vec::new(alloc);
    for method in methods {
        add_name(s, *method, &mut out)?;
    }
    Ok(out)
}

/// The methods of a defined type, by their names.
fn methods_by(alloc: Global, s: &Subject, entry: &Entry) -> Result<Vec<NodeRef>, NoMemory>
    requires { IsRead s.now }
    ensures { IfOk result (λ names. names.items ≡ methods_by (unit_of s.now) entry.now) }
{
    if is_defined(entry.form) {
        let names = names_of(alloc, s, s.methods_of(entry.name))?;
        Ok(names)
    } else {
        Ok(Vec::new(alloc))
    }
}

fn groups_of(
    alloc: Global,
    s: &Subject,
    entries: &Vec<Entry>,
) -> Result<Vec<Vec<NodeRef>>, NoMemory>
    requires { IsRead s.now }
    ensures { IfOk result (λ groups. map group_items groups.items ≡ map (methods_by (unit_of s.now)) entries.now.items) }
{
    let mut groups = Vec::new(alloc);
    for entry in entries {
        groups.push(methods_by(alloc, s, entry)?)?;
    }
    Ok(groups)
}

// ---- names that are no types

fn is_value(form: Form) -> bool
    ensures { result ≡ is_value form }
{
    match form {
        Form::Other => true,
        Form::Defined => false,
        Form::Alias => false,
    }
}

fn number_of(numbers: &HashMap<(usize, usize), u32>, at: NodeRef) -> Option<u32>
    ensures { result ≡ number_in numbers.now (at.file, at.node) }
{
    let key = (at.file as usize, at.node as usize);
    numbers.get(&key).copied()
}

fn is_number(number: Option<u32>, k: usize) -> bool
    ensures { result ≡ is_number number k }
{
    match number {
        Some(n) => n as usize == k,
        None => false,
    }
}

fn both(a: bool, b: bool) -> bool
    ensures { result ≡ (a && b) }
{
    a && b
}

fn add_value(
    numbers: &HashMap<(usize, usize), u32>,
    k: usize,
    entry: &Entry,
    out: &mut Vec<NodeRef>,
) -> Result<(), NoMemory>
    ensures { OnOk result (out.new.items ≡ out.old.items ++ if_value numbers.now k entry.now) }
{
    let first = is_number(number_of(numbers, entry.name), k);
    if both(is_value(entry.form), first) {
        out.push(entry.name)?;
    }
    Ok(())
}

fn nth(entries: &Vec<Entry>, k: usize) -> Option<&Entry>
    ensures { option_copied result ≡ slice_get entries.now.items k }
{
    entries.get(k)
}

fn add_nth(
    numbers: &HashMap<(usize, usize), u32>,
    entries: &Vec<Entry>,
    k: usize,
    out: &mut Vec<NodeRef>,
) -> Result<(), NoMemory>
    ensures { OnOk result (out.new.items ≡ out.old.items ++ nth_value numbers.now entries.now.items k) }
{
    if let Some(entry) = nth(entries, k) {
        add_value(numbers, k, entry, out)?;
    }
    Ok(())
}

/// The names that are no types.
fn values_of(
    alloc: Global,
    numbers: &HashMap<(usize, usize), u32>,
    entries: &Vec<Entry>,
) -> Result<Vec<NodeRef>, NoMemory>
    ensures { IfOk result (λ names. names.items ≡ all_values numbers.now entries.now.items) }
{
    let mut out = Vec::new(alloc);
    for k in 0..entries.len() {
        add_nth(numbers, entries, k, &mut out)?;
    }
    Ok(out)
}

// ---- flags

fn add_flagged(rows: &Vec<Vec<bool>>, at: NodeRef, out: &mut Vec<NodeRef>) -> Result<(), NoMemory>
    ensures { OnOk result (out.new.items ≡ out.old.items ++ if_flagged rows.now.items at) }
{
    if flag(rows, at) {
        out.push(at)?;
    }
    Ok(())
}

/// Of some names those that are flagged.
fn flagged(
    alloc: Global,
    rows: &Vec<Vec<bool>>,
    names: &[NodeRef],
) -> Result<Vec<NodeRef>, NoMemory>
    ensures { IfOk result (λ list. list.items ≡ flagged rows.now.items names.now) }
{
    let mut out = Vec::new(alloc);
    for name in names {
        add_flagged(rows, *name, &mut out)?;
    }
    Ok(out)
}

/// For each node of each file whether it is a name that is no type and leads back to itself, by a search among all names.
fn all_rows(alloc: Global, s: &Subject, view: View) -> Result<Vec<Vec<bool>>, NoMemory>
    requires trees { view.trees.now ≡ s.now.trees.now }
    requires named { AreNamed view.entries.items view.numbers }
    requires grouped { map group_items view.groups.items ≡ map (methods_by (unit_of s.now)) view.entries.items }
    requires rows { AreRows (λ f tree n. named_at (unit_of s.now) (place f n)) s.now.trees.now view.meant.now (length s.now.trees.now) }
    requires entries { view.entries.items ≡ declared s.now.trees.now [] }
    ensures { IfOk result (λ flags. AreCircular (unit_of s.now) (flag flags.items)) }
{
    let values = values_of(alloc, &view.numbers, &view.entries)?;
    let order = circles_of(alloc, view)?;
    let marked = all_cyclic(alloc, &order)?;
    let circles = listed_rows(alloc, s.trees, &marked)?;
    let list = flagged(alloc, &circles, &values)?;
    let flags = listed_rows(alloc, s.trees, &list)?;
    Ok(flags)
}

/// For each node of each file whether it is a name that is no type and leads back to itself, by the package's declarations. Where no type leads to a
/// value, only values are searched.
pub fn circular_rows(
    alloc: Global,
    s: &Subject,
    entries: Vec<Entry>,
) -> Result<Vec<Vec<bool>>, NoMemory>
    requires read { IsRead s.now }
    requires entries { entries.items ≡ declared s.now.trees.now [] }
    requires small { AreSmall s.now.trees.now }
    requires few { length s.now.trees.now ≤ 2 ^ 32 }
    ensures { IfOk result (λ flags. AreCircular (unit_of s.now) (flag flags.items)) }
{
    let numbers = numbers_of(alloc, &entries)?;
    let groups = groups_of(alloc, s, &entries)?;
    let meant = named_rows(alloc, s)?;
    let view = View {
        trees: s.trees,
        meant: &meant,
        entries,
        numbers,
        groups,
    };
    let circles = value_circles(alloc, &view)?;
    match circles {
        Some(list) => {
            let flags = listed_rows(alloc, s.trees, &list)?;
            Ok(flags)
        }
        None => {
            let flags = all_rows(alloc, s, view)?;
            Ok(flags)
        }
    }
}
