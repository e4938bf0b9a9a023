//! Which names are declared before in their block.
ghost use Rattle.std.specs.Prelude.{◌≡◌, ◌++◌, ◌≤◌, ◌^◌, length, nat_lt, slice_get, IfOk, OnOk};
ghost use Rattle.go_tree.specs.declared.tree.NodeRef.{NodeRef};
ghost use Rattle.object_order.specs.Views.{group_in};
ghost use Rattle.package_objects.specs.Declares.{gather, AreSmall};
ghost use Rattle.unit_blocks.specs.Blocks.{AreNames, AreAgain, unless_used, if_declared, nth_declared, all_declared, declared_again, again_in_file, again_by, inner_again, is_redeclared, again_at};
ghost use Rattle.unit_read.specs.Subjects.{flag, unit_of, IsRead};
ghost use Rattle.unit_read.specs.Units.{nodes_at};
ghost use Rattle.unit_rows.specs.Redeclared.{package_names};
ghost use Rattle.unit_rows.specs.Tables.{row_in};

use crate::blocks::blocks_of;
use go_tree::{NodeRef, Object};
use gv_base::NoMemory;
use scopes::Named;
use std::alloc::Global;
use unit_read::Subject;
use unit_rows::{listed_rows, named_again};

fn group(groups: &[Vec<NodeRef>], n: usize) -> &[NodeRef]
    ensures { result.now ≡ group_in groups.now n }
{
    match groups.get(n) {
        Some(group) => group.as_slice(),
        None => &[],
    }
}

fn nth(nodes: &[NodeRef], i: usize) -> Option<NodeRef>
    ensures { result ≡ slice_get nodes.now i }
{
    nodes.get(i).copied()
}

/// Adds a name, unless it is a use that denotes something.
fn add_unless_used(
    at: NodeRef,
    object: Option<Object>,
    out: &mut Vec<NodeRef>,
) -> Result<(), NoMemory>
    ensures { OnOk result (out.new.items ≡ out.old.items ++ unless_used at object) }
{
    match object {
        None => {
            out.push(at)?;
            Ok(())
        }
        Some(_) => Ok(()),
    }
}

/// Adds a name, if it is declared where it stands.
fn add_declared(s: &Subject, at: NodeRef, out: &mut Vec<NodeRef>) -> Result<(), NoMemory>
    requires { IsRead s.now }
    ensures { OnOk result (out.new.items ≡ out.old.items ++ if_declared (unit_of s.now) at) }
{
    add_unless_used(at, s.object_at(at), out)?;
    Ok(())
}

fn add_nth(s: &Subject, nodes: &[NodeRef], i: usize, out: &mut Vec<NodeRef>) -> Result<(), NoMemory>
    requires { IsRead s.now }
    ensures { OnOk result (out.new.items ≡ out.old.items ++ nth_declared (unit_of s.now) nodes.now i) }
{
    if let Some(at) = nth(nodes, i) {
        add_declared(s, at, out)?;
    }
    Ok(())
}

/// Of some names those that are declared where they stand.
fn all_declared(alloc: Global, s: &Subject, nodes: &[NodeRef]) -> Result<Vec<NodeRef>, NoMemory>
    requires { IsRead s.now }
    ensures { IfOk result (λ list. list.items ≡ all_declared (unit_of s.now) nodes.now) }
{
    let mut out = Vec::new(alloc);
    for i in 0..nodes.len() {
        add_nth(s, nodes, i, &mut out)?;
    }
    Ok(out)
}

fn declared_again(alloc: Global, s: &Subject, nodes: &[NodeRef]) -> Result<Vec<NodeRef>, NoMemory>
    requires { IsRead s.now }
    ensures { IfOk result (λ list. list.items ≡ declared_again (unit_of s.now) nodes.now) }
{
    let names = all_declared(alloc, s, nodes)?;
    let list = named_again(alloc, s, &names)?;
    Ok(list)
}

fn add_named(
    alloc: Global,
    s: &Subject,
    nodes: &[NodeRef],
    out: &mut Vec<NodeRef>,
) -> Result<(), NoMemory>
    requires { IsRead s.now }
    ensures { OnOk result (out.new.items ≡ out.old.items ++ declared_again (unit_of s.now) nodes.now) }
{
    let list = declared_again(alloc, s, nodes)?;
    out.extend_from_slice(&list)?;
    Ok(())
}

/// Whether there are fewer than two, so that no one has an earlier one.
fn is_few(nodes: &[NodeRef]) -> bool
    ensures { result ≡ nat_lt (length nodes.now) 2 }
{
    nodes.len() < 2
}

/// Adds those of a group that are declared and that an earlier one has.
fn add_group(
    alloc: Global,
    s: &Subject,
    groups: &[Vec<NodeRef>],
    n: usize,
    out: &mut Vec<NodeRef>,
) -> Result<(), NoMemory>
    requires { IsRead s.now }
    ensures { OnOk result (out.new.items ≡ out.old.items ++ again_at (unit_of s.now) groups.now n) }
{
    let nodes = group(groups, n);
    if is_few(nodes) {
        return Ok(());
    }
    add_named(alloc, s, nodes, out)?;
    Ok(())
}

fn add_groups(
    alloc: Global,
    s: &Subject,
    groups: &[Vec<NodeRef>],
    count: usize,
    out: &mut Vec<NodeRef>,
) -> Result<(), NoMemory>
    requires { IsRead s.now }
    ensures { OnOk result (out.new.items ≡ out.old.items ++ gather (again_at (unit_of s.now) groups.now) count) }
{
    for n in 0..count {
        add_group(alloc, s, groups, n, out)?;
    }
    Ok(())
}

fn node_count(s: &Subject, file: u32) -> usize
    ensures { result ≡ length (nodes_at (unit_of s.now) file) }
{
    s.nodes_at(file).len()
}

/// Adds the names that are declared before in a block of a file.
fn add_file(
    alloc: Global,
    s: &Subject,
    file: u32,
    names: &[Named],
    out: &mut Vec<NodeRef>,
) -> Result<(), NoMemory>
    requires read { IsRead s.now }
    requires few { length (nodes_at (unit_of s.now) file) ≤ 2 ^ 32 }
    ensures { OnOk result (out.new.items ≡ out.old.items ++ again_in_file (unit_of s.now) file names.now) }
{
    let count = node_count(s, file);
    let groups = blocks_of(alloc, file, count, names)?;
    add_groups(alloc, s, &groups, count, out)?;
    Ok(())
}

fn row(names: &[Vec<Named>], file: u32) -> &[Named]
    ensures { result.now ≡ row_in names.now file }
{
    match names.get(file as usize) {
        Some(row) => row.as_slice(),
        None => &[],
    }
}

fn add_by(
    alloc: Global,
    s: &Subject,
    names: &[Vec<Named>],
    file: u32,
    out: &mut Vec<NodeRef>,
) -> Result<(), NoMemory>
    requires read { IsRead s.now }
    requires few { length (nodes_at (unit_of s.now) file) ≤ 2 ^ 32 }
    ensures { OnOk result (out.new.items ≡ out.old.items ++ again_by (unit_of s.now) names.now file) }
{
    add_file(alloc, s, file, row(names, file), out)?;
    Ok(())
}

/// Adds the names that are declared before in a block within a function.
fn add_inner(
    alloc: Global,
    s: &Subject,
    names: &[Vec<Named>],
    out: &mut Vec<NodeRef>,
) -> Result<(), NoMemory>
    requires read { IsRead s.now }
    requires small { AreSmall s.now.trees.now }
    requires few { length s.now.trees.now ≤ 2 ^ 32 }
    ensures { OnOk result (out.new.items ≡ out.old.items ++ inner_again (unit_of s.now) names.now) }
{
    for file in 0..s.trees.len() {
        add_by(alloc, s, names, file as u32, out)?;
    }
    Ok(())
}

/// The same by the names of the package block, and by those of each file in the order in which their regions begin.
fn rows_by(
    alloc: Global,
    s: &Subject,
    top: &[NodeRef],
    names: &[Vec<Named>],
) -> Result<Vec<Vec<bool>>, NoMemory>
    requires read { IsRead s.now }
    requires top { top.now ≡ package_names (unit_of s.now) }
    requires small { AreSmall s.now.trees.now }
    requires few { length s.now.trees.now ≤ 2 ^ 32 }
    ensures { IfOk result (λ flags. (at : NodeRef) → flag flags.items at ≡ is_redeclared (unit_of s.now) names.now at) }
{
    let mut list = named_again(alloc, s, top)?;
    add_inner(alloc, s, names, &mut list)?;
    let flags = listed_rows(alloc, s.trees, &list)?;
    Ok(flags)
}

/// For each node of each file whether it is a name that is declared before in its block, by the names of the package block, and by those that
/// each file declares, in the order in which their regions begin.
pub fn block_rows(
    alloc: Global,
    s: &Subject,
    top: &[NodeRef],
    names: &[Vec<Named>],
) -> Result<Vec<Vec<bool>>, NoMemory>
    requires read { IsRead s.now }
    requires top { top.now ≡ package_names (unit_of s.now) }
    requires names { AreNames s.now.trees.now names.now }
    requires small { AreSmall s.now.trees.now }
    requires few { length s.now.trees.now ≤ 2 ^ 32 }
    ensures { IfOk result (λ flags. AreAgain (unit_of s.now) (flag flags.items)) }
{
    let flags = rows_by(alloc, s, top, names)?;
    Ok(flags)
}
