//! The names of a file by their blocks.
ghost use Rattle.std.specs.Prelude.{◌≡◌, ◌<◌, ◌≤◌, ◌^◌, ℕ, [], Some, nat_lt, length, IfOk, OnOk};
ghost use Rattle.object_order.specs.Views.{group_in};
ghost use Rattle.unit_blocks.specs.Blocks.{placed_name, PushesAt, AddsAt, AreBlocks};

use go_tree::NodeRef;
use gv_base::NoMemory;
use scopes::Named;
use std::alloc::Global;

/// So many empty groups.
fn blank(alloc: Global, count: usize) -> Result<Vec<Vec<NodeRef>>, NoMemory>
    ensures size { IfOk result (λ groups. length groups.items ≡ count) }
    ensures empty { IfOk result (λ groups. (k : ℕ) → group_in groups.items k ≡ []) }
{
    let mut groups = Vec::with_capacity(alloc, count)?;
    for _n in 0..count {
        groups.push(Vec::new(alloc))?;
    }
    Ok(groups)
}

fn push_at(groups: &mut Vec<Vec<NodeRef>>, n: usize, at: NodeRef) -> Result<(), NoMemory>
    requires { n < length groups.old.items }
    ensures { OnOk result (PushesAt groups.old.items groups.new.items n at) }
{
    groups[n].push(at)?;
    Ok(())
}

fn is_below(groups: &Vec<Vec<NodeRef>>, n: usize) -> bool
    ensures { result ≡ nat_lt n (length groups.now.items) }
{
    n < groups.len()
}

fn push_within(groups: &mut Vec<Vec<NodeRef>>, n: usize, at: NodeRef) -> Result<(), NoMemory>
    ensures { OnOk result (AddsAt groups.old.items groups.new.items n (Some at)) }
{
    if is_below(groups, n) {
        push_at(groups, n, at)?;
    }
    Ok(())
}

fn add_at(groups: &mut Vec<Vec<NodeRef>>, n: usize, at: Option<NodeRef>) -> Result<(), NoMemory>
    ensures { OnOk result (AddsAt groups.old.items groups.new.items n at) }
{
    match at {
        Some(at) => {
            push_within(groups, n, at)?;
            Ok(())
        }
        None => Ok(()),
    }
}

/// The node of a name, if it is one of so many.
fn placed_name(file: u32, count: usize, name: Named) -> Option<NodeRef>
    requires { count ≤ 2 ^ 32 }
    ensures { result ≡ placed_name file count name }
{
    if name.node < count {
        Some(NodeRef {
            file,
            node: name.node as u32,
        })
    } else {
        None
    }
}

/// Adds a name to its block.
fn add_name(
    groups: &mut Vec<Vec<NodeRef>>,
    file: u32,
    count: usize,
    name: Named,
) -> Result<(), NoMemory>
    requires { count ≤ 2 ^ 32 }
    ensures { OnOk result (AddsAt groups.old.items groups.new.items name.end (placed_name file count name)) }
{
    add_at(groups, name.end, placed_name(file, count, name))?;
    Ok(())
}

/// The names of each block of a file of so many nodes.
pub fn blocks_of(
    alloc: Global,
    file: u32,
    count: usize,
    names: &[Named],
) -> Result<Vec<Vec<NodeRef>>, NoMemory>
    requires { count ≤ 2 ^ 32 }
    ensures { IfOk result (λ groups. AreBlocks file count names.now (length names.now) groups.items) }
{
    let mut groups = blank(alloc, count)?;
    for i in 0..names.len() {
        add_name(&mut groups, file, count, names[i])?;
    }
    Ok(groups)
}
