//! A row for each jump, and one for each label.
ghost use Rattle.std.specs.Prelude.{◌≡◌, ◌<◌, ◌≤◌, ◌+◌, ℕ, List, IfOk, OnOk, Some, length, unwrap_or, get_or, false, replicate};
ghost use Rattle.label_uses.specs.Heads.{AreHeads};
ghost use Rattle.label_uses.specs.Labels.{is_label, is_jump, IsLabel, IsJump};
ghost use Rattle.label_uses.specs.Parents.{at, IsTree};
ghost use Rattle.label_uses.specs.Tables.{found};
ghost use Rattle.label_uses.specs.Rows.{Appends, AreGathered, HasName, IsJumpRow, IsLabelRow, Sets, Marks, AreUsed};

use crate::answer::{Jump, Label};
use crate::functions::at;
use crate::heads::{Headed, end_of};
use crate::names::{jump_name, label_name};
use crate::table::find;
use go_tree::FileTree;
use gv_base::NoMemory;
use std::alloc::Global;
use std::collections::HashMap;

/// Adds the node, if it is the name of a jump.
fn push_jump(
    bytes: &[u8],
    tree: &FileTree,
    heads: &Headed,
    functions: &[usize],
    table: &HashMap<(usize, &[u8]), usize>,
    n: usize,
    jumps: &mut Vec<Jump>,
) -> Result<(), NoMemory>
    requires heads { AreHeads is_jump tree.now.nodes (length tree.now.nodes) heads.now }
    requires n { n < length tree.now.nodes }
    ensures { OnOk result (Appends (λ (j : Jump). (j.name ≡ n) × IsJumpRow (IsJump bytes.now tree.now) (at functions.now) (found table.now) j) (HasName (IsJump bytes.now tree.now n) → ⊥) jumps.old.items jumps.new.items) }
{
    match jump_name(bytes, tree, heads, n) {
        Some(name) => {
            let label = find(table, at(functions, n), name);
            jumps.push(Jump { name: n, label })?;
            Ok(())
        }
        None => Ok(()),
    }
}

/// The jumps of a file, each with the label that it denotes.
pub(crate) fn jumps_of(
    alloc: Global,
    bytes: &[u8],
    tree: &FileTree,
    heads: &Headed,
    functions: &[usize],
    table: &HashMap<(usize, &[u8]), usize>,
) -> Result<Vec<Jump>, NoMemory>
    requires tree { IsTree tree.now.nodes }
    requires heads { AreHeads is_jump tree.now.nodes (length tree.now.nodes) heads.now }
    ensures { IfOk result (λ jumps. AreGathered (λ (j : Jump). j.name) (IsJumpRow (IsJump bytes.now tree.now) (at functions.now) (found table.now)) (λ n. HasName (IsJump bytes.now tree.now n)) (length tree.now.nodes) jumps.items) }
{
    let mut jumps = Vec::new(alloc);
    let end = end_of(heads);
    for n in heads.low..end {
        push_jump(bytes, tree, heads, functions, table, n, &mut jumps)?;
    }
    Ok(jumps)
}

pub(crate) fn set(flags: &mut Vec<bool>, n: usize)
    ensures { Sets flags.old.items flags.new.items n }
{
    if n < flags.as_slice().len() {
        flags[n] = true;
    }
}

/// Sets the flag of a label, if there is one.
fn mark(flags: &mut Vec<bool>, label: Option<usize>)
    ensures { Marks label flags.old.items flags.new.items }
{
    match label {
        Some(label) => set(flags, label),
        None => {}
    }
}

pub(crate) fn all_false(alloc: Global, count: usize) -> Result<Vec<bool>, NoMemory>
    ensures { IfOk result (λ flags. flags.items ≡ replicate count false) }
{
    let flags = vec![in alloc; false; count]?;
    Ok(flags)
}

/// Which of so many nodes a jump denotes.
pub(crate) fn used_of(alloc: Global, jumps: &[Jump], count: usize) -> Result<Vec<bool>, NoMemory>
    ensures { IfOk result (λ used. AreUsed jumps.now (length jumps.now) count used.items) }
{
    let mut used = all_false(alloc, count)?;
    for jump in jumps {
        mark(&mut used, jump.label);
    }
    Ok(used)
}

fn flag(flags: &[bool], n: usize) -> bool
    ensures { result ≡ get_or flags.now n false }
{
    if n < flags.len() { flags[n] } else { false }
}

fn or_itself(label: Option<usize>, n: usize) -> usize
    ensures { result ≡ unwrap_or label n }
{
    match label {
        Some(label) => label,
        None => n,
    }
}

/// Adds the node, if it is a label.
fn push_label(
    bytes: &[u8],
    tree: &FileTree,
    heads: &Headed,
    functions: &[usize],
    table: &HashMap<(usize, &[u8]), usize>,
    used: &[bool],
    n: usize,
    labels: &mut Vec<Label>,
) -> Result<(), NoMemory>
    requires heads { AreHeads is_label tree.now.nodes (length tree.now.nodes) heads.now }
    requires n { n < length tree.now.nodes }
    ensures { OnOk result (Appends (λ (l : Label). (l.name ≡ n) × IsLabelRow (IsLabel bytes.now tree.now) (at functions.now) (found table.now) used.now l) (HasName (IsLabel bytes.now tree.now n) → ⊥) labels.old.items labels.new.items) }
{
    match label_name(bytes, tree, heads, n) {
        Some(name) => {
            let first = or_itself(find(table, at(functions, n), name), n);
            let used = flag(used, n);
            labels.push(Label {
                name: n,
                first,
                used,
            })?;
            Ok(())
        }
        None => Ok(()),
    }
}

/// The labels of a file.
pub(crate) fn labels_of(
    alloc: Global,
    bytes: &[u8],
    tree: &FileTree,
    heads: &Headed,
    functions: &[usize],
    table: &HashMap<(usize, &[u8]), usize>,
    used: &[bool],
) -> Result<Vec<Label>, NoMemory>
    requires tree { IsTree tree.now.nodes }
    requires heads { AreHeads is_label tree.now.nodes (length tree.now.nodes) heads.now }
    ensures { IfOk result (λ labels. AreGathered (λ (l : Label). l.name) (IsLabelRow (IsLabel bytes.now tree.now) (at functions.now) (found table.now) used.now) (λ n. HasName (IsLabel bytes.now tree.now n)) (length tree.now.nodes) labels.items) }
{
    let mut labels = Vec::new(alloc);
    let end = end_of(heads);
    for n in heads.low..end {
        push_label(bytes, tree, heads, functions, table, used, n, &mut labels)?;
    }
    Ok(labels)
}
