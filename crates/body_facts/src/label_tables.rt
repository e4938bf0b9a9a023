//! The labels and jumps of a file, by node.
ghost use Rattle.std.specs.Prelude.{◌≡◌, ◌<◌, ℕ, List, IfOk, Some, None, length, slice_get, true, IsTrue};
ghost use Rattle.go_tree.specs.declared.tree.FileTree.{FileTree};
ghost use Rattle.node_values.specs.Flagged.{AreFlagged, IsOnly};
ghost use Rattle.node_values.specs.Handed.{AreTops};
ghost use Rattle.label_uses.specs.Labels.{IsRepeated};
ghost use Rattle.label_uses.specs.Read.{AreLabels};
ghost use Rattle.body_facts.specs.LabelTables.{AreDenoted, AreFlagsOf, IsIdle, AreTold, AreRising, Tells, TellsRepeated, TellsIdle};

use go_tree::FileTree;
use gv_base::NoMemory;
use label_uses::{Jump, Label, Labels, one_label};
use node_values::{Targets, flag_targets};
use std::alloc::Global;

fn no_answers(alloc: Global, count: usize) -> Result<Vec<Option<usize>>, NoMemory>
    ensures { IfOk result (λ found. AreTops count None found.items) }
{
    let mut found = Vec::with_capacity(alloc, count)?;
    for n in 0..count {
        found.push(None)?;
    }
    Ok(found)
}

fn count_of(found: &Vec<Option<usize>>) -> usize
    ensures { result ≡ length found.now.items }
{
    found.as_slice().len()
}

fn tell(found: &mut Vec<Option<usize>>, n: usize, label: Option<usize>)
    ensures { Tells n label found.old.items found.new.items }
{
    if n < count_of(found) {
        found[n] = label;
    }
}

fn jump_at(jumps: &[Jump], k: usize) -> Jump
    requires { k < length jumps.now }
    ensures { slice_get jumps.now k ≡ Some result }
{
    jumps[k]
}

fn told_of(alloc: Global, jumps: &[Jump], count: usize) -> Result<Vec<Option<usize>>, NoMemory>
    requires { AreRising jumps.now }
    ensures { IfOk result (λ found. AreTold jumps.now (length jumps.now) count found.items) }
{
    let mut found = no_answers(alloc, count)?;
    for k in 0..jumps.len() {
        let jump = jump_at(jumps, k);
        tell(&mut found, jump.name, jump.label);
    }
    Ok(found)
}

pub(crate) fn count_nodes(tree: &FileTree) -> usize
    ensures { result ≡ length tree.now.nodes }
{
    tree.nodes.as_slice().len()
}

/// The label that the name behind each jump denotes.
pub(crate) fn denoted_of(
    alloc: Global,
    bytes: &[u8],
    tree: &FileTree,
    labels: &Labels,
) -> Result<Vec<Option<usize>>, NoMemory>
    requires { AreLabels bytes.now tree.now labels.now }
    ensures { IfOk result (λ found. AreDenoted bytes.now tree.now found.items) }
{
    let _ = bytes;
    one_label();
    let found = told_of(alloc, &labels.jumps, count_nodes(tree))?;
    Ok(found)
}

fn label_at(labels: &[Label], k: usize) -> Label
    requires { k < length labels.now }
    ensures { slice_get labels.now k ≡ Some result }
{
    labels[k]
}

fn second_at(rows: &[Label], k: usize) -> Option<usize>
    requires { k < length rows.now }
    ensures { IsOnly (TellsRepeated rows.now k) result }
{
    let label = label_at(rows, k);
    if label.first < label.name {
        return Some(label.name);
    }
    None
}

/// The labels that stand second.
#[derive(Clone, Copy, Drop)]
struct Repeated<'a> {
    rows: &'a [Label],
}

impl<'a> Targets for Repeated<'a> {
    ghost IsState = { λ s. IsTrue true };

    ghost count = { λ s. length s.rows.now };

    ghost Leads = { λ s. TellsRepeated s.rows.now };

    fn count(&self) -> usize {
        self.rows.len()
    }

    fn target(&self, n: usize) -> Option<usize> {
        second_at(self.rows, n)
    }
}

fn idle_at(rows: &[Label], k: usize) -> Option<usize>
    requires { k < length rows.now }
    ensures { IsOnly (TellsIdle rows.now k) result }
{
    let label = label_at(rows, k);
    if label.used {
        return None;
    }
    Some(label.name)
}

/// The labels that no jump denotes.
#[derive(Clone, Copy, Drop)]
struct Idle<'a> {
    rows: &'a [Label],
}

impl<'a> Targets for Idle<'a> {
    ghost IsState = { λ s. IsTrue true };

    ghost count = { λ s. length s.rows.now };

    ghost Leads = { λ s. TellsIdle s.rows.now };

    fn count(&self) -> usize {
        self.rows.len()
    }

    fn target(&self, n: usize) -> Option<usize> {
        idle_at(self.rows, n)
    }
}

/// Which nodes are labels that stand second.
pub(crate) fn repeated_of(
    alloc: Global,
    bytes: &[u8],
    tree: &FileTree,
    labels: &Labels,
) -> Result<Vec<bool>, NoMemory>
    requires { AreLabels bytes.now tree.now labels.now }
    ensures { IfOk result (λ flags. AreFlagsOf (IsRepeated bytes.now tree.now) (length tree.now.nodes) flags.items) }
{
    let _ = bytes;
    let rows = Repeated {
        rows: &labels.labels,
    };
    let flags = flag_targets(alloc, &rows, count_nodes(tree))?;
    Ok(flags)
}

/// Which nodes are labels that no jump denotes.
pub(crate) fn idle_of(
    alloc: Global,
    bytes: &[u8],
    tree: &FileTree,
    labels: &Labels,
) -> Result<Vec<bool>, NoMemory>
    requires { AreLabels bytes.now tree.now labels.now }
    ensures { IfOk result (λ flags. AreFlagsOf (IsIdle bytes.now tree.now) (length tree.now.nodes) flags.items) }
{
    let _ = bytes;
    let rows = Idle {
        rows: &labels.labels,
    };
    let flags = flag_targets(alloc, &rows, count_nodes(tree))?;
    Ok(flags)
}
