//! Which label each jump of a file denotes.
ghost use Rattle.std.specs.Prelude.{◌≡◌, [], IfOk, length};
ghost use Rattle.go_tree.specs.Pieces.{Spelled};
ghost use Rattle.label_uses.specs.Heads.{AreHeads};
ghost use Rattle.label_uses.specs.Labels.{is_label, is_jump};
ghost use Rattle.label_uses.specs.Read.{AreLabels};

use crate::answer::Labels;
use crate::functions::functions_of;
use crate::heads::{Headed, jump_heads, label_heads};
use crate::plain::names_some;
use crate::rows::{jumps_of, labels_of, used_of};
use crate::table::{count_nodes, first_labels};
use go_tree::FileTree;
use gv_base::NoMemory;
use std::alloc::Global;

fn no_labels(alloc: Global) -> Labels
    ensures labels { result.labels.items ≡ [] }
    ensures jumps { result.jumps.items ≡ [] }
{
    Labels {
        labels: Vec::new(alloc),
        jumps: Vec::new(alloc),
    }
}

/// The labels of a file and its jumps to labels, by the names of its labels, and those behind its jumps.
fn labels_by(
    alloc: Global,
    tree: &FileTree,
    bytes: &[u8],
    named: &Headed,
    jumping: &Headed,
) -> Result<Labels, NoMemory>
    requires spelled { Spelled tree.now.tokens bytes.now tree.now }
    requires named { AreHeads is_label tree.now.nodes (length tree.now.nodes) named.now }
    requires jumping { AreHeads is_jump tree.now.nodes (length tree.now.nodes) jumping.now }
    ensures { IfOk result (λ r. AreLabels bytes.now tree.now r) }
{
    let functions = functions_of(alloc, tree.nodes.as_slice())?;
    let table = first_labels(alloc, bytes, tree, named, &functions)?;
    let jumps = jumps_of(alloc, bytes, tree, jumping, &functions, &table)?;
    let used = used_of(alloc, &jumps, count_nodes(tree))?;
    let labels = labels_of(alloc, bytes, tree, named, &functions, &table, &used)?;
    Ok(Labels { labels, jumps })
}

fn named_in(alloc: Global, tree: &FileTree) -> Result<Headed, NoMemory>
    ensures { IfOk result (AreHeads is_label tree.now.nodes (length tree.now.nodes)) }
{
    let heads = label_heads(alloc, tree.nodes.as_slice())?;
    Ok(heads)
}

fn jumping_in(alloc: Global, tree: &FileTree) -> Result<Headed, NoMemory>
    ensures { IfOk result (AreHeads is_jump tree.now.nodes (length tree.now.nodes)) }
{
    let heads = jump_heads(alloc, tree.nodes.as_slice())?;
    Ok(heads)
}

fn some_labels(alloc: Global, tree: &FileTree, bytes: &[u8]) -> Result<Labels, NoMemory>
    requires { Spelled tree.now.tokens bytes.now tree.now }
    ensures { IfOk result (λ r. AreLabels bytes.now tree.now r) }
{
    let named = named_in(alloc, tree)?;
    let jumping = jumping_in(alloc, tree)?;
    let found = labels_by(alloc, tree, bytes, &named, &jumping)?;
    Ok(found)
}

/// The labels of a file and its jumps to labels, each jump with the label that it denotes.
pub fn labels(alloc: Global, tree: &FileTree, bytes: &[u8]) -> Result<Labels, NoMemory>
    requires { Spelled tree.now.tokens bytes.now tree.now }
    ensures { IfOk result (λ r. AreLabels bytes.now tree.now r) }
{
    if !names_some(tree.nodes.as_slice()) {
        return Ok(no_labels(alloc));
    }
    let found = some_labels(alloc, tree, bytes)?;
    Ok(found)
}
