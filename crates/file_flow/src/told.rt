//! The labeled statements that a file's jumps denote.
ghost use Rattle.std.specs.Prelude.{◌≡◌, ◌<◌, ◌≤◌, ◌^◌, ℕ, IfOk, length, replicate, None, Some, slice_get};
ghost use Rattle.go_tree.specs.Pieces.{Spelled};
ghost use Rattle.label_uses.specs.Labels.{is_label};
ghost use Rattle.label_uses.specs.declared.answer.Jump.{Jump};
ghost use Rattle.flow.specs.Around.{label_at, IsTree};
ghost use Rattle.file_flow.specs.Told.{AreTold, named_by, AreOwners, owner_of, AreGivenTo, IsPut};

use crate::laws::nodes_are_few;
use go_tree::{FileTree, Node, NodeKind};
use gv_base::NoMemory;
use label_uses::{Jump, labels, one_label};
use std::alloc::Global;

fn is_label(kind: NodeKind) -> bool
    ensures { result ≡ is_label kind }
{
    matches!(kind, NodeKind::Label)
}

/// The name of the label that a node has, if it is a labeled statement.
fn named_by(node: &Node) -> Option<u32>
    ensures { result ≡ named_by node.now }
{
    if !is_label(node.kind) {
        return None;
    }
    node.part(0)
}

fn none_of(alloc: Global, count: usize) -> Result<Vec<Option<u32>>, NoMemory>
    ensures { IfOk result (λ all. all.items ≡ replicate count None) }
{
    let all = vec![in alloc; None; count]?;
    Ok(all)
}

/// Puts a value to a place, if there is such a place.
fn put(all: &mut Vec<Option<u32>>, at: usize, value: Option<u32>)
    ensures { IsPut at value all.old.items all.new.items }
{
    if at < all.as_slice().len() {
        all[at] = value;
    }
}

/// Puts a labeled statement to the name of its label.
fn put_owner(owners: &mut Vec<Option<u32>>, name: Option<u32>, l: u32)
    ensures named { (n : ℕ) → name ≡ Some n → IsPut n (Some l) owners.old.items owners.new.items }
    ensures other { name ≡ None → owners.new.items ≡ owners.old.items }
{
    match name {
        None => {}
        Some(name) => put(owners, name as usize, Some(l)),
    }
}

/// For the name of each label the statement that is labeled.
fn owners_of(alloc: Global, tree: &FileTree) -> Result<Vec<Option<u32>>, NoMemory>
    requires tree { IsTree tree.now.nodes }
    requires few { length tree.now.nodes ≤ 2 ^ 32 }
    ensures { IfOk result (λ owners. AreOwners tree.now (length tree.now.nodes) owners.items) }
{
    let nodes = tree.nodes.as_slice();
    let mut owners = none_of(alloc, nodes.len())?;
    for l in 0..nodes.len() {
        put_owner(&mut owners, named_by(&nodes[l]), l as u32);
    }
    Ok(owners)
}

fn label_at(owners: &[Option<u32>], at: usize) -> Option<u32>
    ensures { result ≡ label_at owners.now at }
{
    if at < owners.len() { owners[at] } else { None }
}

fn owner_of(owners: &[Option<u32>], label: Option<usize>) -> Option<u32>
    ensures { result ≡ owner_of owners.now label }
{
    match label {
        None => None,
        Some(name) => label_at(owners, name),
    }
}

/// For the name behind each jump the statement of its label.
fn give(
    alloc: Global,
    count: usize,
    jumps: &[Jump],
    owners: &[Option<u32>],
) -> Result<Vec<Option<u32>>, NoMemory>
    requires rises { (j k : ℕ) (a b : Jump) → j < k → slice_get jumps.now j ≡ Some a → slice_get jumps.now k ≡ Some b → a.name < b.name }
    ensures size { IfOk result (λ labels. length labels.items ≡ count) }
    ensures given { IfOk result (λ labels. AreGivenTo jumps.now owners.now (length jumps.now) labels.items) }
{
    let mut given = none_of(alloc, count)?;
    for i in 0..jumps.len() {
        put(&mut given, jumps[i].name, owner_of(owners, jumps[i].label));
    }
    Ok(given)
}

/// For each node of a file the labeled statement that it denotes, if it is the name behind a jump and
/// denotes one.
pub fn file_labels(
    alloc: Global,
    tree: &FileTree,
    bytes: &[u8],
) -> Result<Vec<Option<u32>>, NoMemory>
    requires { Spelled tree.now.tokens bytes.now tree.now }
    ensures { IfOk result (λ labels. AreTold bytes.now tree.now labels.items) }
{
    nodes_are_few(tree, bytes);
    one_label();
    let found = labels(alloc, tree, bytes)?;
    let owners = owners_of(alloc, tree)?;
    let given = give(alloc, tree.nodes.as_slice().len(), &found.jumps, &owners)?;
    Ok(given)
}
