//! The first label of each name in each function.
ghost use Rattle.std.specs.Prelude.{◌≡◌, ◌<◌, ◌&&◌, ℕ, List, IfOk, OnOk, Some, length, if◌then◌else◌, bytes_eq, nat_eq, unwrap_or};
ghost use Rattle.label_uses.specs.Heads.{AreHeads};
ghost use Rattle.label_uses.specs.Labels.{is_label, IsLabel};
ghost use Rattle.label_uses.specs.Parents.{at, IsTree};
ghost use Rattle.label_uses.specs.Tables.{found, Adds, AreFirst};

use crate::functions::at;
use crate::heads::{Headed, end_of};
use crate::names::label_name;
use go_tree::FileTree;
use gv_base::NoMemory;
use std::alloc::Global;
use std::collections::HashMap;

/// The label that is kept for a function and a name.
pub(crate) fn find(
    table: &HashMap<(usize, &[u8]), usize>,
    function: usize,
    name: &[u8],
) -> Option<usize>
    ensures { result ≡ found table.now function name.now }
{
    table.get(&(function, name)).copied()
}

fn keep<'a>(
    table: &mut HashMap<(usize, &'a [u8]), usize>,
    function: usize,
    name: &'a [u8],
    n: usize,
) -> Result<(), NoMemory>
    ensures { OnOk result ((f : ℕ) → (q : List ℕ) → found table.new f q ≡ (if nat_eq function f && bytes_eq name.now q then Some n else found table.old f q)) }
{
    table.insert((function, name), n)?;
    Ok(())
}

/// Keeps a label for a function and a name, where none is kept.
fn keep_first<'a>(
    table: &mut HashMap<(usize, &'a [u8]), usize>,
    function: usize,
    name: &'a [u8],
    n: usize,
) -> Result<(), NoMemory>
    ensures { OnOk result ((f : ℕ) → (q : List ℕ) → found table.new f q ≡ (if nat_eq function f && bytes_eq name.now q then Some (unwrap_or (found table.old f q) n) else found table.old f q)) }
{
    match find(table, function, name) {
        Some(_) => Ok(()),
        None => {
            keep(table, function, name, n)?;
            Ok(())
        }
    }
}

/// Keeps a node, if it is a label and the first of its name in its function.
fn add<'a>(
    bytes: &'a [u8],
    tree: &FileTree,
    heads: &Headed,
    functions: &[usize],
    table: &mut HashMap<(usize, &'a [u8]), usize>,
    n: usize,
) -> Result<(), NoMemory>
    requires heads { AreHeads is_label tree.now.nodes (length tree.now.nodes) heads.now }
    requires n { n < length tree.now.nodes }
    ensures { OnOk result (Adds (IsLabel bytes.now tree.now) (at functions.now) n (found table.old) (found table.new)) }
{
    match label_name(bytes, tree, heads, n) {
        Some(name) => {
            keep_first(table, at(functions, n), name, n)?;
            Ok(())
        }
        None => Ok(()),
    }
}

pub(crate) fn count_nodes(tree: &FileTree) -> usize
    ensures { result ≡ length tree.now.nodes }
{
    tree.nodes.as_slice().len()
}

/// The first label of each name in each function.
pub(crate) fn first_labels<'a>(
    alloc: Global,
    bytes: &'a [u8],
    tree: &FileTree,
    heads: &Headed,
    functions: &[usize],
) -> Result<HashMap<(usize, &'a [u8]), usize>, NoMemory>
    requires tree { IsTree tree.now.nodes }
    requires heads { AreHeads is_label tree.now.nodes (length tree.now.nodes) heads.now }
    ensures { IfOk result (λ table. AreFirst (IsLabel bytes.now tree.now) (at functions.now) (length tree.now.nodes) (found table)) }
{
    let mut table = HashMap::new(alloc);
    let end = end_of(heads);
    for n in heads.low..end {
        add(bytes, tree, heads, functions, &mut table, n)?;
    }
    Ok(table)
}
