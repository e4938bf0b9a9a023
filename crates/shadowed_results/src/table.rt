//! The names of results, by function.
ghost use Rattle.std.specs.Prelude.{◌≡◌, ◌<◌, ◌&&◌, ℕ, List, IfOk, OnOk, Some, length, if◌then◌else◌, bytes_eq, nat_eq, codes, option_map};
ghost use Rattle.shadowed_results.specs.Tables.{found, unless_blank, result_name, Keeps, AreKept, of_nodes};

use crate::functions::number_at;
use crate::results::{Stage, is_result};
use file_uses::name_at;
use go_tree::FileTree;
use gv_base::NoMemory;
use std::alloc::Global;
use std::collections::HashMap;

fn is_blank(name: &[u8]) -> bool
    ensures { result ≡ bytes_eq name.now (codes "_") }
{
    name == b"_".as_slice()
}

fn unless_blank(name: Option<&[u8]>) -> Option<&[u8]>
    ensures { option_map (λ o. o.now) result ≡ unless_blank (option_map (λ o. o.now) name.entry) }
{
    match name {
        Some(name) => {
            if is_blank(name) {
                return None;
            }
            Some(name)
        }
        None => None,
    }
}

/// The name of a result that a node is.
fn result_name<'a>(bytes: &'a [u8], tree: &FileTree, stages: &[Stage], n: usize) -> Option<&'a [u8]>
    ensures { option_map (λ o. o.now) result ≡ result_name bytes.now tree.now stages.now n }
{
    if !is_result(stages, n) {
        return None;
    }
    unless_blank(name_at(bytes, tree, n))
}

/// The result that is kept for a function and a name.
pub(crate) fn find(
    table: &HashMap<(usize, &[u8]), usize>,
    function: usize,
    name: &[u8],
) -> Option<usize>
    ensures { result ≡ found table.now function name.now }
{
    table.get(&(function, name)).copied()
}

fn keep<'a>(
    table: &mut HashMap<(usize, &'a [u8]), usize>,
    function: usize,
    name: &'a [u8],
    n: usize,
) -> Result<(), NoMemory>
    ensures { OnOk result ((f : ℕ) → (q : List ℕ) → found table.new f q ≡ (if nat_eq function f && bytes_eq name.now q then Some n else found table.old f q)) }
{
    table.insert((function, name), n)?;
    Ok(())
}

/// Keeps a name in its function, if it stands in one.
fn keep_in<'a>(
    table: &mut HashMap<(usize, &'a [u8]), usize>,
    function: Option<usize>,
    name: &'a [u8],
    n: usize,
) -> Result<(), NoMemory>
    ensures { OnOk result (Keeps (λ m. Some name.now) (λ m. function) n (found table.old) (found table.new)) }
{
    match function {
        Some(f) => {
            keep(table, f, name, n)?;
            Ok(())
        }
        None => Ok(()),
    }
}

/// Keeps a node, if it is the name of a result.
fn add<'a>(
    bytes: &'a [u8],
    tree: &FileTree,
    stages: &[Stage],
    functions: &[Option<usize>],
    table: &mut HashMap<(usize, &'a [u8]), usize>,
    n: usize,
) -> Result<(), NoMemory>
    ensures { OnOk result (Keeps (result_name bytes.now tree.now stages.now) (of_nodes functions.now) n (found table.old) (found table.new)) }
{
    match result_name(bytes, tree, stages, n) {
        Some(name) => {
            keep_in(table, number_at(functions, n), name, n)?;
            Ok(())
        }
        None => Ok(()),
    }
}

pub(crate) fn count_nodes(tree: &FileTree) -> usize
    ensures { result ≡ length tree.now.nodes }
{
    tree.nodes.as_slice().len()
}

/// The names of results, by function.
pub(crate) fn results_of<'a>(
    alloc: Global,
    bytes: &'a [u8],
    tree: &FileTree,
    stages: &[Stage],
    functions: &[Option<usize>],
) -> Result<HashMap<(usize, &'a [u8]), usize>, NoMemory>
    ensures { IfOk result (λ table. AreKept (result_name bytes.now tree.now stages.now) (of_nodes functions.now) (length tree.now.nodes) (found table)) }
{
    let mut table = HashMap::new(alloc);
    for n in 0..count_nodes(tree) {
        add(bytes, tree, stages, functions, &mut table, n)?;
    }
    Ok(table)
}
