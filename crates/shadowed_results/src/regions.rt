//! The names that a file declares, and which of them shadow results.
ghost use Rattle.std.specs.Prelude.{◌≡◌, ◌≤◌, ◌<◌, ◌^◌, ◌&&◌, not, [], ℕ, Some, None, IfOk, length, map, option_map, if◌then◌else◌};
ghost use Rattle.std.specs.List.{All};
ghost use Rattle.go_tree.specs.Forest.{Forest};
ghost use Rattle.scopes.specs.Regions.{Scope, declared};
ghost use Rattle.scopes.specs.Walk.{Shows, IsFormed};
ghost use Rattle.shadowed_results.specs.Tables.{found};
ghost use Rattle.shadowed_results.specs.InCode.{has_result, shadows, shadow_in, shadow_of, under, turned};

use crate::functions::{is_body_of, number_at};
use crate::table::{count_nodes, find};
use file_uses::name_at;
use go_tree::FileTree;
use gv_base::NoMemory;
use scopes::{Declaration, Named, collect};
use std::alloc::Global;
use std::collections::HashMap;

/// The names that a file declares.
pub(crate) fn declared_names(alloc: Global, tree: &FileTree) -> Result<Vec<Named>, NoMemory>
    requires formed { IsFormed tree.now.nodes }
    requires fit { length tree.now.nodes ≤ 2 ^ 32 }
    requires tops { All (λ k. k < length tree.now.nodes) tree.now.tops }
    ensures { IfOk result (λ names. (f : Forest) → Shows tree.now.nodes 0 tree.now.tops f → names.items ≡ declared (record { block = length tree.now.nodes; within = []; around = [] }) 0 f) }
{
    let nodes = tree.nodes.as_slice();
    let tops = tree.tops.as_slice();
    let mut out = Vec::new(alloc);
    let mut next = 0;
    for part in tops {
        let top = *part as usize;
        collect(alloc, nodes, next, top, nodes.len(), &[], &[], &mut out)?;
        next = top + 1;
    }
    Ok(out)
}

fn is_kept(table: &HashMap<(usize, &[u8]), usize>, f: usize, name: &[u8]) -> bool
    ensures { result ≡ has_result (found table.now) f (Some name.now) }
{
    match find(table, f, name) {
        Some(_) => true,
        None => false,
    }
}

fn has_result(table: &HashMap<(usize, &[u8]), usize>, f: usize, name: Option<&[u8]>) -> bool
    ensures { result ≡ has_result (found table.now) f (option_map (λ o. o.now) name.entry) }
{
    match name {
        Some(name) => is_kept(table, f, name),
        None => false,
    }
}

fn shadows(
    bytes: &[u8],
    tree: &FileTree,
    table: &HashMap<(usize, &[u8]), usize>,
    d: Named,
    f: usize,
) -> bool
    ensures { result ≡ shadows bytes.now tree.now (found table.now) d f }
{
    if is_body_of(tree.nodes.as_slice(), f, d.end) {
        return false;
    }
    has_result(table, f, name_at(bytes, tree, d.node))
}

fn shadow_in(
    bytes: &[u8],
    tree: &FileTree,
    table: &HashMap<(usize, &[u8]), usize>,
    d: Named,
    f: usize,
) -> Option<usize>
    ensures { result ≡ shadow_in bytes.now tree.now (found table.now) d f }
{
    if shadows(bytes, tree, table, d, f) {
        Some(f)
    } else {
        None
    }
}

/// The function of which a declared name shadows a result.
fn shadow_of(
    bytes: &[u8],
    tree: &FileTree,
    table: &HashMap<(usize, &[u8]), usize>,
    functions: &[Option<usize>],
    d: Named,
) -> Option<usize>
    ensures { result ≡ shadow_of bytes.now tree.now (found table.now) functions.now d }
{
    match number_at(functions, d.end) {
        Some(f) => shadow_in(bytes, tree, table, d, f),
        None => None,
    }
}

/// The region of a declaration that shadows a result of a function.
fn shadowing(shadow: Named, f: usize) -> Declaration
    ensures { result ≡ under 0 shadow (Some f) }
{
    Declaration {
        name: f,
        start: shadow.start,
        end: shadow.end,
        local: true,
    }
}

fn under(total: usize, d: Named, function: Option<usize>) -> Declaration
    ensures { result ≡ under total d function }
{
    match function {
        Some(f) => shadowing(d, f),
        None => Declaration {
            name: total,
            start: d.start,
            end: d.end,
            local: false,
        },
    }
}

fn turned(
    bytes: &[u8],
    tree: &FileTree,
    table: &HashMap<(usize, &[u8]), usize>,
    functions: &[Option<usize>],
    d: Named,
) -> Declaration
    ensures { result ≡ turned bytes.now tree.now (found table.now) functions.now d }
{
    let function = shadow_of(bytes, tree, table, functions, d);
    under(count_nodes(tree), d, function)
}

/// The declared names, each under the number of the function of which it shadows a result.
pub(crate) fn turn_all(
    alloc: Global,
    bytes: &[u8],
    tree: &FileTree,
    table: &HashMap<(usize, &[u8]), usize>,
    functions: &[Option<usize>],
    names: &[Named],
) -> Result<Vec<Declaration>, NoMemory>
    ensures { IfOk result (λ list. list.items ≡ map (turned bytes.now tree.now (found table.now) functions.now) names.now) }
{
    let mut list = Vec::new(alloc);
    for name in names {
        list.push(turned(bytes, tree, table, functions, *name))?;
    }
    Ok(list)
}
