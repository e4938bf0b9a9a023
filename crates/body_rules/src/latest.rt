//! The last declaration of variables before each node, in its block.
ghost use Rattle.std.specs.Prelude.{◌≡◌, ◌<◌, ◌≤◌, ◌+◌, ◌^◌, ℕ, Some, None, OnOk, IfOk, length, get_or};
ghost use Rattle.body_rules.specs.Latest.{IsTable, AreLatest};

use crate::endings::kind_of;
use crate::kinds::declares;
use go_tree::Node;
use gv_base::NoMemory;
use std::alloc::Global;

pub(crate) fn number_at(numbers: &[Option<usize>], n: usize) -> Option<usize>
    ensures { result ≡ get_or numbers.now n None }
{
    if n < numbers.len() { numbers[n] } else { None }
}

fn nothing(alloc: Global, count: usize) -> Result<Vec<Option<usize>>, NoMemory>
    ensures size { IfOk result (λ table. length table.items ≡ count) }
    ensures each { IfOk result (λ table. (n : ℕ) → get_or table.items n None ≡ None) }
{
    let mut table = Vec::with_capacity(alloc, count)?;
    for n in 0..count {
        table.push(None)?;
    }
    Ok(table)
}

/// What the table has for the block of a node.
fn latest_in(table: &[Option<usize>], block: Option<usize>) -> Option<usize>
    ensures { (b : ℕ) → block ≡ Some b → result ≡ get_or table.now b None }
{
    match block {
        Some(b) => number_at(table, b),
        None => None,
    }
}

/// A node that declares is the last in its block from now on.
fn note(nodes: &[Node], blocks: &[Option<usize>], n: usize, table: &mut Vec<Option<usize>>)
    requires few { n < 2 ^ 32 }
    requires table { IsTable nodes.now blocks.now n table.old.items }
    ensures { IsTable nodes.now blocks.now (n + 1) table.new.items }
{
    if declares(kind_of(nodes, n as u32)) {
        if let Some(b) = number_at(blocks, n) {
            if b < table.len() {
                table[b] = Some(n);
            }
        }
    }
}

/// The last declaration of variables before each node, in its block.
pub(crate) fn latest_of(
    alloc: Global,
    nodes: &[Node],
    blocks: &[Option<usize>],
) -> Result<Vec<Option<usize>>, NoMemory>
    requires few { length nodes.now ≤ 2 ^ 32 }
    ensures { IfOk result (λ found. AreLatest nodes.now blocks.now (length nodes.now) found.items) }
{
    let mut table = nothing(alloc, nodes.len())?;
    let mut found = Vec::with_capacity(alloc, nodes.len())?;
    for n in 0..nodes.len() {
        let latest = latest_in(&table, number_at(blocks, n));
        found.push(latest)?;
        note(nodes, blocks, n, &mut table);
    }
    Ok(found)
}
