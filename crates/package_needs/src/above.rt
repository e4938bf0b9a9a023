//! The node of which each node of a file is a part.
ghost use Rattle.std.specs.Prelude.{◌≡◌, ◌<◌, ◌≤◌, ◌^◌, ◌&&◌, ℕ, ltb, nat_eq, length, IfOk, None};
ghost use Rattle.std.specs.List.{list_any};
ghost use Rattle.package_needs.specs.Keys.{above_in, number_at, Marks};

use go_tree::Node;
use gv_base::NoMemory;
use std::alloc::Global;

fn blank(alloc: Global, count: usize) -> Result<Vec<Option<u32>>, NoMemory>
    ensures size { IfOk result (λ table. length table.items ≡ count) }
    ensures empty { IfOk result (λ table. (p : ℕ) → number_at table.items p ≡ None) }
{
    let table = vec![in alloc; None; count]?;
    Ok(table)
}

/// Notes the node above a part that comes before it.
fn mark(table: &mut Vec<Option<u32>>, n: u32, part: u32)
    requires { n < length table.old.items }
    ensures { Marks table.old.items table.new.items n (λ p. ltb p n && nat_eq part p) }
{
    if part < n {
        table[part as usize] = Some(n);
    }
}

/// Notes the node above its parts.
fn mark_parts(table: &mut Vec<Option<u32>>, n: u32, parts: &[u32])
    requires { n < length table.old.items }
    ensures { Marks table.old.items table.new.items n (λ p. ltb p n && list_any (λ q. nat_eq q p) parts.now) }
{
    for part in parts {
        mark(table, n, *part);
    }
}

/// The node above each node of a file.
pub fn above_nodes(alloc: Global, nodes: &[Node]) -> Result<Vec<Option<u32>>, NoMemory>
    requires { length nodes.now ≤ 2 ^ 32 }
    ensures { IfOk result (λ table. (p : ℕ) → number_at table.items p ≡ above_in nodes.now (length nodes.now) p) }
{
    let end = nodes.len();
    let mut table = blank(alloc, end)?;
    for n in 0..end {
        mark_parts(&mut table, n as u32, nodes[n].parts.as_slice());
    }
    Ok(table)
}
