//! In which order the functions are looked at first: each behind those that its body mentions, unless they lead back to it. Then a function
//! that calls many is judged once, when all of them are known.
ghost use Rattle.std.specs.Prelude.{◌≡◌, ◌<◌, ◌^◌, ℕ, IfOk, Some, length, slice_get, Contains};
ghost use Rattle.need_order.specs.declared.needed.Needed.{Needed};
ghost use Rattle.never_returns.specs.Bodies.{row_of};

use crate::readers::Readers;
use gv_base::NoMemory;
use need_order::{Graph, Needed};
use std::alloc::Global;

/// The graph in which each function leads to those whose bodies mention it.
fn graph_of(alloc: Global, rows: &[Readers]) -> Result<Graph, NoMemory>
    ensures { IfOk result (λ graph. graph ≡ rows.now) }
{
    let mut graph = Graph::new(alloc)?;
    for row in rows {
        graph = graph.with(row.as_slice())?;
    }
    Ok(graph)
}

fn item_at(order: &[Needed], at: usize) -> Needed
    requires { at < length order.now }
    ensures { slice_get order.now at ≡ Some result }
{
    order[at]
}

/// The vertices of an order, the last one first.
fn backwards(alloc: Global, order: &[Needed]) -> Result<Vec<u32>, NoMemory>
    ensures { IfOk result (λ found. (i : ℕ) → Contains found.items i → (k : ℕ) × (e : Needed) × (slice_get order.now k ≡ Some e) × (e.vertex ≡ i)) }
{
    let mut found = Vec::new(alloc);
    let mut left = order.len();
    while left > 0 {
        left -= 1;
        let item = item_at(order, left);
        found.push(item.vertex)?;
    }
    Ok(found)
}

/// The functions, each behind those that its body mentions and that don't lead back to it.
pub(crate) fn first_looks(alloc: Global, rows: &[Readers]) -> Result<Vec<u32>, NoMemory>
    requires within { (j i : ℕ) → Contains (row_of rows.now j) i → i < length rows.now }
    requires few { length rows.now < 2 ^ 32 }
    ensures { IfOk result (λ found. (i : ℕ) → Contains found.items i → i < length rows.now) }
{
    let graph = graph_of(alloc, rows)?;
    let needed = need_order::order(alloc, &graph)?;
    let found = backwards(alloc, &needed)?;
    Ok(found)
}
