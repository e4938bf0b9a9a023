//! Where the tree of each node starts.
ghost use Rattle.std.specs.Prelude.{◌≡◌, ◌↔◌, ◌<◌, ℕ, IfOk, length};
ghost use Rattle.node_values.specs.Parents.{at};
ghost use Rattle.node_values.specs.Ranges.{start_of, starts, IsTiled, IsWithin};
ghost use Rattle.node_values.specs.Trees.{Holds, IsTree};

use crate::filling::{Fills, fill};
use go_tree::Node;
use gv_base::NoMemory;
use std::alloc::Global;

struct Starts;

fn number_at(numbers: &[usize], n: usize) -> usize
    ensures { result ≡ at numbers.now n }
{
    if n < numbers.len() { numbers[n] } else { 0 }
}

fn start_of(so_far: &[usize], node: &Node) -> usize
    ensures { result ≡ start_of so_far.now node.now }
{
    match node.parts.as_slice().first() {
        Some(part) => number_at(so_far, *part as usize),
        None => so_far.len(),
    }
}

impl Fills<Node, usize> for Starts {
    ghost rule = { λ s. start_of };

    fn value(&self, so_far: &[usize], node: &Node) -> usize {
        start_of(so_far, node)
    }
}

/// Where the tree of each node starts.
pub fn starts_of(alloc: Global, nodes: &[Node]) -> Result<Vec<usize>, NoMemory>
    ensures { IfOk result (λ found. found.items ≡ starts nodes.now) }
{
    let found = fill(alloc, &Starts, nodes)?;
    Ok(found)
}

/// Whether p holds n is told by two numbers.
pub fn holds_within(nodes: &[Node])
    requires tree { IsTree nodes.now }
    requires tiled { IsTiled nodes.now }
    ensures { (p n : ℕ) → p < length nodes.now → Holds nodes.now p n ↔ IsWithin (starts nodes.now) p n }
{
    let _ = nodes;
}
