//! A value for each node, in one pass in node order.
ghost use Rattle.std.specs.Prelude.{◌≡◌, ℕ, List, IfOk, length};
ghost use Rattle.node_values.specs.Filled.{values};

use gv_base::NoMemory;
use std::alloc::Global;

/// A rule that gives a node its value, by the values of the nodes before it; the node's number is how many these are.
pub trait Fills<X, A> {
    ghost rule: { Self → List A → X → A };

    fn value(&self, so_far: &[A], node: &X) -> A
        ensures { result ≡ rule self.now so_far.now node.now };
}

/// The values of all nodes.
pub fn fill<X, A: Copy + Drop, R: Fills<X, A>>(
    alloc: Global,
    rule: &R,
    nodes: &[X],
) -> Result<Vec<A>, NoMemory>
    ensures { IfOk result (λ found. found.items ≡ values (R.rule rule.now) nodes.now) }
{
    let mut found = Vec::with_capacity(alloc, nodes.len())?;
    for n in 0..nodes.len() {
        let value = rule.value(&found, &nodes[n]);
        found.push(value)?;
    }
    Ok(found)
}
