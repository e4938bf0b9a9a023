//! A value for each node, in one pass back.
ghost use Rattle.std.specs.Prelude.{◌≡◌, ◌<◌, ◌≤◌, ◌+◌, ℕ, List, IfOk, length, get_or};
ghost use Rattle.node_values.specs.Handed.{AreHanded, AreTops, handed};
ghost use Rattle.node_values.specs.Parents.{at, AreParents};
ghost use Rattle.node_values.specs.Trees.{IsTree};
ghost use Rattle.go_tree.specs.declared.tree.Node.{Node};

use go_tree::Node;
use gv_base::NoMemory;
use std::alloc::Global;

/// A rule that hands a value to a part.
pub trait Hands<A> {
    /// What the node p hands to its part n, by its own value.
    ghost rule: { Self → ℕ → Node → ℕ → A → A };

    /// What a node has that is a part of nothing.
    ghost top: { Self → A };

    fn top(&self) -> A
        ensures { result ≡ top self.now };

    fn hand(&self, p: usize, node: &Node, n: usize, own: A) -> A
        ensures { result ≡ rule self.now p node.now n own };
}

fn number_at(numbers: &[usize], n: usize) -> usize
    ensures { result ≡ at numbers.now n }
{
    if n < numbers.len() { numbers[n] } else { 0 }
}

fn value_at<A: Copy + Drop>(found: &[A], n: usize, top: A) -> A
    ensures { result ≡ get_or found.now n top }
{
    if n < found.len() { found[n] } else { top }
}

/// What p hands to n.
fn handed<A: Copy + Drop, R: Hands<A>>(
    rule: &R,
    nodes: &[Node],
    found: &[A],
    n: usize,
    p: usize,
) -> A
    ensures { result ≡ handed (R.rule rule.now) (R.top rule.now) nodes.now found.now n p }
{
    if p >= nodes.len() {
        return rule.top();
    }
    let own = value_at(found, p, rule.top());
    rule.hand(p, &nodes[p], n, own)
}

fn all_tops<A: Copy + Drop>(alloc: Global, count: usize, top: A) -> Result<Vec<A>, NoMemory>
    ensures { IfOk result (λ found. AreTops count top found.items) }
{
    let mut found = Vec::with_capacity(alloc, count)?;
    for n in 0..count {
        found.push(top)?;
    }
    Ok(found)
}

/// The values of all nodes.
pub fn hand_down<A: Copy + Drop, R: Hands<A>>(
    alloc: Global,
    rule: &R,
    nodes: &[Node],
    parents: &[usize],
) -> Result<Vec<A>, NoMemory>
    requires tree { IsTree nodes.now }
    requires parents { AreParents nodes.now (length nodes.now) parents.now }
    ensures { IfOk result (λ found. AreHanded (R.rule rule.now) (R.top rule.now) nodes.now found.items) }
{
    let mut found = all_tops(alloc, nodes.len(), rule.top())?;
    let mut left = nodes.len();
    while left > 0 {
        left -= 1;
        let value = handed(rule, nodes, &found, left, number_at(parents, left));
        found[left] = value;
    }
    Ok(found)
}
