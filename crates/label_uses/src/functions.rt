//! The innermost function that holds each node.
ghost use Rattle.std.specs.Prelude.{◌≡◌, IfOk};
ghost use Rattle.label_uses.specs.Parents.{at, inside, IsTree, AreFunctions};

use crate::parts::{all_same, give};
use go_tree::{Node, is_function};
use gv_base::NoMemory;
use std::alloc::Global;

/// The number of a node, 0 past the nodes.
pub(crate) fn at(numbers: &[usize], n: usize) -> usize
    ensures { result ≡ at numbers.now n }
{
    if n < numbers.len() { numbers[n] } else { 0 }
}

/// The innermost function that holds the parts of a node.
fn inside(functions: &[usize], p: usize, node: &Node) -> usize
    ensures { result ≡ inside functions.now p node.now }
{
    if is_function(node.kind) {
        return p;
    }
    at(functions, p)
}

/// The innermost function that holds each node, from the last node to the first. Nodes outside functions have the number of all nodes.
pub(crate) fn functions_of(alloc: Global, nodes: &[Node]) -> Result<Vec<usize>, NoMemory>
    requires { IsTree nodes.now }
    ensures { IfOk result (λ functions. AreFunctions nodes.now functions.items) }
{
    let mut functions = all_same(alloc, nodes.len(), nodes.len())?;
    let mut left = nodes.len();
    while left > 0 {
        left -= 1;
        let node = &nodes[left];
        let function = inside(&functions, left, node);
        give(&mut functions, node.parts.as_slice(), function);
    }
    Ok(functions)
}
