//! What each node is a part of.
ghost use Rattle.std.specs.Prelude.{◌≡◌, ◌<◌, ◌≤◌, [], ◌∷◌, IfOk, length, replicate};
ghost use Rattle.node_values.specs.Parents.{AreGiven, AreParents};

use go_tree::Node;
use gv_base::NoMemory;
use std::alloc::Global;

fn count_of(numbers: &Vec<usize>) -> usize
    ensures { result ≡ length numbers.now.items }
{
    numbers.as_slice().len()
}

fn put(numbers: &mut Vec<usize>, at: usize, number: usize)
    ensures { AreGiven (at ∷ []) number numbers.old.items numbers.new.items }
{
    if at < count_of(numbers) {
        numbers[at] = number;
    }
}

/// Gives the parts a number.
fn give(numbers: &mut Vec<usize>, parts: &[u32], number: usize)
    ensures { AreGiven parts.now number numbers.old.items numbers.new.items }
{
    for part in parts {
        put(numbers, *part as usize, number);
    }
}

/// As many numbers of the same value.
pub(crate) fn all_same(alloc: Global, count: usize, number: usize) -> Result<Vec<usize>, NoMemory>
    ensures { IfOk result (λ numbers. numbers.items ≡ replicate count number) }
{
    let numbers = vec![in alloc; number; count]?;
    Ok(numbers)
}

/// What each node is a part of. A node that is a part of none has the number of all nodes.
pub fn parents_of(alloc: Global, nodes: &[Node]) -> Result<Vec<usize>, NoMemory>
    ensures { IfOk result (λ parents. AreParents nodes.now (length nodes.now) parents.items) }
{
    let mut parents = all_same(alloc, nodes.len(), nodes.len())?;
    for at in 0..nodes.len() {
        let node = &nodes[at];
        give(&mut parents, node.parts.as_slice(), at);
    }
    Ok(parents)
}
