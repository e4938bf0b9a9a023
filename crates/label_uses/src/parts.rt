//! A number for the parts of a node.
ghost use Rattle.std.specs.Prelude.{◌≡◌, ◌<◌, ◌≤◌, [], ◌∷◌, IfOk, length, replicate};
ghost use Rattle.label_uses.specs.Parents.{AreGiven};

use gv_base::NoMemory;
use std::alloc::Global;

fn count_of(numbers: &Vec<usize>) -> usize
    ensures { result ≡ length numbers.now.items }
{
    numbers.as_slice().len()
}

fn put(numbers: &mut Vec<usize>, at: usize, number: usize)
    ensures { AreGiven (at ∷ []) number numbers.old.items numbers.new.items }
{
    if at < count_of(numbers) {
        numbers[at] = number;
    }
}

/// Gives the parts a number.
pub(crate) fn give(numbers: &mut Vec<usize>, parts: &[u32], number: usize)
    ensures { AreGiven parts.now number numbers.old.items numbers.new.items }
{
    for part in parts {
        put(numbers, *part as usize, number);
    }
}

/// As many numbers of the same value.
pub(crate) fn all_same(alloc: Global, count: usize, number: usize) -> Result<Vec<usize>, NoMemory>
    ensures { IfOk result (λ numbers. numbers.items ≡ replicate count number) }
{
    let numbers = vec![in alloc; number; count]?;
    Ok(numbers)
}
