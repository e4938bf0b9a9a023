//! A use for each node, of the number of its function.
ghost use Rattle.std.specs.Prelude.{◌≡◌, IfOk, map};
ghost use Rattle.file_uses.specs.Locals.{AreAll};
ghost use Rattle.shadowed_results.specs.InCode.{or_total};

use gv_base::NoMemory;
use scopes::Use;
use std::alloc::Global;

fn or_total(total: usize, function: Option<usize>) -> usize
    ensures { result ≡ or_total total function }
{
    match function {
        Some(f) => f,
        None => total,
    }
}

/// The number of each node's function, or one that none has.
pub(crate) fn numbers_of(
    alloc: Global,
    functions: &[Option<usize>],
    total: usize,
) -> Result<Vec<usize>, NoMemory>
    ensures { IfOk result (λ numbers. numbers.items ≡ map (or_total total) functions.now) }
{
    let mut numbers = Vec::with_capacity(alloc, functions.len())?;
    for function in functions {
        numbers.push(or_total(total, *function))?;
    }
    Ok(numbers)
}

/// A use for each node.
pub(crate) fn all_uses(alloc: Global, numbers: &[usize]) -> Result<Vec<Use>, NoMemory>
    ensures { IfOk result (λ uses. AreAll numbers.now uses.items) }
{
    let mut uses = Vec::with_capacity(alloc, numbers.len())?;
    for at in 0..numbers.len() {
        uses.push(Use {
            name: numbers[at],
            at,
        })?;
    }
    Ok(uses)
}
