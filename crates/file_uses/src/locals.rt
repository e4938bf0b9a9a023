//! The names of a file by number.
ghost use Rattle.std.specs.Prelude.{◌≡◌, IfOk, map};
ghost use Rattle.scopes.specs.Laid.{numbered};
ghost use Rattle.file_uses.specs.Locals.{AreAll};
ghost use Rattle.file_uses.specs.Numbers.{number};

use gv_base::NoMemory;
use scopes::{Declaration, Named, Use};
use std::alloc::Global;

/// The number of a node's name.
pub(crate) fn number(numbers: &[usize], at: usize) -> usize
    ensures { result ≡ number numbers.now at }
{
    match numbers.get(at) {
        Some(number) => *number,
        None => 0,
    }
}

/// The declarations by number, in a file of so many nodes.
pub(crate) fn number_all(
    alloc: Global,
    names: &[Named],
    numbers: &[usize],
    total: usize,
) -> Result<Vec<Declaration>, NoMemory>
    ensures { IfOk result (λ declarations. declarations.items ≡ map (numbered (number numbers.now) total) names.now) }
{
    let mut declarations = Vec::new(alloc);
    for name in names {
        declarations.push(Declaration {
            name: number(numbers, name.node),
            start: name.start,
            end: name.end,
            local: name.end < total,
        })?;
    }
    Ok(declarations)
}

/// A use for each node.
pub(crate) fn all_uses(alloc: Global, numbers: &[usize]) -> Result<Vec<Use>, NoMemory>
    ensures { IfOk result (λ uses. AreAll numbers.now uses.items) }
{
    let mut uses = Vec::with_capacity(alloc, numbers.len())?;
    for at in 0..numbers.len() {
        uses.push(Use {
            name: numbers[at],
            at,
        })?;
    }
    Ok(uses)
}
