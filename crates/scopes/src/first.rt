//! Which declarations are the first of their name in their block.
ghost use Rattle.std.specs.Prelude.{◌≡◌, ℕ, ◌+◌, ◌<◌, ◌≤◌, length, IfOk};
ghost use Rattle.scopes.specs.Denotes.{IsFlags};

use crate::visible::Declaration;
use gv_base::NoMemory;
use std::alloc::Global;
use std::collections::HashSet;

/// Which declarations are the first of their name in their block.
pub fn first_in_block(alloc: Global, declarations: &[Declaration]) -> Result<Vec<bool>, NoMemory>
    ensures { IfOk result (λ first. IsFlags declarations.now first.items) }
{
    let mut seen: HashSet<(usize, usize)> = HashSet::with_capacity(alloc, declarations.len())?;
    let mut first = Vec::with_capacity(alloc, declarations.len())?;
    for declaration in declarations {
        let added = seen.insert((declaration.end, declaration.name))?;
        first.push(added)?;
    }
    Ok(first)
}
