//! The numbers to which nodes lead, in one pass.
ghost use Rattle.std.specs.Prelude.{◌≡◌, ◌<◌, ℕ, List, Bool, false, IfOk, length, replicate};
ghost use Rattle.node_values.specs.Flagged.{AreFlagged, IsOnly, Marks};
ghost use Rattle.node_values.specs.Handed.{AreTops};

use gv_base::NoMemory;
use std::alloc::Global;

/// A rule by which each node leads to one number or none.
pub trait Targets {
    ghost IsState: { Self → Type 0 };

    ghost count: { Self → ℕ };

    ghost Leads: { Self → ℕ → ℕ → Type 0 };

    fn count(&self) -> usize
        ensures { result ≡ count self.now };

    fn target(&self, n: usize) -> Option<usize>
        requires state { IsState self.now }
        requires node { n < count self.now }
        ensures { IsOnly (Leads self.now n) result };
}

fn mark(flags: &mut Vec<bool>, t: Option<usize>)
    ensures { Marks t flags.old.items flags.new.items }
{
    if let Some(t) = t {
        if t < flags.len() {
            flags[t] = true;
        }
    }
}

fn all_false(alloc: Global, count: usize) -> Result<Vec<bool>, NoMemory>
    ensures { IfOk result (λ flags. flags.items ≡ replicate count false) }
{
    let flags = vec![in alloc; false; count]?;
    Ok(flags)
}

fn no_flags(alloc: Global, count: usize) -> Result<Vec<bool>, NoMemory>
    ensures { IfOk result (λ flags. AreTops count false flags.items) }
{
    let flags = all_false(alloc, count)?;
    Ok(flags)
}

/// Which of the numbers below a count some node leads to.
pub fn flag_targets<T: Targets>(
    alloc: Global,
    rule: &T,
    count: usize,
) -> Result<Vec<bool>, NoMemory>
    requires { T.IsState rule.now }
    ensures { IfOk result (λ flags. AreFlagged (T.Leads rule.now) (T.count rule.now) count flags.items) }
{
    let mut flags = no_flags(alloc, count)?;
    for n in 0..rule.count() {
        mark(&mut flags, rule.target(n));
    }
    Ok(flags)
}
