//! Which nodes are done, as a table of flags.
ghost use Rattle.std.specs.Prelude.{◌≡◌, ◌++◌, ◌∷◌, ◌↔◌, [], List, ℕ, IsTrue, IfOk, length, false, replicate, slice_index_or};
ghost use Rattle.std.specs.List.{Contains};
ghost use Rattle.action_graph.specs.declared.work.ActionNode.{ActionNode};
ghost use Rattle.action_graph.specs.Flags.{IsSet, IsTable, AreDone};

use crate::work::{ActionNode, is_numbered, place};
use gv_base::NoMemory;
use std::alloc::Global;

fn height(flags: &Vec<bool>) -> usize
    ensures { result ≡ length flags.now.items }
{
    flags.as_slice().len()
}

fn mark(flags: &mut Vec<bool>, node: ActionNode)
    ensures table { (nodes : List ActionNode) → IsTable nodes flags.old.items → IsTable (nodes ++ node ∷ []) flags.new.items }
    ensures size { length flags.new.items ≡ length flags.old.items }
{
    if !is_numbered(node) {
        return;
    }
    let at = place(node);
    if at >= height(flags) {
        return;
    }
    flags[at] = true;
}

fn blank(alloc: Global, places: usize) -> Result<Vec<bool>, NoMemory>
    ensures { IfOk result (λ t. t.items ≡ replicate places false) }
{
    let flags = vec![in alloc; false; places]?;
    Ok(flags)
}

/// For each place whether its node is done.
pub(crate) fn done_table(
    alloc: Global,
    done: &[ActionNode],
    places: usize,
) -> Result<Vec<bool>, NoMemory>
    ensures size { IfOk result (λ t. length t.items ≡ places) }
    ensures table { IfOk result (λ t. IsTable done.now t.items) }
{
    let mut flags = blank(alloc, places)?;
    for node in done {
        mark(&mut flags, *node);
    }
    Ok(flags)
}

/// Whether the flag at this place is set.
pub(crate) fn is_set(flags: &[bool], at: usize) -> bool
    ensures { result ≡ slice_index_or flags.now at false }
{
    match flags.get(at) {
        None => false,
        Some(flag) => *flag,
    }
}

/// Whether the flag of each of these numbers is set.
pub(crate) fn are_set(flags: &[bool], numbers: &[u32]) -> bool
    ensures { IsTrue result ↔ ((q : ℕ) → Contains numbers.now q → IsSet flags.now q) }
{
    for number in numbers {
        if !is_set(flags, *number as usize) {
            return false;
        }
    }
    true
}

/// Whether of each of these packages the node of this kind is done: 0 for the load, else an analyzer's run.
pub(crate) fn are_done(flags: &[bool], kind: u8, numbers: &[u32]) -> bool
    ensures { IsTrue result ↔ AreDone flags.now kind numbers.now }
{
    for number in numbers {
        if !is_set(flags, *number as usize * 16 + kind as usize) {
            return false;
        }
    }
    true
}
