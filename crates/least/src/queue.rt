//! The items that wait: each waits at most once at a time, and those that came first are first.
ghost use Rattle.std.specs.Prelude.{◌≡◌, ◌<◌, ◌++◌, ◌∷◌, [], ℕ, true, false, IfOk, OnOk, length, slice_set, replicate, if◌then◌else◌};
ghost use Rattle.std.specs.List.{Contains};
ghost use Rattle.least.specs.Work.{set_of, IsMarked, IsQueued};

use gv_base::NoMemory;
use std::alloc::Global;
use std::collections::VecDeque;

/// As many flags, none of them set.
pub(crate) fn flags_of(alloc: Global, count: u32) -> Result<Vec<bool>, NoMemory>
    ensures { IfOk result (λ v. v.items ≡ replicate count false) }
{
    let flags = vec![in alloc; false; count as usize]?;
    Ok(flags)
}

fn all_items(alloc: Global, count: u32) -> Result<Vec<u32>, NoMemory>
    ensures each { IfOk result (λ all. (i : ℕ) → i < count → Contains all.items i) }
    ensures items { IfOk result (λ all. (i : ℕ) → Contains all.items i → i < count) }
{
    let mut items = Vec::with_capacity(alloc, count as usize)?;
    for i in 0..count {
        items.push(i)?;
    }
    Ok(items)
}

pub(crate) fn is_set(flags: &Vec<bool>, at: u32) -> bool
    requires { at < length flags.now.items }
    ensures { result ≡ set_of flags.now.items at }
{
    flags[at as usize]
}

pub(crate) fn set(flags: &mut Vec<bool>, at: u32, value: bool)
    requires { at < length flags.old.items }
    ensures { flags.new.items ≡ slice_set flags.old.items at value }
{
    flags[at as usize] = value;
}

/// An item waits, if it doesn't yet.
fn wait(marks: &mut Vec<bool>, queue: &mut VecDeque<u32>, at: u32) -> Result<(), NoMemory>
    requires { at < length marks.old.items }
    ensures marks { OnOk result (marks.new.items ≡ slice_set marks.old.items at true) }
    ensures queue { OnOk result (queue.new.items ≡ (if set_of marks.old.items at then queue.old.items else (queue.old.items ++ at ∷ []))) }
{
    if is_set(marks, at) {
        return Ok(());
    }
    set(marks, at, true);
    queue.push_back(at)?;
    Ok(())
}

/// These wait too, behind those that do.
pub(crate) fn wait_too(
    marks: &mut Vec<bool>,
    queue: &mut VecDeque<u32>,
    more: &[u32],
) -> Result<(), NoMemory>
    requires within { (i : ℕ) → Contains more.now i → i < length marks.old.items }
    requires marked { IsMarked marks.old.items queue.old.items }
    ensures { OnOk result (IsQueued more.now marks.old.items queue.old.items marks.new.items queue.new.items) }
{
    for item in more {
        wait(marks, queue, *item)?;
    }
    Ok(())
}

/// All items wait, each once: these first, in their order, and the others behind them.
pub(crate) fn wait_all(
    alloc: Global,
    count: u32,
    first: &[u32],
    marks: &mut Vec<bool>,
    queue: &mut VecDeque<u32>,
) -> Result<(), NoMemory>
    requires first { (i : ℕ) → Contains first.now i → i < count }
    requires marks { length marks.old.items ≡ count }
    requires marked { IsMarked marks.old.items queue.old.items }
    requires items { (i : ℕ) → Contains queue.old.items i → i < count }
    ensures size { OnOk result (length marks.new.items ≡ count) }
    ensures marked { OnOk result (IsMarked marks.new.items queue.new.items) }
    ensures each { OnOk result ((i : ℕ) → i < count → Contains queue.new.items i) }
    ensures items { OnOk result ((i : ℕ) → Contains queue.new.items i → i < count) }
{
    let all = all_items(alloc, count)?;
    wait_too(marks, queue, first)?;
    wait_too(marks, queue, &all)?;
    Ok(())
}
