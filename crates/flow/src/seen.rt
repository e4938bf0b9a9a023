//! Which points a search has met. The points of a body lie close to where its flow begins: each has a flag, by how far it is from there.
ghost use Rattle.std.specs.Prelude.{◌≡◌, ◌<◌, ◌≤◌, ◌-◌, ◌+◌, ℕ, true, false, not, IfOk, OnOk, length, nat_eq, cond, set};
ghost use Rattle.flow.specs.Passing.{flag_of};
ghost use Rattle.flow.specs.Seen.{has};

use gv_base::NoMemory;
use std::alloc::Global;

/// Flags of the points up to where a search starts, and of those behind it, by how far they are from there.
#[derive(Drop)]
pub(crate) struct Seen {
    pub start: usize,
    pub before: Vec<bool>,
    pub behind: Vec<bool>,
}

fn count_of(flags: &Vec<bool>) -> usize
    ensures { result ≡ length flags.now.items }
{
    flags.as_slice().len()
}

fn flag_at(flags: &Vec<bool>, n: usize) -> bool
    ensures { result ≡ flag_of flags.now.items n }
{
    let flags = flags.as_slice();
    if n < flags.len() { flags[n] } else { false }
}

/// Adds flags up to this number.
fn grow(flags: &mut Vec<bool>, at: usize) -> Result<(), NoMemory>
    requires { length flags.old.items ≤ at }
    ensures room { OnOk result (at < length flags.new.items) }
    ensures same { OnOk result ((n : ℕ) → flag_of flags.new.items n ≡ flag_of flags.old.items n) }
{
    flags.resize(at, false)?;
    flags.push(false)?;
    Ok(())
}

/// Adds flags up to this number, where it has none.
fn room_for(flags: &mut Vec<bool>, at: usize) -> Result<(), NoMemory>
    ensures room { OnOk result (at < length flags.new.items) }
    ensures same { OnOk result ((n : ℕ) → flag_of flags.new.items n ≡ flag_of flags.old.items n) }
{
    if count_of(flags) <= at {
        grow(flags, at)?;
        return Ok(());
    }
    Ok(())
}

fn put(flags: &mut Vec<bool>, at: usize)
    requires { at < length flags.old.items }
    ensures { flags.new.items ≡ set flags.old.items at true }
{
    flags[at] = true;
}

/// Sets a flag, and says whether it wasn't set.
fn mark_flag(flags: &mut Vec<bool>, at: usize) -> Result<bool, NoMemory>
    ensures added { IfOk result (λ added. added ≡ not (flag_of flags.old.items at)) }
    ensures marked { OnOk result ((n : ℕ) → flag_of flags.new.items n ≡ cond (nat_eq at n) true (flag_of flags.old.items n)) }
{
    let old = flag_at(flags, at);
    room_for(flags, at)?;
    put(flags, at);
    Ok(!old)
}

/// No point, for a search that starts there.
pub(crate) fn none_seen(alloc: Global, start: usize) -> Seen
    ensures { (q : ℕ) → has result q ≡ false }
{
    Seen {
        start,
        before: Vec::new(alloc),
        behind: Vec::new(alloc),
    }
}

/// Marks a point up to where the search starts, and says whether it wasn't yet.
fn mark_before(seen: &mut Seen, at: usize) -> Result<bool, NoMemory>
    requires { at ≤ seen.old.start }
    ensures added { IfOk result (λ added. added ≡ not (has seen.old at)) }
    ensures marked { OnOk result ((q : ℕ) → has seen.new q ≡ cond (nat_eq at q) true (has seen.old q)) }
{
    let far = seen.start - at;
    let added = mark_flag(&mut seen.before, far)?;
    Ok(added)
}

/// Marks a point behind it, and says whether it wasn't yet.
fn mark_behind(seen: &mut Seen, at: usize) -> Result<bool, NoMemory>
    requires { seen.old.start < at }
    ensures added { IfOk result (λ added. added ≡ not (has seen.old at)) }
    ensures marked { OnOk result ((q : ℕ) → has seen.new q ≡ cond (nat_eq at q) true (has seen.old q)) }
{
    let far = at - seen.start;
    let added = mark_flag(&mut seen.behind, far)?;
    Ok(added)
}

/// Marks a point, and says whether it wasn't yet.
pub(crate) fn mark(seen: &mut Seen, at: usize) -> Result<bool, NoMemory>
    ensures added { IfOk result (λ added. added ≡ not (has seen.old at)) }
    ensures marked { OnOk result ((q : ℕ) → has seen.new q ≡ cond (nat_eq at q) true (has seen.old q)) }
{
    if at <= seen.start {
        let added = mark_before(seen, at)?;
        return Ok(added);
    }
    let added = mark_behind(seen, at)?;
    Ok(added)
}
