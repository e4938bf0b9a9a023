//! What is reached from a point. The cost is in step with what is reached, and a byte for each point up to the farthest of that; not with
//! the file.
ghost use Rattle.std.specs.Prelude.{◌≡◌, ◌++◌, ◌∷◌, [], ◌<◌, ◌↔◌, ℕ, IfOk, OnOk, length, if◌then◌else◌, ◌||◌, Contains, slice_index_or, get_or, false};
ghost use Rattle.flow.specs.Flow.{Reached, stops_by, call_at, stops_of, is_stopped};
ghost use Rattle.flow.specs.Search.{row_at, targets_from, IsVisited, IsFollowed};
ghost use Rattle.flow.specs.Seen.{has};

use crate::point::Call;
use crate::rows::Targets;
use crate::seen::{Seen, mark, none_seen};
use gv_base::NoMemory;
use std::alloc::Global;

fn push(found: &mut Vec<usize>, at: usize) -> Result<(), NoMemory>
    ensures { OnOk result (found.new.items ≡ found.old.items ++ at ∷ []) }
{
    found.push(at)?;
    Ok(())
}

/// Marks and lists a point, if it isn't yet.
fn visit(seen: &mut Seen, found: &mut Vec<usize>, at: usize) -> Result<(), NoMemory>
    ensures { OnOk result (IsVisited at (has seen.old) found.old.items (has seen.new) found.new.items) }
{
    let added = mark(seen, at)?;
    if added {
        push(found, at)?;
        return Ok(());
    }
    Ok(())
}

fn point_at(found: &Vec<usize>, at: usize) -> usize
    requires { at < length found.now.items }
    ensures { result ≡ get_or found.now.items at 0 }
{
    found[at]
}

/// Visits the targets of a point.
fn follow(
    rows: &[Targets],
    at: usize,
    seen: &mut Seen,
    found: &mut Vec<usize>,
) -> Result<(), NoMemory>
    ensures { OnOk result (IsFollowed rows.now (row_at rows.now at) (has seen.old) found.old.items (has seen.new) found.new.items) }
{
    if at >= rows.len() {
        return Ok(());
    }
    let targets = rows[at].as_slice();
    for target in targets {
        visit(seen, found, *target)?;
    }
    Ok(())
}

fn is_member(members: &[bool], function: u32) -> bool
    ensures { result ≡ slice_index_or members.now function false }
{
    if (function as usize) < members.len() {
        members[function as usize]
    } else {
        false
    }
}

fn stops_by(members: &[bool], call: Call) -> bool
    ensures { result ≡ stops_by (λ f. slice_index_or members.now f false) call }
{
    match call {
        Call::Passes => false,
        Call::Stops => true,
        Call::Function(function) => is_member(members, function),
    }
}

pub(crate) fn call_at(calls: &[Call], n: usize) -> Call
    ensures { result ≡ call_at calls.now n }
{
    if n < calls.len() {
        calls[n]
    } else {
        Call::Passes
    }
}

fn is_stopped(calls: &[Call], members: &[bool], p: usize) -> bool
    ensures { result ≡ is_stopped (stops_of calls.now (λ f. slice_index_or members.now f false)) p }
{
    p % 2 == 0 && stops_by(members, call_at(calls, p / 2))
}

fn step(
    rows: &[Targets],
    calls: &[Call],
    members: &[bool],
    at: usize,
    seen: &mut Seen,
    found: &mut Vec<usize>,
) -> Result<(), NoMemory>
    ensures { OnOk result (IsFollowed rows.now (targets_from rows.now (stops_of calls.now (λ f. slice_index_or members.now f false)) at) (has seen.old) found.old.items (has seen.new) found.new.items) }
{
    if is_stopped(calls, members, at) {
        return Ok(());
    }
    follow(rows, at, seen, found)?;
    Ok(())
}

/// The points that are reached from one, where these calls of members stop control.
pub(crate) fn reach(
    alloc: Global,
    rows: &[Targets],
    calls: &[Call],
    members: &[bool],
    start: usize,
) -> Result<Vec<usize>, NoMemory>
    ensures { IfOk result (λ found. (q : ℕ) → Contains found.items q ↔ Reached (λ p r. Contains (targets_from rows.now (stops_of calls.now (λ f. slice_index_or members.now f false)) p) r) start q) }
{
    let mut seen = none_seen(alloc, start);
    let mut found = Vec::new(alloc);
    visit(&mut seen, &mut found, start)?;
    let mut next = 0;
    while next < found.as_slice().len() {
        let at = point_at(&found, next);
        step(rows, calls, members, at, &mut seen, &mut found)?;
        next += 1;
    }
    Ok(found)
}
