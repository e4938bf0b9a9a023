//! The order of refusals.
ghost use Rattle.std.specs.Prelude.{◌≡◌, ◌<◌, ◌≤◌, ◌+◌, ◌-◌, ◌*◌, ◌↔◌, IfOk, OnOk, Contains, IsPermutation, length, slice_get, Some, true, false};
ghost use Rattle.std.specs.List.Sorted.{IsNonDecreasingBy};
ghost use Rattle.check_pkg.specs.Faults.{fault_number, Precedes, IsOrdered};
ghost use Rattle.check_pkg.specs.Order.{fault_numbered, rank_of, AddsLast};

use crate::refusal::{Fault, Refusal, limit_number};
use gv_base::NoMemory;
use std::alloc::Global;
use typed_tree::Rule;

/// Rules by their numbers, and limits after all rules.
fn number_of(fault: Fault) -> u32
    ensures number { result ≡ fault_number fault }
    ensures fault { fault ≡ fault_numbered result }
    ensures small { result < 512 }
{
    match fault {
        Fault::Rule(Rule(number)) => number as u32,
        Fault::Limit(limit) => 256 + limit_number(limit) as u32,
    }
}

fn rank(refusal: &Refusal) -> u128
    ensures { result ≡ rank_of refusal.now }
{
    let place = refusal.place.file as u128 * (1 << 32) + refusal.place.offset as u128;
    place * (1 << 16) + number_of(refusal.fault) as u128
}

/// Sorts the refusals by file, offset and fault.
pub fn sort(list: &mut Vec<Refusal>) -> Result<(), NoMemory>
    ensures same { IsPermutation list.old.items list.new.items }
    ensures sorted { OnOk result (IsNonDecreasingBy rank_of list.new.items) }
{
    list.sort_by_key(|refusal| rank(refusal))?;
    Ok(())
}

/// Whether one refusal comes before another that doesn't come before it. Else they are the same.
fn precedes(one: Refusal, other: Refusal) -> bool
    requires { rank_of one ≤ rank_of other }
    ensures before { result ≡ true → Precedes one other }
    ensures same { result ≡ false → one ≡ other }
{
    if one.place.file != other.place.file {
        return true;
    }
    if one.place.offset != other.place.offset {
        return true;
    }
    number_of(one.fault) != number_of(other.fault)
}

/// Each refusal of a sorted list once.
pub fn distinct(alloc: Global, sorted: &[Refusal]) -> Result<Vec<Refusal>, NoMemory>
    requires { IsNonDecreasingBy rank_of sorted.now }
    ensures same { IfOk result (λ list. (x : Refusal) → Contains list.items x ↔ Contains sorted.now x) }
    ensures once { IfOk result (λ list. IsOrdered list.items) }
{
    let mut list = Vec::new(alloc);
    for refusal in sorted {
        add(&mut list, *refusal)?;
    }
    Ok(list)
}

/// Adds a refusal behind those that come before it, unless it is the last of them.
fn add(list: &mut Vec<Refusal>, refusal: Refusal) -> Result<(), NoMemory>
    requires { (last : Refusal) → slice_get list.old.items (length list.old.items - 1) ≡ Some last → rank_of last ≤ rank_of refusal }
    ensures { OnOk result (AddsLast list.old.items list.new.items refusal) }
{
    let is_new = match list.last() {
        Some(last) => precedes(*last, refusal),
        None => true,
    };
    if is_new {
        list.push(refusal)?;
    }
    Ok(())
}
