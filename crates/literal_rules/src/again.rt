//! What stands twice in a list.
ghost use Rattle.std.specs.Prelude.{◌≡◌, ◌||◌, ℕ, false, true, cond, nat_eq, length, IfOk, OnOk};
ghost use Rattle.std.specs.Option.{option_map_or};
ghost use Rattle.literal_rules.specs.Again.{has_again, is_empty_at};
ghost use Rattle.literal_rules.specs.Sets.{has};
ghost use Rattle.rule_words.specs.Again.{any_of, nth_of};

use crate::items::either;
use gv_base::NoMemory;
use std::alloc::Global;
use std::collections::HashSet;

/// What stands at a place.
pub fn nth(places: &[Option<u128>], i: usize) -> Option<u128>
    ensures { result ≡ nth_of places.now i }
{
    match places.get(i) {
        Some(place) => *place,
        None => None,
    }
}

fn is_empty(places: &[Option<u128>], i: usize) -> bool
    ensures { result ≡ is_empty_at places.now i }
{
    match nth(places, i) {
        Some(_) => false,
        None => true,
    }
}

/// A place is empty.
pub fn has_empty(places: &[Option<u128>]) -> bool
    ensures { result ≡ any_of (is_empty_at places.now) (length places.now) }
{
    let mut found = false;
    for i in 0..places.len() {
        found = either(found, is_empty(places, i));
    }
    found
}

// ---- numbers

fn has(met: &HashSet<u128>, n: u128) -> bool
    ensures { result ≡ has met.now n }
{
    met.contains(&n)
}

fn note(met: &mut HashSet<u128>, at: u128) -> Result<(), NoMemory>
    ensures { OnOk result ((n : ℕ) → has met.new n ≡ cond (nat_eq at n) true (has met.old n)) }
{
    met.insert(at)?;
    Ok(())
}

/// Notes a number, and answers whether it was noted.
fn meet(met: &mut HashSet<u128>, place: Option<u128>) -> Result<bool, NoMemory>
    ensures again { IfOk result (λ again. again ≡ option_map_or (has met.old) place false) }
    ensures notes { OnOk result ((n : ℕ) → has met.new n ≡ (has met.old n || option_map_or (λ at. nat_eq at n) place false)) }
{
    match place {
        Some(at) => {
            let again = has(met, at);
            note(met, at)?;
            Ok(again)
        }
        None => Ok(false),
    }
}

/// A number stands twice. The time is in step with how many there are.
pub fn has_again(alloc: Global, places: &[Option<u128>]) -> Result<bool, NoMemory>
    ensures { IfOk result (λ again. again ≡ has_again nat_eq (nth_of places.now) (length places.now)) }
{
    let mut met = HashSet::new(alloc);
    let mut found = false;
    for i in 0..places.len() {
        let again = meet(&mut met, nth(places, i))?;
        found = either(found, again);
    }
    Ok(found)
}

// ---- spelled keys
