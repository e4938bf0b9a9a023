//! Literals of array and slice types.
ghost use Rattle.std.specs.Prelude.{◌≡◌, ◌<◌, ◌≤◌, ◌+◌, ℕ, Some, None, false, length, nat_eq, option_map, IfOk, IfSome};
ghost use Rattle.literal_rules.specs.Rows.{index_in, index_of, by_key, next_after, position, positions, is_beyond, row_fault, greater, behind, end_after, end_of};
ghost use Rattle.rule_words.specs.Good.{known_of, AreFactsOf};
ghost use Rattle.rule_words.specs.Again.{any_of};
ghost use Rattle.literal_rules.specs.InCode.{keys_in, AreKeysOf, AllBefore};

use crate::again::{has_again, has_empty, nth};
use crate::items::{either, key_of};
use gv_base::{Const, NoMemory};
use rule_words::values::value_at;
use std::alloc::Global;
use typed_marks::{Facts, Mark, State};
use typed_tree::{BAD_INDEX_KEY, DUPLICATE_KEY, INDEX_OUT_OF_RANGE, Rule};

// ---- positions

/// The index that a constant is, if it is one.
fn index_in(c: &Const) -> Option<u128>
    ensures { result ≡ index_in c.now }
{
    match c {
        Const::Int(n) => {
            if *n >= 0 && *n <= 9_223_372_036_854_775_807 {
                Some(*n as u128)
            } else {
                None
            }
        }
        Const::Truth(_) => None,
        Const::Text(_) => None,
    }
}

fn index_of(s: &State, x: Facts) -> Option<u128>
    ensures is { result ≡ index_of (known_of s.now x) }
    ensures small { IfSome result (λ p. p ≤ 9223372036854775807) }
{
    match value_at(s, x.value) {
        Some(c) => index_in(c),
        None => None,
    }
}

fn by_key(s: &State, next: Option<u128>, key: Option<Facts>) -> Option<u128>
    ensures is { result ≡ by_key next (option_map (known_of s.now) key) }
    ensures small { (most : ℕ) → 9223372036854775807 ≤ most → IfSome next (λ p. p ≤ most) → IfSome result (λ p. p ≤ most) }
{
    match key {
        Some(x) => index_of(s, x),
        None => next,
    }
}

fn behind_it(place: Option<u128>) -> Option<u128>
    requires { IfSome place (λ p. p ≤ 36893488147419103232) }
    ensures { result ≡ option_map (λ p. p + 1) place }
{
    match place {
        Some(p) => Some(p + 1),
        None => None,
    }
}

/// The positions of the elements with these keys.
pub fn positions(
    alloc: Global,
    s: &State,
    keys: &[Option<Mark>],
) -> Result<Vec<Option<u128>>, NoMemory>
    requires { AreKeysOf s.now keys.now }
    ensures { IfOk result (λ places. places.items ≡ positions (keys_in s.now keys.now)) }
{
    let mut out = Vec::new(alloc);
    let mut next = Some(0);
    for i in 0..keys.len() {
        let place = by_key(s, next, key_of(s, keys, i));
        out.push(place)?;
        next = behind_it(place);
    }
    Ok(out)
}

// ---- tests

fn is_beyond(limit: u64, places: &[Option<u128>], i: usize) -> bool
    ensures { result ≡ is_beyond limit places.now i }
{
    match nth(places, i) {
        Some(p) => !(p < limit as u128),
        None => false,
    }
}

fn has_beyond(limit: u64, places: &[Option<u128>]) -> bool
    ensures { result ≡ any_of (is_beyond limit places.now) (length places.now) }
{
    let mut found = false;
    for i in 0..places.len() {
        found = either(found, is_beyond(limit, places, i));
    }
    found
}

/// What is wrong with these positions: E63, E66, E43.
pub fn row_fault(
    alloc: Global,
    limit: u64,
    places: &[Option<u128>],
) -> Result<Option<Rule>, NoMemory>
    ensures is { IfOk result (λ fault. fault ≡ row_fault limit places.now) }
    ensures before { IfOk result (λ fault. fault ≡ None → AllBefore limit places.now) }
{
    // E63
    let again = has_again(alloc, places)?;
    if again {
        return Ok(Some(DUPLICATE_KEY));
    }
    // E66
    if has_empty(places) {
        return Ok(Some(BAD_INDEX_KEY));
    }
    // E43
    if has_beyond(limit, places) {
        return Ok(Some(INDEX_OUT_OF_RANGE));
    }
    Ok(None)
}

// ---- the length of `[...]T`

fn greater(a: u64, b: u64) -> u64
    ensures { result ≡ greater a b }
{
    if a < b { b } else { a }
}

fn behind(limit: u64, place: Option<u128>) -> u64
    requires { IfSome place (λ p. p < limit) }
    ensures { result ≡ behind place }
{
    match place {
        Some(p) => (p + 1) as u64,
        None => 0,
    }
}

/// One more than the greatest of these positions.
pub fn end_of(limit: u64, places: &[Option<u128>]) -> u64
    requires { AllBefore limit places.now }
    ensures { result ≡ end_of places.now }
{
    let mut end = 0;
    for i in 0..places.len() {
        end = greater(end, behind(limit, nth(places, i)));
    }
    end
}
