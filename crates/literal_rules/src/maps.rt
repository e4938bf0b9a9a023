//! Literals of map types.
ghost use Rattle.std.specs.Prelude.{◌≡◌, ◌++◌, ◌∷◌, ℕ, option_map, if◌then◌else◌, length, IfOk, OnOk};
ghost use Rattle.std.specs.Global.{Vec};
ghost use Rattle.std.specs.Str.{bytes_eq};
ghost use Rattle.type_model.specs.Tables.{IsTable};
ghost use Rattle.literal_rules.specs.Again.{all_of, has_again};
ghost use Rattle.literal_rules.specs.Items.{key_of};
ghost use Rattle.literal_rules.specs.Maps.{same_key, constant_key, is_keyed, map_fault};
ghost use Rattle.literal_rules.specs.Sets.{spelled_const, spelled, spelled_facts, spelled_mark, spelled_key};
ghost use Rattle.rule_words.specs.Good.{known_of};
ghost use Rattle.literal_rules.specs.InCode.{keys_in, AreKeysOf};

use crate::items::{both, either, key_of, nth_mark};
use gv_base::{Const, NoMemory};
use rule_words::met::{meet, push, push_bytes, push_int, push_two};
use rule_words::values::value_at;
use std::alloc::Global;
use std::collections::HashMap;
use type_model::TypeId;
use typed_marks::{Facts, Mark, State};
use typed_tree::{DUPLICATE_KEY, MISSING_KEY, Rule};

// ---- keys, spelled

fn push_text(out: &mut Vec<u128>, text: &[u8]) -> Result<(), NoMemory>
    ensures { OnOk result (out.new.items ≡ out.old.items ++ 3 ∷ text.now) }
{
    push(out, 3)?;
    push_bytes(out, text)?;
    Ok(())
}

fn truth_number(b: bool) -> u128
    ensures { result ≡ (if b then 1 else 0) }
{
    if b { 1 } else { 0 }
}

fn push_const(out: &mut Vec<u128>, c: &Const) -> Result<(), NoMemory>
    ensures { OnOk result (out.new.items ≡ out.old.items ++ spelled_const c.now) }
{
    match c {
        Const::Int(n) => push_int(out, *n)?,
        Const::Truth(b) => push_two(out, 2, truth_number(*b))?,
        Const::Text(text) => push_text(out, text.bytes())?,
    }
    Ok(())
}

fn spelled(alloc: Global, of: TypeId, c: &Const) -> Result<Vec<u128>, NoMemory>
    ensures { IfOk result (λ key. key.items ≡ spelled of.0 c.now) }
{
    let mut out = Vec::new(alloc);
    push(&mut out, of.0 as u128)?;
    push_const(&mut out, c)?;
    Ok(out)
}

fn spelled_facts(alloc: Global, s: &State, x: Facts) -> Result<Option<Vec<u128>>, NoMemory>
    ensures { IfOk result (λ key. option_map (λ (v : Vec ℕ). v.items) key ≡ spelled_facts s.now x) }
{
    match value_at(s, x.value) {
        Some(c) => {
            let key = spelled(alloc, x.last, c)?;
            Ok(Some(key))
        }
        None => Ok(None),
    }
}

fn spelled_mark(alloc: Global, s: &State, m: Mark) -> Result<Option<Vec<u128>>, NoMemory>
    ensures { IfOk result (λ key. option_map (λ (v : Vec ℕ). v.items) key ≡ spelled_mark s.now m) }
{
    match m {
        Mark::Good(facts) => {
            let key = spelled_facts(alloc, s, facts)?;
            Ok(key)
        }
        Mark::Bad(_) => Ok(None),
        Mark::Outside(_) => Ok(None),
        Mark::Silent => Ok(None),
        Mark::Wants(_, _) => Ok(None),
        Mark::Declared(_) => Ok(None),
    }
}

fn spelled_key(
    alloc: Global,
    s: &State,
    keys: &[Option<Mark>],
    i: usize,
) -> Result<Option<Vec<u128>>, NoMemory>
    ensures { IfOk result (λ key. option_map (λ (v : Vec ℕ). v.items) key ≡ spelled_key s.now keys.now i) }
{
    match nth_mark(keys, i) {
        Some(m) => {
            let key = spelled_mark(alloc, s, m)?;
            Ok(key)
        }
        None => Ok(None),
    }
}

// ---- keys that stand twice

fn has_spelled_again(alloc: Global, s: &State, keys: &[Option<Mark>]) -> Result<bool, NoMemory>
    ensures { IfOk result (λ again. again ≡ has_again bytes_eq (spelled_key s.now keys.now) (length keys.now)) }
{
    let mut met = HashMap::new(alloc);
    let mut found = false;
    for i in 0..keys.len() {
        let key = spelled_key(alloc, s, keys, i)?;
        let again = meet(&mut met, key)?;
        found = either(found, again);
    }
    Ok(found)
}

/// A constant key stands twice. The time is in step with the keys.
fn has_key_again(alloc: Global, s: &State, keys: &[Option<Mark>]) -> Result<bool, NoMemory>
    requires table { IsTable s.now.table }
    requires keys { AreKeysOf s.now keys.now }
    ensures { IfOk result (λ again. again ≡ has_again same_key (constant_key (keys_in s.now keys.now)) (length keys.now)) }
{
    let again = has_spelled_again(alloc, s, keys)?;
    Ok(again)
}

// ---- tests

fn is_keyed(s: &State, keys: &[Option<Mark>], i: usize) -> bool
    requires { AreKeysOf s.now keys.now }
    ensures { result ≡ is_keyed (keys_in s.now keys.now) i }
{
    match key_of(s, keys, i) {
        Some(_) => true,
        None => false,
    }
}

fn are_keyed(s: &State, keys: &[Option<Mark>]) -> bool
    requires { AreKeysOf s.now keys.now }
    ensures { result ≡ all_of (is_keyed (keys_in s.now keys.now)) (length keys.now) }
{
    let mut all = true;
    for i in 0..keys.len() {
        all = both(all, is_keyed(s, keys, i));
    }
    all
}

/// What is wrong with these keys of a map: E63, E65.
pub fn map_fault(alloc: Global, s: &State, keys: &[Option<Mark>]) -> Result<Option<Rule>, NoMemory>
    requires table { IsTable s.now.table }
    requires keys { AreKeysOf s.now keys.now }
    ensures { IfOk result (λ fault. fault ≡ map_fault (keys_in s.now keys.now)) }
{
    // E63
    let again = has_key_again(alloc, s, keys)?;
    if again {
        return Ok(Some(DUPLICATE_KEY));
    }
    // E65
    if !are_keyed(s, keys) {
        return Ok(Some(MISSING_KEY));
    }
    Ok(None)
}
