//! Values and types of clauses, spelled.
ghost use Rattle.std.specs.Prelude.{◌≡◌, ◌∷◌, [], ℕ, Some, None, Option, option_map, IfOk};
ghost use Rattle.std.specs.Global.{Vec};
ghost use Rattle.duplicate_cases.specs.InCode.{spelled_const, spelled_value, spelled_type, spelled_facts, spelled_mark, spelled_at};
ghost use Rattle.rule_words.specs.Again.{nth_of};
ghost use Rattle.rule_words.specs.Met.{spelled_int};

use gv_base::{Const, NoMemory};
use rule_words::met::{push, push_bytes, push_int, push_two};
use rule_words::modes::{is_nil_mode, is_type};
use rule_words::values::value_at;
use std::alloc::Global;
use type_model::TypeId;
use typed_marks::{Facts, Mark, State};

fn int_key(alloc: Global, of: u128, n: i128) -> Result<Vec<u128>, NoMemory>
    ensures { IfOk result (λ key. key.items ≡ of ∷ spelled_int n) }
{
    let mut out = Vec::new(alloc);
    push(&mut out, of)?;
    push_int(&mut out, n)?;
    Ok(out)
}

fn text_key(alloc: Global, of: u128, text: &[u8]) -> Result<Vec<u128>, NoMemory>
    ensures { IfOk result (λ key. key.items ≡ of ∷ 3 ∷ text.now) }
{
    let mut out = Vec::new(alloc);
    push_two(&mut out, of, 3)?;
    push_bytes(&mut out, text)?;
    Ok(out)
}

/// A constant with the number of its type; no truth.
fn spelled_const(alloc: Global, of: TypeId, c: &Const) -> Result<Option<Vec<u128>>, NoMemory>
    ensures { IfOk result (λ key. option_map (λ (v : Vec ℕ). v.items) key ≡ spelled_const of.0 c.now) }
{
    match c {
        Const::Int(n) => {
            let key = int_key(alloc, of.0 as u128, *n)?;
            Ok(Some(key))
        }
        Const::Truth(_) => Ok(None),
        Const::Text(text) => {
            let key = text_key(alloc, of.0 as u128, text.bytes())?;
            Ok(Some(key))
        }
    }
}

fn spelled_value(alloc: Global, s: &State, x: Facts) -> Result<Option<Vec<u128>>, NoMemory>
    ensures { IfOk result (λ key. option_map (λ (v : Vec ℕ). v.items) key ≡ spelled_value s.now x) }
{
    match value_at(s, x.value) {
        Some(c) => {
            let key = spelled_const(alloc, x.last, c)?;
            Ok(key)
        }
        None => Ok(None),
    }
}

fn type_key(alloc: Global, of: TypeId) -> Result<Vec<u128>, NoMemory>
    ensures { IfOk result (λ key. key.items ≡ of.0 ∷ []) }
{
    let mut out = Vec::new(alloc);
    push(&mut out, of.0 as u128)?;
    Ok(out)
}

/// The number of a type; nothing for nil.
fn spelled_type(alloc: Global, x: Facts) -> Result<Option<Vec<u128>>, NoMemory>
    ensures { IfOk result (λ key. option_map (λ (v : Vec ℕ). v.items) key ≡ spelled_type x) }
{
    if is_type(x.mode) {
        let key = type_key(alloc, x.of)?;
        return Ok(Some(key));
    }
    if is_nil_mode(x.mode) {
        return Ok(Some(Vec::new(alloc)));
    }
    Ok(None)
}

fn spelled_facts(
    alloc: Global,
    s: &State,
    of_types: bool,
    x: Facts,
) -> Result<Option<Vec<u128>>, NoMemory>
    ensures { IfOk result (λ key. option_map (λ (v : Vec ℕ). v.items) key ≡ spelled_facts s.now of_types x) }
{
    if of_types {
        let key = spelled_type(alloc, x)?;
        return Ok(key);
    }
    let key = spelled_value(alloc, s, x)?;
    Ok(key)
}

fn spelled_mark(
    alloc: Global,
    s: &State,
    of_types: bool,
    m: Mark,
) -> Result<Option<Vec<u128>>, NoMemory>
    ensures { IfOk result (λ key. option_map (λ (v : Vec ℕ). v.items) key ≡ spelled_mark s.now of_types m) }
{
    match m {
        Mark::Good(facts) => {
            let key = spelled_facts(alloc, s, of_types, facts)?;
            Ok(key)
        }
        Mark::Bad(_) => Ok(None),
        Mark::Outside(_) => Ok(None),
        Mark::Silent => Ok(None),
        Mark::Wants(_, _) => Ok(None),
        Mark::Declared(_) => Ok(None),
    }
}

fn nth_mark(marks: &[Option<Mark>], i: usize) -> Option<Mark>
    ensures { result ≡ nth_of marks.now i }
{
    match marks.get(i) {
        Some(mark) => *mark,
        None => None,
    }
}

/// How the mark at a place is spelled.
pub(crate) fn spelled_at(
    alloc: Global,
    s: &State,
    of_types: bool,
    marks: &[Option<Mark>],
    i: usize,
) -> Result<Option<Vec<u128>>, NoMemory>
    ensures { IfOk result (λ key. option_map (λ (v : Vec ℕ). v.items) key ≡ spelled_at s.now of_types marks.now i) }
{
    match nth_mark(marks, i) {
        Some(m) => {
            let key = spelled_mark(alloc, s, of_types, m)?;
            Ok(key)
        }
        None => Ok(None),
    }
}
