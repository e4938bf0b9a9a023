//! Methods whose signatures aren't known.
ghost use Rattle.std.specs.Prelude.{◌≡◌, ◌<◌, ℕ, List, length, map, option_map, slice_get, Some};
ghost use Rattle.type_model.specs.GoTypes.{GoType, types_at, signature_of, SignatureBelow};
ghost use Rattle.type_model.specs.Parts.{method_of};
ghost use Rattle.type_model.specs.Tables.{types_in};
ghost use Rattle.method_sets.specs.Replies.{listed_in};
ghost use Rattle.type_answers.specs.Unknown.{no_signature, are_none, is_unknown, unknown_told, first_told, has_unknown, named_told, unknown_named, is_unknown_named, stops, wanted_told, comes_to_unknown};

use gv_base::Row;
use std::alloc::Global;
use type_model::{Method, Signature, TypeId};
use typed_marks::State;

/// The signature under which a method is listed whose own isn't known.
pub fn no_signature(alloc: Global) -> Signature
    ensures is { (types : List GoType) → signature_of types result ≡ no_signature }
    ensures below { (n : ℕ) → SignatureBelow n result }
{
    Signature {
        params: Row::new(Vec::new(alloc)),
        results: Row::new(Vec::new(alloc)),
        variadic: true,
    }
}

fn are_none(s: &State, types: &[TypeId]) -> bool
    ensures { result ≡ are_none (types_at (types_in s.now.table) types.now) }
{
    let _ = s;
    types.len() == 0
}

/// It is that of a method whose own signature isn't known.
pub fn is_unknown(s: &State, of: &Signature) -> bool
    ensures { result ≡ is_unknown (signature_of (types_in s.now.table) of.now) }
{
    of.variadic && are_none(s, of.params.as_slice())
}

// ---- one of the methods

fn unknown_told(s: &State, m: &Method) -> Option<bool>
    ensures { result ≡ unknown_told (method_of (types_in s.now.table) m.now) }
{
    if is_unknown(s, &m.of) {
        Some(true)
    } else {
        None
    }
}

fn unknown_at(s: &State, methods: &[Method], i: usize) -> Option<bool>
    requires { i < length methods.now }
    ensures { option_map (λ m. unknown_told (method_of (types_in s.now.table) m)) (slice_get methods.now i) ≡ Some result }
{
    unknown_told(s, &methods[i])
}

fn first_unknown(s: &State, methods: &[Method]) -> Option<bool>
    ensures { result ≡ first_told unknown_told (listed_in s.now.table methods.now) }
{
    for i in 0..methods.len() {
        if let Some(b) = unknown_at(s, methods, i) {
            return Some(b);
        }
    }
    None
}

/// One of the methods has no known signature.
pub fn has_unknown(s: &State, methods: &[Method]) -> bool
    ensures { result ≡ has_unknown (listed_in s.now.table methods.now) }
{
    first_unknown(s, methods).is_some()
}

// ---- the method of a name

fn named_told(s: &State, name: &str, m: &Method) -> Option<bool>
    ensures { result ≡ named_told name.now (method_of (types_in s.now.table) m.now) }
{
    if m.name.as_str() == name {
        Some(is_unknown(s, &m.of))
    } else {
        None
    }
}

fn named_at(s: &State, name: &str, methods: &[Method], i: usize) -> Option<bool>
    requires { i < length methods.now }
    ensures { option_map (λ m. named_told name.now (method_of (types_in s.now.table) m)) (slice_get methods.now i) ≡ Some result }
{
    named_told(s, name, &methods[i])
}

/// Whether the signature of the method of this name isn't known.
fn unknown_named(s: &State, name: &str, methods: &[Method]) -> Option<bool>
    ensures { result ≡ unknown_named name.now (listed_in s.now.table methods.now) }
{
    for i in 0..methods.len() {
        if let Some(b) = named_at(s, name, methods, i) {
            return Some(b);
        }
    }
    None
}

pub fn is_unknown_named(s: &State, name: &str, methods: &[Method]) -> bool
    ensures { result ≡ is_unknown_named name.now (listed_in s.now.table methods.now) }
{
    match unknown_named(s, name, methods) {
        Some(b) => b,
        None => false,
    }
}

// ---- methods that are wanted

fn stops(told: Option<bool>) -> Option<bool>
    ensures { result ≡ stops told }
{
    match told {
        Some(true) => Some(true),
        Some(false) => None,
        None => Some(false),
    }
}

fn wanted_told(s: &State, set: &[Method], wanted: &Method) -> Option<bool>
    ensures { result ≡ wanted_told (listed_in s.now.table set.now) (method_of (types_in s.now.table) wanted.now) }
{
    stops(unknown_named(s, wanted.name.as_str(), set))
}

fn wanted_at(s: &State, set: &[Method], wanted: &[Method], i: usize) -> Option<bool>
    requires { i < length wanted.now }
    ensures { option_map (λ m. wanted_told (listed_in s.now.table set.now) (method_of (types_in s.now.table) m)) (slice_get wanted.now i) ≡ Some result }
{
    wanted_told(s, set, &wanted[i])
}

fn first_stop(s: &State, set: &[Method], wanted: &[Method]) -> Option<bool>
    ensures { result ≡ first_told (wanted_told (listed_in s.now.table set.now)) (listed_in s.now.table wanted.now) }
{
    for i in 0..wanted.len() {
        if let Some(b) = wanted_at(s, set, wanted, i) {
            return Some(b);
        }
    }
    None
}

/// Methods that are wanted in turn come to one in the set without a known signature.
pub fn comes_to_unknown(s: &State, set: &[Method], wanted: &[Method]) -> bool
    ensures { result ≡ comes_to_unknown (listed_in s.now.table set.now) (listed_in s.now.table wanted.now) }
{
    match first_stop(s, set, wanted) {
        Some(b) => b,
        None => false,
    }
}
