//! Literals of struct types.
ghost use Rattle.std.specs.Prelude.{◌≡◌, ℕ, List, length, map, IfOk};
ghost use Rattle.go_tree.specs.Lexeme.{place_of};
ghost use Rattle.unit_read.specs.Index.{texts_of, found};
ghost use Rattle.unit_read.specs.Subjects.{unit_of};
ghost use Rattle.literal_rules.specs.Again.{all_of};
ghost use Rattle.literal_rules.specs.Structs.{field_names, place_near, named_field, field_place, field_key, field_at, fields_at, named_fault, keyed_fault, is_open, listed_fault, unkeyed_fault, struct_fault};
ghost use Rattle.literal_rules.specs.InCode.{field_in};

use crate::again::{has_again, has_empty};
use crate::fields::{has_name, if_visible, is_visible, keyed_among, nth_field};
use crate::forms::is_name;
use crate::items::{both, has_key, have_keys, key_at};
use go_tree::{Node, NodeRef};
use gv_base::NoMemory;
use package_objects::{kind_of, part_count};
use rule_words::is_blank;
use std::alloc::Global;
use std::collections::HashMap;
use type_model::Field;
use typed_marks::State;
use typed_tree::{
    DUPLICATE_KEY, IMPLICIT_FIELD_NOT_EXPORTED, KEYS_MIXED, Rule, UNKNOWN_FIELD,
    WRONG_NUMBER_OF_FIELDS,
};
use unit_read::{Subject, find, index};

// ---- fields by name

fn name_list(alloc: Global, fields: &[Field]) -> Result<Vec<&[u8]>, NoMemory>
    ensures { IfOk result (λ list. texts_of list.items ≡ map (λ f. f.name) fields.now) }
{
    let mut list = Vec::new(alloc);
    for field in fields {
        list.push(field.name.as_str().as_bytes())?;
    }
    Ok(list)
}

fn place_near(
    s: &State,
    fields: &[Field],
    names: &HashMap<&[u8], usize>,
    i: usize,
    name: &[u8],
) -> Option<usize>
    requires { (q : List ℕ) → found names.now q ≡ place_of (field_names (map (field_in s.now) fields.now)) q }
    ensures { result ≡ place_near (map (field_in s.now) fields.now) i name.now }
{
    if has_name(s, fields, i, name) {
        Some(i)
    } else {
        find(names, name)
    }
}

fn named_field(
    s: &State,
    path: &[u8],
    fields: &[Field],
    names: &HashMap<&[u8], usize>,
    i: usize,
    name: &[u8],
) -> Option<usize>
    requires { (q : List ℕ) → found names.now q ≡ place_of (field_names (map (field_in s.now) fields.now)) q }
    ensures { result ≡ named_field path.now (map (field_in s.now) fields.now) i name.now }
{
    match place_near(s, fields, names, i, name) {
        Some(n) => if_visible(s, path, fields, n),
        None => None,
    }
}

fn field_place(
    s: &State,
    path: &[u8],
    fields: &[Field],
    names: &HashMap<&[u8], usize>,
    i: usize,
    name: &[u8],
) -> Option<usize>
    requires { (q : List ℕ) → found names.now q ≡ place_of (field_names (map (field_in s.now) fields.now)) q }
    ensures { result ≡ field_place path.now (map (field_in s.now) fields.now) i name.now }
{
    if is_blank(name) {
        None
    } else {
        named_field(s, path, fields, names, i, name)
    }
}

fn field_key(
    u: &Subject,
    s: &State,
    file: u32,
    fields: &[Field],
    names: &HashMap<&[u8], usize>,
    nodes: &[Node],
    i: usize,
    k: u32,
) -> Option<usize>
    requires { (q : List ℕ) → found names.now q ≡ place_of (field_names (map (field_in s.now) fields.now)) q }
    ensures { result ≡ field_key (unit_of u.now) file (map (field_in s.now) fields.now) nodes.now i k }
{
    if is_name(kind_of(nodes, k)) {
        field_place(
            s,
            u.path,
            fields,
            names,
            i,
            u.name_at(NodeRef { file, node: k }),
        )
    } else {
        None
    }
}

fn field_at(
    u: &Subject,
    s: &State,
    file: u32,
    fields: &[Field],
    names: &HashMap<&[u8], usize>,
    nodes: &[Node],
    v: &Node,
    i: usize,
) -> Option<usize>
    requires { (q : List ℕ) → found names.now q ≡ place_of (field_names (map (field_in s.now) fields.now)) q }
    ensures { result ≡ field_at (unit_of u.now) file (map (field_in s.now) fields.now) nodes.now v.now i }
{
    match key_at(nodes, v, i) {
        Some(k) => field_key(u, s, file, fields, names, nodes, i, k),
        None => None,
    }
}

fn as_place(n: Option<usize>) -> Option<u128>
    ensures { result ≡ n }
{
    match n {
        Some(n) => Some(n as u128),
        None => None,
    }
}

fn all_places(
    alloc: Global,
    u: &Subject,
    s: &State,
    file: u32,
    fields: &[Field],
    names: &HashMap<&[u8], usize>,
    nodes: &[Node],
    v: &Node,
) -> Result<Vec<Option<u128>>, NoMemory>
    requires { (q : List ℕ) → found names.now q ≡ place_of (field_names (map (field_in s.now) fields.now)) q }
    ensures { IfOk result (λ places. places.items ≡ fields_at (unit_of u.now) file (map (field_in s.now) fields.now) nodes.now v.now) }
{
    let mut out = Vec::new(alloc);
    for i in 0..part_count(v) {
        let place = as_place(field_at(u, s, file, fields, names, nodes, v, i));
        out.push(place)?;
    }
    Ok(out)
}

/// The fields of the elements of a literal, by an index of the names.
fn indexed_places(
    alloc: Global,
    u: &Subject,
    s: &State,
    file: u32,
    fields: &[Field],
    nodes: &[Node],
    v: &Node,
) -> Result<Vec<Option<u128>>, NoMemory>
    ensures { IfOk result (λ places. places.items ≡ fields_at (unit_of u.now) file (map (field_in s.now) fields.now) nodes.now v.now) }
{
    let list = name_list(alloc, fields)?;
    let names = index(alloc, &list)?;
    let places = all_places(alloc, u, s, file, fields, &names, nodes, v)?;
    Ok(places)
}

fn place_at(
    u: &Subject,
    s: &State,
    file: u32,
    fields: &[Field],
    nodes: &[Node],
    v: &Node,
    i: usize,
) -> Option<usize>
    ensures { result ≡ field_at (unit_of u.now) file (map (field_in s.now) fields.now) nodes.now v.now i }
{
    keyed_among(u, s, file, fields, nodes, i, key_at(nodes, v, i))
}

/// The fields of the elements of a literal, found one by one.
fn few_places(
    alloc: Global,
    u: &Subject,
    s: &State,
    file: u32,
    fields: &[Field],
    nodes: &[Node],
    v: &Node,
) -> Result<Vec<Option<u128>>, NoMemory>
    ensures { IfOk result (λ places. places.items ≡ fields_at (unit_of u.now) file (map (field_in s.now) fields.now) nodes.now v.now) }
{
    let mut out = Vec::new(alloc);
    for i in 0..part_count(v) {
        let place = as_place(place_at(u, s, file, fields, nodes, v, i));
        out.push(place)?;
    }
    Ok(out)
}

/// The fields of the elements of a literal. Of a few elements no index is made; the time is in step with fields and elements.
fn places_of(
    alloc: Global,
    u: &Subject,
    s: &State,
    file: u32,
    fields: &[Field],
    nodes: &[Node],
    v: &Node,
) -> Result<Vec<Option<u128>>, NoMemory>
    ensures { IfOk result (λ places. places.items ≡ fields_at (unit_of u.now) file (map (field_in s.now) fields.now) nodes.now v.now) }
{
    if part_count(v) <= 16 {
        let places = few_places(alloc, u, s, file, fields, nodes, v)?;
        Ok(places)
    } else {
        let places = indexed_places(alloc, u, s, file, fields, nodes, v)?;
        Ok(places)
    }
}

// ---- with keys

fn named_fault(alloc: Global, places: &[Option<u128>]) -> Result<Option<Rule>, NoMemory>
    ensures { IfOk result (λ fault. fault ≡ named_fault places.now) }
{
    // E62
    if has_empty(places) {
        return Ok(Some(UNKNOWN_FIELD));
    }
    // E63
    let again = has_again(alloc, places)?;
    if again {
        return Ok(Some(DUPLICATE_KEY));
    }
    Ok(None)
}

fn keyed_fault(
    alloc: Global,
    u: &Subject,
    s: &State,
    file: u32,
    fields: &[Field],
    nodes: &[Node],
    v: &Node,
) -> Result<Option<Rule>, NoMemory>
    ensures { IfOk result (λ fault. fault ≡ keyed_fault (unit_of u.now) file (map (field_in s.now) fields.now) nodes.now v.now) }
{
    // E61
    if !have_keys(nodes, v) {
        return Ok(Some(KEYS_MIXED));
    }
    let places = places_of(alloc, u, s, file, fields, nodes, v)?;
    let fault = named_fault(alloc, &places)?;
    Ok(fault)
}

// ---- without keys

fn is_open(s: &State, path: &[u8], fields: &[Field], i: usize) -> bool
    ensures { result ≡ is_open path.now (map (field_in s.now) fields.now) i }
{
    match nth_field(fields, i) {
        Some(f) => is_visible(s, path, f),
        None => true,
    }
}

fn are_open(s: &State, path: &[u8], fields: &[Field]) -> bool
    ensures { result ≡ all_of (is_open path.now (map (field_in s.now) fields.now)) (length fields.now) }
{
    let mut all = true;
    for i in 0..fields.len() {
        all = both(all, is_open(s, path, fields, i));
    }
    all
}

fn listed_fault(s: &State, path: &[u8], fields: &[Field], count: usize) -> Option<Rule>
    ensures { result ≡ listed_fault path.now (map (field_in s.now) fields.now) count }
{
    // E64
    if count != fields.len() {
        return Some(WRONG_NUMBER_OF_FIELDS);
    }
    // E67
    if !are_open(s, path, fields) {
        return Some(IMPLICIT_FIELD_NOT_EXPORTED);
    }
    None
}

fn unkeyed_fault(s: &State, path: &[u8], fields: &[Field], count: usize) -> Option<Rule>
    ensures { result ≡ unkeyed_fault path.now (map (field_in s.now) fields.now) count }
{
    if count == 0 {
        None
    } else {
        listed_fault(s, path, fields, count)
    }
}

/// What is wrong with a literal of a struct type with these fields: E61 to E64, E67.
pub fn struct_fault(
    alloc: Global,
    u: &Subject,
    s: &State,
    file: u32,
    fields: &[Field],
    nodes: &[Node],
    v: &Node,
) -> Result<Option<Rule>, NoMemory>
    ensures { IfOk result (λ fault. fault ≡ struct_fault (unit_of u.now) file (map (field_in s.now) fields.now) nodes.now v.now) }
{
    if has_key(nodes, v) {
        let fault = keyed_fault(alloc, u, s, file, fields, nodes, v)?;
        Ok(fault)
    } else {
        Ok(unkeyed_fault(s, u.path, fields, part_count(v)))
    }
}
