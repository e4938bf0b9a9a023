//! The elements of a literal and their keys.
ghost use Rattle.std.specs.Prelude.{◌≡◌, Option, Some, ◌||◌, ◌&&◌, ◌<◌, false, true, not, is_some, length, option_map, IfOk, IfSome, slice_get};
ghost use Rattle.std.specs.Global.{Vec};
ghost use Rattle.mark_walk.specs.Telling.{tell};
ghost use Rattle.unit_read.specs.Subjects.{unit_of};
ghost use Rattle.rule_words.specs.Scenes.{sight, IsScene, told_by, IfFound, said, IsMarkOf};
ghost use Rattle.literal_rules.specs.Items.{pair_key, key_in, key_at, is_keyed, has_key, have_keys, key_ask, item_ask, keys_ask, key_of, is_bad_key, has_bad};
ghost use Rattle.rule_words.specs.Good.{known_told};
ghost use Rattle.rule_words.specs.Good.{known_of, AreFactsOf};
ghost use Rattle.rule_words.specs.Again.{nth_of};
ghost use Rattle.literal_rules.specs.InCode.{keys_in, AreKeysOf};

use crate::forms::is_pair;
use go_tree::Node;
use gv_base::NoMemory;
use package_objects::{node_of, part_count, part_of};
use rule_words::good::known;
use rule_words::look;
use std::alloc::Global;
use type_questions::Found;
use typed_marks::{Facts, Item, Mark, Stage, State};
use unit_read::Subject;

fn pair_key(node: &Node) -> Option<u32>
    ensures { result ≡ pair_key node.now }
{
    if is_pair(node.kind) {
        part_of(node, 0)
    } else {
        None
    }
}

fn key_in(nodes: &[Node], n: u32) -> Option<u32>
    ensures { result ≡ key_in nodes.now n }
{
    match node_of(nodes, n) {
        Some(node) => pair_key(node),
        None => None,
    }
}

/// What stands before the colon of an element of braces.
pub fn key_at(nodes: &[Node], v: &Node, i: usize) -> Option<u32>
    ensures { result ≡ key_at nodes.now v.now i }
{
    match part_of(v, i) {
        Some(n) => key_in(nodes, n),
        None => None,
    }
}

fn is_keyed(nodes: &[Node], v: &Node, i: usize) -> bool
    ensures { result ≡ is_keyed nodes.now v.now i }
{
    match key_at(nodes, v, i) {
        Some(_) => true,
        None => false,
    }
}

pub fn either(a: bool, b: bool) -> bool
    ensures { result ≡ (a || b) }
{
    a || b
}

pub fn both(a: bool, b: bool) -> bool
    ensures { result ≡ (a && b) }
{
    a && b
}

/// One of the elements has a key.
pub fn has_key(nodes: &[Node], v: &Node) -> bool
    ensures { result ≡ has_key nodes.now v.now }
{
    let mut found = false;
    for i in 0..part_count(v) {
        found = either(found, is_keyed(nodes, v, i));
    }
    found
}

/// All elements have keys.
pub fn have_keys(nodes: &[Node], v: &Node) -> bool
    ensures { result ≡ have_keys nodes.now v.now }
{
    let mut all = true;
    for i in 0..part_count(v) {
        all = both(all, is_keyed(nodes, v, i));
    }
    all
}

// ---- what keys are

fn key_seen(u: &Subject, s: &State, block: usize, k: u32) -> Found<Option<Mark>, Item>
    requires { IsScene u.now s.now }
    ensures is { told_by (option_map (said s.now)) result ≡ tell (sight s.now) (key_ask (unit_of u.now) block (Some k)) }
    ensures over { IfFound result (λ o. IfSome o (IsMarkOf s.now)) }
{
    match look(u, s, Stage::Placed, block, k) {
        Found::Is(m) => Found::Is(Some(m)),
        Found::Wait(item) => Found::Wait(item),
    }
}

fn key_mark(u: &Subject, s: &State, block: usize, key: Option<u32>) -> Found<Option<Mark>, Item>
    requires { IsScene u.now s.now }
    ensures is { told_by (option_map (said s.now)) result ≡ tell (sight s.now) (key_ask (unit_of u.now) block key) }
    ensures over { IfFound result (λ o. IfSome o (IsMarkOf s.now)) }
{
    match key {
        Some(k) => key_seen(u, s, block, k),
        None => Found::Is(None),
    }
}

fn item_key(
    u: &Subject,
    s: &State,
    block: usize,
    nodes: &[Node],
    n: u32,
) -> Found<Option<Mark>, Item>
    requires { IsScene u.now s.now }
    ensures is { told_by (option_map (said s.now)) result ≡ tell (sight s.now) (item_ask (unit_of u.now) block nodes.now n) }
    ensures over { IfFound result (λ o. IfSome o (IsMarkOf s.now)) }
{
    key_mark(u, s, block, key_in(nodes, n))
}

fn listed(list: &[u32], i: usize) -> u32
    requires { i < length list.now }
    ensures { slice_get list.now i ≡ Some result }
{
    list[i]
}

/// The marks of the keys, in the order of the elements.
pub fn keys(
    alloc: Global,
    u: &Subject,
    s: &State,
    block: usize,
    nodes: &[Node],
    list: &[u32],
) -> Result<Found<Vec<Option<Mark>>, Item>, NoMemory>
    requires { IsScene u.now s.now }
    ensures is { IfOk result (λ found. told_by (λ (v : Vec (Option Mark)). keys_in s.now v.items) found ≡ tell (sight s.now) (keys_ask (unit_of u.now) block nodes.now list.now)) }
    ensures over { IfOk result (λ found. IfFound found (λ v. AreKeysOf s.now v.items)) }
{
    let mut out = Vec::new(alloc);
    for i in 0..list.len() {
        let n = listed(list, i);
        match item_key(u, s, block, nodes, n) {
            Found::Is(key) => out.push(key)?,
            Found::Wait(item) => return Ok(Found::Wait(item)),
        }
    }
    Ok(Found::Is(out))
}

/// The mark of a key.
pub fn nth_mark(keys: &[Option<Mark>], i: usize) -> Option<Mark>
    ensures { result ≡ nth_of keys.now i }
{
    match keys.get(i) {
        Some(key) => *key,
        None => None,
    }
}

/// What is known of a key.
pub fn key_of(s: &State, keys: &[Option<Mark>], i: usize) -> Option<Facts>
    requires { AreKeysOf s.now keys.now }
    ensures is { option_map (known_of s.now) result ≡ key_of (keys_in s.now keys.now) i }
    ensures within { IfSome result (AreFactsOf s.now) }
{
    match nth_mark(keys, i) {
        Some(m) => known(s, m),
        None => None,
    }
}

fn is_bad(s: &State, m: Mark) -> bool
    requires { IsMarkOf s.now m }
    ensures { result ≡ not (is_some (known_told (said s.now m))) }
{
    match known(s, m) {
        Some(_) => false,
        None => true,
    }
}

fn is_bad_key(s: &State, keys: &[Option<Mark>], i: usize) -> bool
    requires { AreKeysOf s.now keys.now }
    ensures { result ≡ is_bad_key (keys_in s.now keys.now) i }
{
    match nth_mark(keys, i) {
        Some(m) => is_bad(s, m),
        None => false,
    }
}

/// A key isn't good.
pub fn has_bad(s: &State, keys: &[Option<Mark>]) -> bool
    requires { AreKeysOf s.now keys.now }
    ensures { result ≡ has_bad (keys_in s.now keys.now) }
{
    let mut found = false;
    for i in 0..keys.len() {
        found = either(found, is_bad_key(s, keys, i));
    }
    found
}
