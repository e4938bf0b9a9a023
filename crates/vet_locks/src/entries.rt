//! Receivers and parameters.
ghost use Rattle.std.specs.Prelude.{◌≡◌, option_and_then, slice_get};
ghost use Rattle.std.specs.Option.{option_copied};
ghost use Rattle.package_objects.specs.Declares.{part};
ghost use Rattle.vet_locks.specs.Suspects.{is_param, is_spread, entry_type, entry_type_at, entry_at, param_at, function_at, method_at, entry_count, method_count};

use crate::suspected::{Suspect, Words};
use go_tree::{Node, NodeKind};
use package_objects::{node_of, part_of};
use typed_marks::Stage;

// ---- receivers and parameters

fn is_param(kind: NodeKind) -> bool
    ensures { result ≡ is_param kind }
{
    matches!(kind, NodeKind::Param)
}

fn is_spread(kind: NodeKind) -> bool
    ensures { result ≡ is_spread kind }
{
    matches!(kind, NodeKind::SpreadParam | NodeKind::Variadic)
}

fn entry_type(entry: &Node, n: u32) -> Option<u32>
    ensures { result ≡ entry_type entry.now n }
{
    if is_param(entry.kind) {
        part_of(entry, 1)
    } else if is_spread(entry.kind) {
        None
    } else {
        Some(n)
    }
}

fn entry_type_at(nodes: &[Node], n: u32) -> Option<u32>
    ensures { result ≡ entry_type_at nodes.now n }
{
    match node_of(nodes, n) {
        Some(entry) => entry_type(entry, n),
        None => None,
    }
}

fn entry_type_of(nodes: &[Node], params: &Node, i: usize) -> Option<u32>
    ensures { result ≡ option_and_then (entry_type_at nodes.now) (part params.now i) }
{
    match part_of(params, i) {
        Some(n) => entry_type_at(nodes, n),
        None => None,
    }
}

fn entry_at(nodes: &[Node], words: Words, params: &Node, i: usize) -> Option<Suspect>
    ensures { result ≡ entry_at nodes.now words params.now i }
{
    match entry_type_of(nodes, params, i) {
        Some(n) => Some(Suspect {
            stage: Stage::Placed,
            node: n,
            words,
        }),
        None => None,
    }
}

fn node_in(nodes: &[Node], n: Option<u32>) -> Option<&Node>
    ensures { option_copied result ≡ option_and_then (slice_get nodes.now) n }
{
    match n {
        Some(n) => node_of(nodes, n),
        None => None,
    }
}

/// An entry of a list of parameters.
pub fn param_at(nodes: &[Node], words: Words, params: Option<u32>, i: usize) -> Option<Suspect>
    ensures { result ≡ param_at nodes.now words params i }
{
    match node_in(nodes, params) {
        Some(node) => entry_at(nodes, words, node, i),
        None => None,
    }
}

/// A parameter of a function.
pub fn function_at(nodes: &[Node], node: &Node, i: usize) -> Option<Suspect>
    ensures { result ≡ option_and_then (function_at nodes.now node.now i) (part node.now 0) }
{
    match part_of(node, 0) {
        Some(name) => param_at(nodes, Words::Passed(name), part_of(node, 1), i),
        None => None,
    }
}

fn method_by(nodes: &[Node], node: &Node, i: usize, name: u32) -> Option<Suspect>
    ensures { result ≡ method_at nodes.now node.now i name }
{
    if i == 0 {
        return param_at(nodes, Words::Passed(name), part_of(node, 0), 0);
    }
    param_at(nodes, Words::Passed(name), part_of(node, 2), i - 1)
}

/// The receiver of a method, or a parameter.
pub fn method_at(nodes: &[Node], node: &Node, i: usize) -> Option<Suspect>
    ensures { result ≡ option_and_then (method_at nodes.now node.now i) (part node.now 1) }
{
    match part_of(node, 1) {
        Some(name) => method_by(nodes, node, i, name),
        None => None,
    }
}

/// How many entries a list of parameters has.
pub fn entry_count(nodes: &[Node], params: Option<u32>) -> usize
    ensures { result ≡ entry_count nodes.now params }
{
    match node_in(nodes, params) {
        Some(node) => node.parts.as_slice().len(),
        None => 0,
    }
}

/// Its entries and the receiver.
pub fn method_count(nodes: &[Node], params: Option<u32>) -> usize
    ensures { result ≡ method_count nodes.now params }
{
    match node_in(nodes, params) {
        Some(node) => node.parts.as_slice().len() + 1,
        None => 1,
    }
}
