//! Which built-in function a call names (Go 1.17, "Calls", "Built-in functions").
ghost use Rattle.std.specs.Prelude.{◌≡◌};
ghost use Rattle.unit_read.specs.Subjects.{unit_of, IsRead};
ghost use Rattle.builtin_rules.specs.Named.{between, between_at, bare, inner, is_call, is_spread, builtin_object, builtin_named, builtin_in};

use crate::lines::{Builtin, builtin_of};
use go_tree::{Node, NodeKind, NodeRef, Object};
use package_objects::{node_of, part_of};
use rule_words::is_paren;
use unit_read::Subject;

// ---- parentheses aside

fn between(node: &Node) -> Option<u32>
    ensures { result ≡ between node.now }
{
    if is_paren(node.kind) {
        part_of(node, 0)
    } else {
        None
    }
}

fn between_at(nodes: &[Node], n: u32) -> Option<u32>
    ensures { result ≡ between_at nodes.now n }
{
    match node_of(nodes, n) {
        Some(node) => between(node),
        None => None,
    }
}

/// The node, with at most so many parentheses round it taken off.
fn bare(nodes: &[Node], most: usize, n: u32) -> u32
    ensures { result ≡ bare nodes.now most n }
{
    if most == 0 {
        return n;
    }
    match between_at(nodes, n) {
        Some(m) => bare(nodes, most - 1, m),
        None => n,
    }
}

/// What stands between parentheses, however many.
#[tactic(auto, unfolding(crate::specs::Named::inner))]
pub fn inner(nodes: &[Node], n: u32) -> u32
    ensures { result ≡ inner nodes.now n }
{
    bare(nodes, nodes.len(), n)
}

// ---- calls

/// A call, with `...` or without.
pub fn is_call(kind: NodeKind) -> bool
    ensures { result ≡ is_call kind }
{
    match kind {
        NodeKind::Call => true,
        NodeKind::CallSpread => true,
        _ => false,
    }
}

/// A call whose last argument has `...` behind it.
pub fn is_spread(kind: NodeKind) -> bool
    ensures { result ≡ is_spread kind }
{
    match kind {
        NodeKind::CallSpread => true,
        _ => false,
    }
}

// ---- built-in functions

fn builtin_object(object: Object) -> Option<Builtin>
    ensures { result ≡ builtin_object object }
{
    match object {
        Object::Universe(i) => builtin_of(i),
        Object::Import(_) => None,
        Object::Local(_) => None,
        Object::Package(_) => None,
    }
}

fn builtin_named(u: &Subject, file: u32, n: u32) -> Option<Builtin>
    requires { IsRead u.now }
    ensures { result ≡ builtin_named (unit_of u.now) file n }
{
    let name = NodeRef {
        file,
        node: inner(u.nodes_at(file), n),
    };
    match u.object_at(name) {
        Some(object) => builtin_object(object),
        None => None,
    }
}

/// The built-in function that a call's first part names.
#[tactic(auto, unfolding(crate::specs::Named::builtin_in))]
pub fn builtin_in(u: &Subject, file: u32, node: &Node) -> Option<Builtin>
    requires { IsRead u.now }
    ensures { result ≡ builtin_in (unit_of u.now) file node.now }
{
    match part_of(node, 0) {
        Some(n) => builtin_named(u, file, n),
        None => None,
    }
}
