//! The specifications of variables that have values, and the values that may stand for several names.
ghost use Rattle.std.specs.Prelude.{◌≡◌, ◌&&◌, length, slice_get, option_and_then};
ghost use Rattle.unit_read.specs.Subjects.{unit_of};
ghost use Rattle.package_objects.specs.Declares.{items, part};
ghost use Rattle.variable_rules.specs.Forms.{value_slot, type_slot, variable_reads, name_count, value_count, is_one_for_many, first_part, inside, inside_at, peeled, bare, may_give_several, is_receive, gives_several, gives_several_at, if_several, shared_value};

use go_tree::{Node, NodeKind};
use package_objects::{count, item, node_of, part_of};
use rule_words::{How, deepest, is_paren};
use unit_read::Subject;

/// In which slot the values stand.
pub fn value_slot(kind: NodeKind) -> Option<usize>
    ensures { result ≡ value_slot kind }
{
    match kind {
        NodeKind::VarValues => Some(1),
        NodeKind::VarTypedValues => Some(2),
        _ => None,
    }
}

/// In which slot the type stands.
pub fn type_slot(kind: NodeKind) -> Option<usize>
    ensures { result ≡ type_slot kind }
{
    match kind {
        NodeKind::VarTypedValues => Some(1),
        _ => None,
    }
}

/// How the parts are read: the rule of a specification asks for its value itself.
pub fn variable_reads(kind: NodeKind, slot: usize) -> Option<How>
    ensures { result ≡ variable_reads kind slot }
{
    let _ = kind;
    let _ = slot;
    None
}

// ---- how many

pub fn name_count(nodes: &[Node], node: &Node) -> usize
    ensures { result ≡ name_count nodes.now node.now }
{
    count(nodes, part_of(node, 0))
}

pub fn value_count(nodes: &[Node], slot: usize, node: &Node) -> usize
    ensures { result ≡ value_count nodes.now slot node.now }
{
    count(nodes, part_of(node, slot))
}

fn is_one_for_many(nodes: &[Node], slot: usize, node: &Node) -> bool
    ensures { result ≡ is_one_for_many nodes.now slot node.now }
{
    value_count(nodes, slot, node) == 1 && 2 <= name_count(nodes, node)
}

// ---- what may give several values

fn first_part(node: &Node, n: u32) -> u32
    ensures { result ≡ first_part node.now n }
{
    match part_of(node, 0) {
        Some(p) => p,
        None => n,
    }
}

fn inside(node: &Node, n: u32) -> u32
    ensures { result ≡ inside node.now n }
{
    if is_paren(node.kind) {
        first_part(node, n)
    } else {
        n
    }
}

fn inside_at(nodes: &[Node], n: u32) -> u32
    ensures { result ≡ inside_at nodes.now n }
{
    match node_of(nodes, n) {
        Some(node) => inside(node, n),
        None => n,
    }
}

/// What stands in parentheses.
pub fn bare(nodes: &[Node], n: u32) -> u32
    ensures { result ≡ bare nodes.now n }
{
    let mut at = n;
    let end = deepest();
    for i in 0..end {
        let _: usize = i;
        at = inside_at(nodes, at);
    }
    at
}

fn may_give_several(receives: bool, kind: NodeKind) -> bool
    ensures { result ≡ may_give_several receives kind }
{
    match kind {
        NodeKind::Call => true,
        NodeKind::CallSpread => true,
        NodeKind::Index => true,
        NodeKind::Assert => true,
        NodeKind::Unary => receives,
        _ => false,
    }
}

pub fn is_receive(u: &Subject, file: u32, node: &Node) -> bool
    ensures { result ≡ is_receive (unit_of u.now) file node.now }
{
    u.spelled(file, node.first) == b"<-".as_slice()
}

fn gives_several(u: &Subject, file: u32, node: &Node) -> bool
    ensures { result ≡ gives_several (unit_of u.now) file node.now }
{
    let receives = is_receive(u, file, node);
    may_give_several(receives, node.kind)
}

fn gives_several_at(u: &Subject, file: u32, nodes: &[Node], n: u32) -> bool
    ensures { result ≡ gives_several_at (unit_of u.now) file nodes.now n }
{
    match node_of(nodes, bare(nodes, n)) {
        Some(node) => gives_several(u, file, node),
        None => false,
    }
}

fn if_several(u: &Subject, file: u32, nodes: &[Node], n: u32) -> Option<u32>
    ensures { result ≡ if_several (unit_of u.now) file nodes.now n }
{
    if gives_several_at(u, file, nodes, n) {
        Some(n)
    } else {
        None
    }
}

fn first_value(u: &Subject, file: u32, nodes: &[Node], slot: usize, node: &Node) -> Option<u32>
    ensures { result ≡ option_and_then (if_several (unit_of u.now) file nodes.now) (slice_get (items nodes.now (part node.now slot)) 0) }
{
    match item(nodes, part_of(node, slot), 0) {
        Some(n) => if_several(u, file, nodes, n),
        None => None,
    }
}

/// The value, where it is one that may stand for all names.
pub fn shared_value(u: &Subject, file: u32, nodes: &[Node], slot: usize, node: &Node) -> Option<u32>
    ensures { result ≡ shared_value (unit_of u.now) file nodes.now slot node.now }
{
    if is_one_for_many(nodes, slot, node) {
        first_value(u, file, nodes, slot, node)
    } else {
        None
    }
}
