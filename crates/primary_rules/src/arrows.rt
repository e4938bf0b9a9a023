//! To which channel types the arrow of a unary expression goes.
ghost use Rattle.std.specs.Prelude.{◌≡◌, not, is_some};
ghost use Rattle.const_tree.specs.Operators.{unary_operator};
ghost use Rattle.unit_read.specs.Subjects.{unit_of, IsRead};
ghost use Rattle.op_rules.specs.Forms.{operator_in};
ghost use Rattle.primary_rules.specs.Addresses.{passes};
ghost use Rattle.primary_rules.specs.Arrows.{is_open, is_sending, takes_arrow, part_takes_arrow, is_unary, is_arrow, is_arrow_at, has_arrow, may_have_arrow, is_receiving};

use crate::rules::unary_in;
use go_tree::{Node, NodeKind, NodeRef};
use package_objects::{kind_of, part_of};
use rule_words::deepest;
use unit_read::Subject;

fn is_open(kind: NodeKind) -> bool
    ensures { result ≡ is_open kind }
{
    match kind {
        NodeKind::ChanType => true,
        _ => false,
    }
}

fn is_sending(kind: NodeKind) -> bool
    ensures { result ≡ is_sending kind }
{
    match kind {
        NodeKind::SendChan => true,
        _ => false,
    }
}

// ---- from the arrow inward

fn is_open_at(nodes: &[Node], n: usize) -> bool
    ensures { result ≡ passes is_open nodes.now n }
{
    match nodes.get(n) {
        Some(node) => is_open(node.kind),
        None => false,
    }
}

/// No arrow goes on from here.
fn ends_at(nodes: &[Node], n: usize) -> bool
    ensures { result ≡ not (passes is_sending nodes.now n) }
{
    match nodes.get(n) {
        Some(node) => !is_sending(node.kind),
        None => true,
    }
}

/// An arrow before a node has a `chan` to go to, and so has each that goes on.
fn takes_arrow(nodes: &[Node], n: usize) -> bool
    ensures { result ≡ takes_arrow nodes.now n }
{
    let mut at = n;
    'inward: while at > 0 {
        if ends_at(nodes, at) {
            return is_open_at(nodes, at);
        }
        at -= 1;
    }
    is_open_at(nodes, at)
}

/// The arrow of a unary expression has a `chan` to go to.
pub fn part_takes_arrow(nodes: &[Node], node: &Node) -> bool
    ensures { result ≡ part_takes_arrow nodes.now node.now }
{
    match part_of(node, 0) {
        Some(n) => takes_arrow(nodes, n as usize),
        None => false,
    }
}

// ---- from a channel type outward

fn is_unary(kind: NodeKind) -> bool
    ensures { result ≡ is_unary kind }
{
    match kind {
        NodeKind::Unary => true,
        _ => false,
    }
}

fn has_no_operator(u: &Subject, file: u32, node: &Node) -> bool
    ensures { result ≡ not (is_some (operator_in unary_operator (unit_of u.now) file node.now)) }
{
    match unary_in(u, file, node) {
        Some(_) => false,
        None => true,
    }
}

fn is_arrow(u: &Subject, file: u32, node: &Node) -> bool
    ensures { result ≡ is_arrow (unit_of u.now) file node.now }
{
    is_unary(node.kind) && has_no_operator(u, file, node)
}

#[tactic(auto, unfolding(crate::specs::Arrows::is_arrow_at))]
fn is_arrow_at(u: &Subject, file: u32, n: u32) -> bool
    ensures { result ≡ is_arrow_at (unit_of u.now) file n }
{
    match u.nodes_at(file).get(n as usize) {
        Some(node) => is_arrow(u, file, node),
        None => false,
    }
}

/// An arrow comes to a node from what is around it, in so many steps at most.
fn has_arrow(u: &Subject, file: u32, most: usize, n: u32) -> bool
    requires { IsRead u.now }
    ensures { result ≡ has_arrow (unit_of u.now) file most n }
{
    if most == 0 {
        return false;
    }
    match u.place_at(NodeRef { file, node: n }) {
        Some(p) => {
            if is_sending(kind_of(u.nodes_at(file), p.around)) {
                return has_arrow(u, file, most - 1, p.around);
            }
            is_arrow_at(u, file, p.around)
        }
        None => false,
    }
}

fn may_have_arrow(kind: NodeKind) -> bool
    ensures { result ≡ may_have_arrow kind }
{
    match kind {
        NodeKind::ChanType => true,
        NodeKind::SendChan => true,
        _ => false,
    }
}

/// An arrow comes to a channel type, which is receive-only then.
#[tactic(auto, unfolding(crate::specs::Arrows::is_receiving))]
pub fn is_receiving(u: &Subject, at: NodeRef, node: &Node) -> bool
    requires { IsRead u.now }
    ensures { result ≡ is_receiving (unit_of u.now) at node.now }
{
    may_have_arrow(node.kind) && has_arrow(u, at.file, deepest(), at.node)
}
