//! What refuses the name of an object.
ghost use Rattle.std.specs.Prelude.{◌≡◌, not, Some, option_and_then};
ghost use Rattle.unit_read.specs.Subjects.{unit_of, IsRead};
ghost use Rattle.unit_read.specs.Units.{around, is_none, is_top};
ghost use Rattle.decl_rules.specs.Objects.{is_elsewhere, is_function, part_size, is_bad_init, refusal_of, is_exempt};

use go_tree::{Node, NodeKind, NodeRef};
use package_objects::{node_of, part_count, part_of};
use type_rules::signatures::results_node;
use typed_tree::{BAD_INIT, DECLARATION_CYCLE, REDECLARED, Rule};
use unit_read::Subject;

fn around(u: &Subject, at: NodeRef) -> Option<NodeRef>
    requires { IsRead u.now }
    ensures { result ≡ around (unit_of u.now) at }
{
    match u.place_at(at) {
        Some(p) => Some(NodeRef {
            file: at.file,
            node: p.around,
        }),
        None => None,
    }
}

fn twice_around(u: &Subject, at: NodeRef) -> Option<NodeRef>
    requires { IsRead u.now }
    ensures { result ≡ option_and_then (around (unit_of u.now)) (around (unit_of u.now) at) }
{
    match around(u, at) {
        Some(node) => around(u, node),
        None => None,
    }
}

fn is_around(u: &Subject, at: Option<NodeRef>) -> bool
    requires { IsRead u.now }
    ensures { result ≡ not (is_none (option_and_then (around (unit_of u.now)) at)) }
{
    match at {
        Some(node) => around(u, node).is_some(),
        None => false,
    }
}

/// Whether the name is declared at package level.
fn is_top(u: &Subject, name: NodeRef) -> bool
    requires { IsRead u.now }
    ensures { result ≡ is_top (unit_of u.now) name }
{
    !is_around(u, twice_around(u, name))
}

fn is_elsewhere(kind: NodeKind) -> bool
    ensures { result ≡ is_elsewhere kind }
{
    match kind {
        NodeKind::MethodDecl => true,
        NodeKind::Import => true,
        NodeKind::ImportGroup => true,
        NodeKind::ImportNamed => true,
        _ => false,
    }
}

fn is_function(kind: NodeKind) -> bool
    ensures { result ≡ is_function kind }
{
    match kind {
        NodeKind::FuncDecl => true,
        _ => false,
    }
}

fn part_size_in(nodes: &[Node], n: u32) -> usize
    ensures { result ≡ part_size nodes.now (Some n) }
{
    match node_of(nodes, n) {
        Some(node) => part_count(node),
        None => 0,
    }
}

fn part_size(nodes: &[Node], n: Option<u32>) -> usize
    ensures { result ≡ part_size nodes.now n }
{
    match n {
        Some(n) => part_size_in(nodes, n),
        None => 0,
    }
}

pub fn is_exempt(nodes: &[Node], node: &Node) -> bool
    ensures { result ≡ is_exempt nodes.now node.now.kind node.now }
{
    if is_elsewhere(node.kind) {
        return true;
    }
    is_function(node.kind)
        && (part_size(nodes, part_of(node, 1)) == 0 && results_node(nodes, node, 2).is_none())
}

fn is_bad_init(u: &Subject, name: NodeRef, exempt: bool) -> bool
    requires { IsRead u.now }
    ensures { result ≡ is_bad_init (unit_of u.now) name exempt }
{
    is_top(u, name) && (u.name_at(name) == b"init".as_slice() && !exempt)
}

/// What refuses the name of an object: E1, E2, E4.
pub fn refusal_of(u: &Subject, name: NodeRef, exempt: bool) -> Option<Rule>
    requires { IsRead u.now }
    ensures { result ≡ refusal_of (unit_of u.now) name exempt }
{
    if u.is_redeclared(name) {
        return Some(REDECLARED);
    }
    if is_bad_init(u, name, exempt) {
        return Some(BAD_INIT);
    }
    if u.is_cyclic(name) {
        Some(DECLARATION_CYCLE)
    } else {
        None
    }
}
