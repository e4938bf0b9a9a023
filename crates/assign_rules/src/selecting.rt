//! Select statements.
ghost use Rattle.std.specs.Prelude.{◌≡◌, slice_get, false};
ghost use Rattle.rule_words.specs.Scenes.{sight};
ghost use Rattle.std.specs.Option.{option_map_or};
ghost use Rattle.mark_walk.specs.Telling.{tell};
ghost use Rattle.package_objects.specs.Declares.{items, part};
ghost use Rattle.typed_tree.specs.Basics.{HasBasics};
ghost use Rattle.unit_read.specs.Subjects.{unit_of, IsRead};
ghost use Rattle.rule_words.specs.Steps.{step_in, IsStepOf};
ghost use Rattle.assign_rules.specs.Selecting.{receives, receives_at, is_comm, receives_first, receives_one, communicates, is_case, in_select, is_bad_case, comm_rule};

use crate::kinds::is_unary;
use crate::words::held_if;
use go_tree::{Node, NodeKind, NodeRef};
use package_objects::{item, kind_of, node_of, part_count, part_of};
use rule_words::Step;
use typed_marks::State;
use typed_tree::BAD_SELECT_CASE;
use unit_read::{Place, Subject};
use variable_rules::{bare, is_receive, value_count};

fn receives(u: &Subject, file: u32, node: &Node) -> bool
    ensures { result ≡ receives (unit_of u.now) file node.now }
{
    is_unary(node.kind) && is_receive(u, file, node)
}

/// The node is a receive operation.
pub fn receives_at(u: &Subject, file: u32, n: u32) -> bool
    ensures { result ≡ receives_at (unit_of u.now) file n }
{
    match node_of(u.nodes_at(file), n) {
        Some(node) => receives(u, file, node),
        None => false,
    }
}

fn is_comm(kind: NodeKind) -> bool
    ensures { result ≡ is_comm kind }
{
    matches!(kind, NodeKind::Comm)
}

fn receives_first(u: &Subject, file: u32, nodes: &[Node], n: u32) -> bool
    ensures { result ≡ receives_first (unit_of u.now) file nodes.now n }
{
    receives_at(u, file, bare(nodes, n))
}

fn first_receives(u: &Subject, file: u32, nodes: &[Node], node: &Node) -> bool
    ensures { result ≡ option_map_or (receives_first (unit_of u.now) file nodes.now) (slice_get (items nodes.now (part node.now 1)) 0) false }
{
    match item(nodes, part_of(node, 1), 0) {
        Some(n) => receives_first(u, file, nodes, n),
        None => false,
    }
}

fn receives_one(u: &Subject, file: u32, nodes: &[Node], node: &Node) -> bool
    ensures { result ≡ receives_one (unit_of u.now) file nodes.now node.now }
{
    let receives = first_receives(u, file, nodes, node);
    value_count(nodes, 1, node) == 1 && receives
}

fn communicates(u: &Subject, file: u32, kind: NodeKind, node: &Node) -> bool
    ensures { result ≡ communicates (unit_of u.now) file kind node.now }
{
    match kind {
        NodeKind::Assign => receives_one(u, file, u.nodes_at(file), node),
        NodeKind::Define => receives_one(u, file, u.nodes_at(file), node),
        NodeKind::Send => true,
        _ => false,
    }
}

fn is_case(u: &Subject, file: u32, p: Place) -> bool
    ensures { result ≡ is_case (unit_of u.now) file p }
{
    is_comm(kind_of(u.nodes_at(file), p.around))
}

fn in_select(u: &Subject, at: NodeRef) -> bool
    requires { IsRead u.now }
    ensures { result ≡ in_select (unit_of u.now) at }
{
    match u.place_at(at) {
        Some(p) => is_case(u, at.file, p),
        None => false,
    }
}

/// A statement in a clause of a select statement that neither sends nor receives: E86.
pub fn is_bad_case(u: &Subject, at: NodeRef, node: &Node) -> bool
    requires { IsRead u.now }
    ensures { result ≡ is_bad_case (unit_of u.now) at node.now }
{
    in_select(u, at) && !communicates(u, at.file, node.kind, node)
}

/// How far the rule of a clause goes: E86.
pub fn judge_comm(s: &State, node: &Node) -> Step
    requires { HasBasics s.now.table }
    ensures is { step_in s.now result ≡ tell (sight s.now) (comm_rule node.now) }
    ensures over { IsStepOf s.now result }
{
    held_if(s, !(part_count(node) == 1), BAD_SELECT_CASE)
}
