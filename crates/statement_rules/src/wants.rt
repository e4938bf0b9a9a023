//! What the places in statements want.
ghost use Rattle.std.specs.Prelude.{◌≡◌};
ghost use Rattle.mark_walk.specs.Telling.{tell, Says};
ghost use Rattle.unit_read.specs.Subjects.{unit_of};
ghost use Rattle.rule_words.specs.Scenes.{sight, IsScene, told_by, IfFound, said, IsMarkOf};
ghost use Rattle.statement_rules.specs.Wants.{if_it, is_part, is_condition_at, condition_wants, is_tag_at, value_in_clause, clause_wants, type_clause_wants, wants_by, statement_wants};

use crate::return_wants::want_return;
use crate::switching::want_case;
use crate::type_switching::want_type;
use assign_rules::assign_wants::want_assign;
use assign_rules::kinds::{condition_of, tag_slot};
use assign_rules::range_rules::want_range;
use assign_rules::sending::want_send;
use go_tree::{Node, NodeKind};
use package_objects::{item, part_of};
use rule_words::file_of;
use rule_words::wishes::{nothing_wanted, operand};
use type_questions::Found;
use typed_marks::{Item, Mark, State, Want};
use unit_read::{Place, Subject};

fn if_it(s: &State, b: bool) -> Mark
    ensures is { Says (said s.now result) ≡ tell (sight s.now) (if_it b) }
    ensures over { IsMarkOf s.now result }
{
    let _ = s;
    if b {
        operand(Want::Free)
    } else {
        nothing_wanted()
    }
}

fn is_part(n: u32, around: &Node, slot: usize) -> bool
    ensures { result ≡ is_part n around.now slot }
{
    match part_of(around, slot) {
        Some(m) => m == n,
        None => false,
    }
}

fn is_condition_at(nodes: &[Node], around: &Node, slot: usize) -> bool
    ensures { result ≡ is_condition_at nodes.now around.now slot }
{
    match condition_of(around.kind, nodes, around) {
        Some(n) => is_part(n, around, slot),
        None => false,
    }
}

fn condition_wants(s: &State, nodes: &[Node], around: &Node, slot: usize) -> Mark
    ensures is { Says (said s.now result) ≡ tell (sight s.now) (condition_wants nodes.now around.now slot) }
    ensures over { IsMarkOf s.now result }
{
    if_it(s, is_condition_at(nodes, around, slot))
}

fn is_tag_at(u: &Subject, file: u32, around: &Node, slot: usize) -> bool
    ensures { result ≡ is_tag_at (unit_of u.now) file around.now slot }
{
    match tag_slot(u, file, u.nodes_at(file), around) {
        Some(i) => slot == i,
        None => false,
    }
}

fn value_in_clause(
    u: &Subject,
    s: &State,
    block: usize,
    file: u32,
    p: Place,
    around: &Node,
) -> Found<Mark, Item>
    requires { IsScene u.now s.now }
    ensures is { told_by (said s.now) result ≡ tell (sight s.now) (value_in_clause (unit_of u.now) block file p around.now) }
    ensures over { IfFound result (IsMarkOf s.now) }
{
    match item(u.nodes_at(file), part_of(around, 0), p.index) {
        Some(n) => want_case(u, s, block, file, p.around, n),
        None => Found::Is(nothing_wanted()),
    }
}

fn clause_wants(
    u: &Subject,
    s: &State,
    block: usize,
    file: u32,
    p: Place,
    around: &Node,
) -> Found<Mark, Item>
    requires { IsScene u.now s.now }
    ensures is { told_by (said s.now) result ≡ tell (sight s.now) (clause_wants (unit_of u.now) block file p around.now) }
    ensures over { IfFound result (IsMarkOf s.now) }
{
    if p.slot == 0 {
        value_in_clause(u, s, block, file, p, around)
    } else {
        Found::Is(nothing_wanted())
    }
}

fn type_clause_wants(u: &Subject, s: &State, file: u32, p: Place, around: &Node) -> Mark
    ensures is { Says (said s.now result) ≡ tell (sight s.now) (type_clause_wants (unit_of u.now) file p around.now) }
    ensures over { IsMarkOf s.now result }
{
    if p.slot == 0 {
        want_type(s, u.nodes_at(file), around, 0)
    } else {
        nothing_wanted()
    }
}

fn wants_by(
    u: &Subject,
    s: &State,
    block: usize,
    file: u32,
    p: Place,
    around: &Node,
    kind: NodeKind,
) -> Found<Mark, Item>
    requires { IsScene u.now s.now }
    ensures is { told_by (said s.now) result ≡ tell (sight s.now) (wants_by (unit_of u.now) block file p around.now kind) }
    ensures over { IfFound result (IsMarkOf s.now) }
{
    match kind {
        NodeKind::Assign => want_assign(u, s, block, file, p, around),
        NodeKind::Define => want_assign(u, s, block, file, p, around),
        NodeKind::Send => want_send(u, s, block, p, around),
        NodeKind::Return => want_return(u, s, block, file, p, around),
        NodeKind::If => Found::Is(condition_wants(s, u.nodes_at(file), around, p.slot)),
        NodeKind::For => Found::Is(condition_wants(s, u.nodes_at(file), around, p.slot)),
        NodeKind::Condition => Found::Is(operand(Want::Free)),
        NodeKind::TypeGuard => Found::Is(operand(Want::Free)),
        NodeKind::Switch => Found::Is(if_it(s, is_tag_at(u, file, around, p.slot))),
        NodeKind::ForRange => Found::Is(want_range(s, p, around)),
        NodeKind::ForRangeAssign => Found::Is(want_range(s, p, around)),
        NodeKind::ForRangeDefine => Found::Is(want_range(s, p, around)),
        NodeKind::Case => clause_wants(u, s, block, file, p, around),
        NodeKind::TypeCase => Found::Is(type_clause_wants(u, s, file, p, around)),
        NodeKind::TypeList => Found::Is(want_type(s, u.nodes_at(file), around, p.slot)),
        _ => Found::Is(nothing_wanted()),
    }
}

/// What the statement around wants of what stands at a place in it.
pub fn want_statement(
    u: &Subject,
    s: &State,
    block: usize,
    p: Place,
    around: &Node,
) -> Found<Mark, Item>
    requires { IsScene u.now s.now }
    ensures is { told_by (said s.now) result ≡ tell (sight s.now) (statement_wants (unit_of u.now) block p around.now) }
    ensures over { IfFound result (IsMarkOf s.now) }
{
    wants_by(u, s, block, file_of(u, block), p, around, around.kind)
}
