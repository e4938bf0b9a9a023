//! What the places of values in assignments want.
ghost use Rattle.std.specs.Prelude.{◌≡◌};
ghost use Rattle.mark_walk.specs.Telling.{tell, Says};
ghost use Rattle.unit_read.specs.Subjects.{unit_of, IsRead};
ghost use Rattle.rule_words.specs.Good.{known_of, AreFactsOf};
ghost use Rattle.rule_words.specs.Scenes.{sight, IsScene, told_by, IfFound, said, IsMarkOf};
ghost use Rattle.assign_rules.specs.Assigning.{takes_any, target_wants, target_told, aimed_wants, value_for, value_beside, uneven_wants, value_wants, own_wants, right_wants, assign_wants};

use crate::around::is_ignored;
use crate::assigning::is_used;
use crate::words::loose_operand;
use go_tree::{Node, NodeKind};
use package_objects::{item, part_of};
use rule_words::good::known;
use rule_words::look;
use rule_words::wishes::{nothing_wanted, operand};
use type_questions::Found;
use typed_marks::{Facts, Item, Mark, Stage, State, Want};
use unit_read::{Place, Subject};
use variable_rules::{name_count, shared_value, value_count};

// ---- what the places of values want

/// The name is declared by `:=`, or the operand is a blank: what is assigned has any type.
pub fn takes_any(u: &Subject, file: u32, nodes: &[Node], kind: NodeKind, n: u32) -> bool
    requires { IsRead u.now }
    ensures { result ≡ takes_any (unit_of u.now) file nodes.now kind n }
{
    match kind {
        NodeKind::Define => !is_used(u, file, n),
        _ => is_ignored(u, file, nodes, n),
    }
}

fn target_wants(s: &State, x: Facts) -> Mark
    requires { AreFactsOf s.now x }
    ensures is { Says (said s.now result) ≡ tell (sight s.now) (target_wants (known_of s.now x)) }
    ensures over { IsMarkOf s.now result }
{
    let _ = s;
    operand(Want::Assigned(x.of))
}

fn target_told(u: &Subject, s: &State, block: usize, n: u32, m: Mark) -> Found<Mark, Item>
    requires scene { IsScene u.now s.now }
    requires mark { IsMarkOf s.now m }
    ensures is { told_by (said s.now) result ≡ tell (sight s.now) (target_told (unit_of u.now) block n (said s.now m)) }
    ensures over { IfFound result (IsMarkOf s.now) }
{
    match known(s, m) {
        Some(x) => Found::Is(target_wants(s, x)),
        None => loose_operand(u, s, block, n),
    }
}

fn aimed_wants(u: &Subject, s: &State, block: usize, n: u32, t: u32) -> Found<Mark, Item>
    requires { IsScene u.now s.now }
    ensures is { told_by (said s.now) result ≡ tell (sight s.now) (aimed_wants (unit_of u.now) block n t) }
    ensures over { IfFound result (IsMarkOf s.now) }
{
    match look(u, s, Stage::Placed, block, t) {
        Found::Is(m) => target_told(u, s, block, n, m),
        Found::Wait(item) => Found::Wait(item),
    }
}

fn value_for(
    u: &Subject,
    s: &State,
    block: usize,
    file: u32,
    nodes: &[Node],
    kind: NodeKind,
    n: u32,
    t: u32,
) -> Found<Mark, Item>
    requires { IsScene u.now s.now }
    ensures is { told_by (said s.now) result ≡ tell (sight s.now) (value_for (unit_of u.now) block file nodes.now kind n t) }
    ensures over { IfFound result (IsMarkOf s.now) }
{
    if takes_any(u, file, nodes, kind, t) {
        Found::Is(operand(Want::Free))
    } else {
        aimed_wants(u, s, block, n, t)
    }
}

fn value_beside(
    u: &Subject,
    s: &State,
    block: usize,
    file: u32,
    nodes: &[Node],
    around: &Node,
    n: u32,
    i: usize,
) -> Found<Mark, Item>
    requires { IsScene u.now s.now }
    ensures is { told_by (said s.now) result ≡ tell (sight s.now) (value_beside (unit_of u.now) block file nodes.now around.now n i) }
    ensures over { IfFound result (IsMarkOf s.now) }
{
    match item(nodes, part_of(around, 0), i) {
        Some(t) => value_for(u, s, block, file, nodes, around.kind, n, t),
        None => loose_operand(u, s, block, n),
    }
}

fn uneven_wants(u: &Subject, s: &State, block: usize, kind: NodeKind, n: u32) -> Found<Mark, Item>
    requires { IsScene u.now s.now }
    ensures is { told_by (said s.now) result ≡ tell (sight s.now) (uneven_wants (unit_of u.now) block kind n) }
    ensures over { IfFound result (IsMarkOf s.now) }
{
    match kind {
        NodeKind::Define => Found::Is(operand(Want::Free)),
        _ => loose_operand(u, s, block, n),
    }
}

fn value_wants(
    u: &Subject,
    s: &State,
    block: usize,
    file: u32,
    nodes: &[Node],
    around: &Node,
    i: usize,
    n: u32,
) -> Found<Mark, Item>
    requires { IsScene u.now s.now }
    ensures is { told_by (said s.now) result ≡ tell (sight s.now) (value_wants (unit_of u.now) block file nodes.now around.now i n) }
    ensures over { IfFound result (IsMarkOf s.now) }
{
    if name_count(nodes, around) == value_count(nodes, 1, around) {
        value_beside(u, s, block, file, nodes, around, n, i)
    } else {
        uneven_wants(u, s, block, around.kind, n)
    }
}

fn own_wants(
    u: &Subject,
    s: &State,
    block: usize,
    file: u32,
    nodes: &[Node],
    around: &Node,
    i: usize,
) -> Found<Mark, Item>
    requires { IsScene u.now s.now }
    ensures is { told_by (said s.now) result ≡ tell (sight s.now) (own_wants (unit_of u.now) block file nodes.now around.now i) }
    ensures over { IfFound result (IsMarkOf s.now) }
{
    match item(nodes, part_of(around, 1), i) {
        Some(n) => value_wants(u, s, block, file, nodes, around, i, n),
        None => Found::Is(nothing_wanted()),
    }
}

fn right_wants(
    u: &Subject,
    s: &State,
    block: usize,
    file: u32,
    nodes: &[Node],
    around: &Node,
    i: usize,
) -> Found<Mark, Item>
    requires { IsScene u.now s.now }
    ensures is { told_by (said s.now) result ≡ tell (sight s.now) (right_wants (unit_of u.now) block file nodes.now around.now i) }
    ensures over { IfFound result (IsMarkOf s.now) }
{
    let shared = shared_value(u, file, nodes, 1, around);
    if shared.is_some() {
        Found::Is(nothing_wanted())
    } else {
        own_wants(u, s, block, file, nodes, around, i)
    }
}

/// What the places in an assignment or a short variable declaration want.
pub fn want_assign(
    u: &Subject,
    s: &State,
    block: usize,
    file: u32,
    p: Place,
    around: &Node,
) -> Found<Mark, Item>
    requires { IsScene u.now s.now }
    ensures is { told_by (said s.now) result ≡ tell (sight s.now) (assign_wants (unit_of u.now) block file p around.now) }
    ensures over { IfFound result (IsMarkOf s.now) }
{
    if p.slot == 1 {
        right_wants(u, s, block, file, u.nodes_at(file), around, p.index)
    } else {
        Found::Is(nothing_wanted())
    }
}
