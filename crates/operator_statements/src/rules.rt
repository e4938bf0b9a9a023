//! The rule of an assignment operation, and what its places want.
ghost use Rattle.std.specs.Prelude.{◌≡◌, IfOk};
ghost use Rattle.mark_walk.specs.Telling.{tell};
ghost use Rattle.unit_read.specs.Subjects.{unit_of};
ghost use Rattle.rule_words.specs.Scenes.{sight, IsScene, told_by, IfFound, said, IsMarkOf, parts_in, AreSeenOf};
ghost use Rattle.rule_words.specs.Steps.{step_in, IsStepOf};
ghost use Rattle.rule_words.specs.Wanting.{wanted_of, IsWantedOf};
ghost use Rattle.operator_statements.specs.Rules.{is_operation, operation_reads, is_pair, operated_rule, paired_rule, operation_rule, right_wants, value_wants, operation_wants};

use crate::operators::operator_of;
use assign_rules::selecting::is_bad_case;
use go_tree::{Node, NodeKind, NodeRef};
use gv_base::NoMemory;
use op_rules::{judge_binary, operator_asked};
use rule_words::good::{broken, part_at};
use rule_words::wishes::nothing_wanted;
use rule_words::{How, Seen, Step, Wanted, file_of};
use std::alloc::Global;
use type_questions::Found;
use typed_marks::{Item, Mark, State, Want};
use typed_tree::{BAD_SELECT_CASE, WRONG_NUMBER_OF_OPERANDS};
use unit_read::{Place, Subject};
use variable_rules::{name_count, value_count};

fn is_operation(kind: NodeKind) -> bool
    ensures { result ≡ is_operation kind }
{
    matches!(kind, NodeKind::OpAssign)
}

/// How the parts are read.
pub fn operation_reads(kind: NodeKind, slot: usize) -> Option<How>
    ensures { result ≡ operation_reads kind slot }
{
    let _ = slot;
    if is_operation(kind) {
        Some(How::Value)
    } else {
        None
    }
}

fn is_pair(nodes: &[Node], node: &Node) -> bool
    ensures { result ≡ is_pair nodes.now node.now }
{
    name_count(nodes, node) == 1 && value_count(nodes, 1, node) == 1
}

fn operated(
    alloc: Global,
    u: &Subject,
    s: &State,
    file: u32,
    node: &Node,
    parts: &[Seen],
) -> Result<Step, NoMemory>
    requires scene { IsScene u.now s.now }
    requires parts { AreSeenOf s.now parts.now }
    ensures is { IfOk result (λ step. step_in s.now step ≡ tell (sight s.now) (operated_rule (unit_of u.now) file node.now (parts_in s.now parts.now))) }
    ensures over { IfOk result (IsStepOf s.now) }
{
    let op = operator_of(u, file, node);
    let left = part_at(s, parts, 0);
    let right = part_at(s, parts, 1);
    let step = judge_binary(alloc, s, op, left, right, Want::Free)?;
    Ok(step)
}

fn paired(
    alloc: Global,
    u: &Subject,
    s: &State,
    at: NodeRef,
    node: &Node,
    parts: &[Seen],
) -> Result<Step, NoMemory>
    requires scene { IsScene u.now s.now }
    requires parts { AreSeenOf s.now parts.now }
    ensures is { IfOk result (λ step. step_in s.now step ≡ tell (sight s.now) (paired_rule (unit_of u.now) at node.now (parts_in s.now parts.now))) }
    ensures over { IfOk result (IsStepOf s.now) }
{
    // E86
    if is_bad_case(u, at, node) {
        return Ok(broken(BAD_SELECT_CASE));
    }
    let step = operated(alloc, u, s, at.file, node, parts)?;
    Ok(step)
}

/// How far the rule of an assignment operation goes.
pub fn judge_operation(
    alloc: Global,
    u: &Subject,
    s: &State,
    block: usize,
    at: NodeRef,
    node: &Node,
    parts: &[Seen],
    wanted: Wanted,
) -> Result<Step, NoMemory>
    requires scene { IsScene u.now s.now }
    requires parts { AreSeenOf s.now parts.now }
    requires wanted { IsWantedOf s.now wanted }
    ensures is { IfOk result (λ step. step_in s.now step ≡ tell (sight s.now) (operation_rule (unit_of u.now) block at node.now (parts_in s.now parts.now) (wanted_of s.now wanted))) }
    ensures over { IfOk result (IsStepOf s.now) }
{
    let _ = wanted;
    let _ = block;
    if is_pair(u.nodes_at(at.file), node) {
        let step = paired(alloc, u, s, at, node, parts)?;
        return Ok(step);
    }
    // E73
    Ok(broken(WRONG_NUMBER_OF_OPERANDS))
}

// ---- places

fn right_wants(
    u: &Subject,
    s: &State,
    block: usize,
    file: u32,
    p: Place,
    around: &Node,
) -> Found<Mark, Item>
    requires { IsScene u.now s.now }
    ensures is { told_by (said s.now) result ≡ tell (sight s.now) (right_wants (unit_of u.now) block file p around.now) }
    ensures over { IfFound result (IsMarkOf s.now) }
{
    let op = operator_of(u, file, around);
    operator_asked(u, s, block, p, around, op)
}

fn value_wants(
    u: &Subject,
    s: &State,
    block: usize,
    file: u32,
    p: Place,
    around: &Node,
) -> Found<Mark, Item>
    requires { IsScene u.now s.now }
    ensures is { told_by (said s.now) result ≡ tell (sight s.now) (value_wants (unit_of u.now) block file p around.now) }
    ensures over { IfFound result (IsMarkOf s.now) }
{
    if is_pair(u.nodes_at(file), around) {
        right_wants(u, s, block, file, p, around)
    } else {
        Found::Is(nothing_wanted())
    }
}

/// What the places in an assignment operation want.
pub fn want_operation(
    u: &Subject,
    s: &State,
    block: usize,
    p: Place,
    around: &Node,
) -> Found<Mark, Item>
    requires { IsScene u.now s.now }
    ensures is { told_by (said s.now) result ≡ tell (sight s.now) (operation_wants (unit_of u.now) block p around.now) }
    ensures over { IfFound result (IsMarkOf s.now) }
{
    if p.slot == 1 {
        value_wants(u, s, block, file_of(u, block), p, around)
    } else {
        Found::Is(nothing_wanted())
    }
}
