//! The rule of each form of primary expression.
ghost use Rattle.std.specs.Prelude.{◌≡◌, ◌||◌, IfOk};
ghost use Rattle.const_tree.specs.Operators.{unary_operator};
ghost use Rattle.mark_walk.specs.Telling.{tell};
ghost use Rattle.typed_marks.specs.States.{so_far};
ghost use Rattle.unit_read.specs.Subjects.{unit_of};
ghost use Rattle.rule_words.specs.Scenes.{IsScene, said, IsMarkOf, parts_in, AreSeenOf};
ghost use Rattle.rule_words.specs.Steps.{IsStepOf};
ghost use Rattle.rule_words.specs.Wanting.{wanted_of, IsWantedOf};
ghost use Rattle.rule_words.specs.Good.{AreFactsOf, known_of};
ghost use Rattle.op_rules.specs.Forms.{operator_in};
ghost use Rattle.op_rules.specs.Rules.{op_rule};
ghost use Rattle.op_rules.specs.Unary.{takes_address};
ghost use Rattle.type_answers.specs.Coming.{ComesTo};
ghost use Rattle.primary_rules.specs.Rules.{name_in, is_apart, owner_rule, owned_rule, selector_rule, operated_rule, unary_by, unary_rule, form_rule, primary_rule};
ghost use Rattle.primary_rules.specs.Selecting.{select_rule};

use crate::addresses::{judge_address, judge_star};
use crate::arrows::part_takes_arrow;
use crate::asserting::judge_assert;
use crate::bounds::bound_parts;
use crate::forms::{Form, form_of};
use crate::indexing::judge_index;
use crate::receiving::judge_receive;
use crate::selecting::judge_select;
use crate::slicing::judge_slice;
use const_eval::Operator;
use const_tree::unary_operator;
use go_tree::{Node, NodeRef};
use gv_base::NoMemory;
use op_rules::judge_op;
use rule_words::answered::silent;
use rule_words::good::part_at;
use rule_words::modes::is_package;
use rule_words::{Seen, Step, Wanted, is_blank};
use std::alloc::Global;
use typed_marks::{Facts, Mark, State};
use unit_read::Subject;

// ---- selectors

fn judge_member(
    alloc: Global,
    u: &Subject,
    s: &State,
    at: NodeRef,
    node: &Node,
    x: Facts,
) -> Result<Step, NoMemory>
    requires scene { IsScene u.now s.now }
    requires facts { AreFactsOf s.now x }
    ensures comes { IfOk result (ComesTo u.now s.now (select_rule (unit_of u.now) (name_in (unit_of u.now) at node.now) (known_of s.now x))) }
    ensures over { IfOk result (IsStepOf s.now) }
{
    let name = u.spelled_text(at.file, node.last);
    let step = judge_select(alloc, u, s, name, u.path_text(), x)?;
    Ok(step)
}

fn is_apart(u: &Subject, s: &State, at: NodeRef, node: &Node, x: Facts) -> bool
    ensures { result ≡ is_apart (unit_of u.now) at node.now (known_of s.now x) }
{
    let _ = s;
    is_blank(u.spelled(at.file, node.last)) || is_package(x.mode)
}

#[tactic(auto, using(type_answers::proofs::ComingLaws::same_comes))]
fn judge_owner(
    alloc: Global,
    u: &Subject,
    s: &State,
    block: usize,
    at: NodeRef,
    node: &Node,
    parts: &[Seen],
    w: Wanted,
    x: Facts,
) -> Result<Step, NoMemory>
    requires scene { IsScene u.now s.now }
    requires parts { AreSeenOf s.now parts.now }
    requires wanted { IsWantedOf s.now w }
    requires facts { AreFactsOf s.now x }
    ensures comes { IfOk result (ComesTo u.now s.now (owner_rule (unit_of u.now) block at node.now (parts_in s.now parts.now) (wanted_of s.now w) (known_of s.now x))) }
    ensures over { IfOk result (IsStepOf s.now) }
{
    if is_apart(u, s, at, node, x) {
        let step = judge_op(alloc, u, s, block, at, node, parts, w)?;
        return Ok(step);
    }
    let step = judge_member(alloc, u, s, at, node, x)?;
    Ok(step)
}

#[tactic(auto, using(type_answers::proofs::ComingLaws::same_comes))]
fn judge_owned(
    alloc: Global,
    u: &Subject,
    s: &State,
    block: usize,
    at: NodeRef,
    node: &Node,
    parts: &[Seen],
    w: Wanted,
    m: Mark,
) -> Result<Step, NoMemory>
    requires scene { IsScene u.now s.now }
    requires parts { AreSeenOf s.now parts.now }
    requires wanted { IsWantedOf s.now w }
    requires mark { IsMarkOf s.now m }
    ensures comes { IfOk result (ComesTo u.now s.now (owned_rule (unit_of u.now) block at node.now (parts_in s.now parts.now) (wanted_of s.now w) (said s.now m))) }
    ensures over { IfOk result (IsStepOf s.now) }
{
    match m {
        Mark::Good(x) => {
            let step = judge_owner(alloc, u, s, block, at, node, parts, w, x)?;
            Ok(step)
        }
        Mark::Bad(_) => {
            let step = judge_op(alloc, u, s, block, at, node, parts, w)?;
            Ok(step)
        }
        Mark::Outside(_) => {
            let step = judge_op(alloc, u, s, block, at, node, parts, w)?;
            Ok(step)
        }
        Mark::Silent => {
            let step = judge_op(alloc, u, s, block, at, node, parts, w)?;
            Ok(step)
        }
        Mark::Wants(_, _) => {
            let step = judge_op(alloc, u, s, block, at, node, parts, w)?;
            Ok(step)
        }
        Mark::Declared(_) => {
            let step = judge_op(alloc, u, s, block, at, node, parts, w)?;
            Ok(step)
        }
    }
}

#[tactic(auto, unfolding(crate::specs::Rules::selector_rule))]
fn judge_selector(
    alloc: Global,
    u: &Subject,
    s: &State,
    block: usize,
    at: NodeRef,
    node: &Node,
    parts: &[Seen],
    w: Wanted,
) -> Result<Step, NoMemory>
    requires scene { IsScene u.now s.now }
    requires parts { AreSeenOf s.now parts.now }
    requires wanted { IsWantedOf s.now w }
    ensures comes { IfOk result (ComesTo u.now s.now (selector_rule (unit_of u.now) block at node.now (parts_in s.now parts.now) (wanted_of s.now w))) }
    ensures over { IfOk result (IsStepOf s.now) }
{
    let a = part_at(s, parts, 0);
    let step = judge_owned(alloc, u, s, block, at, node, parts, w, a.mark)?;
    Ok(step)
}

// ---- unary expressions

/// The operator of a unary expression.
#[tactic(auto, unfolding(op_rules::specs::Forms::operator_in))]
pub fn unary_in(u: &Subject, file: u32, node: &Node) -> Option<Operator>
    ensures { result ≡ operator_in unary_operator (unit_of u.now) file node.now }
{
    match u.tree_at(file) {
        Some(tree) => unary_operator(tree, node),
        None => None,
    }
}

pub fn takes_address(op: Operator) -> bool
    ensures { result ≡ takes_address op }
{
    match op {
        Operator::And => true,
        _ => false,
    }
}

#[tactic(auto, using(type_answers::proofs::ComingLaws::same_comes))]
fn judge_operated(
    alloc: Global,
    u: &Subject,
    s: &State,
    block: usize,
    at: NodeRef,
    node: &Node,
    parts: &[Seen],
    w: Wanted,
    op: Operator,
) -> Result<Step, NoMemory>
    requires scene { IsScene u.now s.now }
    requires parts { AreSeenOf s.now parts.now }
    requires wanted { IsWantedOf s.now w }
    ensures comes { IfOk result (ComesTo u.now s.now (operated_rule (unit_of u.now) block at node.now (parts_in s.now parts.now) (wanted_of s.now w) op)) }
    ensures over { IfOk result (IsStepOf s.now) }
{
    if takes_address(op) {
        return Ok(judge_address(s, u.nodes_at(at.file), node, part_at(s, parts, 0)));
    }
    let step = judge_op(alloc, u, s, block, at, node, parts, w)?;
    Ok(step)
}

#[tactic(auto, unfolding(crate::specs::Rules::unary_rule))]
fn judge_unary(
    alloc: Global,
    u: &Subject,
    s: &State,
    block: usize,
    at: NodeRef,
    node: &Node,
    parts: &[Seen],
    w: Wanted,
) -> Result<Step, NoMemory>
    requires scene { IsScene u.now s.now }
    requires parts { AreSeenOf s.now parts.now }
    requires wanted { IsWantedOf s.now w }
    ensures comes { IfOk result (ComesTo u.now s.now (unary_rule (unit_of u.now) block at node.now (parts_in s.now parts.now) (wanted_of s.now w))) }
    ensures over { IfOk result (IsStepOf s.now) }
{
    match unary_in(u, at.file, node) {
        Some(op) => {
            let step = judge_operated(alloc, u, s, block, at, node, parts, w, op)?;
            Ok(step)
        }
        None => {
            let takes = part_takes_arrow(u.nodes_at(at.file), node);
            Ok(judge_receive(u, s, takes, part_at(s, parts, 0)))
        }
    }
}

// ---- parentheses

#[tactic(auto, using(type_answers::proofs::ComingLaws::same_comes))]
fn judge_inside(
    alloc: Global,
    u: &Subject,
    s: &State,
    block: usize,
    at: NodeRef,
    node: &Node,
    parts: &[Seen],
    w: Wanted,
) -> Result<Step, NoMemory>
    requires scene { IsScene u.now s.now }
    requires parts { AreSeenOf s.now parts.now }
    requires wanted { IsWantedOf s.now w }
    ensures comes { IfOk result (ComesTo u.now s.now (op_rule (unit_of u.now) block at node.now (parts_in s.now parts.now) (wanted_of s.now w))) }
    ensures over { IfOk result (IsStepOf s.now) }
{
    let step = judge_op(alloc, u, s, block, at, node, parts, w)?;
    Ok(step)
}

// ---- forms

#[tactic(auto, unfolding(crate::specs::Rules::form_rule))]
fn judge_form(
    alloc: Global,
    u: &Subject,
    s: &State,
    block: usize,
    at: NodeRef,
    node: &Node,
    parts: &[Seen],
    w: Wanted,
    form: Form,
) -> Result<Step, NoMemory>
    requires scene { IsScene u.now s.now }
    requires parts { AreSeenOf s.now parts.now }
    requires wanted { IsWantedOf s.now w }
    ensures comes { IfOk result (ComesTo u.now s.now (form_rule (unit_of u.now) block at node.now (parts_in s.now parts.now) (wanted_of s.now w) form)) }
    ensures over { IfOk result (IsStepOf s.now) }
{
    match form {
        Form::Selector => {
            let step = judge_selector(alloc, u, s, block, at, node, parts, w)?;
            Ok(step)
        }
        Form::Index => Ok(judge_index(u, s, part_at(s, parts, 0), part_at(s, parts, 1))),
        Form::Slice(slots) => Ok(judge_slice(
            u,
            s,
            part_at(s, parts, 0),
            bound_parts(s, parts, slots),
        )),
        Form::Assert => {
            let step = judge_assert(alloc, u, s, part_at(s, parts, 0), part_at(s, parts, 1))?;
            Ok(step)
        }
        Form::Star => Ok(judge_star(u, s, part_at(s, parts, 0))),
        Form::Unary => {
            let step = judge_unary(alloc, u, s, block, at, node, parts, w)?;
            Ok(step)
        }
        Form::Paren => {
            let step = judge_inside(alloc, u, s, block, at, node, parts, w)?;
            Ok(step)
        }
        Form::Other => Ok(Step::Says(silent())),
    }
}

/// What the rule of a primary expression or a unary one comes to.
pub fn judge_primary(
    alloc: Global,
    u: &Subject,
    s: &State,
    block: usize,
    at: NodeRef,
    node: &Node,
    parts: &[Seen],
    wanted: Wanted,
) -> Result<Step, NoMemory>
    requires scene { IsScene u.now s.now }
    requires parts { AreSeenOf s.now parts.now }
    requires wanted { IsWantedOf s.now wanted }
    ensures comes { IfOk result (ComesTo u.now s.now (primary_rule (unit_of u.now) block at node.now (parts_in s.now parts.now) (wanted_of s.now wanted))) }
    ensures over { IfOk result (IsStepOf s.now) }
{
    let form = form_of(node.kind);
    let step = judge_form(alloc, u, s, block, at, node, parts, wanted, form)?;
    Ok(step)
}
