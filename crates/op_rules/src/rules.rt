//! The rule of each form of operand and operator.
ghost use Rattle.std.specs.Prelude.{◌≡◌, IfOk, option_map};
ghost use Rattle.mark_walk.specs.Telling.{tell};
ghost use Rattle.typed_tree.specs.Basics.{HasBasics};
ghost use Rattle.unit_read.specs.Subjects.{unit_of};
ghost use Rattle.rule_words.specs.Scenes.{sight, IsScene, told_by, IfFound, type_in, IsTypeOf, MayBeTypeOf, parts_in, AreSeenOf};
ghost use Rattle.rule_words.specs.Answers.{answer_in, IsAnswerOf};
ghost use Rattle.rule_words.specs.Steps.{step_in, IsStepOf};
ghost use Rattle.rule_words.specs.Wanting.{wanted_of, IsWantedOf};
ghost use Rattle.rule_words.specs.Wishes.{IsWishOf, wish_of};
ghost use Rattle.op_rules.specs.Rules.{literal_mark, literal_rule, dotted_rule, paren_rule, unary_rule, binary_rule, form_rule, freed, freed_ask, free_ask, freed_rule, op_rule};

use crate::binary::judge_binary;
use crate::forms::{Form, Literal, binary_in, form_of, unary_in};
use crate::name::{judge_name, used, wished};
use crate::qualified::judge_selector;
use crate::unary::judge_unary;
use go_tree::{Node, NodeRef};
use gv_base::NoMemory;
use rule_words::answered::{outside, silent};
use rule_words::good::part_at;
use rule_words::types::takes_default;
use rule_words::{Answer, Seen, Step, Wanted, under_of};
use std::alloc::Global;
use type_model::TypeId;
use type_questions::Found;
use typed_marks::{Item, State, Want};
use typed_tree::{Limit, judge_int, judge_rune, judge_text};
use unit_read::Subject;

// ---- parts

// ---- forms

#[tactic(auto, unfolding(crate::specs::Rules::literal_mark))]
fn literal_mark(
    alloc: Global,
    s: &State,
    bytes: &[u8],
    want: Want,
    literal: Literal,
) -> Result<Answer, NoMemory>
    requires basics { HasBasics s.now.table }
    requires want { IsWishOf s.now want }
    ensures is { IfOk result (λ answer. answer_in s.now answer ≡ literal_mark bytes.now (wish_of s.now want) literal) }
    ensures over { IfOk result (IsAnswerOf s.now) }
{
    match literal {
        Literal::Int => Ok(wished(s, want, judge_int(bytes))),
        Literal::Rune => Ok(wished(s, want, judge_rune(bytes))),
        Literal::Text => {
            let mark = judge_text(alloc, bytes)?;
            Ok(wished(s, want, mark))
        }
        Literal::Float => Ok(outside(Limit::Float)),
        Literal::Imag => Ok(outside(Limit::Complex)),
    }
}

#[tactic(auto, unfolding(crate::specs::Rules::literal_rule))]
fn judge_literal(
    alloc: Global,
    u: &Subject,
    s: &State,
    at: NodeRef,
    node: &Node,
    want: Want,
    literal: Literal,
) -> Result<Step, NoMemory>
    requires basics { HasBasics s.now.table }
    requires want { IsWishOf s.now want }
    ensures is { IfOk result (λ step. step_in s.now step ≡ tell (sight s.now) (literal_rule (unit_of u.now) at node.now (wish_of s.now want) literal)) }
    ensures over { IfOk result (IsStepOf s.now) }
{
    let bytes = u.spelled(at.file, node.first);
    let answer = literal_mark(alloc, s, bytes, want, literal)?;
    Ok(Step::Says(answer))
}

#[tactic(auto, unfolding(crate::specs::Rules::dotted_rule))]
fn judge_dotted(
    alloc: Global,
    u: &Subject,
    s: &State,
    at: NodeRef,
    node: &Node,
    parts: &[Seen],
    w: Wanted,
) -> Result<Step, NoMemory>
    requires scene { IsScene u.now s.now }
    requires parts { AreSeenOf s.now parts.now }
    requires wanted { IsWantedOf s.now w }
    ensures is { IfOk result (λ step. step_in s.now step ≡ tell (sight s.now) (dotted_rule (unit_of u.now) at node.now (parts_in s.now parts.now) (wanted_of s.now w))) }
    ensures over { IfOk result (IsStepOf s.now) }
{
    let a = part_at(s, parts, 0);
    let step = judge_selector(alloc, u, s, at, node, a, w)?;
    Ok(step)
}

#[tactic(auto, unfolding(crate::specs::Rules::paren_rule))]
fn judge_paren(s: &State, parts: &[Seen], want: Want) -> Step
    requires basics { HasBasics s.now.table }
    requires parts { AreSeenOf s.now parts.now }
    requires want { IsWishOf s.now want }
    ensures is { step_in s.now result ≡ tell (sight s.now) (paren_rule (parts_in s.now parts.now) (wish_of s.now want)) }
    ensures over { IsStepOf s.now result }
{
    let a = part_at(s, parts, 0);
    used(s, want, a.mark)
}

#[tactic(auto, unfolding(crate::specs::Rules::unary_rule))]
fn judge_unary_node(
    alloc: Global,
    u: &Subject,
    s: &State,
    at: NodeRef,
    node: &Node,
    parts: &[Seen],
    want: Want,
) -> Result<Step, NoMemory>
    requires basics { HasBasics s.now.table }
    requires parts { AreSeenOf s.now parts.now }
    requires want { IsWishOf s.now want }
    ensures is { IfOk result (λ step. step_in s.now step ≡ tell (sight s.now) (unary_rule (unit_of u.now) at node.now (parts_in s.now parts.now) (wish_of s.now want))) }
    ensures over { IfOk result (IsStepOf s.now) }
{
    let op = unary_in(u, at.file, node);
    let a = part_at(s, parts, 0);
    let step = judge_unary(alloc, s, op, a, want)?;
    Ok(step)
}

#[tactic(auto, unfolding(crate::specs::Rules::binary_rule))]
fn judge_binary_node(
    alloc: Global,
    u: &Subject,
    s: &State,
    at: NodeRef,
    node: &Node,
    parts: &[Seen],
    want: Want,
) -> Result<Step, NoMemory>
    requires basics { HasBasics s.now.table }
    requires parts { AreSeenOf s.now parts.now }
    requires want { IsWishOf s.now want }
    ensures is { IfOk result (λ step. step_in s.now step ≡ tell (sight s.now) (binary_rule (unit_of u.now) at node.now (parts_in s.now parts.now) (wish_of s.now want))) }
    ensures over { IfOk result (IsStepOf s.now) }
{
    let op = binary_in(u, at.file, node);
    let a = part_at(s, parts, 0);
    let b = part_at(s, parts, 1);
    let step = judge_binary(alloc, s, op, a, b, want)?;
    Ok(step)
}

#[tactic(auto, unfolding(crate::specs::Rules::form_rule))]
fn judge_form(
    alloc: Global,
    u: &Subject,
    s: &State,
    block: usize,
    at: NodeRef,
    node: &Node,
    parts: &[Seen],
    w: Wanted,
    form: Form,
) -> Result<Step, NoMemory>
    requires scene { IsScene u.now s.now }
    requires parts { AreSeenOf s.now parts.now }
    requires wanted { IsWantedOf s.now w }
    ensures is { IfOk result (λ step. step_in s.now step ≡ tell (sight s.now) (form_rule (unit_of u.now) block at node.now (parts_in s.now parts.now) (wanted_of s.now w) form)) }
    ensures over { IfOk result (IsStepOf s.now) }
{
    match form {
        Form::Literal(literal) => judge_literal(alloc, u, s, at, node, w.want, literal),
        Form::Name => Ok(judge_name(u, s, block, at, node, w)),
        Form::Selector => judge_dotted(alloc, u, s, at, node, parts, w),
        Form::Paren => Ok(judge_paren(s, parts, w.want)),
        Form::Unary => judge_unary_node(alloc, u, s, at, node, parts, w.want),
        Form::Binary => judge_binary_node(alloc, u, s, at, node, parts, w.want),
        Form::Other => Ok(Step::Says(silent())),
    }
}

// ---- the type that is taken

#[tactic(auto, unfolding(crate::specs::Rules::freed))]
fn freed(s: &State, want: Want, under: Option<TypeId>) -> Want
    requires basics { HasBasics s.now.table }
    requires want { IsWishOf s.now want }
    requires under { MayBeTypeOf s.now under }
    ensures is { wish_of s.now result ≡ freed (wish_of s.now want) (option_map (type_in s.now) under) }
    ensures within { IsWishOf s.now result }
{
    if takes_default(s, under) {
        Want::Free
    } else {
        want
    }
}

fn freed_by(u: &Subject, s: &State, want: Want, to: TypeId) -> Found<Want, Item>
    requires scene { IsScene u.now s.now }
    requires want { IsWishOf s.now want }
    requires to { IsTypeOf s.now to }
    ensures is { told_by (wish_of s.now) result ≡ tell (sight s.now) (freed_ask (unit_of u.now) (wish_of s.now want) (type_in s.now to)) }
    ensures within { IfFound result (IsWishOf s.now) }
{
    match under_of(u, s, to) {
        Found::Is(under) => Found::Is(freed(s, want, under)),
        Found::Wait(item) => Found::Wait(item),
    }
}

/// An untyped operand takes its default type where an interface is wanted.
#[tactic(auto, unfolding(crate::specs::Rules::free_ask))]
fn free(u: &Subject, s: &State, want: Want) -> Found<Want, Item>
    requires scene { IsScene u.now s.now }
    requires want { IsWishOf s.now want }
    ensures is { told_by (wish_of s.now) result ≡ tell (sight s.now) (free_ask (unit_of u.now) (wish_of s.now want)) }
    ensures within { IfFound result (IsWishOf s.now) }
{
    match want {
        Want::Free => Found::Is(Want::Free),
        Want::Takes(to) => freed_by(u, s, Want::Takes(to), to),
        Want::Fits(to) => freed_by(u, s, Want::Fits(to), to),
        Want::Assigned(to) => freed_by(u, s, Want::Assigned(to), to),
    }
}

#[tactic(auto, unfolding(crate::specs::Rules::freed_rule))]
fn judge_freed(
    alloc: Global,
    u: &Subject,
    s: &State,
    block: usize,
    at: NodeRef,
    node: &Node,
    parts: &[Seen],
    w: Wanted,
) -> Result<Step, NoMemory>
    requires scene { IsScene u.now s.now }
    requires parts { AreSeenOf s.now parts.now }
    requires wanted { IsWantedOf s.now w }
    ensures is { IfOk result (λ step. step_in s.now step ≡ tell (sight s.now) (freed_rule (unit_of u.now) block at node.now (parts_in s.now parts.now) w.demand (wish_of s.now w.want))) }
    ensures over { IfOk result (IsStepOf s.now) }
{
    let form = form_of(node.kind);
    let step = judge_form(alloc, u, s, block, at, node, parts, w, form)?;
    Ok(step)
}

/// How far the rule of an operand or an operator goes.
pub fn judge_op(
    alloc: Global,
    u: &Subject,
    s: &State,
    block: usize,
    at: NodeRef,
    node: &Node,
    parts: &[Seen],
    wanted: Wanted,
) -> Result<Step, NoMemory>
    requires scene { IsScene u.now s.now }
    requires parts { AreSeenOf s.now parts.now }
    requires wanted { IsWantedOf s.now wanted }
    ensures is { IfOk result (λ step. step_in s.now step ≡ tell (sight s.now) (op_rule (unit_of u.now) block at node.now (parts_in s.now parts.now) (wanted_of s.now wanted))) }
    ensures over { IfOk result (IsStepOf s.now) }
{
    match free(u, s, wanted.want) {
        Found::Is(want) => {
            let demand = wanted.demand;
            let step = judge_freed(alloc, u, s, block, at, node, parts, Wanted { demand, want })?;
            Ok(step)
        }
        Found::Wait(item) => Ok(Step::Waits(item)),
    }
}
