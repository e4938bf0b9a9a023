//! Unary expressions `+x -x !x ^x` (Go 1.17, "Arithmetic operators", "Logical operators").
ghost use Rattle.std.specs.Prelude.{◌≡◌, IfOk};
ghost use Rattle.mark_walk.specs.Telling.{tell};
ghost use Rattle.typed_tree.specs.Basics.{HasBasics};
ghost use Rattle.typed_tree.specs.Operands.{takes_alone};
ghost use Rattle.rule_words.specs.Scenes.{sight, type_in, IsTypeOf, part_in, IsSeenOf};
ghost use Rattle.rule_words.specs.Answers.{answer_in, IsAnswerOf};
ghost use Rattle.rule_words.specs.Steps.{step_in, IsStepOf};
ghost use Rattle.rule_words.specs.Types.{is_of};
ghost use Rattle.rule_words.specs.Wishes.{IsWishOf, wish_of};
ghost use Rattle.op_rules.specs.Unary.{value_of_one, one_valued, unary_mark, unary_of_part, unary_with, unary_by};
ghost use Rattle.op_rules.specs.InCode.{operand_in, IsOperandOf};

use crate::operand::{Operand, operand_at};
use crate::operators::{mark_of, takes_address, takes_alone};
use crate::values::{computed, folded};
use const_eval::{ConstAnswer, Operator, unary};
use gv_base::{Const, NoMemory};
use rule_words::answered::{bad, silent};
use rule_words::types::kind_of;
use rule_words::values::value_at;
use rule_words::{Answer, Seen, Step};
use std::alloc::Global;
use type_model::TypeId;
use typed_marks::{State, Want};
use typed_tree::OPERATOR_NOT_DEFINED;

#[tactic(auto, unfolding(rule_words::specs::Types::is_of))]
fn is_defined(s: &State, op: Operator, at: TypeId) -> bool
    requires basics { HasBasics s.now.table }
    requires within { IsTypeOf s.now at }
    ensures { result ≡ is_of (takes_alone op) (type_in s.now at) }
{
    match kind_of(s, at) {
        Some(kind) => takes_alone(op, kind),
        None => false,
    }
}

fn value_of_one(
    alloc: Global,
    s: &State,
    op: Operator,
    at: TypeId,
    c: &Const,
) -> Result<ConstAnswer, NoMemory>
    requires basics { HasBasics s.now.table }
    requires within { IsTypeOf s.now at }
    ensures { IfOk result (λ answer. answer ≡ value_of_one op (type_in s.now at) c.now) }
{
    match kind_of(s, at) {
        Some(kind) => {
            let answer = unary(alloc, mark_of(op), c, kind)?;
            Ok(answer)
        }
        None => Ok(ConstAnswer::BadOperands),
    }
}

fn one_valued(
    alloc: Global,
    s: &State,
    op: Operator,
    x: Operand,
    want: Want,
) -> Result<Answer, NoMemory>
    requires basics { HasBasics s.now.table }
    requires operand { IsOperandOf s.now x }
    requires want { IsWishOf s.now want }
    ensures is { IfOk result (λ answer. answer_in s.now answer ≡ one_valued op (operand_in s.now x) (wish_of s.now want) (operand_in s.now x).value) }
    ensures over { IfOk result (IsAnswerOf s.now) }
{
    match value_at(s, x.value) {
        Some(c) => {
            let answer = value_of_one(alloc, s, op, x.at, c)?;
            Ok(folded(s, x.at, x.of, want, answer))
        }
        None => Ok(computed(s, x.of, want)),
    }
}

fn judge_operand(
    alloc: Global,
    s: &State,
    op: Operator,
    x: Operand,
    want: Want,
) -> Result<Answer, NoMemory>
    requires basics { HasBasics s.now.table }
    requires operand { IsOperandOf s.now x }
    requires want { IsWishOf s.now want }
    ensures is { IfOk result (λ answer. answer_in s.now answer ≡ unary_mark op (wish_of s.now want) (operand_in s.now x)) }
    ensures over { IfOk result (IsAnswerOf s.now) }
{
    // E34
    if !is_defined(s, op, x.at) {
        return Ok(bad(OPERATOR_NOT_DEFINED));
    }
    let answer = one_valued(alloc, s, op, x, want)?;
    Ok(answer)
}

fn judge_part(alloc: Global, s: &State, op: Operator, a: Seen, want: Want) -> Result<Step, NoMemory>
    requires basics { HasBasics s.now.table }
    requires part { IsSeenOf s.now a }
    requires want { IsWishOf s.now want }
    ensures is { IfOk result (λ step. step_in s.now step ≡ tell (sight s.now) (unary_of_part op (part_in s.now a) (wish_of s.now want))) }
    ensures over { IfOk result (IsStepOf s.now) }
{
    match operand_at(s, a) {
        Some(x) => {
            let answer = judge_operand(alloc, s, op, x, want)?;
            Ok(Step::Says(answer))
        }
        None => Ok(Step::Says(silent())),
    }
}

fn judge_operator(
    alloc: Global,
    s: &State,
    op: Operator,
    a: Seen,
    want: Want,
) -> Result<Step, NoMemory>
    requires basics { HasBasics s.now.table }
    requires part { IsSeenOf s.now a }
    requires want { IsWishOf s.now want }
    ensures is { IfOk result (λ step. step_in s.now step ≡ tell (sight s.now) (unary_with op (part_in s.now a) (wish_of s.now want))) }
    ensures over { IfOk result (IsStepOf s.now) }
{
    if takes_address(op) {
        return Ok(Step::Says(silent()));
    }
    let step = judge_part(alloc, s, op, a, want)?;
    Ok(step)
}

/// How far the rule of a unary expression goes: E34, E30.
#[tactic(auto, unfolding(crate::specs::Unary::unary_by))]
pub fn judge_unary(
    alloc: Global,
    s: &State,
    op: Option<Operator>,
    a: Seen,
    want: Want,
) -> Result<Step, NoMemory>
    requires basics { HasBasics s.now.table }
    requires part { IsSeenOf s.now a }
    requires want { IsWishOf s.now want }
    ensures is { IfOk result (λ step. step_in s.now step ≡ tell (sight s.now) (unary_by op (part_in s.now a) (wish_of s.now want))) }
    ensures over { IfOk result (IsStepOf s.now) }
{
    match op {
        Some(op) => {
            let step = judge_operator(alloc, s, op, a, want)?;
            Ok(step)
        }
        None => Ok(Step::Says(silent())),
    }
}
