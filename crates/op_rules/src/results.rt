//! What binary operators that are no shifts give of operands that agree (Go 1.17, "Arithmetic operators", "Comparison operators",
//! "Constant expressions").
ghost use Rattle.std.specs.Prelude.{◌≡◌, IfOk};
ghost use Rattle.typed_tree.specs.Basics.{HasBasics};
ghost use Rattle.typed_marks.specs.Meanings.{constant_at};
ghost use Rattle.rule_words.specs.Scenes.{type_in, IsTypeOf};
ghost use Rattle.rule_words.specs.Answers.{answer_in, IsAnswerOf};
ghost use Rattle.rule_words.specs.Wishes.{IsWishOf, wish_of};
ghost use Rattle.op_rules.specs.Results.{result_type, beside_value, two_valued, result_at, result_of, undivided, divides_by_zero, result_mark};
ghost use Rattle.op_rules.specs.InCode.{operand_in, IsOperandOf};

use crate::operand::Operand;
use crate::operators::{compares, divides};
use crate::shift::value_of_two;
use crate::types::common;
use crate::values::{computed, folded, is_zero};
use const_eval::Operator;
use gv_base::{Const, Kind, NoMemory};
use rule_words::Answer;
use rule_words::answered::bad;
use rule_words::good::basic_type;
use rule_words::values::value_at;
use std::alloc::Global;
use type_model::TypeId;
use typed_marks::{ConstId, State, Want};
use typed_tree::DIVISION_BY_ZERO;

/// A comparison gives an untyped boolean.
#[tactic(auto, unfolding(crate::specs::Results::result_type))]
fn result_type(s: &State, op: Operator, of: TypeId) -> TypeId
    requires basics { HasBasics s.now.table }
    requires of { IsTypeOf s.now of }
    ensures is { type_in s.now result ≡ result_type op (type_in s.now of) }
    ensures within { IsTypeOf s.now result }
{
    if compares(op) {
        basic_type(s, Kind::UntypedBool)
    } else {
        of
    }
}

#[tactic(auto, unfolding(crate::specs::Results::beside_value))]
fn beside_value(
    alloc: Global,
    s: &State,
    op: Operator,
    at: TypeId,
    of: TypeId,
    want: Want,
    c: &Const,
    value: Option<ConstId>,
) -> Result<Answer, NoMemory>
    requires basics { HasBasics s.now.table }
    requires at { IsTypeOf s.now at }
    requires of { IsTypeOf s.now of }
    requires want { IsWishOf s.now want }
    ensures is { IfOk result (λ answer. answer_in s.now answer ≡ beside_value op (type_in s.now at) (type_in s.now of) (wish_of s.now want) c.now (constant_at s.now.constants.items value)) }
    ensures over { IfOk result (IsAnswerOf s.now) }
{
    match value_at(s, value) {
        Some(d) => {
            let answer = value_of_two(alloc, op, c, d)?;
            Ok(folded(s, at, of, want, answer))
        }
        None => Ok(computed(s, of, want)),
    }
}

#[tactic(auto, unfolding(crate::specs::Results::two_valued))]
fn two_valued(
    alloc: Global,
    s: &State,
    op: Operator,
    at: TypeId,
    of: TypeId,
    want: Want,
    x: Option<ConstId>,
    y: Option<ConstId>,
) -> Result<Answer, NoMemory>
    requires basics { HasBasics s.now.table }
    requires at { IsTypeOf s.now at }
    requires of { IsTypeOf s.now of }
    requires want { IsWishOf s.now want }
    ensures is { IfOk result (λ answer. answer_in s.now answer ≡ two_valued op (type_in s.now at) (type_in s.now of) (wish_of s.now want) (constant_at s.now.constants.items x) (constant_at s.now.constants.items y)) }
    ensures over { IfOk result (IsAnswerOf s.now) }
{
    match value_at(s, x) {
        Some(c) => {
            let answer = beside_value(alloc, s, op, at, of, want, c, y)?;
            Ok(answer)
        }
        None => Ok(computed(s, of, want)),
    }
}

/// The type at which constants are counted.
#[tactic(auto, unfolding(crate::specs::Results::result_at))]
fn result_at(s: &State, op: Operator, x: Operand, y: Operand) -> TypeId
    requires basics { HasBasics s.now.table }
    requires first { IsOperandOf s.now x }
    requires second { IsOperandOf s.now y }
    ensures is { type_in s.now result ≡ result_at op (operand_in s.now x) (operand_in s.now y) }
    ensures within { IsTypeOf s.now result }
{
    let at = common(s, x.at, y.at);
    result_type(s, op, at)
}

/// The type of the result.
#[tactic(auto, unfolding(crate::specs::Results::result_of))]
fn result_of(s: &State, op: Operator, x: Operand, y: Operand) -> TypeId
    requires basics { HasBasics s.now.table }
    requires first { IsOperandOf s.now x }
    requires second { IsOperandOf s.now y }
    ensures is { type_in s.now result ≡ result_of op (operand_in s.now x) (operand_in s.now y) }
    ensures within { IsTypeOf s.now result }
{
    let of = common(s, x.of, y.of);
    result_type(s, op, of)
}

#[tactic(auto, unfolding(crate::specs::Results::undivided))]
fn undivided(
    alloc: Global,
    s: &State,
    op: Operator,
    x: Operand,
    y: Operand,
    want: Want,
) -> Result<Answer, NoMemory>
    requires basics { HasBasics s.now.table }
    requires first { IsOperandOf s.now x }
    requires second { IsOperandOf s.now y }
    requires want { IsWishOf s.now want }
    ensures is { IfOk result (λ answer. answer_in s.now answer ≡ undivided op (operand_in s.now x) (operand_in s.now y) (wish_of s.now want)) }
    ensures over { IfOk result (IsAnswerOf s.now) }
{
    let at = result_at(s, op, x, y);
    let of = result_of(s, op, x, y);
    let answer = two_valued(alloc, s, op, at, of, want, x.value, y.value)?;
    Ok(answer)
}

/// The operator divides by the constant zero.
#[tactic(auto, unfolding(crate::specs::Results::divides_by_zero))]
fn divides_by_zero(s: &State, op: Operator, y: Operand) -> bool
    ensures { result ≡ divides_by_zero op (operand_in s.now y) }
{
    divides(op) && is_zero(s, y.value)
}

/// The mark of operands that agree: E31, E30.
#[tactic(auto, unfolding(crate::specs::Results::result_mark))]
pub fn judge_result(
    alloc: Global,
    s: &State,
    op: Operator,
    x: Operand,
    y: Operand,
    want: Want,
) -> Result<Answer, NoMemory>
    requires basics { HasBasics s.now.table }
    requires first { IsOperandOf s.now x }
    requires second { IsOperandOf s.now y }
    requires want { IsWishOf s.now want }
    ensures is { IfOk result (λ answer. answer_in s.now answer ≡ result_mark op (operand_in s.now x) (operand_in s.now y) (wish_of s.now want)) }
    ensures over { IfOk result (IsAnswerOf s.now) }
{
    // E31
    if divides_by_zero(s, op, y) {
        return Ok(bad(DIVISION_BY_ZERO));
    }
    let answer = undivided(alloc, s, op, x, y, want)?;
    Ok(answer)
}
