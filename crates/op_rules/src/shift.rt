//! Shifts (Go 1.17, "Operators", "Constant expressions").
ghost use Rattle.std.specs.Prelude.{◌≡◌, IfOk, Some};
ghost use Rattle.const_eval.specs.Meaning.{on_operands};
ghost use Rattle.mark_walk.specs.Telling.{tell};
ghost use Rattle.typed_tree.specs.Basics.{HasBasics};
ghost use Rattle.typed_tree.specs.Operands.{is_natural};
ghost use Rattle.typed_marks.specs.Meanings.{constant_at};
ghost use Rattle.rule_words.specs.Scenes.{sight, type_in, IsTypeOf, part_in, IsSeenOf};
ghost use Rattle.rule_words.specs.Answers.{answer_in, IsAnswerOf};
ghost use Rattle.rule_words.specs.Steps.{step_in, IsStepOf};
ghost use Rattle.rule_words.specs.Wishes.{IsWishOf, wish_of};
ghost use Rattle.op_rules.specs.Shifts.{counts_by, is_count, shifted_type, shift_valued, is_shiftable, shift_mark, shift_beside, shift_by, shift_of_parts};
ghost use Rattle.op_rules.specs.InCode.{operand_in, IsOperandOf};

use crate::operand::{Operand, operand_at};
use crate::operators::mark_of;
use crate::values::{computed, folded};
use const_eval::{ConstAnswer, Operator, binary};
use gv_base::{Const, Kind, NoMemory};
use rule_words::answered::{bad, silent};
use rule_words::good::basic_type;
use rule_words::types::{is_integer, is_untyped};
use rule_words::values::{fits_in, value_at};
use rule_words::{Answer, Seen, Step};
use std::alloc::Global;
use type_model::TypeId;
use typed_marks::{ConstId, State, Want};
use typed_tree::{BAD_SHIFT_COUNT, SHIFTED_OPERAND_IS_NOT_AN_INTEGER};

/// An integer that isn't negative.
fn is_natural(c: &Const) -> bool
    ensures { result ≡ is_natural c.now }
{
    match c {
        Const::Int(n) => *n >= 0,
        Const::Truth(_) => false,
        Const::Text(_) => false,
    }
}

fn counts_by(s: &State, of: TypeId, c: &Const) -> bool
    requires basics { HasBasics s.now.table }
    requires of { IsTypeOf s.now of }
    ensures { result ≡ counts_by (type_in s.now of) c.now }
{
    if is_untyped(s, of) {
        fits_in(c, Kind::Uint)
    } else {
        is_natural(c)
    }
}

fn is_count(s: &State, of: TypeId, value: Option<ConstId>, under: TypeId) -> bool
    requires basics { HasBasics s.now.table }
    requires of { IsTypeOf s.now of }
    requires under { IsTypeOf s.now under }
    ensures { result ≡ is_count (type_in s.now of) (constant_at s.now.constants.items value) (type_in s.now under) }
{
    match value_at(s, value) {
        Some(c) => counts_by(s, of, c),
        None => is_integer(s, under),
    }
}

fn shifted_type(s: &State, of: TypeId) -> TypeId
    requires basics { HasBasics s.now.table }
    requires of { IsTypeOf s.now of }
    ensures is { type_in s.now result ≡ shifted_type (type_in s.now of) }
    ensures within { IsTypeOf s.now result }
{
    if is_untyped(s, of) {
        basic_type(s, Kind::UntypedInt)
    } else {
        of
    }
}

/// What two constants give.
pub fn value_of_two(
    alloc: Global,
    op: Operator,
    c: &Const,
    d: &Const,
) -> Result<ConstAnswer, NoMemory>
    ensures { IfOk result (λ answer. answer ≡ on_operands op c.now d.now) }
{
    let answer = binary(alloc, mark_of(op), c, d)?;
    Ok(answer)
}

fn shift_beside(
    alloc: Global,
    s: &State,
    op: Operator,
    x: Operand,
    want: Want,
    c: &Const,
    value: Option<ConstId>,
) -> Result<Answer, NoMemory>
    requires basics { HasBasics s.now.table }
    requires operand { IsOperandOf s.now x }
    requires want { IsWishOf s.now want }
    ensures is { IfOk result (λ answer. answer_in s.now answer ≡ shift_beside op (operand_in s.now x) (wish_of s.now want) c.now (constant_at s.now.constants.items value)) }
    ensures over { IfOk result (IsAnswerOf s.now) }
{
    match value_at(s, value) {
        Some(d) => {
            let answer = value_of_two(alloc, op, c, d)?;
            Ok(folded(
                s,
                shifted_type(s, x.at),
                shifted_type(s, x.of),
                want,
                answer,
            ))
        }
        None => Ok(computed(s, x.of, want)),
    }
}

fn shift_valued(
    alloc: Global,
    s: &State,
    op: Operator,
    x: Operand,
    want: Want,
    count: Option<ConstId>,
) -> Result<Answer, NoMemory>
    requires basics { HasBasics s.now.table }
    requires operand { IsOperandOf s.now x }
    requires want { IsWishOf s.now want }
    ensures is { IfOk result (λ answer. answer_in s.now answer ≡ shift_valued op (operand_in s.now x) (wish_of s.now want) (operand_in s.now x).value (constant_at s.now.constants.items count)) }
    ensures over { IfOk result (IsAnswerOf s.now) }
{
    match value_at(s, x.value) {
        Some(c) => {
            let answer = shift_beside(alloc, s, op, x, want, c, count)?;
            Ok(answer)
        }
        None => Ok(computed(s, x.of, want)),
    }
}

/// An integer whose final type is an integer type too.
#[tactic(auto, unfolding(crate::specs::Shifts::is_shiftable))]
fn is_shiftable(s: &State, x: Operand) -> bool
    requires basics { HasBasics s.now.table }
    requires operand { IsOperandOf s.now x }
    ensures { result ≡ is_shiftable (operand_in s.now x) }
{
    is_integer(s, x.at) && is_integer(s, x.under)
}

/// The mark of a shift: E36, E37, E30.
fn judge_operands(
    alloc: Global,
    s: &State,
    op: Operator,
    x: Operand,
    count: Operand,
    want: Want,
) -> Result<Answer, NoMemory>
    requires basics { HasBasics s.now.table }
    requires operand { IsOperandOf s.now x }
    requires count { IsOperandOf s.now count }
    requires want { IsWishOf s.now want }
    ensures is { IfOk result (λ answer. answer_in s.now answer ≡ shift_mark op (operand_in s.now x) (operand_in s.now count) (wish_of s.now want)) }
    ensures over { IfOk result (IsAnswerOf s.now) }
{
    // E36
    if !is_count(s, count.of, count.value, count.under) {
        return Ok(bad(BAD_SHIFT_COUNT));
    }
    // E37
    if !is_shiftable(s, x) {
        return Ok(bad(SHIFTED_OPERAND_IS_NOT_AN_INTEGER));
    }
    let answer = shift_valued(alloc, s, op, x, want, count.value)?;
    Ok(answer)
}

fn judge_count(
    alloc: Global,
    s: &State,
    op: Operator,
    x: Operand,
    b: Seen,
    want: Want,
) -> Result<Step, NoMemory>
    requires basics { HasBasics s.now.table }
    requires operand { IsOperandOf s.now x }
    requires count { IsSeenOf s.now b }
    requires want { IsWishOf s.now want }
    ensures is { IfOk result (λ step. step_in s.now step ≡ tell (sight s.now) (shift_by op (part_in s.now b) (wish_of s.now want) (operand_in s.now x))) }
    ensures over { IfOk result (IsStepOf s.now) }
{
    match operand_at(s, b) {
        Some(count) => {
            let answer = judge_operands(alloc, s, op, x, count, want)?;
            Ok(Step::Says(answer))
        }
        None => Ok(Step::Says(silent())),
    }
}

/// How far the rule of a shift goes.
#[tactic(auto, unfolding(crate::specs::Shifts::shift_of_parts))]
pub fn judge_shift(
    alloc: Global,
    s: &State,
    op: Operator,
    a: Seen,
    b: Seen,
    want: Want,
) -> Result<Step, NoMemory>
    requires basics { HasBasics s.now.table }
    requires first { IsSeenOf s.now a }
    requires second { IsSeenOf s.now b }
    requires want { IsWishOf s.now want }
    ensures is { IfOk result (λ step. step_in s.now step ≡ tell (sight s.now) (shift_of_parts op (part_in s.now a) (part_in s.now b) (wish_of s.now want))) }
    ensures over { IfOk result (IsStepOf s.now) }
{
    match operand_at(s, a) {
        Some(x) => {
            let step = judge_count(alloc, s, op, x, b, want)?;
            Ok(step)
        }
        None => Ok(Step::Says(silent())),
    }
}
