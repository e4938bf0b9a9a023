//! Binary expressions (Go 1.17, "Operators", "Comparison operators").
ghost use Rattle.std.specs.Prelude.{◌≡◌, IfOk};
ghost use Rattle.mark_walk.specs.Telling.{tell};
ghost use Rattle.typed_tree.specs.Basics.{HasBasics};
ghost use Rattle.rule_words.specs.Scenes.{sight, part_in, IsSeenOf};
ghost use Rattle.rule_words.specs.Steps.{step_in, IsStepOf};
ghost use Rattle.rule_words.specs.Wishes.{IsWishOf, wish_of};
ghost use Rattle.op_rules.specs.Binary.{both_typed, second_untyped, first_untyped, first_typed, combined, combined_by, combined_of_parts, binary_of_parts, binary_by};
ghost use Rattle.op_rules.specs.InCode.{operand_in, IsOperandOf};

use crate::beside::{agrees, goes_beside};
use crate::comparing::judge_agreed;
use crate::different::judge_different;
use crate::operand::{Operand, operand_at};
use crate::operators::shifts;
use crate::shift::judge_shift;
use crate::types::are_one;
use const_eval::Operator;
use gv_base::NoMemory;
use rule_words::answered::{bad, silent};
use rule_words::types::is_untyped;
use rule_words::{Seen, Step};
use std::alloc::Global;
use typed_marks::{State, Want};
use typed_tree::MISMATCHED_OPERANDS;

// ---- E33

#[tactic(auto, unfolding(crate::specs::Binary::both_typed))]
fn judge_typed(
    alloc: Global,
    s: &State,
    op: Operator,
    x: Operand,
    y: Operand,
    want: Want,
) -> Result<Step, NoMemory>
    requires basics { HasBasics s.now.table }
    requires first { IsOperandOf s.now x }
    requires second { IsOperandOf s.now y }
    requires want { IsWishOf s.now want }
    ensures is { IfOk result (λ step. step_in s.now step ≡ tell (sight s.now) (both_typed op (operand_in s.now x) (operand_in s.now y) (wish_of s.now want))) }
    ensures over { IfOk result (IsStepOf s.now) }
{
    if !are_one(s, x.of, y.of) {
        return Ok(judge_different(s, op, x, y, want));
    }
    let step = judge_agreed(alloc, s, op, x, y, want)?;
    Ok(step)
}

#[tactic(auto, unfolding(crate::specs::Binary::second_untyped))]
fn judge_untyped_second(
    alloc: Global,
    s: &State,
    op: Operator,
    x: Operand,
    y: Operand,
    want: Want,
) -> Result<Step, NoMemory>
    requires basics { HasBasics s.now.table }
    requires first { IsOperandOf s.now x }
    requires second { IsOperandOf s.now y }
    requires want { IsWishOf s.now want }
    ensures is { IfOk result (λ step. step_in s.now step ≡ tell (sight s.now) (second_untyped op (operand_in s.now x) (operand_in s.now y) (wish_of s.now want))) }
    ensures over { IfOk result (IsStepOf s.now) }
{
    // E33
    if !goes_beside(s, y, x.at) {
        return Ok(Step::Says(bad(MISMATCHED_OPERANDS)));
    }
    let step = judge_agreed(alloc, s, op, x, y, want)?;
    Ok(step)
}

#[tactic(auto, unfolding(crate::specs::Binary::first_untyped))]
fn judge_untyped_first(
    alloc: Global,
    s: &State,
    op: Operator,
    x: Operand,
    y: Operand,
    want: Want,
) -> Result<Step, NoMemory>
    requires basics { HasBasics s.now.table }
    requires first { IsOperandOf s.now x }
    requires second { IsOperandOf s.now y }
    requires want { IsWishOf s.now want }
    ensures is { IfOk result (λ step. step_in s.now step ≡ tell (sight s.now) (first_untyped op (operand_in s.now x) (operand_in s.now y) (wish_of s.now want))) }
    ensures over { IfOk result (IsStepOf s.now) }
{
    // E33
    if !agrees(s, x, y) {
        return Ok(Step::Says(bad(MISMATCHED_OPERANDS)));
    }
    let step = judge_agreed(alloc, s, op, x, y, want)?;
    Ok(step)
}

#[tactic(auto, unfolding(crate::specs::Binary::first_typed))]
fn judge_typed_first(
    alloc: Global,
    s: &State,
    op: Operator,
    x: Operand,
    y: Operand,
    want: Want,
) -> Result<Step, NoMemory>
    requires basics { HasBasics s.now.table }
    requires first { IsOperandOf s.now x }
    requires second { IsOperandOf s.now y }
    requires want { IsWishOf s.now want }
    ensures is { IfOk result (λ step. step_in s.now step ≡ tell (sight s.now) (first_typed op (operand_in s.now x) (operand_in s.now y) (wish_of s.now want))) }
    ensures over { IfOk result (IsStepOf s.now) }
{
    if is_untyped(s, y.of) {
        let step = judge_untyped_second(alloc, s, op, x, y, want)?;
        return Ok(step);
    }
    let step = judge_typed(alloc, s, op, x, y, want)?;
    Ok(step)
}

/// E33, E34, E35, E31, E30.
#[tactic(auto, unfolding(crate::specs::Binary::combined))]
fn judge_combined(
    alloc: Global,
    s: &State,
    op: Operator,
    x: Operand,
    y: Operand,
    want: Want,
) -> Result<Step, NoMemory>
    requires basics { HasBasics s.now.table }
    requires first { IsOperandOf s.now x }
    requires second { IsOperandOf s.now y }
    requires want { IsWishOf s.now want }
    ensures is { IfOk result (λ step. step_in s.now step ≡ tell (sight s.now) (combined op (operand_in s.now x) (operand_in s.now y) (wish_of s.now want))) }
    ensures over { IfOk result (IsStepOf s.now) }
{
    if is_untyped(s, x.of) {
        let step = judge_untyped_first(alloc, s, op, x, y, want)?;
        return Ok(step);
    }
    let step = judge_typed_first(alloc, s, op, x, y, want)?;
    Ok(step)
}

// ---- nodes

#[tactic(auto, unfolding(crate::specs::Binary::combined_by))]
fn judge_second(
    alloc: Global,
    s: &State,
    op: Operator,
    x: Operand,
    b: Seen,
    want: Want,
) -> Result<Step, NoMemory>
    requires basics { HasBasics s.now.table }
    requires first { IsOperandOf s.now x }
    requires second { IsSeenOf s.now b }
    requires want { IsWishOf s.now want }
    ensures is { IfOk result (λ step. step_in s.now step ≡ tell (sight s.now) (combined_by op (part_in s.now b) (wish_of s.now want) (operand_in s.now x))) }
    ensures over { IfOk result (IsStepOf s.now) }
{
    match operand_at(s, b) {
        Some(y) => {
            let step = judge_combined(alloc, s, op, x, y, want)?;
            Ok(step)
        }
        None => Ok(Step::Says(silent())),
    }
}

#[tactic(auto, unfolding(crate::specs::Binary::combined_of_parts))]
fn judge_parts(
    alloc: Global,
    s: &State,
    op: Operator,
    a: Seen,
    b: Seen,
    want: Want,
) -> Result<Step, NoMemory>
    requires basics { HasBasics s.now.table }
    requires first { IsSeenOf s.now a }
    requires second { IsSeenOf s.now b }
    requires want { IsWishOf s.now want }
    ensures is { IfOk result (λ step. step_in s.now step ≡ tell (sight s.now) (combined_of_parts op (part_in s.now a) (part_in s.now b) (wish_of s.now want))) }
    ensures over { IfOk result (IsStepOf s.now) }
{
    match operand_at(s, a) {
        Some(x) => {
            let step = judge_second(alloc, s, op, x, b, want)?;
            Ok(step)
        }
        None => Ok(Step::Says(silent())),
    }
}

#[tactic(auto, unfolding(crate::specs::Binary::binary_of_parts))]
fn judge_operator(
    alloc: Global,
    s: &State,
    op: Operator,
    a: Seen,
    b: Seen,
    want: Want,
) -> Result<Step, NoMemory>
    requires basics { HasBasics s.now.table }
    requires first { IsSeenOf s.now a }
    requires second { IsSeenOf s.now b }
    requires want { IsWishOf s.now want }
    ensures is { IfOk result (λ step. step_in s.now step ≡ tell (sight s.now) (binary_of_parts op (part_in s.now a) (part_in s.now b) (wish_of s.now want))) }
    ensures over { IfOk result (IsStepOf s.now) }
{
    if shifts(op) {
        let step = judge_shift(alloc, s, op, a, b, want)?;
        return Ok(step);
    }
    let step = judge_parts(alloc, s, op, a, b, want)?;
    Ok(step)
}

/// How far the rule of a binary expression goes: E33, E34, E35, E31, E30; of a shift E36, E37, E30.
#[tactic(auto, unfolding(crate::specs::Binary::binary_by))]
pub fn judge_binary(
    alloc: Global,
    s: &State,
    op: Option<Operator>,
    a: Seen,
    b: Seen,
    want: Want,
) -> Result<Step, NoMemory>
    requires basics { HasBasics s.now.table }
    requires first { IsSeenOf s.now a }
    requires second { IsSeenOf s.now b }
    requires want { IsWishOf s.now want }
    ensures is { IfOk result (λ step. step_in s.now step ≡ tell (sight s.now) (binary_by op (part_in s.now a) (part_in s.now b) (wish_of s.now want))) }
    ensures over { IfOk result (IsStepOf s.now) }
{
    match op {
        Some(op) => {
            let step = judge_operator(alloc, s, op, a, b, want)?;
            Ok(step)
        }
        None => Ok(Step::Says(silent())),
    }
}
