//! Operands that agree: whether the operator is defined for them, and whether they are comparable (Go 1.17, "Arithmetic operators",
//! "Comparison operators", "Logical operators").
ghost use Rattle.std.specs.Prelude.{◌≡◌, true, IfOk};
ghost use Rattle.mark_walk.specs.Telling.{tell};
ghost use Rattle.typed_tree.specs.Basics.{HasBasics};
ghost use Rattle.rule_words.specs.Scenes.{sight, said, IsMarkOf, type_in, IsTypeOf};
ghost use Rattle.rule_words.specs.Answers.{is_plain};
ghost use Rattle.rule_words.specs.Steps.{step_in, IsStepOf};
ghost use Rattle.rule_words.specs.Wishes.{IsWishOf, wish_of};
ghost use Rattle.op_rules.specs.Comparing.{truth, has_nil, comparable_ask, type_compared, basic_compared, equated, is_defined_at, operated, agreed};
ghost use Rattle.op_rules.specs.InCode.{operand_in, IsOperandOf};

use crate::operand::Operand;
use crate::operators::{equates, takes_two, tells_apart};
use crate::results::judge_result;
use crate::types::{common, is_nil_type};
use const_eval::Operator;
use gv_base::{Kind, NoMemory};
use rule_words::answered::bad;
use rule_words::good::basic_type;
use rule_words::types::kind_of;
use rule_words::{Answer, Asked, Rest, Step, operand};
use std::alloc::Global;
use type_model::TypeId;
use typed_marks::{Mark, State, Want};
use typed_tree::{Mode, NOT_COMPARABLE, OPERATOR_NOT_DEFINED};

/// A comparison that is no constant.
#[tactic(auto, unfolding(crate::specs::Comparing::truth))]
pub fn truth(s: &State, want: Want) -> Mark
    requires basics { HasBasics s.now.table }
    requires want { IsWishOf s.now want }
    ensures is { said s.now result ≡ truth (wish_of s.now want) }
    ensures over { IsMarkOf s.now result }
    ensures plain { is_plain result ≡ true }
{
    let of = basic_type(s, Kind::UntypedBool);
    operand(s, Mode::Value, of, None, want)
}

// ---- E35

#[tactic(auto, unfolding(crate::specs::Comparing::has_nil))]
fn has_nil(s: &State, x: Operand, y: Operand) -> bool
    requires basics { HasBasics s.now.table }
    requires first { IsOperandOf s.now x }
    requires second { IsOperandOf s.now y }
    ensures { result ≡ has_nil (operand_in s.now x) (operand_in s.now y) }
{
    is_nil_type(s, x.of) || is_nil_type(s, y.of)
}

#[tactic(auto, unfolding(crate::specs::Comparing::comparable_ask))]
fn ask_comparable(s: &State, of: TypeId, good: Mark) -> Step
    requires of { IsTypeOf s.now of }
    requires good { IsMarkOf s.now good }
    requires plain { is_plain good ≡ true }
    ensures is { step_in s.now result ≡ tell (sight s.now) (comparable_ask (type_in s.now of) (said s.now good)) }
    ensures over { IsStepOf s.now result }
{
    Step::Puts(Asked::Comparable(of), Rest::Held(good, NOT_COMPARABLE))
}

/// Operands of types that are not basic.
#[tactic(auto, unfolding(crate::specs::Comparing::type_compared))]
fn compare_types(s: &State, x: Operand, y: Operand, want: Want) -> Step
    requires basics { HasBasics s.now.table }
    requires first { IsOperandOf s.now x }
    requires second { IsOperandOf s.now y }
    requires want { IsWishOf s.now want }
    ensures is { step_in s.now result ≡ tell (sight s.now) (type_compared (operand_in s.now x) (operand_in s.now y) (wish_of s.now want)) }
    ensures over { IsStepOf s.now result }
{
    let good = truth(s, want);
    if has_nil(s, x, y) {
        return Step::Says(Answer::Mark(good));
    }
    let of = common(s, x.of, y.of);
    ask_comparable(s, of, good)
}

/// Operands of a basic type.
#[tactic(auto, unfolding(crate::specs::Comparing::basic_compared))]
fn compare_basic(
    alloc: Global,
    s: &State,
    op: Operator,
    x: Operand,
    y: Operand,
    want: Want,
    kind: Kind,
) -> Result<Step, NoMemory>
    requires basics { HasBasics s.now.table }
    requires first { IsOperandOf s.now x }
    requires second { IsOperandOf s.now y }
    requires want { IsWishOf s.now want }
    ensures is { IfOk result (λ step. step_in s.now step ≡ tell (sight s.now) (basic_compared op (operand_in s.now x) (operand_in s.now y) (wish_of s.now want) kind)) }
    ensures over { IfOk result (IsStepOf s.now) }
{
    // E35
    if !tells_apart(op, kind) {
        return Ok(Step::Says(bad(NOT_COMPARABLE)));
    }
    let answer = judge_result(alloc, s, op, x, y, want)?;
    Ok(Step::Says(answer))
}

#[tactic(auto, unfolding(crate::specs::Comparing::equated))]
fn judge_equated(
    alloc: Global,
    s: &State,
    op: Operator,
    x: Operand,
    y: Operand,
    want: Want,
    at: TypeId,
) -> Result<Step, NoMemory>
    requires basics { HasBasics s.now.table }
    requires first { IsOperandOf s.now x }
    requires second { IsOperandOf s.now y }
    requires want { IsWishOf s.now want }
    requires at { IsTypeOf s.now at }
    ensures is { IfOk result (λ step. step_in s.now step ≡ tell (sight s.now) (equated op (operand_in s.now x) (operand_in s.now y) (wish_of s.now want) (type_in s.now at))) }
    ensures over { IfOk result (IsStepOf s.now) }
{
    match kind_of(s, at) {
        Some(kind) => {
            let step = compare_basic(alloc, s, op, x, y, want, kind)?;
            Ok(step)
        }
        None => Ok(compare_types(s, x, y, want)),
    }
}

// ---- E34

#[tactic(auto, unfolding(crate::specs::Comparing::is_defined_at))]
fn is_defined_at(s: &State, op: Operator, at: TypeId) -> bool
    requires basics { HasBasics s.now.table }
    requires at { IsTypeOf s.now at }
    ensures { result ≡ is_defined_at op (type_in s.now at) }
{
    match kind_of(s, at) {
        Some(kind) => takes_two(op, kind),
        None => equates(op),
    }
}

#[tactic(auto, unfolding(crate::specs::Comparing::operated))]
fn judge_operated(
    alloc: Global,
    s: &State,
    op: Operator,
    x: Operand,
    y: Operand,
    want: Want,
    at: TypeId,
) -> Result<Step, NoMemory>
    requires basics { HasBasics s.now.table }
    requires first { IsOperandOf s.now x }
    requires second { IsOperandOf s.now y }
    requires want { IsWishOf s.now want }
    requires at { IsTypeOf s.now at }
    ensures is { IfOk result (λ step. step_in s.now step ≡ tell (sight s.now) (operated op (operand_in s.now x) (operand_in s.now y) (wish_of s.now want) (type_in s.now at))) }
    ensures over { IfOk result (IsStepOf s.now) }
{
    // E34
    if !is_defined_at(s, op, at) {
        return Ok(Step::Says(bad(OPERATOR_NOT_DEFINED)));
    }
    let step = judge_equated(alloc, s, op, x, y, want, at)?;
    Ok(step)
}

/// Operands that agree: E34, E35, E31, E30.
#[tactic(auto, unfolding(crate::specs::Comparing::agreed))]
pub fn judge_agreed(
    alloc: Global,
    s: &State,
    op: Operator,
    x: Operand,
    y: Operand,
    want: Want,
) -> Result<Step, NoMemory>
    requires basics { HasBasics s.now.table }
    requires first { IsOperandOf s.now x }
    requires second { IsOperandOf s.now y }
    requires want { IsWishOf s.now want }
    ensures is { IfOk result (λ step. step_in s.now step ≡ tell (sight s.now) (agreed op (operand_in s.now x) (operand_in s.now y) (wish_of s.now want))) }
    ensures over { IfOk result (IsStepOf s.now) }
{
    let at = common(s, x.at, y.at);
    let step = judge_operated(alloc, s, op, x, y, want, at)?;
    Ok(step)
}
