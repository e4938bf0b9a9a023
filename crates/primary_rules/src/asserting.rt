//! Type assertions.
ghost use Rattle.std.specs.Prelude.{◌≡◌, IfOk, option_map, Some};
ghost use Rattle.mark_walk.specs.Telling.{tell};
ghost use Rattle.type_model.specs.Tables.{declarations_in};
ghost use Rattle.type_rel.specs.Answers.{IsInterface};
ghost use Rattle.unit_read.specs.Subjects.{unit_of};
ghost use Rattle.rule_words.specs.Scenes.{sight, IsScene, said, IsMarkOf, type_in, IsTypeOf, MayBeTypeOf, part_in, IsSeenOf};
ghost use Rattle.rule_words.specs.Steps.{step_in, IsStepOf};
ghost use Rattle.rule_words.specs.Good.{AreFactsOf, known_of};
ghost use Rattle.type_answers.specs.Coming.{ComesTo};
ghost use Rattle.primary_rules.specs.InCode.{operand_in, IsOperandOf};
ghost use Rattle.primary_rules.specs.Asserting.{asserted, implemented, assert_told, assert_implements, assert_type, assert_known, assert_to, assert_operand, assert_rule};

use crate::operand::{Operand, operand_at, standing};
use gv_base::NoMemory;
use rule_words::answered::{bad, silent};
use rule_words::types::is_interface;
use rule_words::{Seen, Step};
use std::alloc::Global;
use type_answers::ask_implements;
use type_model::TypeId;
use type_questions::{Found, Reached};
use type_rel::Implements;
use typed_marks::{Facts, Mark, State};
use typed_tree::{IMPOSSIBLE_TYPE, Mode, NOT_AN_INTERFACE};
use unit_read::Subject;

/// A value of the type, or that and whether the assertion holds.
fn asserted(s: &State, of: TypeId) -> Step
    requires { IsTypeOf s.now of }
    ensures is { step_in s.now result ≡ tell (sight s.now) (asserted (type_in s.now of)) }
    ensures over { IsStepOf s.now result }
{
    Step::Says(standing(s, Mode::CommaOk, of))
}

fn implemented(s: &State, of: TypeId, answer: Implements) -> Step
    requires { IsTypeOf s.now of }
    ensures is { step_in s.now result ≡ tell (sight s.now) (implemented (type_in s.now of) answer) }
    ensures over { IsStepOf s.now result }
{
    match answer {
        Implements::Yes => asserted(s, of),
        // E47
        Implements::Missing(_) => Step::Says(bad(IMPOSSIBLE_TYPE)),
    }
}

#[tactic(auto, using(type_answers::proofs::ComingLaws::same_comes))]
fn assert_told(u: &Subject, s: &State, of: TypeId, told: Reached<Implements>) -> Step
    requires scene { IsScene u.now s.now }
    requires of { IsTypeOf s.now of }
    ensures comes { ComesTo u.now s.now (assert_told (type_in s.now of) told) result }
    ensures over { IsStepOf s.now result }
{
    let _ = u;
    match told {
        Reached::Got(answer) => implemented(s, of, answer),
        Reached::Lost => Step::Says(silent()),
    }
}

/// A type that is no interface implements the operand's.
#[tactic(auto, using(type_answers::proofs::ComingLaws::bind_comes, type_answers::proofs::ComingLaws::bind_waits), unfolding(crate::specs::Asserting::assert_implements))]
fn assert_implements(
    alloc: Global,
    u: &Subject,
    s: &State,
    of: TypeId,
    interface: TypeId,
) -> Result<Step, NoMemory>
    requires scene { IsScene u.now s.now }
    requires of { IsTypeOf s.now of }
    requires interface { IsTypeOf s.now interface }
    requires known { IsInterface (declarations_in s.now.table) (type_in s.now interface) }
    ensures comes { IfOk result (ComesTo u.now s.now (assert_implements (type_in s.now of) (type_in s.now interface))) }
    ensures over { IfOk result (IsStepOf s.now) }
{
    let found = ask_implements(alloc, u, s, of, interface)?;
    match found {
        Found::Is(told) => Ok(assert_told(u, s, of, told)),
        Found::Wait(item) => Ok(Step::Waits(item)),
    }
}

#[tactic(auto, using(type_answers::proofs::ComingLaws::same_comes))]
fn assert_type(
    alloc: Global,
    u: &Subject,
    s: &State,
    x: Operand,
    y: Facts,
    under: TypeId,
) -> Result<Step, NoMemory>
    requires scene { IsScene u.now s.now }
    requires operand { IsOperandOf s.now x }
    requires facts { AreFactsOf s.now y }
    requires under { IsTypeOf s.now under }
    requires known { IsInterface (declarations_in s.now.table) (type_in s.now x.under) }
    ensures comes { IfOk result (ComesTo u.now s.now (assert_type (operand_in s.now x) (known_of s.now y) (type_in s.now under))) }
    ensures over { IfOk result (IsStepOf s.now) }
{
    if is_interface(s, under) {
        return Ok(asserted(s, y.of));
    }
    let step = assert_implements(alloc, u, s, y.of, x.under)?;
    Ok(step)
}

fn assert_known(
    alloc: Global,
    u: &Subject,
    s: &State,
    x: Operand,
    under: Option<TypeId>,
    y: Facts,
) -> Result<Step, NoMemory>
    requires scene { IsScene u.now s.now }
    requires operand { IsOperandOf s.now x }
    requires under { MayBeTypeOf s.now under }
    requires facts { AreFactsOf s.now y }
    requires known { IsInterface (declarations_in s.now.table) (type_in s.now x.under) }
    ensures comes { IfOk result (ComesTo u.now s.now (assert_known (operand_in s.now x) (option_map (type_in s.now) under) (known_of s.now y))) }
    ensures over { IfOk result (IsStepOf s.now) }
{
    match under {
        Some(under) => {
            let step = assert_type(alloc, u, s, x, y, under)?;
            Ok(step)
        }
        None => Ok(Step::Says(silent())),
    }
}

fn assert_to(alloc: Global, u: &Subject, s: &State, t: Seen, x: Operand) -> Result<Step, NoMemory>
    requires scene { IsScene u.now s.now }
    requires part { IsSeenOf s.now t }
    requires operand { IsOperandOf s.now x }
    requires known { IsInterface (declarations_in s.now.table) (type_in s.now x.under) }
    ensures comes { IfOk result (ComesTo u.now s.now (assert_to (part_in s.now t) (operand_in s.now x))) }
    ensures over { IfOk result (IsStepOf s.now) }
{
    match t.mark {
        Mark::Good(y) => {
            let step = assert_known(alloc, u, s, x, t.under, y)?;
            Ok(step)
        }
        Mark::Bad(_) => Ok(Step::Says(silent())),
        Mark::Outside(_) => Ok(Step::Says(silent())),
        Mark::Silent => Ok(Step::Says(silent())),
        Mark::Wants(_, _) => Ok(Step::Says(silent())),
        Mark::Declared(_) => Ok(Step::Says(silent())),
    }
}

fn assert_operand(
    alloc: Global,
    u: &Subject,
    s: &State,
    t: Seen,
    x: Operand,
) -> Result<Step, NoMemory>
    requires scene { IsScene u.now s.now }
    requires part { IsSeenOf s.now t }
    requires operand { IsOperandOf s.now x }
    ensures comes { IfOk result (ComesTo u.now s.now (assert_operand (part_in s.now t) (operand_in s.now x))) }
    ensures over { IfOk result (IsStepOf s.now) }
{
    if is_interface(s, x.under) {
        let step = assert_to(alloc, u, s, t, x)?;
        return Ok(step);
    }
    // E46
    Ok(Step::Says(bad(NOT_AN_INTERFACE)))
}

/// What the rule of a type assertion comes to: E46, E47.
#[tactic(auto, unfolding(crate::specs::Asserting::assert_rule))]
pub fn judge_assert(
    alloc: Global,
    u: &Subject,
    s: &State,
    a: Seen,
    t: Seen,
) -> Result<Step, NoMemory>
    requires scene { IsScene u.now s.now }
    requires operand { IsSeenOf s.now a }
    requires part { IsSeenOf s.now t }
    ensures comes { IfOk result (ComesTo u.now s.now (assert_rule (part_in s.now a) (part_in s.now t))) }
    ensures over { IfOk result (IsStepOf s.now) }
{
    match operand_at(s, a) {
        Some(x) => {
            let step = assert_operand(alloc, u, s, t, x)?;
            Ok(step)
        }
        None => Ok(Step::Says(silent())),
    }
}
