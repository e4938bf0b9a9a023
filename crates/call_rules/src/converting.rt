//! Conversions (Go 1.17, "Conversions", "Constant expressions").
ghost use Rattle.std.specs.Prelude.{◌≡◌, ◌==◌, ◌||◌, true, IfOk, Some};
ghost use Rattle.mark_walk.specs.Telling.{tell};
ghost use Rattle.gv_base.specs.Kinds.{is_integer, is_string, is_boolean};
ghost use Rattle.type_answers.specs.Coming.{ComesTo, FoundBy};
ghost use Rattle.type_answers.specs.Asked.{convertible_ask};
ghost use Rattle.rule_words.specs.Answers.{answer_in, IsAnswerOf, constant, is_plain};
ghost use Rattle.rule_words.specs.Scenes.{sight, IsScene, said, IsMarkOf, type_in, IsTypeOf, parts_in, AreSeenOf};
ghost use Rattle.rule_words.specs.Steps.{step_in, IsStepOf};
ghost use Rattle.rule_words.specs.Good.{AreFactsOf, known_of};
ghost use Rattle.rule_words.specs.Types.{is_interface};
ghost use Rattle.rule_words.specs.Values.{assigned_type};
ghost use Rattle.builtin_rules.specs.Named.{argument_count};
ghost use Rattle.builtin_rules.specs.Values.{value_of};
ghost use Rattle.call_rules.specs.Converting.{unspread, is_convertible, constant_fault, converted, constant_converted, convertible_by, convertible_told, operand_converted, kind_converted, value_converted, known_converted, one_converted, single_converted, conversion_rule};

use builtin_rules::{argument_count, says, value_of};
use const_eval::{ConstAnswer, convert};
use gv_base::{Const, Kind, NoMemory};
use rule_words::answered::bad;
use rule_words::good::{broken, part_at, silent};
use rule_words::types::{is_interface, kind_of};
use rule_words::values::{assigned_type, value_at};
use rule_words::{Answer, Seen, Step};
use std::alloc::Global;
use type_answers::{Relation, ask_operand};
use type_model::TypeId;
use type_questions::{Found, Reached};
use type_rel::{has_integers, has_texts};
use typed_marks::{Facts, Item, Mark, State};
use typed_tree::{
    BAD_DOTS, CANNOT_CONVERT, CONSTANT_OVERFLOW, CONVERSION_TAKES_ONE_ARGUMENT, Rule,
};
use unit_read::Subject;

// ---- constants

fn takes_truths(kind: Kind) -> bool
    ensures { result ≡ is_boolean kind }
{
    match kind {
        Kind::Bool => true,
        Kind::UntypedBool => true,
        _ => false,
    }
}

fn takes_integers(kind: Kind) -> bool
    ensures { result ≡ (is_integer kind || is_string kind) }
{
    has_integers(kind) || has_texts(kind)
}

/// Whether a constant is convertible to a basic type.
#[tactic(auto, unfolding(crate::specs::Converting::is_convertible))]
fn is_convertible(c: &Const, kind: Kind) -> bool
    ensures { result ≡ is_convertible c.now kind }
{
    match c {
        Const::Int(_) => takes_integers(kind),
        Const::Text(_) => has_texts(kind),
        Const::Truth(_) => takes_truths(kind),
    }
}

#[tactic(auto, unfolding(crate::specs::Converting::constant_fault))]
fn constant_fault(c: &Const, kind: Kind) -> Rule
    ensures { result ≡ constant_fault c.now kind }
{
    // E30, E53
    if is_convertible(c, kind) {
        CONSTANT_OVERFLOW
    } else {
        CANNOT_CONVERT
    }
}

#[tactic(auto, unfolding(crate::specs::Converting::unspread))]
fn constant_of(s: &State, spread: bool, to: TypeId, c: Const) -> Answer
    requires within { IsTypeOf s.now to }
    ensures is { answer_in s.now result ≡ unspread spread (constant (type_in s.now to) (type_in s.now to) c) }
    ensures over { IsAnswerOf s.now result }
{
    let _ = s;
    // E52
    if spread {
        return bad(BAD_DOTS);
    }
    Answer::Constant(to, to, c)
}

fn converted(s: &State, spread: bool, to: TypeId, fault: Rule, answer: ConstAnswer) -> Answer
    requires within { IsTypeOf s.now to }
    ensures is { answer_in s.now result ≡ converted spread (type_in s.now to) fault answer }
    ensures over { IsAnswerOf s.now result }
{
    match answer {
        ConstAnswer::Value(c) => constant_of(s, spread, to, c),
        ConstAnswer::ZeroDivisor => bad(fault),
        ConstAnswer::Wide => bad(fault),
        ConstAnswer::LongText => bad(fault),
        ConstAnswer::BadOperands => bad(fault),
    }
}

#[tactic(auto, unfolding(crate::specs::Converting::constant_converted))]
fn constant_converted(
    alloc: Global,
    s: &State,
    spread: bool,
    to: TypeId,
    c: &Const,
    kind: Kind,
) -> Result<Answer, NoMemory>
    requires within { IsTypeOf s.now to }
    ensures is { IfOk result (λ answer. answer_in s.now answer ≡ constant_converted spread (type_in s.now to) c.now kind) }
    ensures over { IfOk result (IsAnswerOf s.now) }
{
    let fault = constant_fault(c, kind);
    let answer = convert(alloc, c, kind)?;
    Ok(converted(s, spread, to, fault, answer))
}

fn judge_constant(
    alloc: Global,
    s: &State,
    spread: bool,
    to: TypeId,
    c: &Const,
    kind: Kind,
) -> Result<Step, NoMemory>
    requires within { IsTypeOf s.now to }
    ensures is { IfOk result (λ step. step_in s.now step ≡ tell (sight s.now) (kind_converted spread (type_in s.now to) c.now kind)) }
    ensures over { IfOk result (IsStepOf s.now) }
{
    let answer = constant_converted(alloc, s, spread, to, c, kind)?;
    Ok(Step::Says(answer))
}

// ---- other operands

#[tactic(auto, unfolding(crate::specs::Converting::unspread))]
fn unspread(s: &State, spread: bool, to: TypeId) -> Mark
    requires within { IsTypeOf s.now to }
    ensures is { said s.now result ≡ unspread spread (value_of (type_in s.now to)) }
    ensures over { IsMarkOf s.now result }
    ensures plain { is_plain result ≡ true }
{
    // E52
    if spread {
        return Mark::Bad(BAD_DOTS);
    }
    value_of(s, to)
}

fn convertible_by(s: &State, spread: bool, to: TypeId, holds: bool) -> Step
    requires within { IsTypeOf s.now to }
    ensures is { step_in s.now result ≡ tell (sight s.now) (convertible_by spread (type_in s.now to) holds) }
    ensures over { IsStepOf s.now result }
{
    // E53
    if !holds {
        return broken(CANNOT_CONVERT);
    }
    says(unspread(s, spread, to))
}

fn convertible_told(s: &State, spread: bool, to: TypeId, told: Reached<bool>) -> Step
    requires within { IsTypeOf s.now to }
    ensures is { step_in s.now result ≡ tell (sight s.now) (convertible_told spread (type_in s.now to) told) }
    ensures over { IsStepOf s.now result }
{
    match told {
        Reached::Got(holds) => convertible_by(s, spread, to, holds),
        Reached::Lost => silent(),
    }
}

/// Whether an operand is convertible to a type of this underlying type.
fn ask_converted(
    alloc: Global,
    u: &Subject,
    s: &State,
    to: TypeId,
    under: TypeId,
    x: Facts,
) -> Result<Found<Reached<bool>, Item>, NoMemory>
    requires scene { IsScene u.now s.now }
    requires to { IsTypeOf s.now to }
    requires under { IsTypeOf s.now under }
    requires facts { AreFactsOf s.now x }
    ensures { IfOk result (FoundBy u.now s.now (λ x. x) (convertible_ask (is_interface (type_in s.now under)) (assigned_type (known_of s.now x)) (known_of s.now x).value (type_in s.now to))) }
{
    let methods = is_interface(s, under);
    let of = assigned_type(s, x);
    let found = ask_operand(alloc, u, s, Relation::Convertible, methods, of, x.value, to)?;
    Ok(found)
}

#[tactic(auto, using(type_answers::proofs::ComingLaws::bind_comes, type_answers::proofs::ComingLaws::bind_waits, type_answers::proofs::ComingLaws::same_comes), unfolding(crate::specs::Converting::operand_converted))]
fn judge_operand(
    alloc: Global,
    u: &Subject,
    s: &State,
    spread: bool,
    to: TypeId,
    under: TypeId,
    x: Facts,
) -> Result<Step, NoMemory>
    requires scene { IsScene u.now s.now }
    requires to { IsTypeOf s.now to }
    requires under { IsTypeOf s.now under }
    requires facts { AreFactsOf s.now x }
    ensures comes { IfOk result (ComesTo u.now s.now (operand_converted spread (type_in s.now to) (type_in s.now under) (known_of s.now x))) }
    ensures over { IfOk result (IsStepOf s.now) }
{
    let found = ask_converted(alloc, u, s, to, under, x)?;
    match found {
        Found::Is(told) => Ok(convertible_told(s, spread, to, told)),
        Found::Wait(item) => Ok(Step::Waits(item)),
    }
}

// ---- all

#[tactic(auto, using(type_answers::proofs::ComingLaws::same_comes), unfolding(crate::specs::Converting::value_converted))]
fn judge_kind(
    alloc: Global,
    u: &Subject,
    s: &State,
    spread: bool,
    to: TypeId,
    under: TypeId,
    x: Facts,
    c: &Const,
) -> Result<Step, NoMemory>
    requires scene { IsScene u.now s.now }
    requires to { IsTypeOf s.now to }
    requires under { IsTypeOf s.now under }
    requires facts { AreFactsOf s.now x }
    ensures comes { IfOk result (ComesTo u.now s.now (value_converted spread (type_in s.now to) (type_in s.now under) (known_of s.now x) (Some c.now))) }
    ensures over { IfOk result (IsStepOf s.now) }
{
    match kind_of(s, under) {
        Some(kind) => {
            let step = judge_constant(alloc, s, spread, to, c, kind)?;
            Ok(step)
        }
        None => {
            let step = judge_operand(alloc, u, s, spread, to, under, x)?;
            Ok(step)
        }
    }
}

#[tactic(auto, unfolding(crate::specs::Converting::value_converted))]
fn judge_value(
    alloc: Global,
    u: &Subject,
    s: &State,
    spread: bool,
    to: TypeId,
    under: TypeId,
    x: Facts,
) -> Result<Step, NoMemory>
    requires scene { IsScene u.now s.now }
    requires to { IsTypeOf s.now to }
    requires under { IsTypeOf s.now under }
    requires facts { AreFactsOf s.now x }
    ensures comes { IfOk result (ComesTo u.now s.now (known_converted spread (type_in s.now to) (type_in s.now under) (known_of s.now x))) }
    ensures over { IfOk result (IsStepOf s.now) }
{
    match value_at(s, x.value) {
        Some(c) => {
            let step = judge_kind(alloc, u, s, spread, to, under, x, c)?;
            Ok(step)
        }
        None => {
            let step = judge_operand(alloc, u, s, spread, to, under, x)?;
            Ok(step)
        }
    }
}

fn judge_argument(
    alloc: Global,
    u: &Subject,
    s: &State,
    spread: bool,
    to: TypeId,
    m: Mark,
    under: TypeId,
) -> Result<Step, NoMemory>
    requires scene { IsScene u.now s.now }
    requires to { IsTypeOf s.now to }
    requires mark { IsMarkOf s.now m }
    requires under { IsTypeOf s.now under }
    ensures comes { IfOk result (ComesTo u.now s.now (one_converted spread (type_in s.now to) (said s.now m) (type_in s.now under))) }
    ensures over { IfOk result (IsStepOf s.now) }
{
    match m {
        Mark::Good(x) => {
            let step = judge_value(alloc, u, s, spread, to, under, x)?;
            Ok(step)
        }
        Mark::Bad(_) => Ok(Step::Says(Answer::Mark(Mark::Silent))),
        Mark::Outside(_) => Ok(Step::Says(Answer::Mark(Mark::Silent))),
        Mark::Silent => Ok(Step::Says(Answer::Mark(Mark::Silent))),
        Mark::Wants(_, _) => Ok(Step::Says(Answer::Mark(Mark::Silent))),
        Mark::Declared(_) => Ok(Step::Says(Answer::Mark(Mark::Silent))),
    }
}

#[tactic(auto, unfolding(crate::specs::Converting::single_converted))]
fn judge_single(
    alloc: Global,
    u: &Subject,
    s: &State,
    spread: bool,
    to: TypeId,
    parts: &[Seen],
) -> Result<Step, NoMemory>
    requires scene { IsScene u.now s.now }
    requires to { IsTypeOf s.now to }
    requires parts { AreSeenOf s.now parts.now }
    ensures comes { IfOk result (ComesTo u.now s.now (single_converted spread (type_in s.now to) (parts_in s.now parts.now))) }
    ensures over { IfOk result (IsStepOf s.now) }
{
    let m = part_at(s, parts, 1).mark;
    match part_at(s, parts, 0).under {
        Some(under) => {
            let step = judge_argument(alloc, u, s, spread, to, m, under)?;
            Ok(step)
        }
        None => Ok(Step::Says(Answer::Mark(Mark::Silent))),
    }
}

fn is_one(s: &State, parts: &[Seen]) -> bool
    ensures { result ≡ (argument_count (parts_in s.now parts.now) == 1) }
{
    argument_count(s, parts) == 1
}

/// How far the rule of a conversion to a type goes: E54, E53, E30, E52.
#[tactic(auto, unfolding(crate::specs::Converting::conversion_rule))]
pub fn judge_conversion(
    alloc: Global,
    u: &Subject,
    s: &State,
    spread: bool,
    to: TypeId,
    parts: &[Seen],
) -> Result<Step, NoMemory>
    requires scene { IsScene u.now s.now }
    requires to { IsTypeOf s.now to }
    requires parts { AreSeenOf s.now parts.now }
    ensures comes { IfOk result (ComesTo u.now s.now (conversion_rule spread (type_in s.now to) (parts_in s.now parts.now))) }
    ensures over { IfOk result (IsStepOf s.now) }
{
    // E54
    if !is_one(s, parts) {
        return Ok(Step::Says(Answer::Mark(Mark::Bad(CONVERSION_TAKES_ONE_ARGUMENT))));
    }
    let step = judge_single(alloc, u, s, spread, to, parts)?;
    Ok(step)
}
