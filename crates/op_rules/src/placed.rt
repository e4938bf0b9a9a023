//! What a place makes of what stands there (Go 1.17, "Operands", "Assignability", "Representability", "Constant declarations").
ghost use Rattle.std.specs.Prelude.{◌≡◌, ◌||◌, IfOk, if◌then◌else◌};
ghost use Rattle.mark_walk.specs.Telling.{tell};
ghost use Rattle.typed_tree.specs.Places.{is_type, is_package};
ghost use Rattle.unit_read.specs.Subjects.{unit_of};
ghost use Rattle.rule_words.specs.Scenes.{sight, IsScene, said, IsMarkOf};
ghost use Rattle.rule_words.specs.Steps.{step_in, IsStepOf};
ghost use Rattle.rule_words.specs.Wanting.{wanted_of, IsWantedOf};
ghost use Rattle.rule_words.specs.Good.{AreFactsOf, known_of};
ghost use Rattle.rule_words.specs.Wishes.{IsWishOf, wish_of};
ghost use Rattle.type_answers.specs.Coming.{ComesTo};
ghost use Rattle.op_rules.specs.Placed.{is_many, represented, wished_free, wished_value, wished_constant, is_value, single_fault, owner_fault, owner_demanded, single_constant, single_demanded, value_demanded, may_be_case, demanded, placed_rule};

use crate::assigned::judge_assigned;
use crate::fitting::represented;
use gv_base::NoMemory;
use rule_words::modes::{is_constant, is_nil_mode, is_package, is_single, is_type};
use rule_words::{Answer, Step, Wanted};
use std::alloc::Global;
use type_questions::Found;
use typed_marks::{Facts, Mark, State, Want};
use typed_tree::{
    Mode, NIL_WITHOUT_A_TYPE, NOT_A_TYPE, NOT_A_VALUE, NOT_CONSTANT, Rule, SEVERAL_VALUES,
    Want as Demand,
};
use unit_read::Subject;

// ---- E30

fn judge_represented(u: &Subject, s: &State, x: Facts) -> Step
    requires scene { IsScene u.now s.now }
    requires facts { AreFactsOf s.now x }
    ensures is { step_in s.now result ≡ tell (sight s.now) (represented (unit_of u.now) (known_of s.now x)) }
    ensures over { IsStepOf s.now result }
{
    match represented(u, s, x) {
        Found::Is(m) => Step::Says(Answer::Mark(m)),
        Found::Wait(item) => Step::Waits(item),
    }
}

// ---- what is wanted of a value

/// This rule is broken.
fn wrong(rule: Rule) -> Step
    ensures { result ≡ Step.Says (Answer.Mark (Mark.Bad rule)) }
{
    Step::Says(Answer::Mark(Mark::Bad(rule)))
}

fn good(x: Facts) -> Step
    ensures { result ≡ Step.Says (Answer.Mark (Mark.Good x)) }
{
    Step::Says(Answer::Mark(Mark::Good(x)))
}

fn wished_free(u: &Subject, s: &State, x: Facts) -> Step
    requires scene { IsScene u.now s.now }
    requires facts { AreFactsOf s.now x }
    ensures is { step_in s.now result ≡ tell (sight s.now) (wished_free (unit_of u.now) (known_of s.now x)) }
    ensures over { IsStepOf s.now result }
{
    // E26
    if is_nil_mode(x.mode) {
        return wrong(NIL_WITHOUT_A_TYPE);
    }
    judge_represented(u, s, x)
}

#[tactic(auto, using(type_answers::proofs::ComingLaws::same_comes))]
fn wished_value(
    alloc: Global,
    u: &Subject,
    s: &State,
    want: Want,
    x: Facts,
) -> Result<Step, NoMemory>
    requires scene { IsScene u.now s.now }
    requires want { IsWishOf s.now want }
    requires facts { AreFactsOf s.now x }
    ensures comes { IfOk result (ComesTo u.now s.now (wished_value (unit_of u.now) (wish_of s.now want) (known_of s.now x))) }
    ensures over { IfOk result (IsStepOf s.now) }
{
    match want {
        Want::Free => Ok(wished_free(u, s, x)),
        Want::Takes(_) => Ok(good(x)),
        Want::Fits(_) => Ok(judge_represented(u, s, x)),
        Want::Assigned(to) => {
            let step = judge_assigned(alloc, u, s, x, to)?;
            Ok(step)
        }
    }
}

fn wished_constant(
    alloc: Global,
    u: &Subject,
    s: &State,
    want: Want,
    x: Facts,
) -> Result<Step, NoMemory>
    requires scene { IsScene u.now s.now }
    requires want { IsWishOf s.now want }
    requires facts { AreFactsOf s.now x }
    ensures comes { IfOk result (ComesTo u.now s.now (wished_constant (unit_of u.now) (wish_of s.now want) (known_of s.now x))) }
    ensures over { IfOk result (IsStepOf s.now) }
{
    match want {
        Want::Free => Ok(good(x)),
        Want::Takes(_) => Ok(good(x)),
        Want::Fits(_) => Ok(good(x)),
        Want::Assigned(to) => {
            let step = judge_assigned(alloc, u, s, x, to)?;
            Ok(step)
        }
    }
}

// ---- what has to stand there

/// Several values.
fn is_many(mode: Mode) -> bool
    ensures { result ≡ is_many mode }
{
    match mode {
        Mode::NoValue => false,
        Mode::TypeName => false,
        Mode::Constant => false,
        Mode::Variable => false,
        Mode::MapIndex => false,
        Mode::Value => false,
        Mode::CommaOk => false,
        Mode::Nil => false,
        Mode::Builtin => false,
        Mode::Package => false,
        Mode::Many => true,
    }
}

/// One value, or several.
fn is_value(mode: Mode) -> bool
    ensures { result ≡ is_value mode }
{
    is_single(mode) || is_many(mode)
}

/// The rule that a mode breaks, where a single value is wanted: E24, E25.
fn single_fault(mode: Mode) -> Option<Rule>
    ensures { result ≡ single_fault mode }
{
    if !is_value(mode) {
        return Some(NOT_A_VALUE);
    }
    if is_many(mode) {
        return Some(SEVERAL_VALUES);
    }
    None
}

/// A type or a package.
fn owns(mode: Mode) -> bool
    ensures { result ≡ (is_type mode || is_package mode) }
{
    is_type(mode) || is_package(mode)
}

/// The rule that a mode breaks before a dot: E24, E25.
fn owner_fault(mode: Mode) -> Option<Rule>
    ensures { result ≡ owner_fault mode }
{
    if owns(mode) { None } else { single_fault(mode) }
}

fn tested(holds: bool, rule: Rule, x: Facts) -> Step
    ensures { result ≡ (if holds then Step.Says (Answer.Mark (Mark.Good x)) else Step.Says (Answer.Mark (Mark.Bad rule))) }
{
    if holds { good(x) } else { wrong(rule) }
}

fn single_constant(
    alloc: Global,
    u: &Subject,
    s: &State,
    want: Want,
    x: Facts,
) -> Result<Step, NoMemory>
    requires scene { IsScene u.now s.now }
    requires want { IsWishOf s.now want }
    requires facts { AreFactsOf s.now x }
    ensures comes { IfOk result (ComesTo u.now s.now (single_constant (unit_of u.now) (wish_of s.now want) (known_of s.now x))) }
    ensures over { IfOk result (IsStepOf s.now) }
{
    // E97
    if !is_constant(x.mode) {
        return Ok(wrong(NOT_CONSTANT));
    }
    let step = wished_constant(alloc, u, s, want, x)?;
    Ok(step)
}

#[tactic(auto, using(type_answers::proofs::ComingLaws::same_comes))]
fn judge_single(
    alloc: Global,
    u: &Subject,
    s: &State,
    demand: Demand,
    want: Want,
    x: Facts,
) -> Result<Step, NoMemory>
    requires scene { IsScene u.now s.now }
    requires want { IsWishOf s.now want }
    requires facts { AreFactsOf s.now x }
    ensures comes { IfOk result (ComesTo u.now s.now (single_demanded (unit_of u.now) (wish_of s.now want) (known_of s.now x) demand)) }
    ensures over { IfOk result (IsStepOf s.now) }
{
    match demand {
        Demand::Operand => {
            let step = wished_value(alloc, u, s, want, x)?;
            Ok(step)
        }
        // E26
        Demand::Count => Ok(tested(!is_nil_mode(x.mode), NIL_WITHOUT_A_TYPE, x)),
        Demand::Constant => {
            let step = single_constant(alloc, u, s, want, x)?;
            Ok(step)
        }
        Demand::Nothing => Ok(good(x)),
        Demand::Inside => Ok(good(x)),
        Demand::Owner => Ok(good(x)),
        Demand::Type => Ok(good(x)),
        Demand::Case => Ok(good(x)),
    }
}

fn judge_value(
    alloc: Global,
    u: &Subject,
    s: &State,
    demand: Demand,
    want: Want,
    x: Facts,
) -> Result<Step, NoMemory>
    requires scene { IsScene u.now s.now }
    requires want { IsWishOf s.now want }
    requires facts { AreFactsOf s.now x }
    ensures comes { IfOk result (ComesTo u.now s.now (value_demanded (unit_of u.now) (wish_of s.now want) (known_of s.now x) demand)) }
    ensures over { IfOk result (IsStepOf s.now) }
{
    // E24, E25
    match single_fault(x.mode) {
        Some(rule) => Ok(wrong(rule)),
        None => {
            let step = judge_single(alloc, u, s, demand, want, x)?;
            Ok(step)
        }
    }
}

fn judge_owner(s: &State, x: Facts) -> Step
    requires facts { AreFactsOf s.now x }
    ensures is { step_in s.now result ≡ tell (sight s.now) (owner_demanded (known_of s.now x)) }
    ensures over { IsStepOf s.now result }
{
    // E24, E25
    match owner_fault(x.mode) {
        Some(rule) => wrong(rule),
        None => good(x),
    }
}

fn may_be_case(mode: Mode) -> bool
    ensures { result ≡ may_be_case mode }
{
    is_type(mode) || is_nil_mode(mode)
}

#[tactic(auto, using(type_answers::proofs::ComingLaws::same_comes))]
fn judge_demand(
    alloc: Global,
    u: &Subject,
    s: &State,
    demand: Demand,
    want: Want,
    x: Facts,
) -> Result<Step, NoMemory>
    requires scene { IsScene u.now s.now }
    requires want { IsWishOf s.now want }
    requires facts { AreFactsOf s.now x }
    ensures comes { IfOk result (ComesTo u.now s.now (demanded (unit_of u.now) (wish_of s.now want) (known_of s.now x) demand)) }
    ensures over { IfOk result (IsStepOf s.now) }
{
    match demand {
        Demand::Nothing => Ok(good(x)),
        // E24
        Demand::Inside => Ok(tested(!is_package(x.mode), NOT_A_VALUE, x)),
        Demand::Owner => Ok(judge_owner(s, x)),
        // E10
        Demand::Type => Ok(tested(is_type(x.mode), NOT_A_TYPE, x)),
        Demand::Case => Ok(tested(may_be_case(x.mode), NOT_A_TYPE, x)),
        Demand::Operand => {
            let step = judge_value(alloc, u, s, demand, want, x)?;
            Ok(step)
        }
        Demand::Count => {
            let step = judge_value(alloc, u, s, demand, want, x)?;
            Ok(step)
        }
        Demand::Constant => {
            let step = judge_value(alloc, u, s, demand, want, x)?;
            Ok(step)
        }
    }
}

/// What the place of a node makes of its mark: E24, E25, E26, E10, E97, E32, E30. What isn't good stays.
pub fn judge_placed(
    alloc: Global,
    u: &Subject,
    s: &State,
    wanted: Wanted,
    m: Mark,
) -> Result<Step, NoMemory>
    requires scene { IsScene u.now s.now }
    requires wanted { IsWantedOf s.now wanted }
    requires mark { IsMarkOf s.now m }
    ensures comes { IfOk result (ComesTo u.now s.now (placed_rule (unit_of u.now) (wanted_of s.now wanted) (said s.now m))) }
    ensures over { IfOk result (IsStepOf s.now) }
{
    match m {
        Mark::Good(x) => {
            let step = judge_demand(alloc, u, s, wanted.demand, wanted.want, x)?;
            Ok(step)
        }
        Mark::Bad(rule) => Ok(wrong(rule)),
        Mark::Outside(limit) => Ok(Step::Says(Answer::Mark(Mark::Outside(limit)))),
        Mark::Silent => Ok(Step::Says(Answer::Mark(Mark::Silent))),
        Mark::Wants(_, _) => Ok(Step::Says(Answer::Mark(Mark::Silent))),
        Mark::Declared(_) => Ok(Step::Says(Answer::Mark(Mark::Silent))),
    }
}
