//! Values of clauses that agree with the tag, or don't (Go 1.17, "Expression switches", "Comparison operators").
ghost use Rattle.std.specs.Prelude.{◌≡◌, IfOk, option_map};
ghost use Rattle.type_answers.specs.Coming.{ComesTo};
ghost use Rattle.unit_read.specs.Subjects.{unit_of};
ghost use Rattle.rule_words.specs.Good.{known_of, AreFactsOf};
ghost use Rattle.rule_words.specs.Scenes.{IsScene, type_in, IsTypeOf, MayBeTypeOf};
ghost use Rattle.rule_words.specs.Steps.{IsStepOf};
ghost use Rattle.statement_rules.specs.Switching.{other_if, other_told, other_under, other_way, untyped_or, one_if, one_told, against_under, against_told, against};

use crate::comparing::compared;
use gv_base::NoMemory;
use rule_words::Step;
use rule_words::good::{broken, silent};
use rule_words::types::{is_interface, is_untyped, takes_default};
use rule_words::values::assigned_type;
use std::alloc::Global;
use type_answers::{ask_compared, ask_under};
use type_model::TypeId;
use type_questions::{Found, Reached};
use typed_marks::{Facts, State};
use typed_tree::MISMATCHED_OPERANDS;
use unit_read::Subject;

fn other_if(
    alloc: Global,
    u: &Subject,
    s: &State,
    x: Facts,
    tag: TypeId,
    b: bool,
) -> Result<Step, NoMemory>
    requires scene { IsScene u.now s.now }
    requires facts { AreFactsOf s.now x }
    requires tag { IsTypeOf s.now tag }
    ensures comes { IfOk result (ComesTo u.now s.now (other_if (known_of s.now x) (type_in s.now tag) b)) }
    ensures over { IfOk result (IsStepOf s.now) }
{
    if b {
        let step = compared(alloc, u, s, x, tag)?;
        return Ok(step);
    }
    Ok(broken(MISMATCHED_OPERANDS))
}

fn other_told(
    alloc: Global,
    u: &Subject,
    s: &State,
    x: Facts,
    tag: TypeId,
    told: Reached<bool>,
) -> Result<Step, NoMemory>
    requires scene { IsScene u.now s.now }
    requires facts { AreFactsOf s.now x }
    requires tag { IsTypeOf s.now tag }
    ensures comes { IfOk result (ComesTo u.now s.now (other_told (known_of s.now x) (type_in s.now tag) told)) }
    ensures over { IfOk result (IsStepOf s.now) }
{
    match told {
        Reached::Got(b) => {
            let step = other_if(alloc, u, s, x, tag, b)?;
            Ok(step)
        }
        Reached::Lost => Ok(silent()),
    }
}

#[tactic(auto, using(type_answers::proofs::ComingLaws::bind_comes, type_answers::proofs::ComingLaws::bind_waits))]
fn other_under(
    alloc: Global,
    u: &Subject,
    s: &State,
    x: Facts,
    tag: TypeId,
    under: Option<TypeId>,
) -> Result<Step, NoMemory>
    requires scene { IsScene u.now s.now }
    requires facts { AreFactsOf s.now x }
    requires tag { IsTypeOf s.now tag }
    requires under { MayBeTypeOf s.now under }
    ensures comes { IfOk result (ComesTo u.now s.now (other_under (known_of s.now x) (type_in s.now tag) (option_map (type_in s.now) under))) }
    ensures over { IfOk result (IsStepOf s.now) }
{
    let methods = takes_default(s, under);
    let found = ask_compared(alloc, u, s, methods, tag, None, x.of)?;
    match found {
        Found::Is(told) => {
            let step = other_told(alloc, u, s, x, tag, told)?;
            Ok(step)
        }
        Found::Wait(item) => Ok(Step::Waits(item)),
    }
}

#[tactic(auto, using(type_answers::proofs::ComingLaws::bind_comes, type_answers::proofs::ComingLaws::bind_waits))]
fn other_way(alloc: Global, u: &Subject, s: &State, x: Facts, tag: TypeId) -> Result<Step, NoMemory>
    requires scene { IsScene u.now s.now }
    requires facts { AreFactsOf s.now x }
    requires tag { IsTypeOf s.now tag }
    ensures comes { IfOk result (ComesTo u.now s.now (other_way (unit_of u.now) (known_of s.now x) (type_in s.now tag))) }
    ensures over { IfOk result (IsStepOf s.now) }
{
    match ask_under(u, s, x.of) {
        Found::Is(under) => {
            let step = other_under(alloc, u, s, x, tag, under)?;
            Ok(step)
        }
        Found::Wait(item) => Ok(Step::Waits(item)),
    }
}

fn untyped_or(
    alloc: Global,
    u: &Subject,
    s: &State,
    x: Facts,
    tag: TypeId,
) -> Result<Step, NoMemory>
    requires scene { IsScene u.now s.now }
    requires facts { AreFactsOf s.now x }
    requires tag { IsTypeOf s.now tag }
    ensures comes { IfOk result (ComesTo u.now s.now (untyped_or (unit_of u.now) (known_of s.now x) (type_in s.now tag))) }
    ensures over { IfOk result (IsStepOf s.now) }
{
    if is_untyped(s, x.of) {
        return Ok(broken(MISMATCHED_OPERANDS));
    }
    let step = other_way(alloc, u, s, x, tag)?;
    Ok(step)
}

fn one_if(
    alloc: Global,
    u: &Subject,
    s: &State,
    x: Facts,
    tag: TypeId,
    b: bool,
) -> Result<Step, NoMemory>
    requires scene { IsScene u.now s.now }
    requires facts { AreFactsOf s.now x }
    requires tag { IsTypeOf s.now tag }
    ensures comes { IfOk result (ComesTo u.now s.now (one_if (unit_of u.now) (known_of s.now x) (type_in s.now tag) b)) }
    ensures over { IfOk result (IsStepOf s.now) }
{
    if b {
        let step = compared(alloc, u, s, x, tag)?;
        return Ok(step);
    }
    let step = untyped_or(alloc, u, s, x, tag)?;
    Ok(step)
}

fn one_told(
    alloc: Global,
    u: &Subject,
    s: &State,
    x: Facts,
    tag: TypeId,
    told: Reached<bool>,
) -> Result<Step, NoMemory>
    requires scene { IsScene u.now s.now }
    requires facts { AreFactsOf s.now x }
    requires tag { IsTypeOf s.now tag }
    ensures comes { IfOk result (ComesTo u.now s.now (one_told (unit_of u.now) (known_of s.now x) (type_in s.now tag) told)) }
    ensures over { IfOk result (IsStepOf s.now) }
{
    match told {
        Reached::Got(b) => {
            let step = one_if(alloc, u, s, x, tag, b)?;
            Ok(step)
        }
        Reached::Lost => Ok(silent()),
    }
}

#[tactic(auto, using(type_answers::proofs::ComingLaws::bind_comes, type_answers::proofs::ComingLaws::bind_waits))]
fn against_under(
    alloc: Global,
    u: &Subject,
    s: &State,
    x: Facts,
    tag: TypeId,
    under: TypeId,
) -> Result<Step, NoMemory>
    requires scene { IsScene u.now s.now }
    requires facts { AreFactsOf s.now x }
    requires tag { IsTypeOf s.now tag }
    requires under { IsTypeOf s.now under }
    ensures comes { IfOk result (ComesTo u.now s.now (against_under (unit_of u.now) (known_of s.now x) (type_in s.now tag) (type_in s.now under))) }
    ensures over { IfOk result (IsStepOf s.now) }
{
    let of = assigned_type(s, x);
    let methods = is_interface(s, under);
    let found = ask_compared(alloc, u, s, methods, of, x.value, tag)?;
    match found {
        Found::Is(told) => {
            let step = one_told(alloc, u, s, x, tag, told)?;
            Ok(step)
        }
        Found::Wait(item) => Ok(Step::Waits(item)),
    }
}

fn against_told(
    alloc: Global,
    u: &Subject,
    s: &State,
    x: Facts,
    tag: TypeId,
    under: Option<TypeId>,
) -> Result<Step, NoMemory>
    requires scene { IsScene u.now s.now }
    requires facts { AreFactsOf s.now x }
    requires tag { IsTypeOf s.now tag }
    requires under { MayBeTypeOf s.now under }
    ensures comes { IfOk result (ComesTo u.now s.now (against_told (unit_of u.now) (known_of s.now x) (type_in s.now tag) (option_map (type_in s.now) under))) }
    ensures over { IfOk result (IsStepOf s.now) }
{
    match under {
        Some(under) => {
            let step = against_under(alloc, u, s, x, tag, under)?;
            Ok(step)
        }
        None => Ok(silent()),
    }
}

#[tactic(auto, using(type_answers::proofs::ComingLaws::bind_comes, type_answers::proofs::ComingLaws::bind_waits), unfolding(crate::specs::Switching::against))]
pub fn against(
    alloc: Global,
    u: &Subject,
    s: &State,
    x: Facts,
    tag: TypeId,
) -> Result<Step, NoMemory>
    requires scene { IsScene u.now s.now }
    requires facts { AreFactsOf s.now x }
    requires tag { IsTypeOf s.now tag }
    ensures comes { IfOk result (ComesTo u.now s.now (against (unit_of u.now) (known_of s.now x) (type_in s.now tag))) }
    ensures over { IfOk result (IsStepOf s.now) }
{
    match ask_under(u, s, tag) {
        Found::Is(under) => {
            let step = against_told(alloc, u, s, x, tag, under)?;
            Ok(step)
        }
        Found::Wait(item) => Ok(Step::Waits(item)),
    }
}
