//! Values of clauses, compared with the tag (Go 1.17, "Expression switches", "Comparison operators").
ghost use Rattle.std.specs.Prelude.{◌≡◌, IfOk};
ghost use Rattle.mark_walk.specs.Telling.{tell};
ghost use Rattle.type_answers.specs.Coming.{ComesTo};
ghost use Rattle.unit_read.specs.Subjects.{unit_of};
ghost use Rattle.rule_words.specs.Good.{known_of, AreFactsOf};
ghost use Rattle.rule_words.specs.Scenes.{sight, IsScene, type_in, IsTypeOf};
ghost use Rattle.rule_words.specs.Steps.{step_in, IsStepOf};
ghost use Rattle.statement_rules.specs.Switching.{second_if, second_told, second_compared, first_if, first_told, both_compared, compared};

use gv_base::NoMemory;
use rule_words::Step;
use rule_words::good::{broken, good, silent};
use rule_words::types::is_untyped;
use rule_words::values::assigned_type;
use std::alloc::Global;
use type_answers::ask_comparable;
use type_model::TypeId;
use type_questions::{Found, Reached};
use typed_marks::{Facts, State};
use typed_tree::NOT_COMPARABLE;
use unit_read::Subject;

// ---- E35

fn second_if(s: &State, x: Facts, b: bool) -> Step
    requires { AreFactsOf s.now x }
    ensures is { step_in s.now result ≡ tell (sight s.now) (second_if (known_of s.now x) b) }
    ensures over { IsStepOf s.now result }
{
    let _ = s;
    if b { good(x) } else { broken(NOT_COMPARABLE) }
}

#[tactic(auto, using(type_answers::proofs::ComingLaws::same_comes))]
fn second_told(u: &Subject, s: &State, x: Facts, told: Reached<bool>) -> Step
    requires scene { IsScene u.now s.now }
    requires facts { AreFactsOf s.now x }
    ensures comes { ComesTo u.now s.now (second_told (known_of s.now x) told) result }
    ensures over { IsStepOf s.now result }
{
    let _ = u;
    match told {
        Reached::Got(b) => second_if(s, x, b),
        Reached::Lost => silent(),
    }
}

#[tactic(auto, using(type_answers::proofs::ComingLaws::bind_comes, type_answers::proofs::ComingLaws::bind_waits))]
fn second_compared(
    alloc: Global,
    u: &Subject,
    s: &State,
    x: Facts,
    tag: TypeId,
) -> Result<Step, NoMemory>
    requires scene { IsScene u.now s.now }
    requires facts { AreFactsOf s.now x }
    requires tag { IsTypeOf s.now tag }
    ensures comes { IfOk result (ComesTo u.now s.now (second_compared (known_of s.now x) (type_in s.now tag))) }
    ensures over { IfOk result (IsStepOf s.now) }
{
    let found = ask_comparable(alloc, u, s, tag)?;
    match found {
        Found::Is(told) => Ok(second_told(u, s, x, told)),
        Found::Wait(item) => Ok(Step::Waits(item)),
    }
}

fn first_if(
    alloc: Global,
    u: &Subject,
    s: &State,
    x: Facts,
    tag: TypeId,
    b: bool,
) -> Result<Step, NoMemory>
    requires scene { IsScene u.now s.now }
    requires facts { AreFactsOf s.now x }
    requires tag { IsTypeOf s.now tag }
    ensures comes { IfOk result (ComesTo u.now s.now (first_if (known_of s.now x) (type_in s.now tag) b)) }
    ensures over { IfOk result (IsStepOf s.now) }
{
    if b {
        let step = second_compared(alloc, u, s, x, tag)?;
        return Ok(step);
    }
    Ok(broken(NOT_COMPARABLE))
}

fn first_told(
    alloc: Global,
    u: &Subject,
    s: &State,
    x: Facts,
    tag: TypeId,
    told: Reached<bool>,
) -> Result<Step, NoMemory>
    requires scene { IsScene u.now s.now }
    requires facts { AreFactsOf s.now x }
    requires tag { IsTypeOf s.now tag }
    ensures comes { IfOk result (ComesTo u.now s.now (first_told (known_of s.now x) (type_in s.now tag) told)) }
    ensures over { IfOk result (IsStepOf s.now) }
{
    match told {
        Reached::Got(b) => {
            let step = first_if(alloc, u, s, x, tag, b)?;
            Ok(step)
        }
        Reached::Lost => Ok(silent()),
    }
}

#[tactic(auto, using(type_answers::proofs::ComingLaws::bind_comes, type_answers::proofs::ComingLaws::bind_waits), unfolding(crate::specs::Switching::both_compared))]
fn both_compared(
    alloc: Global,
    u: &Subject,
    s: &State,
    x: Facts,
    tag: TypeId,
) -> Result<Step, NoMemory>
    requires scene { IsScene u.now s.now }
    requires facts { AreFactsOf s.now x }
    requires tag { IsTypeOf s.now tag }
    ensures comes { IfOk result (ComesTo u.now s.now (both_compared (known_of s.now x) (type_in s.now tag))) }
    ensures over { IfOk result (IsStepOf s.now) }
{
    let of = assigned_type(s, x);
    let found = ask_comparable(alloc, u, s, of)?;
    match found {
        Found::Is(told) => {
            let step = first_told(alloc, u, s, x, tag, told)?;
            Ok(step)
        }
        Found::Wait(item) => Ok(Step::Waits(item)),
    }
}

pub fn compared(
    alloc: Global,
    u: &Subject,
    s: &State,
    x: Facts,
    tag: TypeId,
) -> Result<Step, NoMemory>
    requires scene { IsScene u.now s.now }
    requires facts { AreFactsOf s.now x }
    requires tag { IsTypeOf s.now tag }
    ensures comes { IfOk result (ComesTo u.now s.now (compared (known_of s.now x) (type_in s.now tag))) }
    ensures over { IfOk result (IsStepOf s.now) }
{
    if is_untyped(s, x.of) {
        return Ok(good(x));
    }
    let step = both_compared(alloc, u, s, x, tag)?;
    Ok(step)
}
