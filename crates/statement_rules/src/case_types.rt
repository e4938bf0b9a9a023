//! The types of clauses of type switches.
ghost use Rattle.std.specs.Prelude.{◌≡◌, IfOk, option_map};
ghost use Rattle.mark_walk.specs.Telling.{tell};
ghost use Rattle.type_model.specs.Tables.{declarations_in};
ghost use Rattle.type_rel.specs.Answers.{IsInterface};
ghost use Rattle.type_answers.specs.Coming.{ComesTo};
ghost use Rattle.unit_read.specs.Subjects.{unit_of};
ghost use Rattle.rule_words.specs.Good.{known_of, AreFactsOf};
ghost use Rattle.rule_words.specs.Scenes.{sight, IsScene, said, IsMarkOf, type_in, IsTypeOf, MayBeTypeOf};
ghost use Rattle.rule_words.specs.Steps.{step_in, IsStepOf};
ghost use Rattle.statement_rules.specs.TypeSwitching.{implemented, implements_told, implements_rule, type_under, type_told, type_against, guard_under, guard_told, guard_known, guard_placed, guard_part, type_beside, value_or, type_known, type_in_clause, case_type_rule};

use crate::type_switching::{clause_around, guard_around};
use gv_base::NoMemory;
use rule_words::good::{broken, good, known, silent};
use rule_words::modes::{is_nil_mode, is_type};
use rule_words::types::is_interface;
use rule_words::{Answer, Step};
use std::alloc::Global;
use type_answers::{ask_implements, ask_mark, ask_under};
use type_model::TypeId;
use type_questions::{Found, Reached};
use type_rel::Implements;
use typed_marks::{Facts, Mark, Stage, State};
use typed_tree::{IMPOSSIBLE_TYPE, NOT_A_TYPE};
use unit_read::Subject;

fn implemented(s: &State, x: Facts, answer: Implements) -> Step
    requires { AreFactsOf s.now x }
    ensures is { step_in s.now result ≡ tell (sight s.now) (implemented (known_of s.now x) answer) }
    ensures over { IsStepOf s.now result }
{
    let _ = s;
    match answer {
        Implements::Yes => good(x),
        // E47
        Implements::Missing(_) => broken(IMPOSSIBLE_TYPE),
    }
}

#[tactic(auto, using(type_answers::proofs::ComingLaws::same_comes))]
fn implements_told(u: &Subject, s: &State, x: Facts, told: Reached<Implements>) -> Step
    requires scene { IsScene u.now s.now }
    requires facts { AreFactsOf s.now x }
    ensures comes { ComesTo u.now s.now (implements_told (known_of s.now x) told) result }
    ensures over { IsStepOf s.now result }
{
    let _ = u;
    match told {
        Reached::Got(answer) => implemented(s, x, answer),
        Reached::Lost => silent(),
    }
}

/// A type that is no interface implements the operand's.
#[tactic(auto, using(type_answers::proofs::ComingLaws::bind_comes, type_answers::proofs::ComingLaws::bind_waits))]
fn implements(
    alloc: Global,
    u: &Subject,
    s: &State,
    x: Facts,
    interface: TypeId,
) -> Result<Step, NoMemory>
    requires scene { IsScene u.now s.now }
    requires facts { AreFactsOf s.now x }
    requires interface { IsTypeOf s.now interface }
    requires known { IsInterface (declarations_in s.now.table) (type_in s.now interface) }
    ensures comes { IfOk result (ComesTo u.now s.now (implements_rule (known_of s.now x) (type_in s.now interface))) }
    ensures over { IfOk result (IsStepOf s.now) }
{
    let found = ask_implements(alloc, u, s, x.of, interface)?;
    match found {
        Found::Is(told) => Ok(implements_told(u, s, x, told)),
        Found::Wait(item) => Ok(Step::Waits(item)),
    }
}

fn type_under(
    alloc: Global,
    u: &Subject,
    s: &State,
    x: Facts,
    interface: TypeId,
    under: TypeId,
) -> Result<Step, NoMemory>
    requires scene { IsScene u.now s.now }
    requires facts { AreFactsOf s.now x }
    requires interface { IsTypeOf s.now interface }
    requires known { IsInterface (declarations_in s.now.table) (type_in s.now interface) }
    requires under { IsTypeOf s.now under }
    ensures comes { IfOk result (ComesTo u.now s.now (type_under (known_of s.now x) (type_in s.now interface) (type_in s.now under))) }
    ensures over { IfOk result (IsStepOf s.now) }
{
    if is_interface(s, under) {
        return Ok(good(x));
    }
    let step = implements(alloc, u, s, x, interface)?;
    Ok(step)
}

fn type_told(
    alloc: Global,
    u: &Subject,
    s: &State,
    x: Facts,
    interface: TypeId,
    under: Option<TypeId>,
) -> Result<Step, NoMemory>
    requires scene { IsScene u.now s.now }
    requires facts { AreFactsOf s.now x }
    requires interface { IsTypeOf s.now interface }
    requires known { IsInterface (declarations_in s.now.table) (type_in s.now interface) }
    requires under { MayBeTypeOf s.now under }
    ensures comes { IfOk result (ComesTo u.now s.now (type_told (known_of s.now x) (type_in s.now interface) (option_map (type_in s.now) under))) }
    ensures over { IfOk result (IsStepOf s.now) }
{
    match under {
        Some(under) => {
            let step = type_under(alloc, u, s, x, interface, under)?;
            Ok(step)
        }
        None => Ok(silent()),
    }
}

#[tactic(auto, using(type_answers::proofs::ComingLaws::bind_comes, type_answers::proofs::ComingLaws::bind_waits))]
fn type_against(
    alloc: Global,
    u: &Subject,
    s: &State,
    x: Facts,
    interface: TypeId,
) -> Result<Step, NoMemory>
    requires scene { IsScene u.now s.now }
    requires facts { AreFactsOf s.now x }
    requires interface { IsTypeOf s.now interface }
    requires known { IsInterface (declarations_in s.now.table) (type_in s.now interface) }
    ensures comes { IfOk result (ComesTo u.now s.now (type_against (unit_of u.now) (known_of s.now x) (type_in s.now interface))) }
    ensures over { IfOk result (IsStepOf s.now) }
{
    match ask_under(u, s, x.of) {
        Found::Is(under) => {
            let step = type_told(alloc, u, s, x, interface, under)?;
            Ok(step)
        }
        Found::Wait(item) => Ok(Step::Waits(item)),
    }
}

fn guard_under(
    alloc: Global,
    u: &Subject,
    s: &State,
    x: Facts,
    under: TypeId,
) -> Result<Step, NoMemory>
    requires scene { IsScene u.now s.now }
    requires facts { AreFactsOf s.now x }
    requires under { IsTypeOf s.now under }
    ensures comes { IfOk result (ComesTo u.now s.now (guard_under (unit_of u.now) (known_of s.now x) (type_in s.now under))) }
    ensures over { IfOk result (IsStepOf s.now) }
{
    if is_interface(s, under) {
        let step = type_against(alloc, u, s, x, under)?;
        return Ok(step);
    }
    Ok(good(x))
}

fn guard_told(
    alloc: Global,
    u: &Subject,
    s: &State,
    x: Facts,
    under: Option<TypeId>,
) -> Result<Step, NoMemory>
    requires scene { IsScene u.now s.now }
    requires facts { AreFactsOf s.now x }
    requires under { MayBeTypeOf s.now under }
    ensures comes { IfOk result (ComesTo u.now s.now (guard_told (unit_of u.now) (known_of s.now x) (option_map (type_in s.now) under))) }
    ensures over { IfOk result (IsStepOf s.now) }
{
    match under {
        Some(under) => {
            let step = guard_under(alloc, u, s, x, under)?;
            Ok(step)
        }
        None => Ok(good(x)),
    }
}

#[tactic(auto, using(type_answers::proofs::ComingLaws::bind_comes, type_answers::proofs::ComingLaws::bind_waits))]
fn guard_known(alloc: Global, u: &Subject, s: &State, x: Facts, y: Facts) -> Result<Step, NoMemory>
    requires scene { IsScene u.now s.now }
    requires facts { AreFactsOf s.now x }
    requires operand { AreFactsOf s.now y }
    ensures comes { IfOk result (ComesTo u.now s.now (guard_known (unit_of u.now) (known_of s.now x) (known_of s.now y))) }
    ensures over { IfOk result (IsStepOf s.now) }
{
    match ask_under(u, s, y.last) {
        Found::Is(under) => {
            let step = guard_told(alloc, u, s, x, under)?;
            Ok(step)
        }
        Found::Wait(item) => Ok(Step::Waits(item)),
    }
}

fn guard_placed(alloc: Global, u: &Subject, s: &State, x: Facts, m: Mark) -> Result<Step, NoMemory>
    requires scene { IsScene u.now s.now }
    requires facts { AreFactsOf s.now x }
    requires mark { IsMarkOf s.now m }
    ensures comes { IfOk result (ComesTo u.now s.now (guard_placed (unit_of u.now) (known_of s.now x) (said s.now m))) }
    ensures over { IfOk result (IsStepOf s.now) }
{
    match known(s, m) {
        Some(y) => {
            let step = guard_known(alloc, u, s, x, y)?;
            Ok(step)
        }
        None => Ok(good(x)),
    }
}

#[tactic(auto, using(type_answers::proofs::ComingLaws::bind_comes, type_answers::proofs::ComingLaws::bind_waits))]
fn guard_part(
    alloc: Global,
    u: &Subject,
    s: &State,
    block: usize,
    x: Facts,
    n: u32,
) -> Result<Step, NoMemory>
    requires scene { IsScene u.now s.now }
    requires facts { AreFactsOf s.now x }
    ensures comes { IfOk result (ComesTo u.now s.now (guard_part (unit_of u.now) block (known_of s.now x) n)) }
    ensures over { IfOk result (IsStepOf s.now) }
{
    match ask_mark(u, s, Stage::Placed, block, n) {
        Found::Is(m) => {
            let step = guard_placed(alloc, u, s, x, m)?;
            Ok(step)
        }
        Found::Wait(item) => Ok(Step::Waits(item)),
    }
}

fn type_beside(
    alloc: Global,
    u: &Subject,
    s: &State,
    block: usize,
    file: u32,
    clause: u32,
    x: Facts,
) -> Result<Step, NoMemory>
    requires scene { IsScene u.now s.now }
    requires facts { AreFactsOf s.now x }
    ensures comes { IfOk result (ComesTo u.now s.now (type_beside (unit_of u.now) block file clause (known_of s.now x))) }
    ensures over { IfOk result (IsStepOf s.now) }
{
    match guard_around(u, file, clause) {
        Some(n) => {
            let step = guard_part(alloc, u, s, block, x, n)?;
            Ok(step)
        }
        None => Ok(good(x)),
    }
}

fn value_or(s: &State, x: Facts) -> Step
    requires { AreFactsOf s.now x }
    ensures is { step_in s.now result ≡ tell (sight s.now) (value_or (known_of s.now x)) }
    ensures over { IsStepOf s.now result }
{
    let _ = s;
    if is_nil_mode(x.mode) {
        good(x)
    } else {
        broken(NOT_A_TYPE)
    }
}

#[tactic(auto, using(type_answers::proofs::ComingLaws::same_comes))]
fn type_known(
    alloc: Global,
    u: &Subject,
    s: &State,
    block: usize,
    file: u32,
    clause: u32,
    x: Facts,
) -> Result<Step, NoMemory>
    requires scene { IsScene u.now s.now }
    requires facts { AreFactsOf s.now x }
    ensures comes { IfOk result (ComesTo u.now s.now (type_known (unit_of u.now) block file clause (known_of s.now x))) }
    ensures over { IfOk result (IsStepOf s.now) }
{
    if is_type(x.mode) {
        let step = type_beside(alloc, u, s, block, file, clause, x)?;
        return Ok(step);
    }
    Ok(value_or(s, x))
}

fn type_in_clause(
    alloc: Global,
    u: &Subject,
    s: &State,
    block: usize,
    file: u32,
    m: Mark,
    clause: u32,
) -> Result<Step, NoMemory>
    requires scene { IsScene u.now s.now }
    requires mark { IsMarkOf s.now m }
    ensures comes { IfOk result (ComesTo u.now s.now (type_in_clause (unit_of u.now) block file (said s.now m) clause)) }
    ensures over { IfOk result (IsStepOf s.now) }
{
    match m {
        Mark::Good(x) => {
            let step = type_known(alloc, u, s, block, file, clause, x)?;
            Ok(step)
        }
        Mark::Bad(rule) => Ok(Step::Says(Answer::Mark(Mark::Bad(rule)))),
        Mark::Outside(limit) => Ok(Step::Says(Answer::Mark(Mark::Outside(limit)))),
        Mark::Silent => Ok(Step::Says(Answer::Mark(Mark::Silent))),
        Mark::Wants(_, _) => Ok(Step::Says(Answer::Mark(Mark::Silent))),
        Mark::Declared(_) => Ok(Step::Says(Answer::Mark(Mark::Silent))),
    }
}

/// What comes of the mark of a type of a clause: E10, E47.
pub fn judge_case_type(
    alloc: Global,
    u: &Subject,
    s: &State,
    block: usize,
    file: u32,
    around: u32,
    m: Mark,
) -> Result<Step, NoMemory>
    requires scene { IsScene u.now s.now }
    requires mark { IsMarkOf s.now m }
    ensures comes { IfOk result (ComesTo u.now s.now (case_type_rule (unit_of u.now) block file around (said s.now m))) }
    ensures over { IfOk result (IsStepOf s.now) }
{
    match clause_around(u, file, around) {
        Some(clause) => {
            let step = type_in_clause(alloc, u, s, block, file, m, clause)?;
            Ok(step)
        }
        None => Ok(silent()),
    }
}
