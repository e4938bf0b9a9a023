//! The mark of a value of a clause.
ghost use Rattle.std.specs.Prelude.{IfOk, option_map};
ghost use Rattle.type_answers.specs.Coming.{ComesTo};
ghost use Rattle.unit_read.specs.Subjects.{unit_of};
ghost use Rattle.rule_words.specs.Good.{known_of, AreFactsOf};
ghost use Rattle.rule_words.specs.Scenes.{IsScene, said, IsMarkOf, type_in, IsTypeOf, MayBeTypeOf};
ghost use Rattle.rule_words.specs.Steps.{IsStepOf};
ghost use Rattle.assign_rules.specs.Single.{fits_if, fits_told, fitting};
ghost use Rattle.statement_rules.specs.Switching.{against, fitted, case_fitted, case_by, case_single, case_known, case_rule};

use crate::agreeing::against;
use crate::switching::tag_type;
use assign_rules::single::{ask_fits, value_fault};
use gv_base::NoMemory;
use rule_words::good::{broken, good, silent};
use rule_words::types::takes_default;
use rule_words::{Answer, Step};
use std::alloc::Global;
use type_answers::ask_under;
use type_model::TypeId;
use type_questions::{Found, Reached};
use typed_marks::{Facts, Mark, State};
use typed_tree::CONSTANT_OVERFLOW;
use unit_read::Subject;

// ---- E30

fn against_if(
    alloc: Global,
    u: &Subject,
    s: &State,
    x: Facts,
    tag: TypeId,
    b: bool,
) -> Result<Step, NoMemory>
    requires scene { IsScene u.now s.now }
    requires facts { AreFactsOf s.now x }
    requires tag { IsTypeOf s.now tag }
    ensures comes { IfOk result (ComesTo u.now s.now (fits_if (against (unit_of u.now) (known_of s.now x) (type_in s.now tag)) b)) }
    ensures over { IfOk result (IsStepOf s.now) }
{
    if b {
        let step = against(alloc, u, s, x, tag)?;
        return Ok(step);
    }
    Ok(broken(CONSTANT_OVERFLOW))
}

fn against_fits(
    alloc: Global,
    u: &Subject,
    s: &State,
    x: Facts,
    tag: TypeId,
    told: Reached<bool>,
) -> Result<Step, NoMemory>
    requires scene { IsScene u.now s.now }
    requires facts { AreFactsOf s.now x }
    requires tag { IsTypeOf s.now tag }
    ensures comes { IfOk result (ComesTo u.now s.now (fits_told (against (unit_of u.now) (known_of s.now x) (type_in s.now tag)) told)) }
    ensures over { IfOk result (IsStepOf s.now) }
{
    match told {
        Reached::Got(b) => {
            let step = against_if(alloc, u, s, x, tag, b)?;
            Ok(step)
        }
        Reached::Lost => Ok(silent()),
    }
}

#[tactic(auto, using(type_answers::proofs::ComingLaws::bind_comes, type_answers::proofs::ComingLaws::bind_waits))]
fn fitting_against(
    alloc: Global,
    u: &Subject,
    s: &State,
    x: Facts,
    tag: TypeId,
) -> Result<Step, NoMemory>
    requires scene { IsScene u.now s.now }
    requires facts { AreFactsOf s.now x }
    requires tag { IsTypeOf s.now tag }
    ensures comes { IfOk result (ComesTo u.now s.now (fitting (known_of s.now x) (against (unit_of u.now) (known_of s.now x) (type_in s.now tag)))) }
    ensures over { IfOk result (IsStepOf s.now) }
{
    let found = ask_fits(alloc, u, s, x)?;
    match found {
        Found::Is(told) => {
            let step = against_fits(alloc, u, s, x, tag, told)?;
            Ok(step)
        }
        Found::Wait(item) => Ok(Step::Waits(item)),
    }
}

fn fitted(
    alloc: Global,
    u: &Subject,
    s: &State,
    x: Facts,
    tag: TypeId,
    under: Option<TypeId>,
) -> Result<Step, NoMemory>
    requires scene { IsScene u.now s.now }
    requires facts { AreFactsOf s.now x }
    requires tag { IsTypeOf s.now tag }
    requires under { MayBeTypeOf s.now under }
    ensures comes { IfOk result (ComesTo u.now s.now (fitted (unit_of u.now) (known_of s.now x) (type_in s.now tag) (option_map (type_in s.now) under))) }
    ensures over { IfOk result (IsStepOf s.now) }
{
    if takes_default(s, under) {
        let step = fitting_against(alloc, u, s, x, tag)?;
        return Ok(step);
    }
    let step = against(alloc, u, s, x, tag)?;
    Ok(step)
}

#[tactic(auto, using(type_answers::proofs::ComingLaws::bind_comes, type_answers::proofs::ComingLaws::bind_waits))]
fn case_fitted(
    alloc: Global,
    u: &Subject,
    s: &State,
    x: Facts,
    tag: TypeId,
) -> Result<Step, NoMemory>
    requires scene { IsScene u.now s.now }
    requires facts { AreFactsOf s.now x }
    requires tag { IsTypeOf s.now tag }
    ensures comes { IfOk result (ComesTo u.now s.now (case_fitted (unit_of u.now) (known_of s.now x) (type_in s.now tag))) }
    ensures over { IfOk result (IsStepOf s.now) }
{
    match ask_under(u, s, tag) {
        Found::Is(under) => {
            let step = fitted(alloc, u, s, x, tag, under)?;
            Ok(step)
        }
        Found::Wait(item) => Ok(Step::Waits(item)),
    }
}

// ---- all

fn case_by(
    alloc: Global,
    u: &Subject,
    s: &State,
    x: Facts,
    o: Option<TypeId>,
) -> Result<Step, NoMemory>
    requires scene { IsScene u.now s.now }
    requires facts { AreFactsOf s.now x }
    requires tag { MayBeTypeOf s.now o }
    ensures comes { IfOk result (ComesTo u.now s.now (case_by (unit_of u.now) (known_of s.now x) (option_map (type_in s.now) o))) }
    ensures over { IfOk result (IsStepOf s.now) }
{
    match o {
        Some(tag) => {
            let step = case_fitted(alloc, u, s, x, tag)?;
            Ok(step)
        }
        None => Ok(good(x)),
    }
}

#[tactic(auto, using(type_answers::proofs::ComingLaws::says_comes, type_answers::proofs::ComingLaws::waits_awaited))]
fn case_single(
    alloc: Global,
    u: &Subject,
    s: &State,
    block: usize,
    file: u32,
    clause: u32,
    x: Facts,
) -> Result<Step, NoMemory>
    requires scene { IsScene u.now s.now }
    requires facts { AreFactsOf s.now x }
    ensures comes { IfOk result (ComesTo u.now s.now (case_single (unit_of u.now) block file clause (known_of s.now x))) }
    ensures over { IfOk result (IsStepOf s.now) }
{
    match tag_type(u, s, block, file, clause) {
        Found::Is(o) => {
            let step = case_by(alloc, u, s, x, o)?;
            Ok(step)
        }
        Found::Wait(item) => Ok(Step::Waits(item)),
    }
}

fn case_known(
    alloc: Global,
    u: &Subject,
    s: &State,
    block: usize,
    file: u32,
    clause: u32,
    x: Facts,
) -> Result<Step, NoMemory>
    requires scene { IsScene u.now s.now }
    requires facts { AreFactsOf s.now x }
    ensures comes { IfOk result (ComesTo u.now s.now (case_known (unit_of u.now) block file clause (known_of s.now x))) }
    ensures over { IfOk result (IsStepOf s.now) }
{
    match value_fault(x.mode) {
        None => {
            let step = case_single(alloc, u, s, block, file, clause, x)?;
            Ok(step)
        }
        Some(rule) => Ok(broken(rule)),
    }
}

/// What comes of the mark of a value of a clause: E24, E25, E30, E33, E35.
pub fn judge_case(
    alloc: Global,
    u: &Subject,
    s: &State,
    block: usize,
    file: u32,
    clause: u32,
    m: Mark,
) -> Result<Step, NoMemory>
    requires scene { IsScene u.now s.now }
    requires mark { IsMarkOf s.now m }
    ensures comes { IfOk result (ComesTo u.now s.now (case_rule (unit_of u.now) block file clause (said s.now m))) }
    ensures over { IfOk result (IsStepOf s.now) }
{
    match m {
        Mark::Good(x) => {
            let step = case_known(alloc, u, s, block, file, clause, x)?;
            Ok(step)
        }
        Mark::Bad(rule) => Ok(Step::Says(Answer::Mark(Mark::Bad(rule)))),
        Mark::Outside(limit) => Ok(Step::Says(Answer::Mark(Mark::Outside(limit)))),
        Mark::Silent => Ok(Step::Says(Answer::Mark(Mark::Silent))),
        Mark::Wants(_, _) => Ok(Step::Says(Answer::Mark(Mark::Silent))),
        Mark::Declared(_) => Ok(Step::Says(Answer::Mark(Mark::Silent))),
    }
}
