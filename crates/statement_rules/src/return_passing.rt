//! A call that gives all results of a function.
ghost use Rattle.std.specs.Prelude.{IfOk};
ghost use Rattle.type_model.specs.GoTypes.{AreBelow};
ghost use Rattle.type_model.specs.Tables.{count as type_count};
ghost use Rattle.type_answers.specs.Coming.{ComesTo};
ghost use Rattle.unit_read.specs.Subjects.{unit_of};
ghost use Rattle.rule_words.specs.Good.{known_of, AreFactsOf};
ghost use Rattle.rule_words.specs.Scenes.{IsScene, said, IsMarkOf};
ghost use Rattle.rule_words.specs.Steps.{IsStepOf};
ghost use Rattle.variable_rules.specs.InCode.{types_of};
ghost use Rattle.statement_rules.specs.Returning.{passed_results, passed_by, passed_among, passed_known, passed_told, passed_from, passed_value, passed_rule};

use assign_rules::around::function_of;
use assign_rules::several::told_shared;
use assign_rules::sharing::{all_returned, gives, many_of};
use gv_base::NoMemory;
use rule_words::good::{good, known};
use rule_words::{Answer, Step};
use std::alloc::Global;
use type_answers::ask_mark;
use type_model::TypeId;
use type_questions::Found;
use typed_marks::{Facts, Mark, Stage, State};
use unit_read::Subject;
use variable_rules::results_of;

// ---- E32 at a call that gives all results

#[tactic(auto, using(type_answers::proofs::ComingLaws::bind_comes, type_answers::proofs::ComingLaws::bind_waits))]
fn passed_results(
    alloc: Global,
    u: &Subject,
    s: &State,
    x: Facts,
    results: &[TypeId],
) -> Result<Step, NoMemory>
    requires scene { IsScene u.now s.now }
    requires facts { AreFactsOf s.now x }
    requires results { AreBelow (type_count s.now.table) results.now }
    ensures comes { IfOk result (ComesTo u.now s.now (passed_results (unit_of u.now) (known_of s.now x) (types_of s.now results.now))) }
    ensures over { IfOk result (IsStepOf s.now) }
{
    let found = all_returned(alloc, u, s, x, results)?;
    match found {
        Found::Is(told) => Ok(told_shared(u, s, x, told)),
        Found::Wait(item) => Ok(Step::Waits(item)),
    }
}

fn passed_by(
    alloc: Global,
    u: &Subject,
    s: &State,
    x: Facts,
    results: &[TypeId],
    b: bool,
) -> Result<Step, NoMemory>
    requires scene { IsScene u.now s.now }
    requires facts { AreFactsOf s.now x }
    requires results { AreBelow (type_count s.now.table) results.now }
    ensures comes { IfOk result (ComesTo u.now s.now (passed_by (unit_of u.now) (known_of s.now x) (types_of s.now results.now) b)) }
    ensures over { IfOk result (IsStepOf s.now) }
{
    if b {
        let step = passed_results(alloc, u, s, x, results)?;
        return Ok(step);
    }
    Ok(good(x))
}

fn passed_among(
    alloc: Global,
    u: &Subject,
    s: &State,
    x: Facts,
    results: &[TypeId],
) -> Result<Step, NoMemory>
    requires scene { IsScene u.now s.now }
    requires facts { AreFactsOf s.now x }
    requires results { AreBelow (type_count s.now.table) results.now }
    ensures comes { IfOk result (ComesTo u.now s.now (passed_among (unit_of u.now) (known_of s.now x) (types_of s.now results.now))) }
    ensures over { IfOk result (IsStepOf s.now) }
{
    let b = gives(s, x, many_of(s, results));
    let step = passed_by(alloc, u, s, x, results, b)?;
    Ok(step)
}

fn passed_known(alloc: Global, u: &Subject, s: &State, x: Facts, f: Facts) -> Result<Step, NoMemory>
    requires scene { IsScene u.now s.now }
    requires facts { AreFactsOf s.now x }
    requires function { AreFactsOf s.now f }
    ensures comes { IfOk result (ComesTo u.now s.now (passed_known (unit_of u.now) (known_of s.now x) (known_of s.now f))) }
    ensures over { IfOk result (IsStepOf s.now) }
{
    let step = passed_among(alloc, u, s, x, results_of(s, f.of))?;
    Ok(step)
}

fn passed_told(alloc: Global, u: &Subject, s: &State, x: Facts, m: Mark) -> Result<Step, NoMemory>
    requires scene { IsScene u.now s.now }
    requires facts { AreFactsOf s.now x }
    requires mark { IsMarkOf s.now m }
    ensures comes { IfOk result (ComesTo u.now s.now (passed_told (unit_of u.now) (known_of s.now x) (said s.now m))) }
    ensures over { IfOk result (IsStepOf s.now) }
{
    match known(s, m) {
        Some(f) => {
            let step = passed_known(alloc, u, s, x, f)?;
            Ok(step)
        }
        None => Ok(good(x)),
    }
}

#[tactic(auto, using(type_answers::proofs::ComingLaws::bind_comes, type_answers::proofs::ComingLaws::bind_waits))]
fn passed_from(
    alloc: Global,
    u: &Subject,
    s: &State,
    block: usize,
    x: Facts,
    f: u32,
) -> Result<Step, NoMemory>
    requires scene { IsScene u.now s.now }
    requires facts { AreFactsOf s.now x }
    ensures comes { IfOk result (ComesTo u.now s.now (passed_from (unit_of u.now) block (known_of s.now x) f)) }
    ensures over { IfOk result (IsStepOf s.now) }
{
    match ask_mark(u, s, Stage::Judged, block, f) {
        Found::Is(m) => {
            let step = passed_told(alloc, u, s, x, m)?;
            Ok(step)
        }
        Found::Wait(item) => Ok(Step::Waits(item)),
    }
}

fn passed_value(
    alloc: Global,
    u: &Subject,
    s: &State,
    block: usize,
    file: u32,
    around: u32,
    x: Facts,
) -> Result<Step, NoMemory>
    requires scene { IsScene u.now s.now }
    requires facts { AreFactsOf s.now x }
    ensures comes { IfOk result (ComesTo u.now s.now (passed_value (unit_of u.now) block file around (known_of s.now x))) }
    ensures over { IfOk result (IsStepOf s.now) }
{
    match function_of(u, file, around) {
        Some(f) => {
            let step = passed_from(alloc, u, s, block, x, f)?;
            Ok(step)
        }
        None => Ok(good(x)),
    }
}

/// What comes of the mark of a call that is all that a return statement returns: E32.
pub fn judge_passed(
    alloc: Global,
    u: &Subject,
    s: &State,
    block: usize,
    file: u32,
    around: u32,
    m: Mark,
) -> Result<Step, NoMemory>
    requires scene { IsScene u.now s.now }
    requires mark { IsMarkOf s.now m }
    ensures comes { IfOk result (ComesTo u.now s.now (passed_rule (unit_of u.now) block file around (said s.now m))) }
    ensures over { IfOk result (IsStepOf s.now) }
{
    match m {
        Mark::Good(x) => {
            let step = passed_value(alloc, u, s, block, file, around, x)?;
            Ok(step)
        }
        Mark::Bad(rule) => Ok(Step::Says(Answer::Mark(Mark::Bad(rule)))),
        Mark::Outside(limit) => Ok(Step::Says(Answer::Mark(Mark::Outside(limit)))),
        Mark::Silent => Ok(Step::Says(Answer::Mark(Mark::Silent))),
        Mark::Wants(_, _) => Ok(Step::Says(Answer::Mark(Mark::Silent))),
        Mark::Declared(_) => Ok(Step::Says(Answer::Mark(Mark::Silent))),
    }
}
