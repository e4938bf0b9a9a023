//! A call as the only argument of another: its results are the arguments (Go 1.17, "Calls").
ghost use Rattle.std.specs.Prelude.{◌≡◌, IfOk, IfSome, option_map};
ghost use Rattle.std.specs.Option.{option_copied};
ghost use Rattle.mark_walk.specs.Asks.{bind};
ghost use Rattle.mark_walk.specs.Telling.{tell};
ghost use Rattle.type_model.specs.GoTypes.{AreBelow, types_at};
ghost use Rattle.type_model.specs.Tables.{types_in, count};
ghost use Rattle.typed_tree.specs.Basics.{HasBasics};
ghost use Rattle.type_answers.specs.Coming.{ComesTo};
ghost use Rattle.unit_read.specs.Subjects.{unit_of, IsRead};
ghost use Rattle.rule_words.specs.Scenes.{sight, IsScene, said, IsMarkOf, type_in, IsTypeOf, MayBeTypeOf};
ghost use Rattle.rule_words.specs.Steps.{step_in, IsStepOf};
ghost use Rattle.rule_words.specs.Files.{file_of};
ghost use Rattle.rule_words.specs.Good.{AreFactsOf, known_of};
ghost use Rattle.builtin_rules.specs.InCode.{signature_by, IsSignatureOf};
ghost use Rattle.builtin_rules.specs.Named.{builtin_in};
ghost use Rattle.call_rules.specs.Passing.{all_assigned, passed_if, passed_told, results_passed, other_passed, signature_of_many, signature_passed, function_passed, under_passed, several_fault, taking_fault, builtin_fault, value_passed, passed_by, passed_to, known_passed, passed_rule};

use crate::callee::{Callee, callee_of};
use crate::given::{accepts, how_many};
use crate::results::all_assigned;
use builtin_rules::{Builtin, Taking, builtin_in, line_of, says, signature_in};
use go_tree::Node;
use gv_base::NoMemory;
use rule_words::good::{broken, silent};
use rule_words::wishes::before;
use rule_words::{Answer, Step, file_of, mark_under};
use std::alloc::Global;
use type_model::{Signature, TypeId};
use type_questions::{Found, Reached};
use typed_marks::{Facts, Mark, State};
use typed_tree::{Mode, NOT_A_TYPE, NOT_A_VALUE, NOT_ASSIGNABLE, Rule, SEVERAL_VALUES};
use unit_read::Subject;

fn passed_if(s: &State, x: Facts, holds: bool) -> Step
    requires facts { AreFactsOf s.now x }
    ensures is { step_in s.now result ≡ tell (sight s.now) (passed_if (known_of s.now x) holds) }
    ensures over { IsStepOf s.now result }
{
    let _ = s;
    // E32
    if !holds {
        return broken(NOT_ASSIGNABLE);
    }
    says(Mark::Good(x))
}

fn passed_told(s: &State, x: Facts, told: Reached<bool>) -> Step
    requires facts { AreFactsOf s.now x }
    ensures is { step_in s.now result ≡ tell (sight s.now) (passed_told (known_of s.now x) told) }
    ensures over { IsStepOf s.now result }
{
    match told {
        Reached::Got(holds) => passed_if(s, x, holds),
        Reached::Lost => silent(),
    }
}

#[tactic(auto, using(type_answers::proofs::ComingLaws::bind_comes, type_answers::proofs::ComingLaws::bind_waits, type_answers::proofs::ComingLaws::same_comes))]
fn judge_assigned(
    alloc: Global,
    u: &Subject,
    s: &State,
    x: Facts,
    sig: &Signature,
    results: &[TypeId],
) -> Result<Step, NoMemory>
    requires scene { IsScene u.now s.now }
    requires facts { AreFactsOf s.now x }
    requires signature { IsSignatureOf s.now sig.now }
    requires results { AreBelow (count s.now.table) results.now }
    ensures comes { IfOk result (ComesTo u.now s.now (bind (all_assigned (unit_of u.now) (signature_by s.now sig.now) 0 (types_at (types_in s.now.table) results.now)) (passed_told (known_of s.now x)))) }
    ensures over { IfOk result (IsStepOf s.now) }
{
    let found = all_assigned(alloc, u, s, sig, results)?;
    match found {
        Found::Is(told) => Ok(passed_told(s, x, told)),
        Found::Wait(item) => Ok(Step::Waits(item)),
    }
}

#[tactic(auto, unfolding(crate::specs::Passing::results_passed))]
fn judge_results(
    alloc: Global,
    u: &Subject,
    s: &State,
    x: Facts,
    sig: &Signature,
    results: &[TypeId],
) -> Result<Step, NoMemory>
    requires scene { IsScene u.now s.now }
    requires facts { AreFactsOf s.now x }
    requires signature { IsSignatureOf s.now sig.now }
    requires results { AreBelow (count s.now.table) results.now }
    ensures comes { IfOk result (ComesTo u.now s.now (results_passed (unit_of u.now) (known_of s.now x) (signature_by s.now sig.now) (types_at (types_in s.now.table) results.now))) }
    ensures over { IfOk result (IsStepOf s.now) }
{
    if accepts(s, sig, false, how_many(s, results)) {
        let step = judge_assigned(alloc, u, s, x, sig, results)?;
        Ok(step)
    } else {
        Ok(Step::Says(Answer::Mark(Mark::Good(x))))
    }
}

fn judge_other(
    alloc: Global,
    u: &Subject,
    s: &State,
    x: Facts,
    sig: &Signature,
    other: &Signature,
) -> Result<Step, NoMemory>
    requires scene { IsScene u.now s.now }
    requires facts { AreFactsOf s.now x }
    requires signature { IsSignatureOf s.now sig.now }
    requires other { IsSignatureOf s.now other.now }
    ensures comes { IfOk result (ComesTo u.now s.now (other_passed (unit_of u.now) (known_of s.now x) (signature_by s.now sig.now) (signature_by s.now other.now))) }
    ensures over { IfOk result (IsStepOf s.now) }
{
    let step = judge_results(alloc, u, s, x, sig, other.results.as_slice())?;
    Ok(step)
}

fn signature_of_many(s: &State, x: Facts) -> Option<&Signature>
    requires basics { HasBasics s.now.table }
    requires facts { AreFactsOf s.now x }
    ensures is { option_map (signature_by s.now) (option_copied result) ≡ signature_of_many (known_of s.now x) x.mode }
    ensures below { IfSome (option_copied result) (IsSignatureOf s.now) }
{
    match x.mode {
        Mode::Many => signature_in(s, x.of),
        Mode::NoValue => None,
        Mode::TypeName => None,
        Mode::Constant => None,
        Mode::Variable => None,
        Mode::MapIndex => None,
        Mode::Value => None,
        Mode::CommaOk => None,
        Mode::Nil => None,
        Mode::Builtin => None,
        Mode::Package => None,
    }
}

#[tactic(auto, unfolding(crate::specs::Passing::signature_passed))]
fn judge_signature(
    alloc: Global,
    u: &Subject,
    s: &State,
    x: Facts,
    sig: &Signature,
) -> Result<Step, NoMemory>
    requires scene { IsScene u.now s.now }
    requires facts { AreFactsOf s.now x }
    requires signature { IsSignatureOf s.now sig.now }
    ensures comes { IfOk result (ComesTo u.now s.now (signature_passed (unit_of u.now) (known_of s.now x) (signature_by s.now sig.now))) }
    ensures over { IfOk result (IsStepOf s.now) }
{
    match signature_of_many(s, x) {
        Some(other) => {
            let step = judge_other(alloc, u, s, x, sig, other)?;
            Ok(step)
        }
        None => Ok(Step::Says(Answer::Mark(Mark::Good(x)))),
    }
}

fn judge_function(
    alloc: Global,
    u: &Subject,
    s: &State,
    x: Facts,
    of: TypeId,
) -> Result<Step, NoMemory>
    requires scene { IsScene u.now s.now }
    requires facts { AreFactsOf s.now x }
    requires of { IsTypeOf s.now of }
    ensures comes { IfOk result (ComesTo u.now s.now (function_passed (unit_of u.now) (known_of s.now x) (type_in s.now of))) }
    ensures over { IfOk result (IsStepOf s.now) }
{
    match signature_in(s, of) {
        Some(sig) => {
            let step = judge_signature(alloc, u, s, x, sig)?;
            Ok(step)
        }
        None => Ok(Step::Says(Answer::Mark(Mark::Good(x)))),
    }
}

fn judge_under(
    alloc: Global,
    u: &Subject,
    s: &State,
    x: Facts,
    under: Option<TypeId>,
) -> Result<Step, NoMemory>
    requires scene { IsScene u.now s.now }
    requires facts { AreFactsOf s.now x }
    requires under { MayBeTypeOf s.now under }
    ensures comes { IfOk result (ComesTo u.now s.now (under_passed (unit_of u.now) (known_of s.now x) (option_map (type_in s.now) under))) }
    ensures over { IfOk result (IsStepOf s.now) }
{
    match under {
        Some(of) => {
            let step = judge_function(alloc, u, s, x, of)?;
            Ok(step)
        }
        None => Ok(Step::Says(Answer::Mark(Mark::Good(x)))),
    }
}

fn several_fault(mode: Mode) -> Rule
    ensures { result ≡ several_fault mode }
{
    // E25, E24
    match mode {
        Mode::Many => SEVERAL_VALUES,
        _ => NOT_A_VALUE,
    }
}

fn taking_fault(takes: Taking, mode: Mode) -> Rule
    ensures { result ≡ taking_fault takes mode }
{
    match takes {
        // E10
        Taking::Type => NOT_A_TYPE,
        Taking::Value => several_fault(mode),
        Taking::Any => several_fault(mode),
        Taking::Size => several_fault(mode),
        Taking::Element => several_fault(mode),
        Taking::Key => several_fault(mode),
    }
}

#[tactic(auto, unfolding(crate::specs::Passing::builtin_fault))]
fn builtin_fault(b: Option<Builtin>, mode: Mode) -> Rule
    ensures { result ≡ builtin_fault b mode }
{
    match b {
        Some(b) => taking_fault(line_of(b).first, mode),
        None => several_fault(mode),
    }
}

fn fault_in(u: &Subject, block: usize, around: &Node, mode: Mode) -> Rule
    requires { IsRead u.now }
    ensures { result ≡ builtin_fault (builtin_in (unit_of u.now) (file_of (unit_of u.now) block) around.now) mode }
{
    let b = builtin_in(u, file_of(u, block), around);
    builtin_fault(b, mode)
}

#[tactic(auto, using(type_answers::proofs::ComingLaws::says_comes, type_answers::proofs::ComingLaws::waits_awaited))]
fn judge_called(alloc: Global, u: &Subject, s: &State, x: Facts, f: Mark) -> Result<Step, NoMemory>
    requires scene { IsScene u.now s.now }
    requires facts { AreFactsOf s.now x }
    requires callee { IsMarkOf s.now f }
    ensures comes { IfOk result (ComesTo u.now s.now (value_passed (unit_of u.now) (known_of s.now x) (said s.now f))) }
    ensures over { IfOk result (IsStepOf s.now) }
{
    match mark_under(u, s, f) {
        Found::Is(under) => {
            let step = judge_under(alloc, u, s, x, under)?;
            Ok(step)
        }
        Found::Wait(item) => Ok(Step::Waits(item)),
    }
}

#[tactic(auto, unfolding(crate::specs::Passing::passed_by))]
fn judge_callee(
    alloc: Global,
    u: &Subject,
    s: &State,
    block: usize,
    around: &Node,
    x: Facts,
    f: Mark,
    callee: Callee,
) -> Result<Step, NoMemory>
    requires scene { IsScene u.now s.now }
    requires facts { AreFactsOf s.now x }
    requires callee { IsMarkOf s.now f }
    ensures comes { IfOk result (ComesTo u.now s.now (passed_by (unit_of u.now) block around.now (known_of s.now x) (said s.now f) callee)) }
    ensures over { IfOk result (IsStepOf s.now) }
{
    match callee {
        Callee::Value => {
            let step = judge_called(alloc, u, s, x, f)?;
            Ok(step)
        }
        Callee::Type => Ok(Step::Says(Answer::Mark(Mark::Bad(several_fault(x.mode))))),
        Callee::Builtin => Ok(Step::Says(Answer::Mark(Mark::Bad(fault_in(
            u, block, around, x.mode,
        ))))),
        Callee::Refused(_) => Ok(Step::Says(Answer::Mark(Mark::Good(x)))),
    }
}

#[tactic(auto, unfolding(crate::specs::Passing::passed_to))]
fn judge_to(
    alloc: Global,
    u: &Subject,
    s: &State,
    block: usize,
    around: &Node,
    x: Facts,
    f: Mark,
) -> Result<Step, NoMemory>
    requires scene { IsScene u.now s.now }
    requires facts { AreFactsOf s.now x }
    requires callee { IsMarkOf s.now f }
    ensures comes { IfOk result (ComesTo u.now s.now (passed_to (unit_of u.now) block around.now (known_of s.now x) (said s.now f))) }
    ensures over { IfOk result (IsStepOf s.now) }
{
    match f {
        Mark::Good(y) => {
            let step = judge_callee(
                alloc,
                u,
                s,
                block,
                around,
                x,
                Mark::Good(y),
                callee_of(y.mode),
            )?;
            Ok(step)
        }
        Mark::Bad(_) => Ok(Step::Says(Answer::Mark(Mark::Good(x)))),
        Mark::Outside(_) => Ok(Step::Says(Answer::Mark(Mark::Good(x)))),
        Mark::Silent => Ok(Step::Says(Answer::Mark(Mark::Good(x)))),
        Mark::Wants(_, _) => Ok(Step::Says(Answer::Mark(Mark::Good(x)))),
        Mark::Declared(_) => Ok(Step::Says(Answer::Mark(Mark::Good(x)))),
    }
}

#[tactic(auto, using(type_answers::proofs::ComingLaws::says_comes, type_answers::proofs::ComingLaws::waits_awaited), unfolding(crate::specs::Passing::known_passed))]
fn judge_known(
    alloc: Global,
    u: &Subject,
    s: &State,
    block: usize,
    around: &Node,
    x: Facts,
) -> Result<Step, NoMemory>
    requires scene { IsScene u.now s.now }
    requires facts { AreFactsOf s.now x }
    ensures comes { IfOk result (ComesTo u.now s.now (known_passed (unit_of u.now) block around.now (known_of s.now x))) }
    ensures over { IfOk result (IsStepOf s.now) }
{
    match before(u, s, block, around, 0) {
        Found::Is(f) => {
            let step = judge_to(alloc, u, s, block, around, x, f)?;
            Ok(step)
        }
        Found::Wait(item) => Ok(Step::Waits(item)),
    }
}

/// What the place of the only argument makes of its mark, where that is passed: E32, E24, E25.
#[tactic(auto, unfolding(crate::specs::Passing::passed_rule))]
pub fn judge_passed(
    alloc: Global,
    u: &Subject,
    s: &State,
    block: usize,
    around: &Node,
    m: Mark,
) -> Result<Step, NoMemory>
    requires scene { IsScene u.now s.now }
    requires mark { IsMarkOf s.now m }
    ensures comes { IfOk result (ComesTo u.now s.now (passed_rule (unit_of u.now) block around.now (said s.now m))) }
    ensures over { IfOk result (IsStepOf s.now) }
{
    match m {
        Mark::Good(x) => {
            let step = judge_known(alloc, u, s, block, around, x)?;
            Ok(step)
        }
        Mark::Bad(rule) => Ok(Step::Says(Answer::Mark(Mark::Bad(rule)))),
        Mark::Outside(limit) => Ok(Step::Says(Answer::Mark(Mark::Outside(limit)))),
        Mark::Silent => Ok(Step::Says(Answer::Mark(Mark::Silent))),
        Mark::Wants(_, _) => Ok(Step::Says(Answer::Mark(Mark::Silent))),
        Mark::Declared(_) => Ok(Step::Says(Answer::Mark(Mark::Silent))),
    }
}
