//! The operand of a range clause with `=`.
ghost use Rattle.std.specs.Prelude.{IfOk};
ghost use Rattle.type_answers.specs.Coming.{ComesTo, FoundBy};
ghost use Rattle.unit_read.specs.Subjects.{unit_of};
ghost use Rattle.rule_words.specs.Good.{known_of, AreFactsOf};
ghost use Rattle.rule_words.specs.Scenes.{IsScene, said, IsMarkOf};
ghost use Rattle.rule_words.specs.Steps.{IsStepOf};
ghost use Rattle.assign_rules.specs.InCode.{ranged_in, IsRangedOf, ranging_in, IsRangingOf};
ghost use Rattle.assign_rules.specs.Ranging.{target_ranged, nth_ranged, both_ranged, assigned_ranged, operand_told, operand_good, operand_by, operand_rule};
ghost use Rattle.assign_rules.specs.Sharing.{then_others};
ghost use Rattle.assign_rules.specs.Single.{fitting, fits_if, fits_told};

use crate::ranging::{Ranged, Ranging, ranged_type, ranging_of};
use crate::several::told_shared;
use crate::sharing::one_assigned;
use crate::single::{ask_fits, typed_fault};
use go_tree::{Node, NodeKind};
use gv_base::NoMemory;
use package_objects::{item, part_of};
use rule_words::good::{broken, good, silent};
use rule_words::{Answer, Step};
use std::alloc::Global;
use type_questions::{Found, Reached};
use typed_marks::{Facts, Item, Mark, State};
use typed_tree::CONSTANT_OVERFLOW;
use unit_read::Subject;

// ---- E32 at the operand

fn target_ranged(
    alloc: Global,
    u: &Subject,
    s: &State,
    block: usize,
    file: u32,
    nodes: &[Node],
    kind: NodeKind,
    r: Ranged,
    i: usize,
    t: u32,
) -> Result<Found<Reached<bool>, Item>, NoMemory>
    requires scene { IsScene u.now s.now }
    requires within { IsRangedOf s.now r }
    ensures { IfOk result (FoundBy u.now s.now (λ x. x) (target_ranged (unit_of u.now) block file nodes.now kind (ranged_in s.now r) i t)) }
{
    match ranged_type(s, i, r) {
        Some(of) => {
            let found = one_assigned(alloc, u, s, block, file, nodes, kind, t, of)?;
            Ok(found)
        }
        None => Ok(Found::Is(Reached::Got(true))),
    }
}

fn nth_ranged(
    alloc: Global,
    u: &Subject,
    s: &State,
    block: usize,
    file: u32,
    nodes: &[Node],
    around: &Node,
    r: Ranged,
    i: usize,
) -> Result<Found<Reached<bool>, Item>, NoMemory>
    requires scene { IsScene u.now s.now }
    requires within { IsRangedOf s.now r }
    ensures { IfOk result (FoundBy u.now s.now (λ x. x) (nth_ranged (unit_of u.now) block file nodes.now around.now (ranged_in s.now r) i)) }
{
    match item(nodes, part_of(around, 0), i) {
        Some(t) => {
            let found = target_ranged(alloc, u, s, block, file, nodes, around.kind, r, i, t)?;
            Ok(found)
        }
        None => Ok(Found::Is(Reached::Got(true))),
    }
}

fn second_ranged(
    alloc: Global,
    u: &Subject,
    s: &State,
    block: usize,
    file: u32,
    nodes: &[Node],
    around: &Node,
    r: Ranged,
    first: Reached<bool>,
) -> Result<Found<Reached<bool>, Item>, NoMemory>
    requires scene { IsScene u.now s.now }
    requires within { IsRangedOf s.now r }
    ensures { IfOk result (FoundBy u.now s.now (λ x. x) (then_others (nth_ranged (unit_of u.now) block file nodes.now around.now (ranged_in s.now r) 1) first)) }
{
    match first {
        Reached::Got(b) => {
            if b {
                let found = nth_ranged(alloc, u, s, block, file, nodes, around, r, 1)?;
                return Ok(found);
            }
            Ok(Found::Is(Reached::Got(false)))
        }
        Reached::Lost => Ok(Found::Is(Reached::Lost)),
    }
}

#[tactic(auto, using(type_answers::proofs::ComingLaws::bind_found, type_answers::proofs::ComingLaws::bind_waits), unfolding(crate::specs::Ranging::both_ranged))]
fn both_ranged(
    alloc: Global,
    u: &Subject,
    s: &State,
    block: usize,
    file: u32,
    nodes: &[Node],
    around: &Node,
    r: Ranged,
) -> Result<Found<Reached<bool>, Item>, NoMemory>
    requires scene { IsScene u.now s.now }
    requires within { IsRangedOf s.now r }
    ensures { IfOk result (FoundBy u.now s.now (λ x. x) (both_ranged (unit_of u.now) block file nodes.now around.now (ranged_in s.now r))) }
{
    let found = nth_ranged(alloc, u, s, block, file, nodes, around, r, 0)?;
    match found {
        Found::Is(first) => {
            let found = second_ranged(alloc, u, s, block, file, nodes, around, r, first)?;
            Ok(found)
        }
        Found::Wait(item) => Ok(Found::Wait(item)),
    }
}

#[tactic(auto, using(type_answers::proofs::ComingLaws::bind_comes, type_answers::proofs::ComingLaws::bind_waits))]
fn assigned_ranged(
    alloc: Global,
    u: &Subject,
    s: &State,
    block: usize,
    file: u32,
    nodes: &[Node],
    around: &Node,
    x: Facts,
    r: Ranged,
) -> Result<Step, NoMemory>
    requires scene { IsScene u.now s.now }
    requires facts { AreFactsOf s.now x }
    requires within { IsRangedOf s.now r }
    ensures comes { IfOk result (ComesTo u.now s.now (assigned_ranged (unit_of u.now) block file nodes.now around.now (known_of s.now x) (ranged_in s.now r))) }
    ensures over { IfOk result (IsStepOf s.now) }
{
    let found = both_ranged(alloc, u, s, block, file, nodes, around, r)?;
    match found {
        Found::Is(told) => Ok(told_shared(u, s, x, told)),
        Found::Wait(item) => Ok(Step::Waits(item)),
    }
}

fn operand_told(
    alloc: Global,
    u: &Subject,
    s: &State,
    block: usize,
    file: u32,
    nodes: &[Node],
    around: &Node,
    x: Facts,
    told: Ranging,
) -> Result<Step, NoMemory>
    requires scene { IsScene u.now s.now }
    requires facts { AreFactsOf s.now x }
    requires within { IsRangingOf s.now told }
    ensures comes { IfOk result (ComesTo u.now s.now (operand_told (unit_of u.now) block file nodes.now around.now (known_of s.now x) (ranging_in s.now told))) }
    ensures over { IfOk result (IsStepOf s.now) }
{
    match told {
        Ranging::Unknown => Ok(good(x)),
        Ranging::Refused => Ok(good(x)),
        Ranging::Gives(r) => {
            let step = assigned_ranged(alloc, u, s, block, file, nodes, around, x, r)?;
            Ok(step)
        }
    }
}

#[tactic(auto, using(type_answers::proofs::ComingLaws::says_comes, type_answers::proofs::ComingLaws::waits_awaited))]
fn operand_good(
    alloc: Global,
    u: &Subject,
    s: &State,
    block: usize,
    file: u32,
    nodes: &[Node],
    around: &Node,
    x: Facts,
) -> Result<Step, NoMemory>
    requires scene { IsScene u.now s.now }
    requires facts { AreFactsOf s.now x }
    ensures comes { IfOk result (ComesTo u.now s.now (operand_good (unit_of u.now) block file nodes.now around.now (known_of s.now x))) }
    ensures over { IfOk result (IsStepOf s.now) }
{
    match ranging_of(u, s, x) {
        Found::Is(told) => {
            let step = operand_told(alloc, u, s, block, file, nodes, around, x, told)?;
            Ok(step)
        }
        Found::Wait(item) => Ok(Step::Waits(item)),
    }
}

fn operand_if(
    alloc: Global,
    u: &Subject,
    s: &State,
    block: usize,
    file: u32,
    nodes: &[Node],
    around: &Node,
    x: Facts,
    b: bool,
) -> Result<Step, NoMemory>
    requires scene { IsScene u.now s.now }
    requires facts { AreFactsOf s.now x }
    ensures comes { IfOk result (ComesTo u.now s.now (fits_if (operand_good (unit_of u.now) block file nodes.now around.now (known_of s.now x)) b)) }
    ensures over { IfOk result (IsStepOf s.now) }
{
    if b {
        let step = operand_good(alloc, u, s, block, file, nodes, around, x)?;
        return Ok(step);
    }
    Ok(broken(CONSTANT_OVERFLOW))
}

fn operand_fits(
    alloc: Global,
    u: &Subject,
    s: &State,
    block: usize,
    file: u32,
    nodes: &[Node],
    around: &Node,
    x: Facts,
    told: Reached<bool>,
) -> Result<Step, NoMemory>
    requires scene { IsScene u.now s.now }
    requires facts { AreFactsOf s.now x }
    ensures comes { IfOk result (ComesTo u.now s.now (fits_told (operand_good (unit_of u.now) block file nodes.now around.now (known_of s.now x)) told)) }
    ensures over { IfOk result (IsStepOf s.now) }
{
    match told {
        Reached::Got(b) => {
            let step = operand_if(alloc, u, s, block, file, nodes, around, x, b)?;
            Ok(step)
        }
        Reached::Lost => Ok(silent()),
    }
}

#[tactic(auto, using(type_answers::proofs::ComingLaws::bind_comes, type_answers::proofs::ComingLaws::bind_waits))]
fn operand_fitting(
    alloc: Global,
    u: &Subject,
    s: &State,
    block: usize,
    file: u32,
    nodes: &[Node],
    around: &Node,
    x: Facts,
) -> Result<Step, NoMemory>
    requires scene { IsScene u.now s.now }
    requires facts { AreFactsOf s.now x }
    ensures comes { IfOk result (ComesTo u.now s.now (fitting (known_of s.now x) (operand_good (unit_of u.now) block file nodes.now around.now (known_of s.now x)))) }
    ensures over { IfOk result (IsStepOf s.now) }
{
    let found = ask_fits(alloc, u, s, x)?;
    match found {
        Found::Is(told) => {
            let step = operand_fits(alloc, u, s, block, file, nodes, around, x, told)?;
            Ok(step)
        }
        Found::Wait(item) => Ok(Step::Waits(item)),
    }
}

fn operand_by(
    alloc: Global,
    u: &Subject,
    s: &State,
    block: usize,
    file: u32,
    nodes: &[Node],
    around: &Node,
    x: Facts,
) -> Result<Step, NoMemory>
    requires scene { IsScene u.now s.now }
    requires facts { AreFactsOf s.now x }
    ensures comes { IfOk result (ComesTo u.now s.now (operand_by (unit_of u.now) block file nodes.now around.now (known_of s.now x))) }
    ensures over { IfOk result (IsStepOf s.now) }
{
    match typed_fault(x.mode) {
        None => {
            let step = operand_fitting(alloc, u, s, block, file, nodes, around, x)?;
            Ok(step)
        }
        Some(rule) => Ok(broken(rule)),
    }
}

/// What comes of the mark of the operand of a range clause with `=`: E24, E25, E26, E30, E32.
pub fn judge_ranged(
    alloc: Global,
    u: &Subject,
    s: &State,
    block: usize,
    file: u32,
    nodes: &[Node],
    around: &Node,
    m: Mark,
) -> Result<Step, NoMemory>
    requires scene { IsScene u.now s.now }
    requires mark { IsMarkOf s.now m }
    ensures comes { IfOk result (ComesTo u.now s.now (operand_rule (unit_of u.now) block file nodes.now around.now (said s.now m))) }
    ensures over { IfOk result (IsStepOf s.now) }
{
    match m {
        Mark::Good(x) => {
            let step = operand_by(alloc, u, s, block, file, nodes, around, x)?;
            Ok(step)
        }
        Mark::Bad(rule) => Ok(Step::Says(Answer::Mark(Mark::Bad(rule)))),
        Mark::Outside(limit) => Ok(Step::Says(Answer::Mark(Mark::Outside(limit)))),
        Mark::Silent => Ok(Step::Says(Answer::Mark(Mark::Silent))),
        Mark::Wants(_, _) => Ok(Step::Says(Answer::Mark(Mark::Silent))),
        Mark::Declared(_) => Ok(Step::Says(Answer::Mark(Mark::Silent))),
    }
}
