//! The mark of one value that is assigned to several operands.
ghost use Rattle.std.specs.Prelude.{◌≡◌, IfOk};
ghost use Rattle.mark_walk.specs.Asks.{bind};
ghost use Rattle.mark_walk.specs.Telling.{tell};
ghost use Rattle.package_objects.specs.Declares.{items, part};
ghost use Rattle.type_answers.specs.Coming.{ComesTo};
ghost use Rattle.unit_read.specs.Subjects.{unit_of};
ghost use Rattle.rule_words.specs.Good.{known_of, AreFactsOf};
ghost use Rattle.rule_words.specs.Scenes.{sight, IsScene, said, IsMarkOf};
ghost use Rattle.rule_words.specs.Steps.{step_in, IsStepOf};
ghost use Rattle.variable_rules.specs.Forms.{name_count as names_of};
ghost use Rattle.assign_rules.specs.Sharing.{all_assigned, shared_if, shared_told, several_by, several_known, several_rule};

use crate::sharing::{all_assigned, gives};
use go_tree::Node;
use gv_base::NoMemory;
use rule_words::good::{broken, good, silent};
use rule_words::{Answer, Step};
use std::alloc::Global;
use type_questions::{Found, Reached};
use typed_marks::{Facts, Mark, State};
use typed_tree::NOT_ASSIGNABLE;
use unit_read::Subject;
use variable_rules::name_count;

// ---- E32 at the value

fn shared_if(s: &State, x: Facts, b: bool) -> Step
    requires { AreFactsOf s.now x }
    ensures is { step_in s.now result ≡ tell (sight s.now) (shared_if (known_of s.now x) b) }
    ensures over { IsStepOf s.now result }
{
    let _ = s;
    if b { good(x) } else { broken(NOT_ASSIGNABLE) }
}

/// What comes of a value, all of whose values are assignable or not: E32.
#[tactic(auto, using(type_answers::proofs::ComingLaws::same_comes))]
pub fn told_shared(u: &Subject, s: &State, x: Facts, told: Reached<bool>) -> Step
    requires scene { IsScene u.now s.now }
    requires facts { AreFactsOf s.now x }
    ensures comes { ComesTo u.now s.now (shared_told (known_of s.now x) told) result }
    ensures over { IsStepOf s.now result }
{
    let _ = u;
    match told {
        Reached::Got(b) => shared_if(s, x, b),
        Reached::Lost => silent(),
    }
}

#[tactic(auto, using(type_answers::proofs::ComingLaws::bind_comes, type_answers::proofs::ComingLaws::bind_waits))]
fn several_assigned(
    alloc: Global,
    u: &Subject,
    s: &State,
    block: usize,
    file: u32,
    nodes: &[Node],
    around: &Node,
    x: Facts,
) -> Result<Step, NoMemory>
    requires scene { IsScene u.now s.now }
    requires facts { AreFactsOf s.now x }
    ensures comes { IfOk result (ComesTo u.now s.now (bind (all_assigned (unit_of u.now) block file nodes.now around.now.kind (known_of s.now x) (names_of nodes.now around.now) (items nodes.now (part around.now 0)) 0) (shared_told (known_of s.now x)))) }
    ensures over { IfOk result (IsStepOf s.now) }
{
    let found = all_assigned(alloc, u, s, block, file, nodes, around, x)?;
    match found {
        Found::Is(told) => Ok(told_shared(u, s, x, told)),
        Found::Wait(item) => Ok(Step::Waits(item)),
    }
}

fn several_by(
    alloc: Global,
    u: &Subject,
    s: &State,
    block: usize,
    file: u32,
    nodes: &[Node],
    around: &Node,
    x: Facts,
    b: bool,
) -> Result<Step, NoMemory>
    requires scene { IsScene u.now s.now }
    requires facts { AreFactsOf s.now x }
    ensures comes { IfOk result (ComesTo u.now s.now (several_by (unit_of u.now) block file nodes.now around.now (known_of s.now x) b)) }
    ensures over { IfOk result (IsStepOf s.now) }
{
    if b {
        let step = several_assigned(alloc, u, s, block, file, nodes, around, x)?;
        return Ok(step);
    }
    Ok(Step::Says(Answer::Mark(Mark::Good(x))))
}

fn several_known(
    alloc: Global,
    u: &Subject,
    s: &State,
    block: usize,
    file: u32,
    nodes: &[Node],
    around: &Node,
    x: Facts,
) -> Result<Step, NoMemory>
    requires scene { IsScene u.now s.now }
    requires facts { AreFactsOf s.now x }
    ensures comes { IfOk result (ComesTo u.now s.now (several_known (unit_of u.now) block file nodes.now around.now (known_of s.now x))) }
    ensures over { IfOk result (IsStepOf s.now) }
{
    let b = gives(s, x, name_count(nodes, around));
    let step = several_by(alloc, u, s, block, file, nodes, around, x, b)?;
    Ok(step)
}

/// What comes of the mark of a value that stands for all operands of an assignment: E32.
pub fn judge_several(
    alloc: Global,
    u: &Subject,
    s: &State,
    block: usize,
    file: u32,
    nodes: &[Node],
    around: &Node,
    m: Mark,
) -> Result<Step, NoMemory>
    requires scene { IsScene u.now s.now }
    requires mark { IsMarkOf s.now m }
    ensures comes { IfOk result (ComesTo u.now s.now (several_rule (unit_of u.now) block file nodes.now around.now (said s.now m))) }
    ensures over { IfOk result (IsStepOf s.now) }
{
    match m {
        Mark::Good(x) => {
            let step = several_known(alloc, u, s, block, file, nodes, around, x)?;
            Ok(step)
        }
        Mark::Bad(rule) => Ok(Step::Says(Answer::Mark(Mark::Bad(rule)))),
        Mark::Outside(limit) => Ok(Step::Says(Answer::Mark(Mark::Outside(limit)))),
        Mark::Silent => Ok(Step::Says(Answer::Mark(Mark::Silent))),
        Mark::Wants(_, _) => Ok(Step::Says(Answer::Mark(Mark::Silent))),
        Mark::Declared(_) => Ok(Step::Says(Answer::Mark(Mark::Silent))),
    }
}
