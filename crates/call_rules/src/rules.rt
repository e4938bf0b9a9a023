//! The rule of a call.
ghost use Rattle.std.specs.Prelude.{◌≡◌, IfOk};
ghost use Rattle.type_answers.specs.Coming.{ComesTo};
ghost use Rattle.unit_read.specs.Subjects.{unit_of};
ghost use Rattle.rule_words.specs.Scenes.{IsScene, said, IsMarkOf, parts_in, AreSeenOf};
ghost use Rattle.rule_words.specs.Steps.{IsStepOf};
ghost use Rattle.rule_words.specs.Words.{need};
ghost use Rattle.rule_words.specs.Wanting.{wanted_of, IsWantedOf};
ghost use Rattle.rule_words.specs.Good.{AreFactsOf, known_of};
ghost use Rattle.call_rules.specs.Rules.{call_reads, passes_call, callee_rule, known_callee, call_rule};

use crate::callee::{Callee, callee_of, calls};
use crate::calling::judge_called;
use crate::converting::judge_conversion;
use builtin_rules::{builtin_in, is_call, is_spread, judge_builtin};
use go_tree::{Node, NodeKind, NodeRef};
use gv_base::NoMemory;
use package_objects::part_of;
use rule_words::good::part_at;
use rule_words::{Answer, How, Seen, Step, Wanted};
use std::alloc::Global;
use typed_marks::{Facts, Mark, State};
use unit_read::Subject;

/// How the parts of a call are read.
pub fn call_reads(kind: NodeKind, slot: usize) -> Option<How>
    ensures { result ≡ call_reads kind slot }
{
    let _ = slot;
    if is_call(kind) {
        Some(How::Value)
    } else {
        None
    }
}

/// The first argument is a call, parentheses aside.
#[tactic(auto, unfolding(crate::specs::Rules::passes_call))]
fn passes_call(u: &Subject, file: u32, node: &Node) -> bool
    ensures { result ≡ passes_call (unit_of u.now) file node.now }
{
    match part_of(node, 1) {
        Some(n) => calls(u.nodes_at(file), n),
        None => false,
    }
}

#[tactic(auto, using(type_answers::proofs::ComingLaws::same_comes), unfolding(crate::specs::Rules::callee_rule))]
fn judge_callee(
    alloc: Global,
    u: &Subject,
    s: &State,
    block: usize,
    file: u32,
    node: &Node,
    parts: &[Seen],
    f: Facts,
    callee: Callee,
) -> Result<Step, NoMemory>
    requires scene { IsScene u.now s.now }
    requires parts { AreSeenOf s.now parts.now }
    requires facts { AreFactsOf s.now f }
    ensures comes { IfOk result (ComesTo u.now s.now (callee_rule (unit_of u.now) block file node.now (parts_in s.now parts.now) (known_of s.now f) callee)) }
    ensures over { IfOk result (IsStepOf s.now) }
{
    let spread = is_spread(node.kind);
    match callee {
        Callee::Value => Ok(judge_called(s, spread, passes_call(u, file, node), parts)),
        Callee::Type => {
            let step = judge_conversion(alloc, u, s, spread, f.of, parts)?;
            Ok(step)
        }
        Callee::Builtin => {
            let b = builtin_in(u, file, node);
            Ok(judge_builtin(alloc, u, s, block, file, node, parts, spread, b))
        }
        Callee::Refused(rule) => Ok(Step::Says(Answer::Mark(Mark::Bad(rule)))),
    }
}

fn judge_called_by(
    alloc: Global,
    u: &Subject,
    s: &State,
    block: usize,
    file: u32,
    node: &Node,
    parts: &[Seen],
    f: Mark,
) -> Result<Step, NoMemory>
    requires scene { IsScene u.now s.now }
    requires parts { AreSeenOf s.now parts.now }
    requires callee { IsMarkOf s.now f }
    ensures comes { IfOk result (ComesTo u.now s.now (need (said s.now f) (known_callee (unit_of u.now) block file node.now (parts_in s.now parts.now)))) }
    ensures over { IfOk result (IsStepOf s.now) }
{
    match f {
        Mark::Good(x) => {
            let step = judge_callee(alloc, u, s, block, file, node, parts, x, callee_of(x.mode))?;
            Ok(step)
        }
        Mark::Bad(_) => Ok(Step::Says(Answer::Mark(Mark::Silent))),
        Mark::Outside(_) => Ok(Step::Says(Answer::Mark(Mark::Silent))),
        Mark::Silent => Ok(Step::Says(Answer::Mark(Mark::Silent))),
        Mark::Wants(_, _) => Ok(Step::Says(Answer::Mark(Mark::Silent))),
        Mark::Declared(_) => Ok(Step::Says(Answer::Mark(Mark::Silent))),
    }
}

/// What the rule of a call comes to.
pub fn judge_call(
    alloc: Global,
    u: &Subject,
    s: &State,
    block: usize,
    at: NodeRef,
    node: &Node,
    parts: &[Seen],
    wanted: Wanted,
) -> Result<Step, NoMemory>
    requires scene { IsScene u.now s.now }
    requires parts { AreSeenOf s.now parts.now }
    requires wanted { IsWantedOf s.now wanted }
    ensures comes { IfOk result (ComesTo u.now s.now (call_rule (unit_of u.now) block at node.now (parts_in s.now parts.now) (wanted_of s.now wanted))) }
    ensures over { IfOk result (IsStepOf s.now) }
{
    let _ = wanted;
    let f = part_at(s, parts, 0);
    let step = judge_called_by(alloc, u, s, block, at.file, node, parts, f.mark)?;
    Ok(step)
}
