//! The rule of a specification of variables with values.
ghost use Rattle.std.specs.Prelude.{◌≡◌};
ghost use Rattle.mark_walk.specs.Telling.{tell};
ghost use Rattle.unit_read.specs.Subjects.{unit_of};
ghost use Rattle.rule_words.specs.Scenes.{sight, IsScene, parts_in, AreSeenOf};
ghost use Rattle.rule_words.specs.Steps.{step_in, IsStepOf};
ghost use Rattle.rule_words.specs.Wanting.{wanted_of, IsWantedOf};
ghost use Rattle.variable_rules.specs.Rules.{slot_rule, variable_rule};

use crate::counts::counted;
use crate::forms::value_slot;
use go_tree::{Node, NodeRef};
use rule_words::good::silent;
use rule_words::{Seen, Step, Wanted};
use typed_marks::State;
use unit_read::Subject;

fn in_slot(u: &Subject, s: &State, block: usize, at: NodeRef, node: &Node, slot: usize) -> Step
    requires { IsScene u.now s.now }
    ensures is { step_in s.now result ≡ tell (sight s.now) (slot_rule (unit_of u.now) block at node.now slot) }
    ensures over { IsStepOf s.now result }
{
    counted(u, s, block, at.file, u.nodes_at(at.file), slot, node)
}

/// How far the rule of a specification of variables with values goes.
pub fn judge_variables(
    u: &Subject,
    s: &State,
    block: usize,
    at: NodeRef,
    node: &Node,
    parts: &[Seen],
    wanted: Wanted,
) -> Step
    requires scene { IsScene u.now s.now }
    requires parts { AreSeenOf s.now parts.now }
    requires wanted { IsWantedOf s.now wanted }
    ensures is { step_in s.now result ≡ tell (sight s.now) (variable_rule (unit_of u.now) block at node.now (parts_in s.now parts.now) (wanted_of s.now wanted)) }
    ensures over { IsStepOf s.now result }
{
    let _ = parts;
    let _ = wanted;
    match value_slot(node.kind) {
        Some(slot) => in_slot(u, s, block, at, node, slot),
        None => silent(),
    }
}
