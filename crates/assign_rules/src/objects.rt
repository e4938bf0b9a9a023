//! The variables that statements declare.
ghost use Rattle.std.specs.Prelude.{◌≡◌};
ghost use Rattle.mark_walk.specs.Telling.{tell};
ghost use Rattle.unit_read.specs.Subjects.{unit_of};
ghost use Rattle.rule_words.specs.Scenes.{sight, IsScene};
ghost use Rattle.rule_words.specs.Steps.{step_in, IsStepOf};
ghost use Rattle.assign_rules.specs.Objects.{bound_object, object_by, statement_object};

use crate::range_names::range_object;
use go_tree::{Node, NodeKind};
use package_objects::part_of;
use rule_words::Step;
use rule_words::good::silent;
use typed_marks::State;
use unit_read::Subject;
use variable_rules::{object_by_value, valued_object};

fn bound_object(u: &Subject, s: &State, file: u32, node: &Node) -> Step
    requires { IsScene u.now s.now }
    ensures is { step_in s.now result ≡ tell (sight s.now) (bound_object (unit_of u.now) file node.now) }
    ensures over { IsStepOf s.now result }
{
    match part_of(node, 1) {
        Some(n) => valued_object(u, s, file, n),
        None => silent(),
    }
}

fn object_by(u: &Subject, s: &State, file: u32, kind: NodeKind, node: &Node, i: usize) -> Step
    requires { IsScene u.now s.now }
    ensures is { step_in s.now result ≡ tell (sight s.now) (object_by (unit_of u.now) file kind node.now i) }
    ensures over { IsStepOf s.now result }
{
    match kind {
        NodeKind::Define => object_by_value(u, s, file, u.nodes_at(file), node, i, 1),
        NodeKind::ForRangeDefine => range_object(u, s, file, node, i),
        NodeKind::Bind => bound_object(u, s, file, node),
        _ => silent(),
    }
}

/// How far the rule goes of the object of the name at a place of a statement that declares it.
pub fn judge_statement_object(u: &Subject, s: &State, file: u32, node: &Node, i: usize) -> Step
    requires { IsScene u.now s.now }
    ensures is { step_in s.now result ≡ tell (sight s.now) (statement_object (unit_of u.now) file node.now i) }
    ensures over { IsStepOf s.now result }
{
    object_by(u, s, file, node.kind, node, i)
}
