//! The rules of statements.
ghost use Rattle.std.specs.Prelude.{◌≡◌};
ghost use Rattle.mark_walk.specs.Telling.{tell};
ghost use Rattle.unit_read.specs.Subjects.{unit_of};
ghost use Rattle.rule_words.specs.Scenes.{sight, IsScene, parts_in, AreSeenOf};
ghost use Rattle.rule_words.specs.Steps.{step_in, IsStepOf};
ghost use Rattle.rule_words.specs.Wanting.{wanted_of, IsWantedOf};
ghost use Rattle.statement_rules.specs.Rules.{statement_reads, rule_by, statement_rule};

use crate::conditions::{judge_conditional, judge_handing};
use crate::returning::judge_return;
use crate::standing::judge_go;
use crate::switching::judge_default;
use crate::type_switching::judge_type_switch;
use assign_rules::assigning::{judge_assign, judge_define, judge_step};
use assign_rules::range_rules::{judge_range, judge_range_define};
use assign_rules::selecting::judge_comm;
use assign_rules::sending::judge_send;
use assign_rules::words::holds;
use go_tree::{Node, NodeKind, NodeRef};
use package_objects::part_of;
use rule_words::{How, Seen, Step, Wanted};
use typed_marks::State;
use unit_read::Subject;

/// How the parts are read: a statement asks for those that it tests itself.
pub fn statement_reads(kind: NodeKind, slot: usize) -> Option<How>
    ensures { result ≡ statement_reads kind slot }
{
    let _ = kind;
    let _ = slot;
    None
}

fn judge_by(u: &Subject, s: &State, block: usize, at: NodeRef, node: &Node, kind: NodeKind) -> Step
    requires { IsScene u.now s.now }
    ensures is { step_in s.now result ≡ tell (sight s.now) (rule_by (unit_of u.now) block at node.now kind) }
    ensures over { IsStepOf s.now result }
{
    match kind {
        NodeKind::Assign => judge_assign(u, s, block, at, node),
        NodeKind::Define => judge_define(u, s, block, at, node),
        NodeKind::Increment => judge_step(u, s, block, at, node),
        NodeKind::Decrement => judge_step(u, s, block, at, node),
        NodeKind::Send => judge_send(u, s, block, node),
        NodeKind::If => judge_conditional(u, s, block, at.file, node),
        NodeKind::For => judge_conditional(u, s, block, at.file, node),
        NodeKind::ForClause => judge_conditional(u, s, block, at.file, node),
        NodeKind::Condition => judge_handing(u, s, block, part_of(node, 0)),
        NodeKind::TypeGuard => judge_handing(u, s, block, part_of(node, 0)),
        NodeKind::Bind => judge_handing(u, s, block, part_of(node, 1)),
        NodeKind::ForRange => judge_range(u, s, block, at.file, node),
        NodeKind::ForRangeAssign => judge_range(u, s, block, at.file, node),
        NodeKind::ForRangeDefine => judge_range_define(u, s, block, at.file, node),
        NodeKind::Return => judge_return(u, s, block, at, node),
        NodeKind::Go => judge_go(u, s, block, at.file, node),
        NodeKind::Defer => judge_go(u, s, block, at.file, node),
        NodeKind::Default => judge_default(u, s, at),
        NodeKind::TypeSwitch => judge_type_switch(u, s, block, at.file, node),
        NodeKind::Comm => judge_comm(s, node),
        _ => holds(s),
    }
}

/// How far the rule of a statement goes.
pub fn judge_statement(
    u: &Subject,
    s: &State,
    block: usize,
    at: NodeRef,
    node: &Node,
    parts: &[Seen],
    wanted: Wanted,
) -> Step
    requires scene { IsScene u.now s.now }
    requires parts { AreSeenOf s.now parts.now }
    requires wanted { IsWantedOf s.now wanted }
    ensures is { step_in s.now result ≡ tell (sight s.now) (statement_rule (unit_of u.now) block at node.now (parts_in s.now parts.now) (wanted_of s.now wanted)) }
    ensures over { IsStepOf s.now result }
{
    let _ = parts;
    let _ = wanted;
    judge_by(u, s, block, at, node, node.kind)
}
