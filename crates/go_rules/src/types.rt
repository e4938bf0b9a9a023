//! Types in expressions.
ghost use Rattle.std.specs.Prelude.{◌≡◌, IfOk};
ghost use Rattle.mark_walk.specs.Telling.{tell};
ghost use Rattle.unit_read.specs.Subjects.{unit_of};
ghost use Rattle.rule_words.specs.Scenes.{sight, IsScene, parts_in, AreSeenOf};
ghost use Rattle.rule_words.specs.Steps.{step_in, IsStepOf};
ghost use Rattle.rule_words.specs.Wanting.{wanted_of, IsWantedOf};
ghost use Rattle.go_rules.specs.Types.{type_rule};

use decl_rules::judge_decl;
use go_tree::{Node, NodeRef};
use gv_base::NoMemory;
use primary_rules::is_receiving;
use rule_words::good::part_at;
use rule_words::{Seen, Step, Wanted};
use std::alloc::Global;
use type_model::Dir;
use type_rules::types::chan;
use typed_marks::State;
use unit_read::Subject;

/// How far the rule of a type that may stand in an expression goes.
pub fn judge_type(
    alloc: Global,
    u: &Subject,
    s: &State,
    block: usize,
    at: NodeRef,
    node: &Node,
    parts: &[Seen],
    w: Wanted,
) -> Result<Step, NoMemory>
    requires scene { IsScene u.now s.now }
    requires parts { AreSeenOf s.now parts.now }
    requires wanted { IsWantedOf s.now w }
    ensures is { IfOk result (λ step. step_in s.now step ≡ tell (sight s.now) (type_rule (unit_of u.now) block at node.now (parts_in s.now parts.now) (wanted_of s.now w))) }
    ensures over { IfOk result (IsStepOf s.now) }
{
    if is_receiving(u, at, node) {
        return Ok(chan(s, Dir::Receive, part_at(s, parts, 0)));
    }
    judge_decl(alloc, u, s, block, at, node, parts, w)
}
