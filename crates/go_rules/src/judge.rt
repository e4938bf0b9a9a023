//! The rule of each item.
ghost use Rattle.std.specs.Prelude.{◌≡◌, false, IfOk};
ghost use Rattle.unit_read.specs.Subjects.{unit_of};
ghost use Rattle.rule_words.specs.Scenes.{IsScene};
ghost use Rattle.elaborate.specs.Briefs.{ComesBriefly, IsBriefOf};
ghost use Rattle.elaborate.specs.Walks.{is_declaring};
ghost use Rattle.go_rules.specs.Stages.{stage_rule, node_rule, at_node, number, nth_rule, in_file, file_rule, rule};

use crate::judged::{before, judged};
use crate::number::number;
use crate::objects::object;
use crate::placed::placed;
use crate::role::role_at;
use crate::room::Room;
use crate::wants::wanted;
use elaborate::Brief;
use elaborate::briefly::silent;
use go_tree::{Node, NodeRef};
use gv_base::NoMemory;
use std::alloc::Global;
use typed_marks::{Item, Stage, State};
use unit_read::Subject;

#[tactic(auto, using(type_answers::proofs::ComingLaws::same_comes))]
fn judge_stage(
    alloc: Global,
    room: &mut Room,
    u: &Subject,
    s: &State,
    stage: Stage,
    block: usize,
    at: NodeRef,
    node: &Node,
) -> Result<Brief, NoMemory>
    requires scene { IsScene u.now s.now }
    requires stage { is_declaring stage ≡ false }
    ensures comes { IfOk result (ComesBriefly u.now s.now (stage_rule stage (unit_of u.now) block at node.now)) }
    ensures over { IfOk result (IsBriefOf s.now) }
{
    match stage {
        Stage::Before => before(alloc, room, u, s, role_at(u, at, node), block, at, node),
        Stage::Wanted => Ok(wanted(u, s, block, at)),
        Stage::Judged => judged(alloc, room, u, s, role_at(u, at, node), block, at, node),
        Stage::Placed => placed(alloc, u, s, block, at, node),
        Stage::Object => object(alloc, u, s, role_at(u, at, node), block, at, node),
        Stage::Under => unreachable!(),
    }
}

#[tactic(auto, using(type_answers::proofs::ComingLaws::same_comes))]
fn judge_at(
    alloc: Global,
    room: &mut Room,
    u: &Subject,
    s: &State,
    item: Item,
    at: NodeRef,
) -> Result<Brief, NoMemory>
    requires scene { IsScene u.now s.now }
    requires stage { is_declaring item.stage ≡ false }
    ensures comes { IfOk result (ComesBriefly u.now s.now (at_node (unit_of u.now) item at)) }
    ensures over { IfOk result (IsBriefOf s.now) }
{
    match u.node_at(at) {
        Some(node) => judge_stage(alloc, room, u, s, item.stage, item.block, at, node),
        None => Ok(silent()),
    }
}

fn judge_nth(
    alloc: Global,
    room: &mut Room,
    u: &Subject,
    s: &State,
    item: Item,
    file: u32,
    node: u32,
) -> Result<Brief, NoMemory>
    requires scene { IsScene u.now s.now }
    requires stage { is_declaring item.stage ≡ false }
    ensures comes { IfOk result (ComesBriefly u.now s.now (nth_rule (unit_of u.now) item file node)) }
    ensures over { IfOk result (IsBriefOf s.now) }
{
    judge_at(alloc, room, u, s, item, NodeRef { file, node })
}

#[tactic(auto, using(type_answers::proofs::ComingLaws::same_comes))]
fn judge_in(
    alloc: Global,
    room: &mut Room,
    u: &Subject,
    s: &State,
    item: Item,
    file: u32,
) -> Result<Brief, NoMemory>
    requires scene { IsScene u.now s.now }
    requires stage { is_declaring item.stage ≡ false }
    ensures comes { IfOk result (ComesBriefly u.now s.now (in_file (unit_of u.now) item file)) }
    ensures over { IfOk result (IsBriefOf s.now) }
{
    match number(item.node) {
        Some(node) => judge_nth(alloc, room, u, s, item, file, node),
        None => Ok(silent()),
    }
}

/// What the rule of an item comes to, of one that declares no type.
#[tactic(auto, using(type_answers::proofs::ComingLaws::same_comes))]
pub fn judge_item(
    alloc: Global,
    room: &mut Room,
    u: &Subject,
    s: &State,
    item: Item,
) -> Result<Brief, NoMemory>
    requires scene { IsScene u.now s.now }
    requires stage { is_declaring item.stage ≡ false }
    ensures comes { IfOk result (ComesBriefly u.now s.now (rule (unit_of u.now) item)) }
    ensures over { IfOk result (IsBriefOf s.now) }
{
    match u.passage_at(item.block) {
        Some(passage) => judge_in(alloc, room, u, s, item, passage.file),
        None => Ok(silent()),
    }
}
