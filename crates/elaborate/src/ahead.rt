//! Nodes that are marked before others wait for them. No mark rests on it, only the time.
ghost use Rattle.std.specs.Prelude.{◌≡◌, ◌<◌, Some, IfOk, OnOk, length, slice_get};
ghost use Rattle.typed_marks.specs.declared.item.Block.{Block as ABlock};
ghost use Rattle.typed_marks.specs.States.{IsState};
ghost use Rattle.unit_read.specs.Subjects.{full_of};
ghost use Rattle.elaborate.specs.Elaborated.{IsAtWork};
ghost use Rattle.elaborate.specs.Covering.{Went, IsAtRest, Ended, IsAnything};

use crate::nodes::{NODE_STAGES, mark_nodes};
use crate::rules::Rules;
use crate::work::Work;
use gv_base::NoMemory;
use mark_walk::Walk;
use typed_marks::{Block, Item, Stage, State};

/// Nodes of a block, from this one on and before that.
#[derive(Clone, Copy, Debug, PartialEq, Eq, Drop)]
pub struct Stretch {
    pub block: usize,
    pub low: usize,
    pub end: usize,
}

fn block_at(blocks: &[Block], k: usize) -> Option<Block>
    ensures { result ≡ slice_get blocks.now k }
{
    blocks.get(k).copied()
}

/// Marks the nodes of a stretch, as far as they lie in the block.
fn mark_within<R: Rules>(
    walk: &mut Walk<Item>,
    work: &mut Work<R>,
    stretch: Stretch,
    block: Block,
) -> Result<Option<Item>, NoMemory>
    requires work { IsAtWork work.old.subject.now work.old.state }
    requires block { slice_get work.old.state.blocks.items stretch.block ≡ Some block }
    requires rests { IsAtRest (full_of work.old.subject.now) work.old.state walk.old }
    ensures went { OnOk result (Went R.rule work.old.subject.now work.new.subject.now work.old.state work.new.state) }
    ensures ended { IfOk result (Ended R.rule (full_of work.old.subject.now) work.new.state walk.new IsAnything) }
{
    let low = stretch.low.max(block.low);
    let end = stretch.end.min(block.end);
    let circle = mark_nodes(walk, work, stretch.block, low, end, 0, NODE_STAGES)?;
    Ok(circle)
}

/// Whether the last node of a stretch is marked: then all are, but for nodes that nothing needs.
fn is_done(s: &State, stretch: Stretch) -> bool
    requires { IsState s.now }
{
    s.is_marked(Item {
        stage: Stage::Placed,
        block: stretch.block,
        node: stretch.end.saturating_sub(1),
    })
}

/// Marks the nodes of a stretch, unless they are marked.
fn mark_stretch<R: Rules>(
    walk: &mut Walk<Item>,
    work: &mut Work<R>,
    stretch: Stretch,
) -> Result<Option<Item>, NoMemory>
    requires work { IsAtWork work.old.subject.now work.old.state }
    requires rests { IsAtRest (full_of work.old.subject.now) work.old.state walk.old }
    ensures went { OnOk result (Went R.rule work.old.subject.now work.new.subject.now work.old.state work.new.state) }
    ensures ended { IfOk result (Ended R.rule (full_of work.old.subject.now) work.new.state walk.new IsAnything) }
{
    if is_done(&work.state, stretch) {
        return Ok(None);
    }
    match block_at(&work.state.blocks, stretch.block) {
        Some(block) => {
            let circle = mark_within(walk, work, stretch, block)?;
            Ok(circle)
        }
        None => Ok(None),
    }
}

fn nth(list: &[Stretch], i: usize) -> Stretch
    requires { i < length list.now }
{
    list[i]
}

/// Marks the nodes of stretches, in their order.
pub fn mark_ahead<R: Rules>(
    walk: &mut Walk<Item>,
    work: &mut Work<R>,
    first: &[Stretch],
) -> Result<Option<Item>, NoMemory>
    requires work { IsAtWork work.old.subject.now work.old.state }
    requires rests { IsAtRest (full_of work.old.subject.now) work.old.state walk.old }
    ensures went { OnOk result (Went R.rule work.old.subject.now work.new.subject.now work.old.state work.new.state) }
    ensures ended { IfOk result (Ended R.rule (full_of work.old.subject.now) work.new.state walk.new IsAnything) }
{
    for i in 0..first.len() {
        let circle = mark_stretch(walk, work, nth(first, i))?;
        if let Some(other) = circle {
            return Ok(Some(other));
        }
    }
    Ok(None)
}
