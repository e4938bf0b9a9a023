//! The last stage of the nodes of a block: which types they declare. Most declare none, which is seen of all of them together.
ghost use Rattle.std.specs.Prelude.{◌≡◌, ◌<◌, ◌≤◌, false, IfOk, OnOk, get_or};
ghost use Rattle.mark_walk.specs.Asks.{IsMarked, done};
ghost use Rattle.typed_marks.specs.Meanings.{Quiet};
ghost use Rattle.typed_marks.specs.States.{so_far};
ghost use Rattle.unit_read.specs.Subjects.{full_of, unit_of};
ghost use Rattle.elaborate.specs.Walks.{IsItemOf};
ghost use Rattle.elaborate.specs.Elaborated.{IsAtWork};
ghost use Rattle.elaborate.specs.Covering.{Went, IsAtRest, Ended, IsNodeOf, AreNodesOf, AreStagesMarked, AreStagesOfNodes};
ghost use Rattle.elaborate.specs.Types.{AreQuietTypes};

use crate::nodes::{mark_nodes, mark_quiet};
use crate::rules::Rules;
use crate::work::Work;
use gv_base::NoMemory;
use mark_walk::Walk;
use typed_marks::{Item, Stage};

fn flag(flags: &[bool], n: usize) -> bool
    ensures { result ≡ get_or flags.now n false }
{
    if n < flags.len() { flags[n] } else { false }
}

/// Marks an item of which nothing is said, unless it is marked.
fn mark_silent<R: Rules>(work: &mut Work<R>, item: Item) -> Result<(), NoMemory>
    requires work { IsAtWork work.old.subject.now work.old.state }
    requires item { IsItemOf (unit_of work.old.subject.now) item }
    requires quiet { R.rule (unit_of work.old.subject.now) item ≡ done Quiet }
    ensures went { OnOk result (Went R.rule work.old.subject.now work.new.subject.now work.old.state work.new.state) }
    ensures marked { OnOk result (IsMarked (so_far work.new.state) item) }
{
    if work.state.is_marked(item) {
        return Ok(());
    }
    mark_quiet(work, item)?;
    Ok(())
}

/// Marks a node before this end at its last stage, after the others. Where its flag is set nothing is said of it.
fn mark_type<R: Rules>(
    walk: &mut Walk<Item>,
    work: &mut Work<R>,
    block: usize,
    node: usize,
    end: usize,
    flags: &[bool],
) -> Result<Option<Item>, NoMemory>
    requires work { IsAtWork work.old.subject.now work.old.state }
    requires node { IsNodeOf (unit_of work.old.subject.now) block node }
    requires within { node < end }
    requires marked { AreStagesMarked block node 5 (so_far work.old.state) }
    requires flags { AreQuietTypes R.rule (unit_of work.old.subject.now) block flags.now }
    requires rests { IsAtRest (full_of work.old.subject.now) work.old.state walk.old }
    ensures went { OnOk result (Went R.rule work.old.subject.now work.new.subject.now work.old.state work.new.state) }
    ensures ended { IfOk result (Ended R.rule (full_of work.old.subject.now) work.new.state walk.new (AreStagesMarked block node 6)) }
{
    if flag(flags, node) {
        let item = Item {
            stage: Stage::Under,
            block,
            node,
        };
        mark_silent(work, item)?;
        return Ok(None);
    }
    // few come here, so that what marks nodes stays in one place
    let circle = mark_nodes(walk, work, block, node, node + 1, 5, 6)?;
    Ok(circle)
}

/// Marks the nodes of a block at their last stage, after the others, from this node on and before that.
pub fn mark_types<R: Rules>(
    walk: &mut Walk<Item>,
    work: &mut Work<R>,
    block: usize,
    low: usize,
    end: usize,
    flags: &[bool],
) -> Result<Option<Item>, NoMemory>
    requires work { IsAtWork work.old.subject.now work.old.state }
    requires nodes { AreNodesOf (unit_of work.old.subject.now) block low end }
    requires marked { AreStagesOfNodes block low end 5 (so_far work.old.state) }
    requires flags { AreQuietTypes R.rule (unit_of work.old.subject.now) block flags.now }
    requires rests { IsAtRest (full_of work.old.subject.now) work.old.state walk.old }
    ensures went { OnOk result (Went R.rule work.old.subject.now work.new.subject.now work.old.state work.new.state) }
    ensures ended { IfOk result (Ended R.rule (full_of work.old.subject.now) work.new.state walk.new (AreStagesOfNodes block low end 6)) }
{
    for node in low..end {
        let circle = mark_type(walk, work, block, node, end, flags)?;
        if let Some(other) = circle {
            return Ok(Some(other));
        }
    }
    Ok(None)
}
