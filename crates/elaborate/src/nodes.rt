//! Nodes of a package, stage by stage.
ghost use Rattle.std.specs.Prelude.{◌≡◌, ◌<◌, ◌≤◌, None, IfOk, OnOk};
ghost use Rattle.mark_walk.specs.Asks.{IsMarked, done};
ghost use Rattle.typed_marks.specs.Items.{stage_number};
ghost use Rattle.typed_marks.specs.Meanings.{Quiet};
ghost use Rattle.typed_marks.specs.States.{so_far};
ghost use Rattle.unit_read.specs.Subjects.{full_of, unit_of};
ghost use Rattle.elaborate.specs.Walks.{IsItemOf};
ghost use Rattle.elaborate.specs.Elaborated.{IsAtWork};
ghost use Rattle.elaborate.specs.Covering.{Went, IsAtRest, Ended, IsNodeOf, AreNodesOf, AreStagesMarked, AreStagesOfNodes};

use crate::rules::Rules;
use crate::steps::leave;
use crate::work::Work;
use gv_base::NoMemory;
use mark_walk::{Walk, Walked, mark};
use typed_marks::{Item, Stage};

/// How many stages are those of a node alone, and how many come before what it declares as a type.
pub const NODE_STAGES: usize = 4;

pub const OBJECT_STAGES: usize = 5;

/// Marks an item of which nothing is said.
pub fn mark_quiet<R: Rules>(work: &mut Work<R>, item: Item) -> Result<(), NoMemory>
    requires work { IsAtWork work.old.subject.now work.old.state }
    requires item { IsItemOf (unit_of work.old.subject.now) item }
    requires unmarked { so_far work.old.state item ≡ None }
    requires quiet { R.rule (unit_of work.old.subject.now) item ≡ done Quiet }
    ensures went { OnOk result (Went R.rule work.old.subject.now work.new.subject.now work.old.state work.new.state) }
    ensures marked { OnOk result (IsMarked (so_far work.new.state) item) }
{
    leave(work.subject, &mut work.state, item)?;
    Ok(())
}

/// Marks one item, or answers one that waits for itself. Of many nothing is said, and these take no part in the walk.
fn mark_one<R: Rules>(
    walk: &mut Walk<Item>,
    work: &mut Work<R>,
    item: Item,
) -> Result<Option<Item>, NoMemory>
    requires work { IsAtWork work.old.subject.now work.old.state }
    requires item { IsItemOf (unit_of work.old.subject.now) item }
    requires rests { IsAtRest (full_of work.old.subject.now) work.old.state walk.old }
    ensures went { OnOk result (Went R.rule work.old.subject.now work.new.subject.now work.old.state work.new.state) }
    ensures ended { IfOk result (Ended R.rule (full_of work.old.subject.now) work.new.state walk.new (λ marks. IsMarked marks item)) }
{
    if work.state.is_marked(item) {
        return Ok(None);
    }
    if work.rules.is_quiet(work.subject, item) {
        mark_quiet(work, item)?;
        return Ok(None);
    }
    let walked = mark(walk, work, item)?;
    match walked {
        Walked::Marked => Ok(None),
        Walked::Circle(item) => Ok(Some(item)),
    }
}

fn stage_of(number: usize) -> Stage
    requires { number < 6 }
    ensures { stage_number result ≡ number }
{
    match number {
        0 => Stage::Before,
        1 => Stage::Wanted,
        2 => Stage::Judged,
        3 => Stage::Placed,
        4 => Stage::Object,
        _ => Stage::Under,
    }
}

/// Marks a node at its first stages, so many of the six, of which some are marked.
fn mark_node<R: Rules>(
    walk: &mut Walk<Item>,
    work: &mut Work<R>,
    block: usize,
    node: usize,
    marked: usize,
    stages: usize,
) -> Result<Option<Item>, NoMemory>
    requires work { IsAtWork work.old.subject.now work.old.state }
    requires node { IsNodeOf (unit_of work.old.subject.now) block node }
    requires marked { AreStagesMarked block node marked (so_far work.old.state) }
    requires stages { stages ≤ 6 }
    requires rests { IsAtRest (full_of work.old.subject.now) work.old.state walk.old }
    ensures went { OnOk result (Went R.rule work.old.subject.now work.new.subject.now work.old.state work.new.state) }
    ensures ended { IfOk result (Ended R.rule (full_of work.old.subject.now) work.new.state walk.new (AreStagesMarked block node stages)) }
{
    for number in marked..stages {
        let item = Item {
            stage: stage_of(number),
            block,
            node,
        };
        let circle = mark_one(walk, work, item)?;
        if let Some(other) = circle {
            return Ok(Some(other));
        }
    }
    Ok(None)
}

/// Marks nodes of a block at their first stages, of which some are marked, from this node on and before that. The nodes of a part stand
/// before that of the whole.
pub fn mark_nodes<R: Rules>(
    walk: &mut Walk<Item>,
    work: &mut Work<R>,
    block: usize,
    low: usize,
    end: usize,
    marked: usize,
    stages: usize,
) -> Result<Option<Item>, NoMemory>
    requires work { IsAtWork work.old.subject.now work.old.state }
    requires nodes { AreNodesOf (unit_of work.old.subject.now) block low end }
    requires marked { AreStagesOfNodes block low end marked (so_far work.old.state) }
    requires stages { stages ≤ 6 }
    requires rests { IsAtRest (full_of work.old.subject.now) work.old.state walk.old }
    ensures went { OnOk result (Went R.rule work.old.subject.now work.new.subject.now work.old.state work.new.state) }
    ensures ended { IfOk result (Ended R.rule (full_of work.old.subject.now) work.new.state walk.new (AreStagesOfNodes block low end stages)) }
{
    for node in low..end {
        let circle = mark_node(walk, work, block, node, marked, stages)?;
        if let Some(other) = circle {
            return Ok(Some(other));
        }
    }
    Ok(None)
}
