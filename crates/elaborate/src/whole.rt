//! All items of a package.
ghost use Rattle.std.specs.Prelude.{◌≡◌, ◌<◌, ◌≤◌, ◌+◌, ◌^◌, ℕ, Some, None, IfOk, OnOk, length, slice_get};
ghost use Rattle.type_model.specs.Tables.{declarations_in, terms_in, Extends};
ghost use Rattle.type_model.specs.declared.term.TypeName.{TypeName};
ghost use Rattle.typed_tree.specs.Basics.{HasBasics};
ghost use Rattle.typed_marks.specs.declared.item.Item.{Item as AnItem};
ghost use Rattle.typed_marks.specs.declared.item.Block.{Block as ABlock};
ghost use Rattle.typed_marks.specs.States.{so_far};
ghost use Rattle.unit_read.specs.Units.{base_of};
ghost use Rattle.unit_read.specs.Passages.{passages, spans};
ghost use Rattle.unit_read.specs.Subjects.{full_of, unit_of, IsRead};
ghost use Rattle.elaborate.specs.Walks.{IsItemOf, blocks_of};
ghost use Rattle.elaborate.specs.Elaborated.{IsAtWork, IsAnnotated, IsInCircle};
ghost use Rattle.elaborate.specs.Covering.{Went, IsAtRest, Ended, IsElaborated, IsAnything, AreStagesOfNodes, AreNodesMarked, AreBlocksMarked};

use crate::ahead::{Stretch, mark_ahead};
use crate::nodes::{NODE_STAGES, OBJECT_STAGES, mark_nodes};
use crate::rules::Rules;
use crate::type_stage::mark_types;
use crate::work::Work;
use gv_base::NoMemory;
use mark_walk::{Walk, walk_over};
use std::alloc::Global;
use type_model::TypeTable;
use typed_marks::{Block, Item, Span, State};
use unit_read::{Passage, Subject};

/// What comes of a package's items.
#[derive(Drop)]
pub enum Elaborated {
    /// They are all marked.
    Marked(State),
    /// This one waits for itself: none of those in the circle can be marked.
    Circle(State, Item),
}

/// Marks the nodes of a block at the stages of nodes.
fn mark_early<R: Rules>(
    walk: &mut Walk<Item>,
    work: &mut Work<R>,
    number: usize,
    block: Block,
) -> Result<Option<Item>, NoMemory>
    requires work { IsAtWork work.old.subject.now work.old.state }
    requires block { slice_get (blocks_of (unit_of work.old.subject.now)) number ≡ Some block }
    requires rests { IsAtRest (full_of work.old.subject.now) work.old.state walk.old }
    ensures went { OnOk result (Went R.rule work.old.subject.now work.new.subject.now work.old.state work.new.state) }
    ensures ended { IfOk result (Ended R.rule (full_of work.old.subject.now) work.new.state walk.new (AreStagesOfNodes number block.low block.end 4)) }
{
    let circle = mark_nodes(walk, work, number, block.low, block.end, 0, NODE_STAGES)?;
    Ok(circle)
}

/// Marks the nodes of a block, of which the stages of nodes are marked, with what is declared at them, but for types.
fn mark_objects<R: Rules>(
    walk: &mut Walk<Item>,
    work: &mut Work<R>,
    number: usize,
    block: Block,
) -> Result<Option<Item>, NoMemory>
    requires work { IsAtWork work.old.subject.now work.old.state }
    requires block { slice_get (blocks_of (unit_of work.old.subject.now)) number ≡ Some block }
    requires early { AreStagesOfNodes number block.low block.end 4 (so_far work.old.state) }
    requires rests { IsAtRest (full_of work.old.subject.now) work.old.state walk.old }
    ensures went { OnOk result (Went R.rule work.old.subject.now work.new.subject.now work.old.state work.new.state) }
    ensures ended { IfOk result (Ended R.rule (full_of work.old.subject.now) work.new.state walk.new (AreStagesOfNodes number block.low block.end 5)) }
{
    let circle = mark_nodes(
        walk,
        work,
        number,
        block.low,
        block.end,
        NODE_STAGES,
        OBJECT_STAGES,
    )?;
    Ok(circle)
}

/// Marks the nodes of a block, of which all other stages are marked, with the types that they declare.
fn mark_declared<R: Rules>(
    walk: &mut Walk<Item>,
    work: &mut Work<R>,
    number: usize,
    block: Block,
) -> Result<Option<Item>, NoMemory>
    requires work { IsAtWork work.old.subject.now work.old.state }
    requires block { slice_get (blocks_of (unit_of work.old.subject.now)) number ≡ Some block }
    requires early { AreStagesOfNodes number block.low block.end 5 (so_far work.old.state) }
    requires rests { IsAtRest (full_of work.old.subject.now) work.old.state walk.old }
    ensures went { OnOk result (Went R.rule work.old.subject.now work.new.subject.now work.old.state work.new.state) }
    ensures ended { IfOk result (Ended R.rule (full_of work.old.subject.now) work.new.state walk.new (AreNodesMarked number block.low block.end)) }
{
    let flags = work.rules.quiet_types(work.alloc, work.subject, number)?;
    let circle = mark_types(walk, work, number, block.low, block.end, &flags)?;
    Ok(circle)
}

/// Marks the nodes of a block, of which the stages of nodes are marked, at each stage.
fn mark_whole<R: Rules>(
    walk: &mut Walk<Item>,
    work: &mut Work<R>,
    number: usize,
    block: Block,
) -> Result<Option<Item>, NoMemory>
    requires work { IsAtWork work.old.subject.now work.old.state }
    requires block { slice_get (blocks_of (unit_of work.old.subject.now)) number ≡ Some block }
    requires early { AreStagesOfNodes number block.low block.end 4 (so_far work.old.state) }
    requires rests { IsAtRest (full_of work.old.subject.now) work.old.state walk.old }
    ensures went { OnOk result (Went R.rule work.old.subject.now work.new.subject.now work.old.state work.new.state) }
    ensures ended { IfOk result (Ended R.rule (full_of work.old.subject.now) work.new.state walk.new (AreNodesMarked number block.low block.end)) }
{
    let objects = mark_objects(walk, work, number, block)?;
    if let Some(other) = objects {
        return Ok(Some(other));
    }
    let circle = mark_declared(walk, work, number, block)?;
    Ok(circle)
}

/// Marks the nodes of a block: all at the stages of nodes, and then what is declared at them, so that this waits for none of them.
fn mark_block<R: Rules>(
    walk: &mut Walk<Item>,
    work: &mut Work<R>,
    number: usize,
    block: Block,
) -> Result<Option<Item>, NoMemory>
    requires work { IsAtWork work.old.subject.now work.old.state }
    requires block { slice_get (blocks_of (unit_of work.old.subject.now)) number ≡ Some block }
    requires rests { IsAtRest (full_of work.old.subject.now) work.old.state walk.old }
    ensures went { OnOk result (Went R.rule work.old.subject.now work.new.subject.now work.old.state work.new.state) }
    ensures ended { IfOk result (Ended R.rule (full_of work.old.subject.now) work.new.state walk.new (AreNodesMarked number block.low block.end)) }
{
    let early = mark_early(walk, work, number, block)?;
    if let Some(other) = early {
        return Ok(Some(other));
    }
    let circle = mark_whole(walk, work, number, block)?;
    Ok(circle)
}

fn block_at(blocks: &[Block], k: usize) -> Block
    requires { k < length blocks.now }
    ensures { slice_get blocks.now k ≡ Some result }
{
    blocks[k]
}

/// Marks the items of all blocks.
fn mark_all<R: Rules>(walk: &mut Walk<Item>, work: &mut Work<R>) -> Result<Option<Item>, NoMemory>
    requires work { IsAtWork work.old.subject.now work.old.state }
    requires rests { IsAtRest (full_of work.old.subject.now) work.old.state walk.old }
    ensures went { OnOk result (Went R.rule work.old.subject.now work.new.subject.now work.old.state work.new.state) }
    ensures ended { IfOk result (Ended R.rule (full_of work.old.subject.now) work.new.state walk.new (λ marks. AreBlocksMarked (unit_of work.old.subject.now) (length (blocks_of (unit_of work.old.subject.now))) marks)) }
{
    let count = work.state.blocks.len();
    for k in 0..count {
        let block = block_at(&work.state.blocks, k);
        let circle = mark_block(walk, work, k, block)?;
        if let Some(other) = circle {
            return Ok(Some(other));
        }
    }
    Ok(None)
}

/// Marks these stretches, then the items of all blocks.
fn mark_in_turn<R: Rules>(
    walk: &mut Walk<Item>,
    work: &mut Work<R>,
    first: &[Stretch],
) -> Result<Option<Item>, NoMemory>
    requires work { IsAtWork work.old.subject.now work.old.state }
    requires rests { IsAtRest (full_of work.old.subject.now) work.old.state walk.old }
    ensures went { OnOk result (Went R.rule work.old.subject.now work.new.subject.now work.old.state work.new.state) }
    ensures ended { IfOk result (Ended R.rule (full_of work.old.subject.now) work.new.state walk.new (λ marks. AreBlocksMarked (unit_of work.old.subject.now) (length (blocks_of (unit_of work.old.subject.now))) marks)) }
{
    let early = mark_ahead(walk, work, first)?;
    if let Some(other) = early {
        return Ok(Some(other));
    }
    let circle = mark_all(walk, work)?;
    Ok(circle)
}

fn spans_of(alloc: Global, u: &Subject) -> Result<Vec<Span>, NoMemory>
    requires { IsRead u.now }
    ensures { IfOk result (λ list. list.items ≡ spans (passages (unit_of u.now).trees)) }
{
    let mut out = Vec::new(alloc);
    for k in 0..u.passages.len() {
        let span = span_at(&u.passages, k);
        out.push(span)?;
    }
    Ok(out)
}

fn span_at(list: &[Passage], k: usize) -> Span
    requires { k < length list.now }
    ensures { slice_get (spans list.now) k ≡ Some result }
{
    list[k].span
}

/// A state's cells and one more can be counted.
fn counted(state: &State)
    ensures { length state.now.cells.items + 1 < 2 ^ 64 }
{
    let _ = state.cells.len();
}

/// No marks, over a table that has the types of the environment and declares what is declared from the start.
fn start(alloc: Global, u: &Subject, table: TypeTable) -> Result<State, NoMemory>
    requires read { IsRead u.now }
    requires basics { HasBasics table }
    requires env { Extends u.now.env.now.types.now (terms_in table) }
    requires base { (name : TypeName) → declarations_in table name ≡ base_of (full_of u.now) name }
    ensures work { IfOk result (IsAtWork u.now) }
    ensures unmarked { IfOk result (λ s. (i : AnItem) → IsItemOf (unit_of u.now) i → so_far s i ≡ None) }
{
    let list = spans_of(alloc, u)?;
    let state = State::new(alloc, table, &list)?;
    counted(&state);
    Ok(state)
}

/// The marks of a package: those of its one annotation by these rules. Where an item waits for itself there is none that can be
/// found, and that item is answered. The nodes of these stretches are marked first, in their order: that changes no mark, and
/// rules wait less where each stretch needs what stands before it alone.
pub fn elaborate<R: Rules>(
    alloc: Global,
    rules: &R,
    u: &Subject,
    table: TypeTable,
    first: &[Stretch],
) -> Result<Elaborated, NoMemory>
    requires read { IsRead u.now }
    requires basics { HasBasics table }
    requires env { Extends u.now.env.now.types.now (terms_in table) }
    requires base { (name : TypeName) → declarations_in table name ≡ base_of (full_of u.now) name }
    ensures { IfOk result (IsElaborated R.rule u.now) }
{
    let state = start(alloc, u, table)?;
    let mut work = Work {
        alloc,
        rules,
        subject: u,
        state,
        room: rules.room(alloc),
    };
    let mut walk = walk_over(alloc, &work)?;
    let circle = mark_in_turn(&mut walk, &mut work, first)?;
    match circle {
        Some(item) => Ok(Elaborated::Circle(work.state, item)),
        None => Ok(Elaborated::Marked(work.state)),
    }
}
