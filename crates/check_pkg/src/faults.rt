//! What the marks of items refuse.
ghost use Rattle.std.specs.Prelude.{◌≡◌, ◌↔◌, None, true, OnOk};
ghost use Rattle.mark_walk.specs.Asks.{filled};
ghost use Rattle.typed_marks.specs.Meanings.{Quiet};
ghost use Rattle.typed_marks.specs.States.{so_far, IsState};
ghost use Rattle.unit_read.specs.Subjects.{unit_of, IsRead};
ghost use Rattle.rule_words.specs.Scenes.{said};
ghost use Rattle.check_pkg.specs.Faults.{fault_in, value_in};
ghost use Rattle.check_pkg.specs.Gains.{Gains};
ghost use Rattle.check_pkg.specs.Items.{RefusesAt, RefusesNode, RefusesPassage, RefusesBlock, IsRefusedItem};

use crate::places::{fault_offset, value_in};
use crate::refusal::{Fault, Refusal};
use gv_base::{NoMemory, Place};
use std::alloc::Global;
use typed_marks::{Item, Mark, Stage, State};
use unit_read::{Passage, Subject};

fn mark_fault(s: &State, mark: Mark) -> Option<Fault>
    ensures { result ≡ fault_in (said s.now mark) }
{
    match mark {
        Mark::Good(_) => None,
        Mark::Bad(rule) => Some(Fault::Rule(rule)),
        Mark::Outside(limit) => Some(Fault::Limit(limit)),
        Mark::Silent => None,
        Mark::Wants(_, _) => None,
        Mark::Declared(_) => None,
    }
}

/// The fault in the mark of an item.
fn fault_of(s: &State, item: Item) -> Option<Fault>
    requires { IsState s.now }
    ensures { result ≡ fault_in (filled Quiet (so_far s.now) item) }
{
    match s.see(item) {
        Some(mark) => mark_fault(s, mark),
        None => None,
    }
}

/// Whether the mark of an item refuses nothing.
fn is_quiet(s: &State, item: Item) -> bool
    requires { IsState s.now }
    ensures { (result ≡ true) ↔ (fault_in (filled Quiet (so_far s.now) item) ≡ None) }
{
    match fault_of(s, item) {
        Some(_) => false,
        None => true,
    }
}

/// Whether both do, as those of nearly all nodes.
fn are_quiet(s: &State, placed: Item, object: Item) -> bool
    requires { IsState s.now }
    ensures { (result ≡ true) ↔ ((fault_in (filled Quiet (so_far s.now) placed) ≡ None) × (fault_in (filled Quiet (so_far s.now) object) ≡ None)) }
{
    if !is_quiet(s, placed) {
        return false;
    }
    is_quiet(s, object)
}

/// Adds what the mark of a node at a stage refuses. `value` is the value in which the node stands.
fn refuse_at(
    alloc: Global,
    u: &Subject,
    s: &State,
    p: Passage,
    item: Item,
    value: usize,
    list: &mut Vec<Refusal>,
) -> Result<(), NoMemory>
    requires state { IsState s.now }
    requires value { value ≡ value_in (unit_of u.now) p item.node }
    ensures { OnOk result (Gains (RefusesAt (unit_of u.now) (filled Quiet (so_far s.now)) item.block p item.node item.stage) list.old.items list.new.items) }
{
    if let Some(fault) = fault_of(s, item) {
        let offset = fault_offset(alloc, u, p, item.node, value, fault)?;
        let place = Place {
            file: p.file,
            offset,
        };
        list.push(Refusal { place, fault })?;
    }
    Ok(())
}

/// Adds what the marks of a node refuse: the node in its place, and the object that is declared there.
fn refuse_node(
    alloc: Global,
    u: &Subject,
    s: &State,
    p: Passage,
    block: usize,
    node: usize,
    value: usize,
    list: &mut Vec<Refusal>,
) -> Result<(), NoMemory>
    requires state { IsState s.now }
    requires value { value ≡ value_in (unit_of u.now) p node }
    ensures { OnOk result (Gains (RefusesNode (unit_of u.now) (filled Quiet (so_far s.now)) block p node) list.old.items list.new.items) }
{
    let placed = Item {
        stage: Stage::Placed,
        block,
        node,
    };
    let object = Item {
        stage: Stage::Object,
        block,
        node,
    };
    if are_quiet(s, placed, object) {
        return Ok(());
    }
    refuse_at(alloc, u, s, p, placed, value, list)?;
    refuse_at(alloc, u, s, p, object, value, list)?;
    Ok(())
}

/// Adds what the marks of a passage refuse. The values of a repeated list are walked beside its nodes.
fn refuse_passage(
    alloc: Global,
    u: &Subject,
    s: &State,
    block: usize,
    p: Passage,
    list: &mut Vec<Refusal>,
) -> Result<(), NoMemory>
    requires { IsState s.now }
    ensures { OnOk result (Gains (RefusesPassage (unit_of u.now) (filled Quiet (so_far s.now)) block p) list.old.items list.new.items) }
{
    let mut value = 0;
    for node in p.span.low..p.span.end {
        value = value_in(u, p, value, node);
        refuse_node(alloc, u, s, p, block, node, value, list)?;
    }
    Ok(())
}

/// Adds what the marks of a block refuse.
fn refuse_block(
    alloc: Global,
    u: &Subject,
    s: &State,
    block: usize,
    list: &mut Vec<Refusal>,
) -> Result<(), NoMemory>
    requires read { IsRead u.now }
    requires state { IsState s.now }
    ensures { OnOk result (Gains (RefusesBlock (unit_of u.now) (filled Quiet (so_far s.now)) block) list.old.items list.new.items) }
{
    match u.passage_at(block) {
        Some(p) => {
            refuse_passage(alloc, u, s, block, p, list)?;
            Ok(())
        }
        None => Ok(()),
    }
}

/// Adds what the marks of a package's items refuse.
pub fn refuse_items(
    alloc: Global,
    u: &Subject,
    s: &State,
    list: &mut Vec<Refusal>,
) -> Result<(), NoMemory>
    requires read { IsRead u.now }
    requires state { IsState s.now }
    ensures { OnOk result (Gains (IsRefusedItem (unit_of u.now) (filled Quiet (so_far s.now))) list.old.items list.new.items) }
{
    for block in 0..u.passages.len() {
        refuse_block(alloc, u, s, block, list)?;
    }
    Ok(())
}
