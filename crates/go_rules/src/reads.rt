//! What is read of a node's parts.
ghost use Rattle.std.specs.Prelude.{◌≡◌, ◌++◌, ◌<◌, Some, None, OnOk, IfOk, length, slice_get};
ghost use Rattle.package_objects.specs.Declares.{items, part};
ghost use Rattle.unit_read.specs.Subjects.{unit_of};
ghost use Rattle.rule_words.specs.Asking.{parts_ask};
ghost use Rattle.rule_words.specs.Parts.{slot_reads};
ghost use Rattle.rule_words.specs.Scenes.{IsScene, parts_in, AreSeenOf};
ghost use Rattle.go_rules.specs.Families.{node_reads};
ghost use Rattle.go_rules.specs.Slots.{read_item, nth_slot, ComeTo};

use crate::family::{Family, family_of, reads_by};
use go_tree::Node;
use gv_base::NoMemory;
use package_objects::{count, item, part_count, part_of};
use rule_words::{How, Read, Seen, part};
use type_questions::Found;
use typed_marks::{Item, Stage, State};
use unit_read::Subject;

fn add_item(out: &mut Vec<Read>, how: How, item: Option<u32>) -> Result<(), NoMemory>
    ensures { OnOk result (out.new.items ≡ out.old.items ++ read_item how item) }
{
    match item {
        Some(node) => {
            out.push(Read { how, node })?;
            Ok(())
        }
        None => Ok(()),
    }
}

/// All that a part stands for is read so.
fn add_items(
    out: &mut Vec<Read>,
    how: How,
    nodes: &[Node],
    part: Option<u32>,
) -> Result<(), NoMemory>
    ensures { OnOk result (out.new.items ≡ out.old.items ++ slot_reads (Some how) (items nodes.now part)) }
{
    for i in 0..count(nodes, part) {
        add_item(out, how, item(nodes, part, i))?;
    }
    Ok(())
}

fn add_slot(
    out: &mut Vec<Read>,
    family: Family,
    nodes: &[Node],
    node: &Node,
    slot: usize,
) -> Result<(), NoMemory>
    ensures { OnOk result (out.new.items ≡ out.old.items ++ nth_slot family nodes.now node.now slot) }
{
    match reads_by(family, node.kind, slot) {
        Some(how) => {
            add_items(out, how, nodes, part_of(node, slot))?;
            Ok(())
        }
        None => Ok(()),
    }
}

/// What is read of a node's parts, in their order. It takes the place of what was read of another.
pub fn add_reads(out: &mut Vec<Read>, nodes: &[Node], node: &Node) -> Result<(), NoMemory>
    ensures { OnOk result (out.new.items ≡ node_reads nodes.now node.now) }
{
    out.clear();
    let by = family_of(node.kind);
    for slot in 0..part_count(node) {
        add_slot(out, by, nodes, node, slot)?;
    }
    Ok(())
}

// ---- the parts themselves

fn read_at(list: &[Read], i: usize) -> Read
    requires { i < length list.now }
    ensures { slice_get list.now i ≡ Some result }
{
    list[i]
}

/// The parts of a node that are read, in their order, or the item for whose mark one of them waits. They take the place of another's.
pub fn add_parts(
    out: &mut Vec<Seen>,
    u: &Subject,
    s: &State,
    stage: Stage,
    block: usize,
    list: &[Read],
) -> Result<Option<Item>, NoMemory>
    requires { IsScene u.now s.now }
    ensures is { IfOk result (ComeTo u.now s.now (parts_ask (unit_of u.now) stage block list.now) (parts_in s.now out.new.items)) }
    ensures over { IfOk result (λ waits. waits ≡ None → AreSeenOf s.now out.new.items) }
{
    out.clear();
    for i in 0..list.len() {
        let read = read_at(list, i);
        match part(u, s, stage, block, read) {
            Found::Is(seen) => out.push(seen)?,
            Found::Wait(item) => return Ok(Some(item)),
        }
    }
    Ok(None)
}
