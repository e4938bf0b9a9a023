//! The edits of all fixes in one list.
ghost use Rattle.std.specs.Prelude.{◌≡◌, ◌++◌, IfOk, OnOk, length, map};
ghost use Rattle.fix_apply.specs.Slots.{slot_of, slots_below, AreSlots};

use crate::edits::Fix;
use gv_base::NoMemory;
use std::alloc::Global;

/// An edit's range, and the file and the number of its fix.
#[derive(Clone, Copy, Drop)]
pub(crate) struct Slot {
    pub(crate) file: u32,
    pub(crate) start: u32,
    pub(crate) end: u32,
    pub(crate) fix: usize,
}

/// Adds the edits of a fix.
fn push_slots(slots: &mut Vec<Slot>, fix: &Fix, number: usize) -> Result<(), NoMemory>
    ensures { OnOk result (slots.new.items ≡ slots.old.items ++ map (slot_of fix.now number) fix.now.edits) }
{
    for edit in fix.edits.as_slice() {
        slots.push(Slot {
            file: fix.file,
            start: edit.start,
            end: edit.end,
            fix: number,
        })?;
    }
    Ok(())
}

/// The edits of all fixes, in their order.
fn all_slots(alloc: Global, fixes: &[Fix]) -> Result<Vec<Slot>, NoMemory>
    ensures { IfOk result (λ slots. slots.items ≡ slots_below fixes.now (length fixes.now)) }
{
    let mut slots = Vec::new(alloc);
    for (number, fix) in fixes.iter().enumerate() {
        push_slots(&mut slots, fix, number)?;
    }
    Ok(slots)
}

/// The edits of all fixes, by file and then by start.
pub(crate) fn sorted_slots(alloc: Global, fixes: &[Fix]) -> Result<Vec<Slot>, NoMemory>
    ensures { IfOk result (λ slots. AreSlots fixes.now slots.items) }
{
    let mut slots = all_slots(alloc, fixes)?;
    slots.sort_by_key(|slot| slot.start)?;
    slots.sort_by_key(|slot| slot.file)?;
    Ok(slots)
}
