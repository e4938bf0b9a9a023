//! Which of several fixes are applied.
ghost use Rattle.std.specs.Prelude.{◌≡◌, ◌<◌, ◌+◌, IfOk, List, length};
ghost use Rattle.std.specs.List.{Contains};
ghost use Rattle.fix_apply.specs.declared.choices.Choice.{Choice};
ghost use Rattle.fix_apply.specs.Choices.{Chosen, fix_at};
ghost use Rattle.fix_apply.specs.Claims.{Claims, Claiming, IsPassedBy, OnlyCloses, is_applied, claimed_by};

use crate::edits::{Edit, Fix};
use crate::slot::{Slot, sorted_slots};
use crate::tree::{Node, build, close, find};
use gv_base::NoMemory;
use std::alloc::Global;

/// What becomes of a fix.
#[derive(Clone, Copy, Debug, PartialEq, Eq, Drop)]
pub enum Choice {
    /// All its edits are made.
    Applied,
    /// None of them is: one overlaps an edit of an applied fix of the same file, and this is the number
    /// of the first such fix.
    Overlaps(u64),
}

fn is_applied(choice: Choice) -> bool
    ensures { result ≡ is_applied choice }
{
    match choice {
        Choice::Applied => true,
        Choice::Overlaps(_) => false,
    }
}

/// Lets `fix` claim another, if that is a later one that none has claimed.
fn claim(choices: &mut Vec<Choice>, fix: usize, claimed: usize)
    requires { claimed < length choices.old.items }
    ensures { choices.new.items ≡ claimed_by choices.old.items fix claimed }
{
    if fix < claimed && is_applied(choices[claimed]) {
        choices[claimed] = Choice::Overlaps(fix as u64);
    }
}

/// Lets `fix` claim the later fixes of which an edit overlaps one of its own edits.
fn claim_by_edit(
    fixes: &[Fix],
    slots: &[Slot],
    nodes: &mut Vec<Node>,
    choices: &mut Vec<Choice>,
    fix: usize,
    edit: &Edit,
)
    requires claiming { Claiming fixes.now slots.now fix nodes.old.items choices.old.items }
    requires of { Contains (fix_at fixes.now fix).edits edit.now }
    ensures claiming { Claiming fixes.now slots.now fix nodes.new.items choices.new.items }
    ensures closes { OnlyCloses slots.now nodes.old.items nodes.new.items }
    ensures passed { IsPassedBy slots.now nodes.new.items (fix_at fixes.now fix).file edit.now }
{
    let file = fixes[fix].file;
    while let Some(p) = find(slots, nodes, file, edit.start, edit.end) {
        close(slots, nodes, p);
        claim(choices, fix, slots[p].fix);
    }
}

/// Lets an applied fix claim the later fixes that it blocks.
fn claim_by_fix(
    fixes: &[Fix],
    slots: &[Slot],
    nodes: &mut Vec<Node>,
    choices: &mut Vec<Choice>,
    fix: usize,
)
    requires { Claiming fixes.now slots.now fix nodes.old.items choices.old.items }
    ensures { Claims fixes.now slots.now (fix + 1) (fix + 1) nodes.new.items choices.new.items }
{
    for edit in fixes[fix].edits.as_slice() {
        claim_by_edit(fixes, slots, nodes, choices, fix, edit);
    }
}

/// What becomes of each fix, the fixes taken in their order: one is applied, whole, exactly where none of
/// its edits overlaps an edit of an earlier applied fix of the same file. The time grows as n log n, n
/// being the number of edits.
pub fn choose(alloc: Global, fixes: &[Fix]) -> Result<Vec<Choice>, NoMemory>
    ensures chosen { IfOk result (λ choices. Chosen fixes.now choices.items) }
    ensures only { IfOk result
        (λ choices. (other : List Choice) → Chosen fixes.now other → other ≡ choices.items) }
{
    let slots = sorted_slots(alloc, fixes)?;
    let mut nodes = build(alloc, &slots)?;
    let mut choices = vec![in alloc; Choice::Applied; fixes.len()]?;
    for number in 0..fixes.len() {
        if is_applied(choices[number]) {
            claim_by_fix(fixes, &slots, &mut nodes, &mut choices, number);
        }
    }
    Ok(choices)
}
