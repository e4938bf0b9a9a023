//! What the late rules of bodies refuse.
ghost use Rattle.std.specs.Prelude.{◌≡◌, ◌≤◌, ◌^◌, IfOk, OnOk, length};
ghost use Rattle.mark_walk.specs.Asks.{filled};
ghost use Rattle.typed_marks.specs.Meanings.{Quiet};
ghost use Rattle.typed_marks.specs.States.{so_far, IsState};
ghost use Rattle.unit_read.specs.Index.{texts_of};
ghost use Rattle.unit_read.specs.Subjects.{unit_of, IsRead};
ghost use Rattle.body_facts.specs.Bodies.{AreBodies};
ghost use Rattle.check_pkg.specs.Gains.{Gains, SomeBelow};
ghost use Rattle.check_pkg.specs.InBodies.{rule_of, IsOfFault, NthOfFault, IsRefusedInBody};

use crate::references::{Counted, counted_rows};
use crate::refusal::{Fault, Refusal};
use body_facts::{asks_bodies, body_faults};
use gv_base::NoMemory;
use late_list::{LateFault, LateRule, rule_number};
use std::alloc::Global;
use typed_marks::State;
use typed_tree::Rule;
use unit_read::Subject;

fn rule_of(rule: LateRule) -> Rule
    ensures { result ≡ rule_of rule }
{
    Rule(rule_number(rule))
}

/// Adds the fault of a body.
fn refuse_fault(found: LateFault, list: &mut Vec<Refusal>) -> Result<(), NoMemory>
    ensures { OnOk result (Gains (IsOfFault found) list.old.items list.new.items) }
{
    let fault = Fault::Rule(rule_of(found.rule));
    list.push(Refusal {
        place: found.place,
        fault,
    })?;
    Ok(())
}

fn refuse_faults(found: &[LateFault], list: &mut Vec<Refusal>) -> Result<(), NoMemory>
    ensures { OnOk result (Gains (SomeBelow (length found.now) (NthOfFault found.now)) list.old.items list.new.items) }
{
    for fault in found {
        refuse_fault(*fault, list)?;
    }
    Ok(())
}

/// Adds what the late rules of bodies refuse. Where nothing of the package may be a fault of a body, what its names mean is never asked.
pub fn refuse_bodies(
    alloc: Global,
    u: &Subject,
    s: &State,
    list: &mut Vec<Refusal>,
) -> Result<(), NoMemory>
    requires read { IsRead u.now }
    requires state { IsState s.now }
    requires bodies { AreBodies (texts_of u.now.texts.now) u.now.trees.now }
    ensures { OnOk result (Gains (IsRefusedInBody (unit_of u.now) (filled Quiet (so_far s.now))) list.old.items list.new.items) }
{
    let asks = asks_bodies(alloc, u)?;
    if !asks {
        return Ok(());
    }
    let methods = Vec::new(alloc);
    let meant = counted_rows(alloc, u, s, &methods, Counted::Uses)?;
    let found = body_faults(alloc, u, &meant)?;
    refuse_faults(&found, list)?;
    Ok(())
}
