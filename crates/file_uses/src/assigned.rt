//! Which names on the left of `:=` are assigned, and so are uses.
ghost use Rattle.std.specs.Prelude.{◌≡◌, ◌<◌, ◌≤◌, ◌&&◌, IfOk, length, map, not, cond};
ghost use Rattle.file_uses.specs.Assigned.{keyed, SetAlso, Marks, AreMarked};
ghost use Rattle.file_uses.specs.Numbers.{number};

use crate::locals::number;
use gv_base::NoMemory;
use scopes::{Declaration, Named};
use std::alloc::Global;

/// The number of a name on the left of `:=`, and a number that none has for others.
fn key_of(soft: bool, number: usize, count: usize) -> usize
    ensures { result ≡ cond soft number count }
{
    if soft { number } else { count }
}

/// The names on the left of each `:=` by number, so that those of one statement are of one block.
pub fn statement_keys(
    alloc: Global,
    names: &[Named],
    numbers: &[usize],
    count: usize,
) -> Result<Vec<Declaration>, NoMemory>
    ensures { IfOk result (λ keys. keys.items ≡ map (keyed (number numbers.now) count) names.now) }
{
    let mut keys = Vec::new(alloc);
    for name in names {
        keys.push(Declaration {
            name: key_of(name.soft, number(numbers, name.node), count),
            start: name.start,
            end: name.start,
            local: true,
        })?;
    }
    Ok(keys)
}

fn set(flags: &mut Vec<bool>, at: usize)
    ensures { SetAlso flags.old.items flags.new.items at }
{
    if at < flags.as_slice().len() {
        flags[at] = true;
    }
}

fn is_assigned(soft: bool, first: bool, once: bool) -> bool
    ensures { result ≡ (soft && (not first && once)) }
{
    soft && !first && once
}

/// Sets the flag of a name that `:=` assigns.
fn mark_one(name: Named, first: bool, once: bool, flags: &mut Vec<bool>)
    ensures { Marks (name.soft && (not first && once)) flags.old.items flags.new.items name.node }
{
    if is_assigned(name.soft, first, once) {
        set(flags, name.node);
    }
}

/// Sets the flags of the names that `:=` assigns: not the first in its block, but in its statement.
pub fn mark_assigned(names: &[Named], first: &[bool], once: &[bool], flags: &mut Vec<bool>)
    requires first { length names.now ≤ length first.now }
    requires once { length names.now ≤ length once.now }
    ensures { AreMarked names.now first.now once.now (length names.now) flags.old.items flags.new.items }
{
    for at in 0..names.len() {
        mark_one(names[at], first[at], once[at], flags);
    }
}
