//! Which types of a table are lock types.
ghost use Rattle.std.specs.Prelude.{◌≡◌, ◌<◌, ◌+◌, ◌^◌, ℕ, List, Some, length, set, slice_get, IfOk, OnOk};
ghost use Rattle.type_model.specs.Tables.{IsTable, count};
ghost use Rattle.lock_types.specs.InTable.{lock_at, any_lock, IsFlag, AreParts, ArePartsTo, IsTypeOrder, AreFlagsTo, AreLocks};

use crate::parts::{count_types, part_graph, parts_of};
use crate::plain::is_locker;
use gv_base::NoMemory;
use need_order::{Graph, Needed, order};
use std::alloc::Global;
use type_model::{TypeId, TypeTable};

fn lock_at(flags: &[bool], n: u32) -> bool
    ensures { result ≡ lock_at flags.now n }
{
    match flags.get(n as usize) {
        Some(flag) => *flag,
        None => false,
    }
}

fn any_lock(flags: &[bool], ids: &[u32]) -> bool
    ensures { result ≡ any_lock flags.now ids.now }
{
    for id in ids {
        if lock_at(flags, *id) {
            return true;
        }
    }
    false
}

/// Whether a type is a lock type, by what it holds.
fn is_lock(alloc: Global, t: &TypeTable, flags: &[bool], id: TypeId) -> Result<bool, NoMemory>
    requires table { IsTable t.now }
    requires within { id.0 < count t.now }
    requires parts { (row : List ℕ) → AreParts t.now id.0 row → (k part : ℕ) → slice_get row k ≡ Some part → IsFlag t.now part (lock_at flags.now part) }
    ensures { IfOk result (IsFlag t.now id.0) }
{
    let locker = is_locker(alloc, t, id)?;
    if locker {
        return Ok(true);
    }
    let parts = parts_of(alloc, t, id)?;
    Ok(any_lock(flags, &parts))
}

/// Each type behind all that it holds.
fn type_order(alloc: Global, t: &TypeTable, graph: &Graph) -> Result<Vec<Needed>, NoMemory>
    requires table { IsTable t.now }
    requires few { count t.now < 2 ^ 32 }
    requires parts { ArePartsTo t.now (count t.now) graph.now }
    ensures { IfOk result (λ list. IsTypeOrder t.now list.items) }
{
    let _ = t;
    let list = order(alloc, graph)?;
    Ok(list)
}

fn no_flags(alloc: Global, count: usize) -> Result<Vec<bool>, NoMemory>
    ensures { IfOk result (λ flags. length flags.items ≡ count) }
{
    let flags = vec![in alloc; false; count]?;
    Ok(flags)
}

fn set_flag(flags: &mut Vec<bool>, n: u32, value: bool)
    requires { n < length flags.old.items }
    ensures { flags.new.items ≡ set flags.old.items n value }
{
    flags[n as usize] = value;
}

fn flag_one(
    alloc: Global,
    t: &TypeTable,
    list: &[Needed],
    i: usize,
    e: Needed,
    flags: &mut Vec<bool>,
) -> Result<(), NoMemory>
    requires table { IsTable t.now }
    requires order { IsTypeOrder t.now list.now }
    requires there { slice_get list.now i ≡ Some e }
    requires so_far { AreFlagsTo t.now list.now i flags.old.items }
    ensures { OnOk result (AreFlagsTo t.now list.now (i + 1) flags.new.items) }
{
    let _ = list;
    let _ = i;
    let value = is_lock(alloc, t, flags, TypeId(e.vertex))?;
    set_flag(flags, e.vertex, value);
    Ok(())
}

fn nth(list: &[Needed], i: usize) -> Option<Needed>
    ensures { result ≡ slice_get list.now i }
{
    list.get(i).copied()
}

fn flag_nth(
    alloc: Global,
    t: &TypeTable,
    list: &[Needed],
    i: usize,
    flags: &mut Vec<bool>,
) -> Result<(), NoMemory>
    requires table { IsTable t.now }
    requires order { IsTypeOrder t.now list.now }
    requires so_far { AreFlagsTo t.now list.now i flags.old.items }
    ensures { OnOk result (AreFlagsTo t.now list.now (i + 1) flags.new.items) }
{
    match nth(list, i) {
        Some(e) => {
            flag_one(alloc, t, list, i, e, flags)?;
            Ok(())
        }
        None => Ok(()),
    }
}

fn all_flags(
    alloc: Global,
    t: &TypeTable,
    list: &[Needed],
    flags: &mut Vec<bool>,
) -> Result<(), NoMemory>
    requires table { IsTable t.now }
    requires order { IsTypeOrder t.now list.now }
    requires size { length flags.old.items ≡ count t.now }
    ensures { OnOk result (AreLocks t.now flags.new.items) }
{
    for i in 0..list.len() {
        flag_nth(alloc, t, list, i, flags)?;
    }
    Ok(())
}

/// Which types of a table are lock types, by their numbers.
pub fn lock_types(alloc: Global, t: &TypeTable) -> Result<Vec<bool>, NoMemory>
    requires table { IsTable t.now }
    requires few { count t.now < 2 ^ 32 }
    ensures { IfOk result (λ flags. AreLocks t.now flags.items) }
{
    let graph = part_graph(alloc, t)?;
    let list = type_order(alloc, t, &graph)?;
    let mut flags = no_flags(alloc, count_types(t))?;
    all_flags(alloc, t, &list, &mut flags)?;
    Ok(flags)
}
