//! Whether a class doesn't have a type, by the type's parts and theirs. The cost is in step with what is met: each type is met once.
ghost use Rattle.std.specs.Prelude.{◌≡◌, ◌<◌, ◌++◌, ◌∷◌, [], ℕ, true, IfOk, OnOk, Some, cond, length, nat_eq, slice_get};
ghost use Rattle.type_model.specs.Tables.{IsTable, count};
ghost use Rattle.vet_printf.specs.InTable.{TellsFailing};
ghost use Rattle.vet_printf.specs.Searching.{AreVisited, IsGrown, IsStep, IsVisited, has};

use crate::fitting::fits;
use crate::shapes::{is_parted_type, parts_of};
use crate::verb::Class;
use gv_base::NoMemory;
use std::alloc::Global;
use std::collections::HashSet;
use type_model::{TypeId, TypeTable};

fn has(met: &HashSet<u32>, at: u32) -> bool
    ensures { result ≡ has met.now at }
{
    met.contains(&at)
}

fn note(met: &mut HashSet<u32>, at: u32) -> Result<(), NoMemory>
    ensures { OnOk result ((n : ℕ) → has met.new n ≡ cond (nat_eq at n) true (has met.old n)) }
{
    met.insert(at)?;
    Ok(())
}

fn push(list: &mut Vec<u32>, at: u32) -> Result<(), NoMemory>
    ensures { OnOk result (list.new.items ≡ list.old.items ++ at ∷ []) }
{
    list.push(at)?;
    Ok(())
}

/// Notes and lists a type, where it isn't yet.
fn visit(met: &mut HashSet<u32>, list: &mut Vec<u32>, at: u32) -> Result<(), NoMemory>
    ensures { OnOk result (IsVisited at (has met.old) list.old.items (has met.new) list.new.items) }
{
    if has(met, at) {
        return Ok(());
    }
    note(met, at)?;
    push(list, at)?;
    Ok(())
}

fn listed(list: &[u32], at: usize) -> u32
    requires { at < length list.now }
    ensures { slice_get list.now at ≡ Some result }
{
    list[at]
}

fn visit_all(met: &mut HashSet<u32>, list: &mut Vec<u32>, ids: &[u32]) -> Result<(), NoMemory>
    ensures { OnOk result (AreVisited ids.now (length ids.now) (has met.old) list.old.items (has met.new) list.new.items) }
{
    for k in 0..ids.len() {
        let at = listed(ids, k);
        visit(met, list, at)?;
    }
    Ok(())
}

/// Whether a type fails by itself. Where it doesn't, and isn't fit either, its parts are visited.
fn follow(
    alloc: Global,
    t: &TypeTable,
    class: Class,
    here: u32,
    met: &mut HashSet<u32>,
    list: &mut Vec<u32>,
) -> Result<bool, NoMemory>
    requires table { IsTable t.now }
    requires within { here < count t.now }
    ensures grown { OnOk result (IsGrown t.now class here (has met.old) list.old.items (has met.new) list.new.items) }
    ensures step { IfOk result (IsStep t.now class here (has met.new)) }
{
    let fit = fits(alloc, t, class, TypeId(here))?;
    if fit {
        return Ok(false);
    }
    let parted = is_parted_type(t, TypeId(here));
    if parted {
        let parts = parts_of(alloc, t, TypeId(here))?;
        visit_all(met, list, &parts)?;
        return Ok(false);
    }
    Ok(true)
}

/// Whether a class doesn't have a type.
pub(crate) fn fails(
    alloc: Global,
    t: &TypeTable,
    class: Class,
    of: TypeId,
) -> Result<bool, NoMemory>
    requires table { IsTable t.now }
    requires within { of.0 < count t.now }
    ensures { IfOk result (TellsFailing t.now class of.0) }
{
    let mut met = HashSet::new(alloc);
    let mut list = Vec::new(alloc);
    visit(&mut met, &mut list, of.0)?;
    let mut next = 0;
    while next < list.len() {
        let here = listed(&list, next);
        let fails = follow(alloc, t, class, here, &mut met, &mut list)?;
        if fails {
            return Ok(true);
        }
        next += 1;
    }
    Ok(false)
}
