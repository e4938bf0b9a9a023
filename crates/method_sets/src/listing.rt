//! Method sets while names may still be undeclared.
ghost use Rattle.std.specs.Prelude.{◌≡◌, ◌<◌, ℕ, Some, None, IfOk, IfSome, length, slice_get};
ghost use Rattle.type_model.specs.GoTypes.{GoType, type_at};
ghost use Rattle.type_model.specs.Tables.{IsTable, types_in, count, declarations_in};
ghost use Rattle.type_growth.specs.Growth.{IsKnown};
ghost use Rattle.type_growth.specs.Lasting.{IsReply};
ghost use Rattle.method_sets.specs.Paths.{base, IsDefinedPointer};
ghost use Rattle.method_sets.specs.Selections.{IsMethodSet};
ghost use Rattle.method_sets.specs.Shown.{IsReached};
ghost use Rattle.method_sets.specs.Levels.{EnoughToList, NeedsToList};
ghost use Rattle.method_sets.specs.Replies.{AreKnownBefore, IsMissingAt, IsListIn};

use crate::opening::{defined_pointer, is_closed};
use crate::search::Entry;
use crate::sets::{reach, set_over};
use crate::walk::base_of;
use gv_base::NoMemory;
use std::alloc::Global;
use type_growth::{Reply, is_missing};
use type_model::{Method, TypeId, TypeTable};

/// The first entry whose type isn't declared.
fn missing_in(t: &TypeTable, entries: &[Entry]) -> Option<usize>
    requires table { IsTable t.now }
    requires within { (j : ℕ) (e : Entry) → slice_get entries.now j ≡ Some e → e.at < count t.now }
    ensures within { IfSome result (λ j. j < length entries.now) }
    ensures some { IfSome result (λ j. IsMissingAt t.now entries.now j) }
    ensures none { result ≡ None → AreKnownBefore t.now entries.now (length entries.now) }
{
    for j in 0..entries.len() {
        let e = entries[j];
        if is_missing(t, TypeId(e.at)) {
            return Some(j);
        }
    }
    None
}

/// The methods of the set, from all types that paths lead to; none where the type is a pointer to an interface.
fn listed(
    alloc: Global,
    t: &TypeTable,
    of: TypeId,
    entries: &[Entry],
) -> Result<Vec<Method>, NoMemory>
    requires table { IsTable t.now }
    requires within { of.0 < count t.now }
    requires plain { (p : GoType) → ¬ IsDefinedPointer (declarations_in t.now) (type_at (types_in t.now) of) p }
    requires reached { IsReached t.now (base (type_at (types_in t.now) of)) entries.now }
    ensures { IfOk result (λ v. IsMethodSet t.now (type_at (types_in t.now) of) v.items) }
{
    if is_closed(t, of) {
        return Ok(Vec::new(alloc));
    }
    let methods = set_over(alloc, t, of, entries)?;
    Ok(methods)
}

/// The methods of a type that isn't a defined pointer type, or the first type to which embedded fields
/// lead that isn't declared.
fn list_reached(alloc: Global, t: &TypeTable, of: TypeId) -> Result<Reply<Vec<Method>>, NoMemory>
    requires table { IsTable t.now }
    requires within { of.0 < count t.now }
    requires known { IsKnown (declarations_in t.now) (type_at (types_in t.now) of) }
    requires plain { (p : GoType) → ¬ IsDefinedPointer (declarations_in t.now) (type_at (types_in t.now) of) p }
    ensures { IfOk result (IsReply EnoughToList NeedsToList (IsListIn t.now) t.now (type_at (types_in t.now) of)) }
{
    let entries = reach(alloc, t, base_of(t, of))?;
    match missing_in(t, &entries) {
        Some(j) => Ok(Reply::Waits(TypeId(entries[j].at))),
        None => {
            let methods = listed(alloc, t, of, &entries)?;
            Ok(Reply::Is(methods))
        }
    }
}

/// The method set of a type, as `method_set` tells it, once enough is declared; else a type to which embedded
/// fields lead and that has to be declared first.
///
/// Each type is visited once, however many paths lead to it.
pub fn list(alloc: Global, t: &TypeTable, of: TypeId) -> Result<Reply<Vec<Method>>, NoMemory>
    requires table { IsTable t.now }
    requires within { of.0 < count t.now }
    ensures { IfOk result (IsReply EnoughToList NeedsToList (IsListIn t.now) t.now (type_at (types_in t.now) of)) }
{
    if is_missing(t, of) {
        return Ok(Reply::Waits(of));
    }
    match defined_pointer(t, of) {
        Some(_pointer) => Ok(Reply::Is(Vec::new(alloc))),
        None => {
            let reply = list_reached(alloc, t, of)?;
            Ok(reply)
        }
    }
}
