//! Selection while names may still be undeclared.
ghost use Rattle.std.specs.Prelude.{◌≡◌, ◌+◌, ◌<◌, ℕ, Some, None, IfOk, IfSome, true, false, length, slice_get, option_map};
ghost use Rattle.type_model.specs.GoTypes.{type_at, type_number};
ghost use Rattle.type_model.specs.Tables.{IsTable, types_in, count, declarations_in};
ghost use Rattle.type_growth.specs.Lasting.{IsReply};
ghost use Rattle.method_sets.specs.Members.{selector, member_of};
ghost use Rattle.method_sets.specs.Held.{part_shown, HeldBelow};
ghost use Rattle.method_sets.specs.Search.{IsSearch};
ghost use Rattle.method_sets.specs.Paths.{Embeds};
ghost use Rattle.method_sets.specs.Shown.{at_of, start_of, IsWalk, Lacks};
ghost use Rattle.method_sets.specs.Levels.{EnoughToSelect, NeedsToSelect, IsSelectionIn};
ghost use Rattle.method_sets.specs.Replies.{AreKnownBefore, AreKnownBeside, IsMissingBeside, IsReplyFrom, IsOpenedReply, fields_only_in};

use crate::look::{Held, look};
use crate::opening::{defined_pointer, is_closed};
use crate::search::Entry;
use crate::selecting::{settle, settle_here, without_methods};
use crate::selection::Selection;
use crate::walk::{base_of, begin, expand};
use gv_base::NoMemory;
use std::alloc::Global;
use std::collections::HashMap;
use type_growth::{Reply, is_missing};
use type_model::{TypeId, TypeTable};

/// A later entry of the same depth whose type isn't declared.
fn missing_beside(t: &TypeTable, entries: &[Entry], i: usize) -> Option<usize>
    requires table { IsTable t.now }
    requires within { (j : ℕ) (e : Entry) → slice_get entries.now j ≡ Some e → e.at < count t.now }
    requires i { i < length entries.now }
    ensures within { IfSome result (λ j. j < length entries.now) }
    ensures some { IfSome result (λ j. IsMissingBeside t.now entries.now i j) }
    ensures none { result ≡ None → AreKnownBeside t.now entries.now i (length entries.now) }
{
    let depth = entries[i].depth;
    for j in i + 1..entries.len() {
        let e = entries[j];
        if e.depth == depth {
            if is_missing(t, TypeId(e.at)) {
                return Some(j);
            }
        }
    }
    None
}

/// The answer at the first entry that has the name, once all types of its depth are declared.
fn settle_level(
    alloc: Global,
    t: &TypeTable,
    entries: &[Entry],
    i: usize,
    held: Held<'_>,
    name: &str,
    from: &str,
) -> Result<Reply<Selection>, NoMemory>
    requires table { IsTable t.now }
    requires search { IsSearch (Embeds (declarations_in t.now)) (type_number (types_in t.now)) (start_of t.now entries.now) entries.now i 0 }
    requires within { (j : ℕ) (e : Entry) → slice_get entries.now j ≡ Some e → e.at < count t.now }
    requires i { i < length entries.now }
    requires known { AreKnownBefore t.now entries.now (i + 1) }
    requires lacks { Lacks t.now entries.now i (selector name.now from.now) }
    requires below { HeldBelow (count t.now) held }
    requires has { Some (part_shown (types_in t.now) held) ≡ option_map (λ m. m.is) (member_of (declarations_in t.now) (selector name.now from.now) (type_number (types_in t.now) (at_of entries.now i))) }
    ensures { IfOk result (IsReplyFrom t.now (start_of t.now entries.now) (selector name.now from.now)) }
{
    match missing_beside(t, entries, i) {
        Some(j) => Ok(Reply::Waits(TypeId(entries[j].at))),
        None => {
            let found = settle(alloc, t, entries, i, held, name, from)?;
            Ok(Reply::Is(found))
        }
    }
}

/// The only shortest path from a type to a name, if there is one, once all types are declared to which
/// paths as short lead.
fn search_levels(
    alloc: Global,
    t: &TypeTable,
    at: TypeId,
    name: &str,
    from: &str,
) -> Result<Reply<Selection>, NoMemory>
    requires table { IsTable t.now }
    requires within { at.0 < count t.now }
    ensures { IfOk result (IsReplyFrom t.now (type_at (types_in t.now) at) (selector name.now from.now)) }
{
    let mut entries = Vec::new(alloc);
    let mut numbers = HashMap::new(alloc);
    begin(t, &mut entries, &mut numbers, at)?;
    let mut i = 0;
    while i < entries.len() {
        let here = TypeId(entries[i].at);
        if is_missing(t, here) {
            return Ok(Reply::Waits(here));
        }
        if let Some(held) = look(t, here, name, from) {
            let found = settle_level(alloc, t, &entries, i, held, name, from)?;
            return Ok(found);
        }
        expand(t, &mut entries, &mut numbers, i)?;
        i += 1;
    }
    Ok(Reply::Is(Selection::Absent))
}

/// The same. Most names are those of the type's own fields and methods: then nothing is searched.
fn choose_from(
    alloc: Global,
    t: &TypeTable,
    at: TypeId,
    name: &str,
    from: &str,
) -> Result<Reply<Selection>, NoMemory>
    requires table { IsTable t.now }
    requires within { at.0 < count t.now }
    ensures { IfOk result (IsReplyFrom t.now (type_at (types_in t.now) at) (selector name.now from.now)) }
{
    let missing = is_missing(t, at);
    if missing {
        let waits = search_levels(alloc, t, at, name, from)?;
        return Ok(waits);
    }
    match look(t, at, name, from) {
        Some(held) => {
            let here = settle_here(alloc, t, at, held, name, from)?;
            Ok(Reply::Is(here))
        }
        None => {
            let found = search_levels(alloc, t, at, name, from)?;
            Ok(found)
        }
    }
}

fn choose_opened(
    alloc: Global,
    t: &TypeTable,
    of: TypeId,
    name: &str,
    from: &str,
) -> Result<Reply<Selection>, NoMemory>
    requires table { IsTable t.now }
    requires within { of.0 < count t.now }
    ensures { IfOk result (IsOpenedReply t.now (type_at (types_in t.now) of) (selector name.now from.now)) }
{
    if is_closed(t, of) {
        return Ok(Reply::Is(Selection::Absent));
    }
    let found = choose_from(alloc, t, base_of(t, of), name, from)?;
    Ok(found)
}

/// A defined pointer type gives fields only.
fn without_methods_in(found: Reply<Selection>) -> Reply<Selection>
    ensures { result ≡ fields_only_in found }
{
    match found {
        Reply::Is(found) => Reply::Is(without_methods(found)),
        Reply::Waits(id) => Reply::Waits(id),
    }
}

/// What a selector selects from a type, as `select` tells it, once enough is declared; else a type that has
/// to be declared first: one to which a path leads that is as short as any to the name. Types to which
/// only longer paths lead don't matter.
///
/// Each type is visited once, however many paths lead to it.
pub fn choose(
    alloc: Global,
    t: &TypeTable,
    of: TypeId,
    name: &str,
    from: &str,
) -> Result<Reply<Selection>, NoMemory>
    requires table { IsTable t.now }
    requires within { of.0 < count t.now }
    ensures { IfOk result (IsReply EnoughToSelect NeedsToSelect (IsSelectionIn t.now) t.now (record { of = type_at (types_in t.now) of; name = selector name.now from.now })) }
{
    if is_missing(t, of) {
        return Ok(Reply::Waits(of));
    }
    match defined_pointer(t, of) {
        Some(pointer) => {
            let found = choose_opened(alloc, t, pointer, name, from)?;
            Ok(without_methods_in(found))
        }
        None => {
            let found = choose_opened(alloc, t, of, name, from)?;
            Ok(found)
        }
    }
}
