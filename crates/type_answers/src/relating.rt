//! How an operand is related to a type: what rules ask, found as `FoundBy` says.
ghost use Rattle.std.specs.Prelude.{◌≡◌, IfOk, false, if◌then◌else◌};
ghost use Rattle.mark_walk.specs.Asks.{bind};
ghost use Rattle.type_model.specs.GoTypes.{NoMethod, MethodsBelow};
ghost use Rattle.type_model.specs.Tables.{count};
ghost use Rattle.method_sets.specs.Replies.{listed_in};
ghost use Rattle.type_questions.specs.declared.reached.Reached.TheVariants.{Got, Lost};
ghost use Rattle.typed_marks.specs.Meanings.{constant_at};
ghost use Rattle.rule_words.specs.Putting.{methods_from};
ghost use Rattle.rule_words.specs.Scenes.{IsScene, IsTypeOf, type_in};
ghost use Rattle.type_answers.specs.Answering.{AreListedBelow, listed_methods};
ghost use Rattle.type_answers.specs.Asked.{bool_ask, methods_ask, comes_told, unrelated, related_known, related_told, related_list, related_with, relating, operand_ask, compared_with, compared_ask};
ghost use Rattle.type_answers.specs.Coming.{FoundBy};
ghost use Rattle.type_answers.specs.Unknown.{comes_to_unknown};

use crate::asks::ask_methods;
use crate::relations::{Relation, related_at};
use crate::unknown::{comes_to_unknown, has_unknown};
use gv_base::NoMemory;
use std::alloc::Global;
use type_model::{Method, TypeId};
use type_questions::{Found, Reached};
use typed_marks::{ConstId, Item, State};
use unit_read::Subject;

#[tactic(auto, using(crate::proofs::AnswerLemmas::bool_found))]
fn relate_plainly(
    alloc: Global,
    u: &Subject,
    s: &State,
    relation: Relation,
    of: TypeId,
    value: Option<ConstId>,
    to: TypeId,
) -> Result<Found<Reached<bool>, Item>, NoMemory>
    requires scene { IsScene u.now s.now }
    requires of { IsTypeOf s.now of }
    requires to { IsTypeOf s.now to }
    ensures { IfOk result (FoundBy u.now s.now (λ x. x) (bool_ask (relating relation (type_in s.now of) (constant_at s.now.constants.items value) (type_in s.now to) NoMethod))) }
{
    let found = related_at(alloc, u, s, relation, of, value, &[], to)?;
    Ok(found)
}

#[tactic(auto, using(crate::proofs::AnswerLemmas::related_found))]
fn relate_first(
    alloc: Global,
    u: &Subject,
    s: &State,
    relation: Relation,
    of: TypeId,
    value: Option<ConstId>,
    list: &[Method],
    to: TypeId,
) -> Result<Found<Reached<bool>, Item>, NoMemory>
    requires scene { IsScene u.now s.now }
    requires of { IsTypeOf s.now of }
    requires list { MethodsBelow (count s.now.table) list.now }
    requires to { IsTypeOf s.now to }
    ensures { IfOk result (FoundBy u.now s.now (λ x. x) (bool_ask (relating relation (type_in s.now of) (constant_at s.now.constants.items value) (type_in s.now to) (methods_from (listed_in s.now.table list.now))))) }
{
    let found = related_at(alloc, u, s, relation, of, value, list, to)?;
    Ok(found)
}

// ---- without a known signature

/// Nothing is told where the methods that a type wants come to one without a known signature.
fn come_by(s: &State, set: &[Method], wanted: &[Method]) -> Reached<bool>
    ensures { result ≡ if comes_to_unknown (listed_in s.now.table set.now) (listed_in s.now.table wanted.now) then Lost else Got false }
{
    if comes_to_unknown(s, set, wanted) {
        return Reached::Lost;
    }
    Reached::Got(false)
}

fn come_with(
    u: &Subject,
    s: &State,
    set: &[Method],
    told: Reached<Vec<Method>>,
) -> Found<Reached<bool>, Item>
    ensures { FoundBy u.now s.now (λ x. x) (comes_told (listed_in s.now.table set.now) (listed_methods s.now told)) result }
{
    let _ = u;
    match told {
        Reached::Got(wanted) => Found::Is(come_by(s, set, &wanted)),
        Reached::Lost => Found::Is(Reached::Lost),
    }
}

/// An operand with these methods isn't so related to a type, or nothing is told.
#[tactic(auto, using(crate::proofs::ComingLaws::bind_found, crate::proofs::ComingLaws::bind_waits))]
fn unrelated(
    alloc: Global,
    u: &Subject,
    s: &State,
    to: TypeId,
    set: &[Method],
) -> Result<Found<Reached<bool>, Item>, NoMemory>
    requires scene { IsScene u.now s.now }
    requires to { IsTypeOf s.now to }
    ensures { IfOk result (FoundBy u.now s.now (λ x. x) (unrelated (type_in s.now to) (listed_in s.now.table set.now))) }
{
    if !has_unknown(s, set) {
        return Ok(Found::Is(Reached::Got(false)));
    }
    let found = ask_methods(alloc, u, s, to)?;
    match found {
        Found::Is(told) => Ok(come_with(u, s, set, told)),
        Found::Wait(item) => Ok(Found::Wait(item)),
    }
}

fn relate_known(
    alloc: Global,
    u: &Subject,
    s: &State,
    to: TypeId,
    set: &[Method],
    holds: bool,
) -> Result<Found<Reached<bool>, Item>, NoMemory>
    requires scene { IsScene u.now s.now }
    requires to { IsTypeOf s.now to }
    ensures { IfOk result (FoundBy u.now s.now (λ x. x) (related_known (type_in s.now to) (listed_in s.now.table set.now) holds)) }
{
    if holds {
        return Ok(Found::Is(Reached::Got(true)));
    }
    let found = unrelated(alloc, u, s, to, set)?;
    Ok(found)
}

fn relate_told(
    alloc: Global,
    u: &Subject,
    s: &State,
    to: TypeId,
    set: &[Method],
    told: Reached<bool>,
) -> Result<Found<Reached<bool>, Item>, NoMemory>
    requires scene { IsScene u.now s.now }
    requires to { IsTypeOf s.now to }
    ensures { IfOk result (FoundBy u.now s.now (λ x. x) (related_told (type_in s.now to) (listed_in s.now.table set.now) told)) }
{
    match told {
        Reached::Got(holds) => {
            let found = relate_known(alloc, u, s, to, set, holds)?;
            Ok(found)
        }
        Reached::Lost => Ok(Found::Is(Reached::Lost)),
    }
}

#[tactic(auto, using(crate::proofs::ComingLaws::bind_found, crate::proofs::ComingLaws::bind_waits), unfolding(crate::specs::Asked::related_list))]
fn relate_list(
    alloc: Global,
    u: &Subject,
    s: &State,
    relation: Relation,
    of: TypeId,
    value: Option<ConstId>,
    list: &[Method],
    to: TypeId,
) -> Result<Found<Reached<bool>, Item>, NoMemory>
    requires scene { IsScene u.now s.now }
    requires of { IsTypeOf s.now of }
    requires list { MethodsBelow (count s.now.table) list.now }
    requires to { IsTypeOf s.now to }
    ensures { IfOk result (FoundBy u.now s.now (λ x. x) (related_list (type_in s.now to) (relating relation (type_in s.now of) (constant_at s.now.constants.items value) (type_in s.now to)) (listed_in s.now.table list.now))) }
{
    let found = relate_first(alloc, u, s, relation, of, value, list, to)?;
    match found {
        Found::Is(told) => {
            let found = relate_told(alloc, u, s, to, list, told)?;
            Ok(found)
        }
        Found::Wait(item) => Ok(Found::Wait(item)),
    }
}

fn relate_with(
    alloc: Global,
    u: &Subject,
    s: &State,
    relation: Relation,
    of: TypeId,
    value: Option<ConstId>,
    methods: Reached<Vec<Method>>,
    to: TypeId,
) -> Result<Found<Reached<bool>, Item>, NoMemory>
    requires scene { IsScene u.now s.now }
    requires of { IsTypeOf s.now of }
    requires methods { AreListedBelow s.now.table methods }
    requires to { IsTypeOf s.now to }
    ensures { IfOk result (FoundBy u.now s.now (λ x. x) (related_with (type_in s.now to) (relating relation (type_in s.now of) (constant_at s.now.constants.items value) (type_in s.now to)) (listed_methods s.now methods))) }
{
    match methods {
        Reached::Got(list) => {
            let found = relate_list(alloc, u, s, relation, of, value, &list, to)?;
            Ok(found)
        }
        Reached::Lost => Ok(Found::Is(Reached::Lost)),
    }
}

#[tactic(auto, using(crate::proofs::ComingLaws::bind_found, crate::proofs::ComingLaws::bind_waits))]
fn relate_by_methods(
    alloc: Global,
    u: &Subject,
    s: &State,
    relation: Relation,
    of: TypeId,
    value: Option<ConstId>,
    to: TypeId,
) -> Result<Found<Reached<bool>, Item>, NoMemory>
    requires scene { IsScene u.now s.now }
    requires of { IsTypeOf s.now of }
    requires to { IsTypeOf s.now to }
    ensures { IfOk result (FoundBy u.now s.now (λ x. x) (bind (methods_ask (type_in s.now of)) (related_with (type_in s.now to) (relating relation (type_in s.now of) (constant_at s.now.constants.items value) (type_in s.now to))))) }
{
    let found = ask_methods(alloc, u, s, of)?;
    match found {
        Found::Is(methods) => {
            let found = relate_with(alloc, u, s, relation, of, value, methods, to)?;
            Ok(found)
        }
        Found::Wait(item) => Ok(Found::Wait(item)),
    }
}

/// Whether an operand is so related to a type; its methods are asked for where that is an interface.
#[tactic(auto, unfolding(crate::specs::Asked::operand_ask))]
pub fn ask_operand(
    alloc: Global,
    u: &Subject,
    s: &State,
    relation: Relation,
    by_methods: bool,
    of: TypeId,
    value: Option<ConstId>,
    to: TypeId,
) -> Result<Found<Reached<bool>, Item>, NoMemory>
    requires scene { IsScene u.now s.now }
    requires of { IsTypeOf s.now of }
    requires to { IsTypeOf s.now to }
    ensures { IfOk result (FoundBy u.now s.now (λ x. x) (operand_ask relation by_methods (type_in s.now of) (constant_at s.now.constants.items value) (type_in s.now to))) }
{
    if by_methods {
        let found = relate_by_methods(alloc, u, s, relation, of, value, to)?;
        return Ok(found);
    }
    let found = relate_plainly(alloc, u, s, relation, of, value, to)?;
    Ok(found)
}

// ---- compared

fn compare_with(
    alloc: Global,
    u: &Subject,
    s: &State,
    of: TypeId,
    value: Option<ConstId>,
    methods: Reached<Vec<Method>>,
    to: TypeId,
) -> Result<Found<Reached<bool>, Item>, NoMemory>
    requires scene { IsScene u.now s.now }
    requires of { IsTypeOf s.now of }
    requires methods { AreListedBelow s.now.table methods }
    requires to { IsTypeOf s.now to }
    ensures { IfOk result (FoundBy u.now s.now (λ x. x) (compared_with (relating Relation.Assignable (type_in s.now of) (constant_at s.now.constants.items value) (type_in s.now to)) (listed_methods s.now methods))) }
{
    match methods {
        Reached::Got(list) => {
            let found = relate_first(alloc, u, s, Relation::Assignable, of, value, &list, to)?;
            Ok(found)
        }
        Reached::Lost => Ok(Found::Is(Reached::Lost)),
    }
}

#[tactic(auto, using(crate::proofs::ComingLaws::bind_found, crate::proofs::ComingLaws::bind_waits))]
fn compare_by_methods(
    alloc: Global,
    u: &Subject,
    s: &State,
    of: TypeId,
    value: Option<ConstId>,
    to: TypeId,
) -> Result<Found<Reached<bool>, Item>, NoMemory>
    requires scene { IsScene u.now s.now }
    requires of { IsTypeOf s.now of }
    requires to { IsTypeOf s.now to }
    ensures { IfOk result (FoundBy u.now s.now (λ x. x) (bind (methods_ask (type_in s.now of)) (compared_with (relating Relation.Assignable (type_in s.now of) (constant_at s.now.constants.items value) (type_in s.now to))))) }
{
    let found = ask_methods(alloc, u, s, of)?;
    match found {
        Found::Is(methods) => {
            let found = compare_with(alloc, u, s, of, value, methods, to)?;
            Ok(found)
        }
        Found::Wait(item) => Ok(Found::Wait(item)),
    }
}

/// Whether an operand that is compared may be assigned to the other's type, if that has an interface by its known methods alone.
#[tactic(auto, unfolding(crate::specs::Asked::compared_ask))]
pub fn ask_compared(
    alloc: Global,
    u: &Subject,
    s: &State,
    by_methods: bool,
    of: TypeId,
    value: Option<ConstId>,
    to: TypeId,
) -> Result<Found<Reached<bool>, Item>, NoMemory>
    requires scene { IsScene u.now s.now }
    requires of { IsTypeOf s.now of }
    requires to { IsTypeOf s.now to }
    ensures { IfOk result (FoundBy u.now s.now (λ x. x) (compared_ask by_methods (type_in s.now of) (constant_at s.now.constants.items value) (type_in s.now to))) }
{
    if by_methods {
        let found = compare_by_methods(alloc, u, s, of, value, to)?;
        return Ok(found);
    }
    let found = relate_plainly(alloc, u, s, Relation::Assignable, of, value, to)?;
    Ok(found)
}
