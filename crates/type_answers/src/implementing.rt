//! Whether a type has the methods of an interface: what rules ask, found as `FoundBy` says.
ghost use Rattle.std.specs.Prelude.{◌≡◌, IfOk};
ghost use Rattle.type_model.specs.GoTypes.{MethodsBelow};
ghost use Rattle.type_model.specs.Tables.{count, declarations_in};
ghost use Rattle.type_rel.specs.Answers.{IsInterface};
ghost use Rattle.method_sets.specs.Replies.{listed_in};
ghost use Rattle.rule_words.specs.Putting.{methods_from};
ghost use Rattle.rule_words.specs.Scenes.{IsScene, IsTypeOf, type_in};
ghost use Rattle.type_answers.specs.Answering.{AreListedBelow, listed_methods};
ghost use Rattle.type_answers.specs.Asked.{missing_ask, lacking, missing_known, implements_list, implements_with, implements_ask};
ghost use Rattle.type_answers.specs.Coming.{FoundBy};

use crate::asks::ask_methods;
use crate::members::missing_at;
use crate::unknown::is_unknown_named;
use gv_base::{NoMemory, Text};
use std::alloc::Global;
use type_model::{Method, TypeId};
use type_questions::{Found, Reached};
use type_rel::Implements;
use typed_marks::{Item, State};
use unit_read::Subject;

fn lack_named(s: &State, set: &[Method], name: Text) -> Reached<Implements>
    ensures { result ≡ lacking (listed_in s.now.table set.now) (Implements.Missing name) }
{
    if is_unknown_named(s, name.as_str(), set) {
        return Reached::Lost;
    }
    Reached::Got(Implements::Missing(name))
}

/// The first method that is missed, unless it is there without a known signature.
fn lack(s: &State, set: &[Method], told: Implements) -> Reached<Implements>
    ensures { result ≡ lacking (listed_in s.now.table set.now) told }
{
    match told {
        Implements::Yes => Reached::Got(Implements::Yes),
        Implements::Missing(name) => lack_named(s, set, name),
    }
}

fn lack_told(
    u: &Subject,
    s: &State,
    set: &[Method],
    told: Reached<Implements>,
) -> Found<Reached<Implements>, Item>
    ensures { FoundBy u.now s.now (λ x. x) (missing_known (listed_in s.now.table set.now) told) result }
{
    let _ = u;
    match told {
        Reached::Got(told) => Found::Is(lack(s, set, told)),
        Reached::Lost => Found::Is(Reached::Lost),
    }
}

#[tactic(auto, using(crate::proofs::AnswerLemmas::missing_found))]
fn implement_first(
    alloc: Global,
    u: &Subject,
    s: &State,
    list: &[Method],
    of: TypeId,
) -> Result<Found<Reached<Implements>, Item>, NoMemory>
    requires scene { IsScene u.now s.now }
    requires list { MethodsBelow (count s.now.table) list.now }
    requires of { IsTypeOf s.now of }
    requires interface { IsInterface (declarations_in s.now.table) (type_in s.now of) }
    ensures { IfOk result (FoundBy u.now s.now (λ x. x) (missing_ask (methods_from (listed_in s.now.table list.now)) (type_in s.now of))) }
{
    let found = missing_at(alloc, u, s, list, of)?;
    Ok(found)
}

#[tactic(auto, using(crate::proofs::ComingLaws::bind_found, crate::proofs::ComingLaws::bind_waits), unfolding(crate::specs::Asked::implements_list))]
fn implement_list(
    alloc: Global,
    u: &Subject,
    s: &State,
    list: &[Method],
    of: TypeId,
) -> Result<Found<Reached<Implements>, Item>, NoMemory>
    requires scene { IsScene u.now s.now }
    requires list { MethodsBelow (count s.now.table) list.now }
    requires of { IsTypeOf s.now of }
    requires interface { IsInterface (declarations_in s.now.table) (type_in s.now of) }
    ensures { IfOk result (FoundBy u.now s.now (λ x. x) (implements_list (type_in s.now of) (listed_in s.now.table list.now))) }
{
    let found = implement_first(alloc, u, s, list, of)?;
    match found {
        Found::Is(told) => Ok(lack_told(u, s, list, told)),
        Found::Wait(item) => Ok(Found::Wait(item)),
    }
}

fn implement_with(
    alloc: Global,
    u: &Subject,
    s: &State,
    methods: Reached<Vec<Method>>,
    of: TypeId,
) -> Result<Found<Reached<Implements>, Item>, NoMemory>
    requires scene { IsScene u.now s.now }
    requires methods { AreListedBelow s.now.table methods }
    requires of { IsTypeOf s.now of }
    requires interface { IsInterface (declarations_in s.now.table) (type_in s.now of) }
    ensures { IfOk result (FoundBy u.now s.now (λ x. x) (implements_with (type_in s.now of) (listed_methods s.now methods))) }
{
    match methods {
        Reached::Got(list) => {
            let found = implement_list(alloc, u, s, &list, of)?;
            Ok(found)
        }
        Reached::Lost => Ok(Found::Is(Reached::Lost)),
    }
}

/// Whether a type has each method of an interface, and else the first, by name, that it lacks (Go 1.17, "Implementing an interface").
#[tactic(auto, using(crate::proofs::ComingLaws::bind_found, crate::proofs::ComingLaws::bind_waits), unfolding(crate::specs::Asked::implements_ask))]
pub fn ask_implements(
    alloc: Global,
    u: &Subject,
    s: &State,
    v: TypeId,
    of: TypeId,
) -> Result<Found<Reached<Implements>, Item>, NoMemory>
    requires scene { IsScene u.now s.now }
    requires v { IsTypeOf s.now v }
    requires of { IsTypeOf s.now of }
    requires interface { IsInterface (declarations_in s.now.table) (type_in s.now of) }
    ensures { IfOk result (FoundBy u.now s.now (λ x. x) (implements_ask (type_in s.now v) (type_in s.now of))) }
{
    let found = ask_methods(alloc, u, s, v)?;
    match found {
        Found::Is(methods) => {
            let found = implement_with(alloc, u, s, methods, of)?;
            Ok(found)
        }
        Found::Wait(item) => Ok(Found::Wait(item)),
    }
}
