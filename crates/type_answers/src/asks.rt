//! What rules ask about types, found as `FoundBy` says.
ghost use Rattle.std.specs.Prelude.{IfOk};
ghost use Rattle.method_sets.specs.Levels.{chosen_in};
ghost use Rattle.method_sets.specs.Members.{selector};
ghost use Rattle.type_questions.specs.Judging.{AreMethodsBelow, seen_as};
ghost use Rattle.rule_words.specs.Scenes.{IsScene, IsTypeOf, type_in};
ghost use Rattle.type_answers.specs.Answering.{AreSelectedBelow, listed_methods};
ghost use Rattle.type_answers.specs.Asked.{comparable_ask, methods_ask, select_ask};
ghost use Rattle.type_answers.specs.Coming.{FoundBy};

use crate::members::{methods_at, selected_at};
use crate::relations::comparable_at;
use gv_base::NoMemory;
use method_sets::Selection;
use std::alloc::Global;
use type_model::{Method, TypeId};
use type_questions::{Found, Reached};
use typed_marks::{Item, State};
use unit_read::Subject;

/// Whether values of a type may be compared (Go 1.17, "Comparison operators").
#[tactic(auto, using(crate::proofs::AnswerLemmas::bool_found), unfolding(crate::specs::Asked::comparable_ask))]
pub fn ask_comparable(
    alloc: Global,
    u: &Subject,
    s: &State,
    of: TypeId,
) -> Result<Found<Reached<bool>, Item>, NoMemory>
    requires scene { IsScene u.now s.now }
    requires of { IsTypeOf s.now of }
    ensures { IfOk result (FoundBy u.now s.now (λ x. x) (comparable_ask (type_in s.now of))) }
{
    let found = comparable_at(alloc, u, s, of)?;
    Ok(found)
}

/// The methods of a type's method set, in order of name and package (Go 1.17, "Method sets").
#[tactic(auto, using(crate::proofs::AnswerLemmas::methods_found), unfolding(crate::specs::Asked::methods_ask))]
pub fn ask_methods(
    alloc: Global,
    u: &Subject,
    s: &State,
    of: TypeId,
) -> Result<Found<Reached<Vec<Method>>, Item>, NoMemory>
    requires scene { IsScene u.now s.now }
    requires of { IsTypeOf s.now of }
    ensures is { IfOk result (FoundBy u.now s.now (listed_methods s.now) (methods_ask (type_in s.now of))) }
    ensures below { IfOk result (AreMethodsBelow s.now.table) }
{
    let found = methods_at(alloc, u, s, of)?;
    Ok(found)
}

/// What a name that is written in the package `from` selects from a type (Go 1.17, "Selectors").
#[tactic(auto, using(crate::proofs::AnswerLemmas::selection_found), unfolding(crate::specs::Asked::select_ask))]
pub fn ask_selection(
    alloc: Global,
    u: &Subject,
    s: &State,
    of: TypeId,
    name: &str,
    from: &str,
) -> Result<Found<Reached<Selection>, Item>, NoMemory>
    requires scene { IsScene u.now s.now }
    requires of { IsTypeOf s.now of }
    ensures is { IfOk result (FoundBy u.now s.now (seen_as (chosen_in s.now.table)) (select_ask (type_in s.now of) (selector name.now from.now))) }
    ensures below { IfOk result (AreSelectedBelow s.now.table) }
{
    let found = selected_at(alloc, u, s, of, name, from)?;
    Ok(found)
}
