//! What types have.
ghost use Rattle.std.specs.Prelude.{IfOk};
ghost use Rattle.type_model.specs.GoTypes.{MethodsBelow};
ghost use Rattle.type_model.specs.Tables.{count, declarations_in};
ghost use Rattle.type_rel.specs.Answers.{IsInterface};
ghost use Rattle.method_sets.specs.Levels.{select_of};
ghost use Rattle.rel_growth.specs.Implement.{implement_of};
ghost use Rattle.type_questions.specs.Judging.{AreMethodsBelow, IsFoundBy, IsOfTable};
ghost use Rattle.type_questions.specs.Questions.{FieldOrMethod, MethodSet, MissingMethod, Implementing};
ghost use Rattle.typed_marks.specs.States.{so_far};
ghost use Rattle.unit_read.specs.Subjects.{full_of, unit_of};
ghost use Rattle.unit_read.specs.Units.{base_of};
ghost use Rattle.rule_words.specs.Asking.{declarer, declaration_told};
ghost use Rattle.rule_words.specs.Scenes.{IsScene, IsTypeOf, type_in};
ghost use Rattle.type_answers.specs.Answering.{IsAnswered, listed_told, selection_told, AreSelectedBelow};

use crate::scene::Scene;
use gv_base::NoMemory;
use method_sets::{Selection, choose};
use std::alloc::Global;
use type_growth::Reply;
use type_model::{Method, TypeId};
use type_questions::{Found, Reached, Seen, method_set_of, missing_method};
use type_rel::Implements;
use typed_marks::{Item, State};
use unit_read::Subject;

/// The methods of a type's method set, in order of name and package (Go 1.17, "Method sets").
pub fn methods_at(
    alloc: Global,
    u: &Subject,
    s: &State,
    of: TypeId,
) -> Result<Found<Reached<Vec<Method>>, Item>, NoMemory>
    requires scene { IsScene u.now s.now }
    requires of { IsTypeOf s.now of }
    ensures told { IfOk result (IsAnswered u.now s.now (MethodSet (type_in s.now of)) (listed_told s.now)) }
    ensures below { IfOk result (AreMethodsBelow s.now.table) }
{
    let scene = Scene {
        subject: u,
        state: s,
    };
    let found = method_set_of(alloc, &scene, &s.table, of)?;
    Ok(found)
}

/// Whether methods have each method of an interface, and else the first of them, by name, that they lack (Go 1.17, "Implementing an
/// interface").
pub fn missing_at(
    alloc: Global,
    u: &Subject,
    s: &State,
    methods: &[Method],
    of: TypeId,
) -> Result<Found<Reached<Implements>, Item>, NoMemory>
    requires scene { IsScene u.now s.now }
    requires methods { MethodsBelow (count s.now.table) methods.now }
    requires of { IsTypeOf s.now of }
    requires interface { IsInterface (declarations_in s.now.table) (type_in s.now of) }
    ensures { IfOk result (IsAnswered u.now s.now (MissingMethod (implement_of s.now.table methods.now of)) Implementing) }
{
    let scene = Scene {
        subject: u,
        state: s,
    };
    let found = missing_method(alloc, &scene, &s.table, methods, of)?;
    Ok(found)
}

/// A reply's selection; else the item that has to be marked first, or that there is no answer.
fn reached(u: &Subject, s: &State, reply: Reply<Selection>) -> Found<Reached<Selection>, Item>
    requires scene { IsScene u.now s.now }
    requires within { IsOfTable s.now.table reply }
    ensures { IsFoundBy s.now.table (base_of (full_of u.now)) (declarer (unit_of u.now)) declaration_told (so_far s.now) reply result }
{
    let scene = Scene {
        subject: u,
        state: s,
    };
    match reply {
        Reply::Is(given) => Found::Is(Reached::Got(given)),
        Reply::Waits(id) => match scene.pending(&s.table, id) {
            Some(item) => Found::Wait(item),
            None => Found::Is(Reached::Lost),
        },
    }
}

/// What a name that is written in the package `from` selects from a type (Go 1.17, "Selectors").
pub fn selected_at(
    alloc: Global,
    u: &Subject,
    s: &State,
    of: TypeId,
    name: &str,
    from: &str,
) -> Result<Found<Reached<Selection>, Item>, NoMemory>
    requires scene { IsScene u.now s.now }
    requires of { IsTypeOf s.now of }
    ensures told { IfOk result (IsAnswered u.now s.now (FieldOrMethod (select_of s.now.table of name.now from.now)) (selection_told s.now)) }
    ensures below { IfOk result (AreSelectedBelow s.now.table) }
{
    let reply = choose(alloc, &s.table, of, name, from)?;
    Ok(reached(u, s, reply))
}
