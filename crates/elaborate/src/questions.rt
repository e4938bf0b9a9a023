//! Questions about types, and what is done with their answers.
ghost use Rattle.std.specs.Prelude.{IfOk};
ghost use Rattle.type_model.specs.GoTypes.{MethodsBelow};
ghost use Rattle.type_model.specs.Tables.{count};
ghost use Rattle.type_questions.specs.Questions.{IsComparable, MethodSet};
ghost use Rattle.rule_words.specs.Scenes.{IsScene, IsTypeOf, type_in};
ghost use Rattle.rule_words.specs.Steps.{question_in, IsAskedOf};
ghost use Rattle.type_answers.specs.Answering.{relate_by};
ghost use Rattle.elaborate.specs.Settling.{IsAnsweredTo};

use gv_base::NoMemory;
use rule_words::Asked;
use std::alloc::Global;
use type_answers::{Relation, comparable_at, methods_at, related_at};
use type_model::{Method, TypeId};
use type_questions::{Found, Reached};
use typed_marks::{ConstId, Item, State};
use unit_read::Subject;

/// What is answered to a question.
#[derive(Drop)]
pub enum Answered {
    /// Whether a relation holds.
    Holds(Reached<bool>),
    /// The methods of a type's method set.
    Methods(Reached<Vec<Method>>),
}

fn is_assignable(
    alloc: Global,
    u: &Subject,
    s: &State,
    of: TypeId,
    value: Option<ConstId>,
    methods: &[Method],
    to: TypeId,
) -> Result<Found<Answered, Item>, NoMemory>
    requires scene { IsScene u.now s.now }
    requires of { IsTypeOf s.now of }
    requires methods { MethodsBelow (count s.now.table) methods.now }
    requires to { IsTypeOf s.now to }
    ensures { IfOk result (IsAnsweredTo u.now s.now (relate_by s.now Relation.Assignable of value methods.now to)) }
{
    let found = related_at(alloc, u, s, Relation::Assignable, of, value, methods, to)?;
    match found {
        Found::Is(reached) => Ok(Found::Is(Answered::Holds(reached))),
        Found::Wait(item) => Ok(Found::Wait(item)),
    }
}

fn methods_of(
    alloc: Global,
    u: &Subject,
    s: &State,
    of: TypeId,
) -> Result<Found<Answered, Item>, NoMemory>
    requires scene { IsScene u.now s.now }
    requires of { IsTypeOf s.now of }
    ensures { IfOk result (IsAnsweredTo u.now s.now (MethodSet (type_in s.now of))) }
{
    let found = methods_at(alloc, u, s, of)?;
    match found {
        Found::Is(reached) => Ok(Found::Is(Answered::Methods(reached))),
        Found::Wait(item) => Ok(Found::Wait(item)),
    }
}

fn comparable(
    alloc: Global,
    u: &Subject,
    s: &State,
    of: TypeId,
) -> Result<Found<Answered, Item>, NoMemory>
    requires scene { IsScene u.now s.now }
    requires of { IsTypeOf s.now of }
    ensures { IfOk result (IsAnsweredTo u.now s.now (IsComparable (type_in s.now of))) }
{
    let found = comparable_at(alloc, u, s, of)?;
    match found {
        Found::Is(reached) => Ok(Found::Is(Answered::Holds(reached))),
        Found::Wait(item) => Ok(Found::Wait(item)),
    }
}

/// The answer to a question, or the item for which it waits.
pub fn ask(
    alloc: Global,
    u: &Subject,
    s: &State,
    asked: Asked,
) -> Result<Found<Answered, Item>, NoMemory>
    requires scene { IsScene u.now s.now }
    requires asked { IsAskedOf s.now asked }
    ensures { IfOk result (IsAnsweredTo u.now s.now (question_in s.now asked)) }
{
    match asked {
        Asked::Assignable(of, value, to) => {
            let found = is_assignable(alloc, u, s, of, value, &[], to)?;
            Ok(found)
        }
        Asked::AssignableBy(of, value, methods, to) => {
            let found = is_assignable(alloc, u, s, of, value, &methods, to)?;
            Ok(found)
        }
        Asked::Methods(of) => {
            let found = methods_of(alloc, u, s, of)?;
            Ok(found)
        }
        Asked::Comparable(of) => {
            let found = comparable(alloc, u, s, of)?;
            Ok(found)
        }
    }
}
