//! Whether relations of types hold.
ghost use Rattle.std.specs.Prelude.{IfOk};
ghost use Rattle.type_model.specs.GoTypes.{MethodsBelow};
ghost use Rattle.type_model.specs.Tables.{count};
ghost use Rattle.type_questions.specs.Questions.{IsComparable, Holds};
ghost use Rattle.rule_words.specs.Scenes.{IsScene, IsTypeOf, type_in};
ghost use Rattle.type_answers.specs.Answering.{IsAnswered, relate_by};

use crate::constants::operand;
use crate::scene::Scene;
use gv_base::NoMemory;
use std::alloc::Global;
use type_model::{Method, TypeId};
use type_questions::{Found, Reached, assignable_to, convertible_to, is_comparable};
use typed_marks::{ConstId, Item, State};
use unit_read::Subject;

/// How an operand may be related to a type.
#[derive(Clone, Copy, Debug, PartialEq, Eq, Drop)]
pub enum Relation {
    /// Go 1.17, "Assignability".
    Assignable,
    /// Go 1.17, "Conversions".
    Convertible,
}

fn assignable_at(
    alloc: Global,
    u: &Subject,
    s: &State,
    of: TypeId,
    value: Option<ConstId>,
    methods: &[Method],
    to: TypeId,
) -> Result<Found<Reached<bool>, Item>, NoMemory>
    requires scene { IsScene u.now s.now }
    requires of { IsTypeOf s.now of }
    requires methods { MethodsBelow (count s.now.table) methods.now }
    requires to { IsTypeOf s.now to }
    ensures { IfOk result (IsAnswered u.now s.now (relate_by s.now Relation.Assignable of value methods.now to) Holds) }
{
    let x = operand(alloc, s, of, value)?;
    let scene = Scene {
        subject: u,
        state: s,
    };
    Ok(assignable_to(&scene, &s.table, &x, methods, to))
}

fn convertible_at(
    alloc: Global,
    u: &Subject,
    s: &State,
    of: TypeId,
    value: Option<ConstId>,
    methods: &[Method],
    to: TypeId,
) -> Result<Found<Reached<bool>, Item>, NoMemory>
    requires scene { IsScene u.now s.now }
    requires of { IsTypeOf s.now of }
    requires methods { MethodsBelow (count s.now.table) methods.now }
    requires to { IsTypeOf s.now to }
    ensures { IfOk result (IsAnswered u.now s.now (relate_by s.now Relation.Convertible of value methods.now to) Holds) }
{
    let x = operand(alloc, s, of, value)?;
    let scene = Scene {
        subject: u,
        state: s,
    };
    Ok(convertible_to(&scene, &s.table, &x, methods, to))
}

/// Whether an operand with these methods is so related to a type.
pub fn related_at(
    alloc: Global,
    u: &Subject,
    s: &State,
    relation: Relation,
    of: TypeId,
    value: Option<ConstId>,
    methods: &[Method],
    to: TypeId,
) -> Result<Found<Reached<bool>, Item>, NoMemory>
    requires scene { IsScene u.now s.now }
    requires of { IsTypeOf s.now of }
    requires methods { MethodsBelow (count s.now.table) methods.now }
    requires to { IsTypeOf s.now to }
    ensures { IfOk result (IsAnswered u.now s.now (relate_by s.now relation of value methods.now to) Holds) }
{
    match relation {
        Relation::Assignable => {
            let found = assignable_at(alloc, u, s, of, value, methods, to)?;
            Ok(found)
        }
        Relation::Convertible => {
            let found = convertible_at(alloc, u, s, of, value, methods, to)?;
            Ok(found)
        }
    }
}

/// Whether values of a type may be compared (Go 1.17, "Comparison operators").
pub fn comparable_at(
    alloc: Global,
    u: &Subject,
    s: &State,
    of: TypeId,
) -> Result<Found<Reached<bool>, Item>, NoMemory>
    requires scene { IsScene u.now s.now }
    requires of { IsTypeOf s.now of }
    ensures { IfOk result (IsAnswered u.now s.now (IsComparable (type_in s.now of)) Holds) }
{
    let scene = Scene {
        subject: u,
        state: s,
    };
    let found = is_comparable(alloc, &scene, &s.table, of)?;
    Ok(found)
}
