//! Values that are assigned to a type, one after the other.
ghost use Rattle.std.specs.Prelude.{◌≡◌, ◌<◌, IfOk, Some, length, option_map, slice_get};
ghost use Rattle.type_model.specs.GoTypes.{AreBelow};
ghost use Rattle.type_model.specs.Tables.{count as size, IsTable};
ghost use Rattle.type_answers.specs.Coming.{FoundBy};
ghost use Rattle.rule_words.specs.Scenes.{IsScene, type_in, IsTypeOf, MayBeTypeOf};
ghost use Rattle.variable_rules.specs.InCode.{types_of};
ghost use Rattle.variable_rules.specs.Sharing.{is_interface, by_methods, holds, all_assigned};

use gv_base::NoMemory;
use std::alloc::Global;
use type_answers::{Relation, ask_operand};
use type_model::{Term, TypeId};
use type_questions::{Found, Reached};
use typed_marks::{Item, State};
use unit_read::Subject;

fn is_interface(s: &State, of: TypeId) -> bool
    requires table { IsTable s.now.table }
    requires within { IsTypeOf s.now of }
    ensures { result ≡ is_interface (type_in s.now of) }
{
    match s.table.term(of) {
        Term::Interface(_) => true,
        Term::Basic(_) => false,
        Term::Defined(_) => false,
        Term::Pointer(_) => false,
        Term::Slice(_) => false,
        Term::Array(_, _) => false,
        Term::Map(_, _) => false,
        Term::Chan(_, _) => false,
        Term::Func(_) => false,
        Term::Struct(_) => false,
    }
}

/// Methods count where the underlying type is an interface.
pub fn by_methods(s: &State, under: Option<TypeId>) -> bool
    requires table { IsTable s.now.table }
    requires within { MayBeTypeOf s.now under }
    ensures { result ≡ by_methods (option_map (type_in s.now) under) }
{
    match under {
        Some(under) => is_interface(s, under),
        None => false,
    }
}

fn holds(told: &Reached<bool>) -> bool
    ensures { result ≡ holds told.now }
{
    match told {
        Reached::Got(b) => *b,
        Reached::Lost => false,
    }
}

fn listed(s: &State, list: &[TypeId], i: usize) -> TypeId
    requires low { i < length list.now }
    requires below { AreBelow (size s.now.table) list.now }
    ensures is { slice_get list.now i ≡ Some result }
    ensures within { IsTypeOf s.now result }
{
    let _ = s;
    list[i]
}

/// Whether values of these types are all assignable to a type.
pub fn all_assigned(
    alloc: Global,
    u: &Subject,
    s: &State,
    methods: bool,
    to: TypeId,
    list: &[TypeId],
) -> Result<Found<Reached<bool>, Item>, NoMemory>
    requires scene { IsScene u.now s.now }
    requires to { IsTypeOf s.now to }
    requires below { AreBelow (size s.now.table) list.now }
    ensures { IfOk result (FoundBy u.now s.now (λ x. x) (all_assigned methods (type_in s.now to) (types_of s.now list.now))) }
{
    for i in 0..list.len() {
        let of = listed(s, list, i);
        let found = ask_operand(alloc, u, s, Relation::Assignable, methods, of, None, to)?;
        match found {
            Found::Is(told) => {
                if !holds(&told) {
                    return Ok(Found::Is(told));
                }
            }
            Found::Wait(item) => return Ok(Found::Wait(item)),
        }
    }
    Ok(Found::Is(Reached::Got(true)))
}
