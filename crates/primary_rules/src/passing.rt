//! Whether what a selector selects has an address.
ghost use Rattle.std.specs.Prelude.{◌≡◌, ◌<◌, length, option_map, slice_get, Some};
ghost use Rattle.method_sets.specs.Paths.{is_pointer};
ghost use Rattle.type_model.specs.GoTypes.{type_of, type_at, IsOver, FieldsBelow};
ghost use Rattle.type_model.specs.declared.term.Field.{Field as AField};
ghost use Rattle.type_model.specs.Tables.{types_in};
ghost use Rattle.typed_tree.specs.Basics.{HasBasics};
ghost use Rattle.unit_read.specs.Subjects.{unit_of};
ghost use Rattle.rule_words.specs.Scenes.{IsScene, IfFound, type_in, IsTypeOf, MayBeTypeOf};
ghost use Rattle.rule_words.specs.Good.{AreFactsOf, known_of};
ghost use Rattle.type_answers.specs.Coming.{FoundBy};
ghost use Rattle.primary_rules.specs.InCode.{passing_in, IsPassingOf};
ghost use Rattle.primary_rules.specs.Selecting.{embedded_type, passed_field, passed_by, pass_ask, passes_ask, is_pointer_type, path_ask, through, through_ask, addressable_ask};

use crate::operand::is_variable;
use type_answers::ask_under;
use type_model::{Field, Term, TypeId};
use type_questions::Found;
use typed_marks::{Facts, Item, State};
use unit_read::Subject;

/// What is told of the way through an embedded field: whether a pointer is passed, or to which type it leads.
#[derive(Clone, Copy, PartialEq, Eq, Drop)]
pub enum Passing {
    Passed(bool),
    LeadsTo(TypeId),
}

// ---- types

/// A pointer type that isn't defined.
fn is_pointer(s: &State, t: TypeId) -> bool
    requires basics { HasBasics s.now.table }
    requires within { IsTypeOf s.now t }
    ensures { result ≡ is_pointer (type_in s.now t) }
{
    match s.table.term(t) {
        Term::Pointer(_) => true,
        Term::Basic(_) => false,
        Term::Defined(_) => false,
        Term::Slice(_) => false,
        Term::Array(_, _) => false,
        Term::Map(_, _) => false,
        Term::Chan(_, _) => false,
        Term::Func(_) => false,
        Term::Struct(_) => false,
        Term::Interface(_) => false,
    }
}

fn is_pointer_type(s: &State, under: Option<TypeId>) -> bool
    requires basics { HasBasics s.now.table }
    requires under { MayBeTypeOf s.now under }
    ensures { result ≡ is_pointer_type (option_map (type_in s.now) under) }
{
    match under {
        Some(under) => is_pointer(s, under),
        None => false,
    }
}

#[tactic(auto, using(crate::proofs::PassLemmas::field_below))]
fn field_type(s: &State, t: TypeId, fields: &[Field], k: u32) -> Option<TypeId>
    requires within { IsTypeOf s.now t }
    requires below { FieldsBelow t.0 fields.now }
    ensures is { option_map (type_in s.now) result ≡ option_map (λ (f : AField). type_at (types_in s.now.table) f.of) (slice_get fields.now k) }
    ensures over { MayBeTypeOf s.now result }
{
    let _ = t;
    match fields.get(k as usize) {
        Some(field) => Some(field.of),
        None => None,
    }
}

/// The type of the embedded field of this number.
fn embedded_type(s: &State, under: TypeId, k: u32) -> Option<TypeId>
    requires basics { HasBasics s.now.table }
    requires within { IsTypeOf s.now under }
    ensures is { option_map (type_in s.now) result ≡ embedded_type (Some (type_in s.now under)) k }
    ensures over { MayBeTypeOf s.now result }
{
    match s.table.term(under) {
        Term::Struct(fields) => field_type(s, under, fields.as_slice(), k),
        Term::Basic(_) => None,
        Term::Defined(_) => None,
        Term::Pointer(_) => None,
        Term::Slice(_) => None,
        Term::Array(_, _) => None,
        Term::Map(_, _) => None,
        Term::Chan(_, _) => None,
        Term::Func(_) => None,
        Term::Interface(_) => None,
    }
}

fn embedded_in(s: &State, under: Option<TypeId>, k: u32) -> Option<TypeId>
    requires basics { HasBasics s.now.table }
    requires under { MayBeTypeOf s.now under }
    ensures is { option_map (type_in s.now) result ≡ embedded_type (option_map (type_in s.now) under) k }
    ensures over { MayBeTypeOf s.now result }
{
    match under {
        Some(under) => embedded_type(s, under, k),
        None => None,
    }
}

// ---- pointers that are passed

fn passed_field(s: &State, of: Option<TypeId>) -> Passing
    requires basics { HasBasics s.now.table }
    requires of { MayBeTypeOf s.now of }
    ensures is { passing_in s.now result ≡ passed_field (option_map (type_in s.now) of) }
    ensures over { IsPassingOf s.now result }
{
    let Some(of) = of else {
        return Passing::Passed(false);
    };
    if is_pointer(s, of) {
        Passing::Passed(true)
    } else {
        Passing::LeadsTo(of)
    }
}

fn passed_by(u: &Subject, s: &State, under: Option<TypeId>, k: u32) -> Found<Passing, Item>
    requires scene { IsScene u.now s.now }
    requires under { MayBeTypeOf s.now under }
    ensures is { FoundBy u.now s.now (passing_in s.now) (passed_by k (option_map (type_in s.now) under)) result }
    ensures over { IfFound result (IsPassingOf s.now) }
{
    let _ = u;
    Found::Is(passed_field(s, embedded_in(s, under, k)))
}

#[tactic(auto, using(type_answers::proofs::ComingLaws::bind_found, type_answers::proofs::ComingLaws::bind_waits), unfolding(crate::specs::Selecting::pass_ask))]
fn pass(u: &Subject, s: &State, a: TypeId, k: u32) -> Found<Passing, Item>
    requires scene { IsScene u.now s.now }
    requires within { IsTypeOf s.now a }
    ensures is { FoundBy u.now s.now (passing_in s.now) (pass_ask (unit_of u.now) (type_in s.now a) k) result }
    ensures over { IfFound result (IsPassingOf s.now) }
{
    match ask_under(u, s, a) {
        Found::Is(under) => passed_by(u, s, under, k),
        Found::Wait(item) => Found::Wait(item),
    }
}

fn number_at(path: &[u32], i: usize) -> u32
    requires { i < length path.now }
    ensures { slice_get path.now i ≡ Some result }
{
    path[i]
}

/// One of the embedded fields of these numbers is embedded by a pointer.
#[tactic(auto, unfolding(crate::specs::Selecting::path_ask))]
fn passes(u: &Subject, s: &State, a: TypeId, path: &[u32]) -> Found<bool, Item>
    requires scene { IsScene u.now s.now }
    requires within { IsTypeOf s.now a }
    ensures { FoundBy u.now s.now (λ b. b) (path_ask (unit_of u.now) (type_in s.now a) path.now) result }
{
    let mut at = a;
    for i in 0..path.len() {
        let k = number_at(path, i);
        let found = pass(u, s, at, k);
        match found {
            Found::Wait(item) => return Found::Wait(item),
            Found::Is(passing) => match passing {
                Passing::Passed(pointer) => return Found::Is(pointer),
                Passing::LeadsTo(next) => at = next,
            },
        }
    }
    Found::Is(false)
}

// ---- addresses

fn through(
    u: &Subject,
    s: &State,
    of: TypeId,
    path: &[u32],
    under: Option<TypeId>,
) -> Found<bool, Item>
    requires scene { IsScene u.now s.now }
    requires of { IsTypeOf s.now of }
    requires under { MayBeTypeOf s.now under }
    ensures { FoundBy u.now s.now (λ b. b) (through (unit_of u.now) (type_in s.now of) path.now (option_map (type_in s.now) under)) result }
{
    if is_pointer_type(s, under) {
        return Found::Is(true);
    }
    passes(u, s, of, path)
}

#[tactic(auto, using(type_answers::proofs::ComingLaws::bind_found, type_answers::proofs::ComingLaws::bind_waits), unfolding(crate::specs::Selecting::through_ask))]
fn ask_through(u: &Subject, s: &State, of: TypeId, path: &[u32]) -> Found<bool, Item>
    requires scene { IsScene u.now s.now }
    requires of { IsTypeOf s.now of }
    ensures { FoundBy u.now s.now (λ b. b) (through_ask (unit_of u.now) (type_in s.now of) path.now) result }
{
    match ask_under(u, s, of) {
        Found::Is(under) => through(u, s, of, path, under),
        Found::Wait(item) => Found::Wait(item),
    }
}

/// Fields of variables have an address, and those that are selected through a pointer.
#[tactic(auto, unfolding(crate::specs::Selecting::addressable_ask))]
pub fn ask_addressable(u: &Subject, s: &State, x: Facts, path: &[u32]) -> Found<bool, Item>
    requires scene { IsScene u.now s.now }
    requires facts { AreFactsOf s.now x }
    ensures { FoundBy u.now s.now (λ b. b) (addressable_ask (unit_of u.now) (known_of s.now x) path.now) result }
{
    if is_variable(x.mode) {
        return Found::Is(true);
    }
    ask_through(u, s, x.of, path)
}
