//! Types as operators count them.
ghost use Rattle.std.specs.Prelude.{◌≡◌, ◌&&◌};
ghost use Rattle.gv_base.specs.declared.constant.Kind.{Kind};
ghost use Rattle.type_model.specs.GoTypes.{type_of, methods_of};
ghost use Rattle.type_model.specs.Tables.{types_in};
ghost use Rattle.type_rel.specs.Assigning.{holds_nil};
ghost use Rattle.type_rel.specs.Kinds.{is_untyped};
ghost use Rattle.typed_tree.specs.Basics.{HasBasics};
ghost use Rattle.typed_tree.specs.Operands.{is_nil, is_rune};
ghost use Rattle.rule_words.specs.Scenes.{type_in, IsTypeOf};
ghost use Rattle.rule_words.specs.Types.{is_of};
ghost use Rattle.op_rules.specs.Types.{is_basic, has_none, is_empty_interface, are_one, common, alike, are_alike};

use crate::kinds::{alike, is_nil, is_rune};
use gv_base::Kind;
use rule_words::types::{is_untyped, kind_of};
use same_types::same_type;
use type_model::{Method, Term, TypeId};
use typed_marks::State;

#[tactic(auto, unfolding(crate::specs::Types::is_basic))]
pub fn is_basic(s: &State, t: TypeId) -> bool
    requires basics { HasBasics s.now.table }
    requires within { IsTypeOf s.now t }
    ensures { result ≡ is_basic (type_in s.now t) }
{
    match kind_of(s, t) {
        Some(_) => true,
        None => false,
    }
}

/// The type of `nil`.
#[tactic(auto, unfolding(rule_words::specs::Types::is_of))]
pub fn is_nil_type(s: &State, t: TypeId) -> bool
    requires basics { HasBasics s.now.table }
    requires within { IsTypeOf s.now t }
    ensures { result ≡ is_of is_nil (type_in s.now t) }
{
    match kind_of(s, t) {
        Some(kind) => is_nil(kind),
        None => false,
    }
}

/// The type of untyped runes.
#[tactic(auto, unfolding(rule_words::specs::Types::is_of))]
pub fn is_rune_type(s: &State, t: TypeId) -> bool
    requires basics { HasBasics s.now.table }
    requires within { IsTypeOf s.now t }
    ensures { result ≡ is_of is_rune (type_in s.now t) }
{
    match kind_of(s, t) {
        Some(kind) => is_rune(kind),
        None => false,
    }
}

fn has_none(s: &State, methods: &[Method]) -> bool
    ensures { result ≡ has_none (methods_of (types_in s.now.table) methods.now) }
{
    match methods {
        [] => true,
        [_, ..] => false,
    }
}

#[tactic(auto, unfolding(crate::specs::Types::is_empty_interface))]
fn is_empty_term(s: &State, term: &Term) -> bool
    ensures { result ≡ is_empty_interface (type_of (types_in s.now.table) term.now) }
{
    match term {
        Term::Interface(methods) => has_none(s, methods.as_slice()),
        Term::Basic(_) => false,
        Term::Defined(_) => false,
        Term::Pointer(_) => false,
        Term::Slice(_) => false,
        Term::Array(_, _) => false,
        Term::Map(_, _) => false,
        Term::Chan(_, _) => false,
        Term::Func(_) => false,
        Term::Struct(_) => false,
    }
}

/// The empty interface.
pub fn is_empty_interface(s: &State, t: TypeId) -> bool
    requires basics { HasBasics s.now.table }
    requires within { IsTypeOf s.now t }
    ensures { result ≡ is_empty_interface (type_in s.now t) }
{
    is_empty_term(s, s.table.term(t))
}

fn holds_nil_term(s: &State, term: &Term) -> bool
    ensures { result ≡ holds_nil (type_of (types_in s.now.table) term.now) }
{
    match term {
        Term::Basic(_) => false,
        Term::Defined(_) => false,
        Term::Pointer(_) => true,
        Term::Slice(_) => true,
        Term::Array(_, _) => false,
        Term::Map(_, _) => true,
        Term::Chan(_, _) => true,
        Term::Func(_) => true,
        Term::Struct(_) => false,
        Term::Interface(_) => true,
    }
}

/// A type of which `nil` is a value.
pub fn holds_nil(s: &State, t: TypeId) -> bool
    requires basics { HasBasics s.now.table }
    requires within { IsTypeOf s.now t }
    ensures { result ≡ holds_nil (type_in s.now t) }
{
    holds_nil_term(s, s.table.term(t))
}

/// The types are one.
#[tactic(auto, unfolding(crate::specs::Types::are_one))]
pub fn are_one(s: &State, a: TypeId, b: TypeId) -> bool
    requires basics { HasBasics s.now.table }
    requires first { IsTypeOf s.now a }
    requires second { IsTypeOf s.now b }
    ensures { result ≡ are_one (type_in s.now a) (type_in s.now b) }
{
    same_type(&s.table, a, b)
}

/// An untyped type of runes beside an untyped one.
fn is_known_rune(s: &State, a: TypeId, b: TypeId) -> bool
    requires basics { HasBasics s.now.table }
    requires first { IsTypeOf s.now a }
    requires second { IsTypeOf s.now b }
    ensures { result ≡ (is_of is_untyped (type_in s.now b) && is_of is_rune (type_in s.now a)) }
{
    is_untyped(s, b) && is_rune_type(s, a)
}

/// The type of both operands.
#[tactic(auto, unfolding(crate::specs::Types::common))]
pub fn common(s: &State, a: TypeId, b: TypeId) -> TypeId
    requires basics { HasBasics s.now.table }
    requires first { IsTypeOf s.now a }
    requires second { IsTypeOf s.now b }
    ensures is { type_in s.now result ≡ common (type_in s.now a) (type_in s.now b) }
    ensures within { IsTypeOf s.now result }
{
    if !is_untyped(s, a) {
        return a;
    }
    if is_known_rune(s, a, b) { a } else { b }
}

#[tactic(auto, unfolding(rule_words::specs::Types::is_of))]
fn alike_to(s: &State, kind: Kind, b: TypeId) -> bool
    requires basics { HasBasics s.now.table }
    requires within { IsTypeOf s.now b }
    ensures { result ≡ is_of (alike kind) (type_in s.now b) }
{
    match kind_of(s, b) {
        Some(other) => alike(kind, other),
        None => false,
    }
}

/// Basic types of one class.
#[tactic(auto, unfolding(rule_words::specs::Types::is_of, crate::specs::Types::are_alike))]
pub fn are_alike(s: &State, a: TypeId, b: TypeId) -> bool
    requires basics { HasBasics s.now.table }
    requires first { IsTypeOf s.now a }
    requires second { IsTypeOf s.now b }
    ensures { result ≡ are_alike (type_in s.now a) (type_in s.now b) }
{
    match kind_of(s, a) {
        Some(kind) => alike_to(s, kind, b),
        None => false,
    }
}
