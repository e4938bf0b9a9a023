//! Types as rules look at them.
ghost use Rattle.std.specs.Prelude.{◌≡◌, ◌<◌, length, slice_get, Some, option_map};
ghost use Rattle.type_model.specs.GoTypes.{type_of, AreBelow};
ghost use Rattle.type_model.specs.Tables.{types_in, count};
ghost use Rattle.type_rel.specs.Kinds.{is_untyped, is_integer};
ghost use Rattle.type_rel.specs.Terms.{kind_of};
ghost use Rattle.typed_tree.specs.Basics.{HasBasics};
ghost use Rattle.rule_words.specs.Scenes.{type_in, IsTypeOf, MayBeTypeOf};
ghost use Rattle.rule_words.specs.Types.{is_of, is_interface, takes_default, counted};

use gv_base::Kind;
use type_model::{Term, TypeId};
use type_rel::{has_integers, is_free};
use typed_marks::State;

fn kind_in(s: &State, term: &Term) -> Option<Kind>
    ensures { result ≡ kind_of (type_of (types_in s.now.table) term.now) }
{
    let _ = s;
    match term {
        Term::Basic(kind) => Some(*kind),
        Term::Defined(_) => None,
        Term::Pointer(_) => None,
        Term::Slice(_) => None,
        Term::Array(_, _) => None,
        Term::Map(_, _) => None,
        Term::Chan(_, _) => None,
        Term::Func(_) => None,
        Term::Struct(_) => None,
        Term::Interface(_) => None,
    }
}

/// The kind of a basic type.
pub fn kind_of(s: &State, t: TypeId) -> Option<Kind>
    requires basics { HasBasics s.now.table }
    requires within { IsTypeOf s.now t }
    ensures { result ≡ kind_of (type_in s.now t) }
{
    kind_in(s, s.table.term(t))
}

/// An untyped type.
#[tactic(auto, unfolding(crate::specs::Types::is_of))]
pub fn is_untyped(s: &State, t: TypeId) -> bool
    requires basics { HasBasics s.now.table }
    requires within { IsTypeOf s.now t }
    ensures { result ≡ is_of is_untyped (type_in s.now t) }
{
    match kind_of(s, t) {
        Some(kind) => is_free(kind),
        None => false,
    }
}

/// An integer type.
#[tactic(auto, unfolding(crate::specs::Types::is_of))]
pub fn is_integer(s: &State, t: TypeId) -> bool
    requires basics { HasBasics s.now.table }
    requires within { IsTypeOf s.now t }
    ensures { result ≡ is_of is_integer (type_in s.now t) }
{
    match kind_of(s, t) {
        Some(kind) => has_integers(kind),
        None => false,
    }
}

/// An interface type.
#[tactic(auto, unfolding(crate::specs::Types::is_interface))]
pub fn is_interface(s: &State, t: TypeId) -> bool
    requires basics { HasBasics s.now.table }
    requires within { IsTypeOf s.now t }
    ensures { result ≡ is_interface (type_in s.now t) }
{
    match s.table.term(t) {
        Term::Interface(_) => true,
        Term::Basic(_) => false,
        Term::Defined(_) => false,
        Term::Pointer(_) => false,
        Term::Slice(_) => false,
        Term::Array(_, _) => false,
        Term::Map(_, _) => false,
        Term::Chan(_, _) => false,
        Term::Func(_) => false,
        Term::Struct(_) => false,
    }
}

/// An untyped operand takes its default type where this underlying type is wanted.
#[tactic(auto, unfolding(crate::specs::Types::takes_default))]
pub fn takes_default(s: &State, under: Option<TypeId>) -> bool
    requires basics { HasBasics s.now.table }
    requires under { MayBeTypeOf s.now under }
    ensures { result ≡ takes_default (option_map (type_in s.now) under) }
{
    match under {
        Some(under) => is_interface(s, under),
        None => false,
    }
}

/// The type at which an operand counts: an untyped one by its own, a typed one by its underlying type.
#[tactic(auto, unfolding(crate::specs::Types::counted))]
pub fn counted(s: &State, of: TypeId, under: TypeId) -> TypeId
    requires basics { HasBasics s.now.table }
    requires of { IsTypeOf s.now of }
    requires under { IsTypeOf s.now under }
    ensures is { type_in s.now result ≡ counted (type_in s.now of) (type_in s.now under) }
    ensures within { IsTypeOf s.now result }
{
    if is_untyped(s, of) { of } else { under }
}

// ---- types in turn

fn id_nth(types: &[TypeId], i: usize) -> TypeId
    requires { i < length types.now }
    ensures { slice_get types.now i ≡ Some result }
{
    types[i]
}

/// One of some types.
pub fn nth(s: &State, types: &[TypeId], i: usize) -> TypeId
    requires low { i < length types.now }
    requires below { AreBelow (count s.now.table) types.now }
    ensures is { slice_get types.now i ≡ Some result }
    ensures within { IsTypeOf s.now result }
{
    let _ = s;
    id_nth(types, i)
}
