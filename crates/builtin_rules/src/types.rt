//! Types as calls look at them (Go 1.17, "Types").
ghost use Rattle.std.specs.Prelude.{◌≡◌, option_map, IfSome};
ghost use Rattle.std.specs.Option.{option_copied};
ghost use Rattle.type_model.specs.GoTypes.{IsOver, type_of};
ghost use Rattle.type_model.specs.Tables.{types_in, count};
ghost use Rattle.type_rel.specs.Kinds.{is_string};
ghost use Rattle.type_rel.specs.Terms.{slice_of, base_of};
ghost use Rattle.typed_tree.specs.Basics.{HasBasics};
ghost use Rattle.rule_words.specs.Scenes.{type_in, IsTypeOf};
ghost use Rattle.rule_words.specs.Types.{is_of};
ghost use Rattle.builtin_rules.specs.InCode.{signature_by, IsSignatureOf};
ghost use Rattle.builtin_rules.specs.Types.{is_byte_kind, signature_in, key_of, size_of};

use gv_base::Kind;
use rule_words::types::kind_of;
use type_model::{Signature, Term, TypeId};
use type_rel::has_texts;
use typed_marks::State;

/// The term of a type.
pub fn term_of(s: &State, t: TypeId) -> &Term
    requires basics { HasBasics s.now.table }
    requires within { IsTypeOf s.now t }
    ensures is { type_in s.now t ≡ type_of (types_in s.now.table) result.now }
    ensures over { IsOver (count s.now.table) result.now }
{
    s.table.term(t)
}

// ---- basic types

/// A string type.
#[tactic(auto, unfolding(rule_words::specs::Types::is_of))]
pub fn is_string(s: &State, t: TypeId) -> bool
    requires basics { HasBasics s.now.table }
    requires within { IsTypeOf s.now t }
    ensures { result ≡ is_of is_string (type_in s.now t) }
{
    match kind_of(s, t) {
        Some(kind) => has_texts(kind),
        None => false,
    }
}

fn is_byte_kind(kind: Kind) -> bool
    ensures { result ≡ is_byte_kind kind }
{
    match kind {
        Kind::Uint8 => true,
        _ => false,
    }
}

/// The type `byte`.
#[tactic(auto, unfolding(rule_words::specs::Types::is_of))]
pub fn is_byte(s: &State, t: TypeId) -> bool
    requires basics { HasBasics s.now.table }
    requires within { IsTypeOf s.now t }
    ensures { result ≡ is_of is_byte_kind (type_in s.now t) }
{
    match kind_of(s, t) {
        Some(kind) => is_byte_kind(kind),
        None => false,
    }
}

// ---- parts

fn slice_of_term(s: &State, term: &Term) -> Option<TypeId>
    requires { IsOver (count s.now.table) term.now }
    ensures is { option_map (type_in s.now) result ≡ slice_of (type_of (types_in s.now.table) term.now) }
    ensures below { IfSome result (IsTypeOf s.now) }
{
    let _ = s;
    match term {
        Term::Basic(_) => None,
        Term::Defined(_) => None,
        Term::Pointer(_) => None,
        Term::Slice(of) => Some(*of),
        Term::Array(_, _) => None,
        Term::Map(_, _) => None,
        Term::Chan(_, _) => None,
        Term::Func(_) => None,
        Term::Struct(_) => None,
        Term::Interface(_) => None,
    }
}

/// The element type of a slice type.
pub fn slice_of(s: &State, t: TypeId) -> Option<TypeId>
    requires basics { HasBasics s.now.table }
    requires within { IsTypeOf s.now t }
    ensures is { option_map (type_in s.now) result ≡ slice_of (type_in s.now t) }
    ensures below { IfSome result (IsTypeOf s.now) }
{
    slice_of_term(s, term_of(s, t))
}

fn base_of_term(s: &State, term: &Term) -> Option<TypeId>
    requires { IsOver (count s.now.table) term.now }
    ensures is { option_map (type_in s.now) result ≡ base_of (type_of (types_in s.now.table) term.now) }
    ensures below { IfSome result (IsTypeOf s.now) }
{
    let _ = s;
    match term {
        Term::Basic(_) => None,
        Term::Defined(_) => None,
        Term::Pointer(of) => Some(*of),
        Term::Slice(_) => None,
        Term::Array(_, _) => None,
        Term::Map(_, _) => None,
        Term::Chan(_, _) => None,
        Term::Func(_) => None,
        Term::Struct(_) => None,
        Term::Interface(_) => None,
    }
}

/// The base type of a pointer type.
pub fn base_of(s: &State, t: TypeId) -> Option<TypeId>
    requires basics { HasBasics s.now.table }
    requires within { IsTypeOf s.now t }
    ensures is { option_map (type_in s.now) result ≡ base_of (type_in s.now t) }
    ensures below { IfSome result (IsTypeOf s.now) }
{
    base_of_term(s, term_of(s, t))
}

fn key_of_term(s: &State, term: &Term) -> Option<TypeId>
    requires { IsOver (count s.now.table) term.now }
    ensures is { option_map (type_in s.now) result ≡ key_of (type_of (types_in s.now.table) term.now) }
    ensures below { IfSome result (IsTypeOf s.now) }
{
    let _ = s;
    match term {
        Term::Basic(_) => None,
        Term::Defined(_) => None,
        Term::Pointer(_) => None,
        Term::Slice(_) => None,
        Term::Array(_, _) => None,
        Term::Map(key, _) => Some(*key),
        Term::Chan(_, _) => None,
        Term::Func(_) => None,
        Term::Struct(_) => None,
        Term::Interface(_) => None,
    }
}

/// The key type of a map type.
pub fn key_of(s: &State, t: TypeId) -> Option<TypeId>
    requires basics { HasBasics s.now.table }
    requires within { IsTypeOf s.now t }
    ensures is { option_map (type_in s.now) result ≡ key_of (type_in s.now t) }
    ensures below { IfSome result (IsTypeOf s.now) }
{
    key_of_term(s, term_of(s, t))
}

fn size_of_term(s: &State, term: &Term) -> Option<u64>
    ensures { result ≡ size_of (type_of (types_in s.now.table) term.now) }
{
    let _ = s;
    match term {
        Term::Basic(_) => None,
        Term::Defined(_) => None,
        Term::Pointer(_) => None,
        Term::Slice(_) => None,
        Term::Array(size, _) => Some(*size),
        Term::Map(_, _) => None,
        Term::Chan(_, _) => None,
        Term::Func(_) => None,
        Term::Struct(_) => None,
        Term::Interface(_) => None,
    }
}

/// The length of an array type.
pub fn size_of(s: &State, t: TypeId) -> Option<u64>
    requires basics { HasBasics s.now.table }
    requires within { IsTypeOf s.now t }
    ensures { result ≡ size_of (type_in s.now t) }
{
    size_of_term(s, term_of(s, t))
}

fn signature_in_term<'a>(s: &State, term: &'a Term) -> Option<&'a Signature>
    requires { IsOver (count s.now.table) term.now }
    ensures is { option_map (signature_by s.now) (option_copied result) ≡ signature_in (type_of (types_in s.now.table) term.now) }
    ensures below { IfSome (option_copied result) (IsSignatureOf s.now) }
{
    let _ = s;
    match term {
        Term::Basic(_) => None,
        Term::Defined(_) => None,
        Term::Pointer(_) => None,
        Term::Slice(_) => None,
        Term::Array(_, _) => None,
        Term::Map(_, _) => None,
        Term::Chan(_, _) => None,
        Term::Func(of) => Some(of),
        Term::Struct(_) => None,
        Term::Interface(_) => None,
    }
}

/// The signature of a function type.
pub fn signature_in(s: &State, t: TypeId) -> Option<&Signature>
    requires basics { HasBasics s.now.table }
    requires within { IsTypeOf s.now t }
    ensures is { option_map (signature_by s.now) (option_copied result) ≡ signature_in (type_in s.now t) }
    ensures below { IfSome (option_copied result) (IsSignatureOf s.now) }
{
    signature_in_term(s, term_of(s, t))
}

// ---- interfaces
