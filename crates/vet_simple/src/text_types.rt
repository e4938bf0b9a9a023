//! Types of texts, and of functions that give one.
ghost use Rattle.std.specs.Prelude.{◌≡◌, ◌<◌};
ghost use Rattle.type_model.specs.GoTypes.{type_at, types_at, signature_of, AreBelow, SignatureBelow};
ghost use Rattle.type_model.specs.Tables.{IsTable, types_in, count};
ghost use Rattle.vet_simple.specs.Unused.{is_text_kind, is_text, are_none, are_one_text, gives_text, is_text_function};

use gv_base::Kind;
use type_model::{Signature, Term, TypeId, TypeTable};

pub(crate) fn is_text_kind(kind: Kind) -> bool
    ensures { result ≡ is_text_kind kind }
{
    matches!(kind, Kind::Text)
}

fn is_text(t: &TypeTable, of: TypeId) -> bool
    requires table { IsTable t.now }
    requires within { of.0 < count t.now }
    ensures { result ≡ is_text (type_at (types_in t.now) of) }
{
    match t.term(of) {
        Term::Basic(kind) => is_text_kind(*kind),
        Term::Defined(_) => false,
        Term::Pointer(_) => false,
        Term::Slice(_) => false,
        Term::Array(_, _) => false,
        Term::Map(_, _) => false,
        Term::Chan(_, _) => false,
        Term::Func(_) => false,
        Term::Struct(_) => false,
        Term::Interface(_) => false,
    }
}

#[tactic(auto, using(crate::proofs::TypeLemmas::none_counted))]
fn are_none(t: &TypeTable, types: &[TypeId]) -> bool
    ensures { result ≡ are_none (types_at (types_in t.now) types.now) }
{
    let _ = t;
    types.len() == 0
}

fn are_one_text(t: &TypeTable, types: &[TypeId]) -> bool
    requires table { IsTable t.now }
    requires below { AreBelow (count t.now) types.now }
    ensures { result ≡ are_one_text (types_at (types_in t.now) types.now) }
{
    match types {
        [] => false,
        [of, rest @ ..] => is_text(t, *of) && are_none(t, rest),
    }
}

fn gives_text(t: &TypeTable, of: &Signature) -> bool
    requires table { IsTable t.now }
    requires below { SignatureBelow (count t.now) of.now }
    ensures { result ≡ gives_text (signature_of (types_in t.now) of.now) }
{
    are_none(t, of.params.as_slice()) && are_one_text(t, of.results.as_slice())
}

pub(crate) fn is_text_function(t: &TypeTable, of: TypeId) -> bool
    requires table { IsTable t.now }
    requires within { of.0 < count t.now }
    ensures { result ≡ is_text_function (type_at (types_in t.now) of) }
{
    match t.term(of) {
        Term::Func(of) => gives_text(t, of),
        Term::Basic(_) => false,
        Term::Defined(_) => false,
        Term::Pointer(_) => false,
        Term::Slice(_) => false,
        Term::Array(_, _) => false,
        Term::Map(_, _) => false,
        Term::Chan(_, _) => false,
        Term::Struct(_) => false,
        Term::Interface(_) => false,
    }
}
