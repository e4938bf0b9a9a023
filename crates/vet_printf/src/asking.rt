//! Which methods that print types have.
ghost use Rattle.std.specs.Prelude.{◌≡◌, ◌<◌, ◌&&◌, ◌||◌, List, codes, map, IfOk};
ghost use Rattle.std.specs.List.{list_any};
ghost use Rattle.std.specs.Str.{bytes_eq};
ghost use Rattle.type_model.specs.GoTypes.{GoType, type_at, type_of, types_at, signature_of, AreBelow, SignatureBelow, MethodsBelow};
ghost use Rattle.type_model.specs.Parts.{method_of};
ghost use Rattle.type_model.specs.Tables.{IsTable, types_in, count};
ghost use Rattle.method_sets.specs.Paths.{base};
ghost use Rattle.vet_printf.specs.Fitting.{is_text_kind, is_text, are_none, are_one_text, gives_text, is_wanted, is_bare};
ghost use Rattle.vet_printf.specs.InTable.{IsAsked};

use gv_base::{Kind, NoMemory};
use method_sets::method_set;
use std::alloc::Global;
use type_model::{Method, Signature, Term, TypeId, TypeTable};

/// A method that is asked for.
#[derive(Clone, Copy, Drop)]
pub enum Wanted {
    Format,
    /// `Error() string` or `String() string`.
    Text,
    /// `Error() string`.
    Error,
}

/// Which of them a type has.
#[derive(Clone, Copy, Drop)]
pub struct Asked {
    pub format: bool,
    pub text: bool,
    pub error: bool,
}

// ---- a method

fn is_text_kind(kind: Kind) -> bool
    ensures { result ≡ is_text_kind kind }
{
    matches!(kind, Kind::Text)
}

pub(crate) fn is_text(t: &TypeTable, of: TypeId) -> bool
    requires table { IsTable t.now }
    requires within { of.0 < count t.now }
    ensures { result ≡ is_text (type_at (types_in t.now) of) }
{
    match t.term(of) {
        Term::Basic(kind) => is_text_kind(*kind),
        Term::Defined(_) => false,
        Term::Pointer(_) => false,
        Term::Slice(_) => false,
        Term::Array(_, _) => false,
        Term::Map(_, _) => false,
        Term::Chan(_, _) => false,
        Term::Func(_) => false,
        Term::Struct(_) => false,
        Term::Interface(_) => false,
    }
}

#[tactic(auto, using(crate::proofs::AskLemmas::none_counted))]
fn are_none(t: &TypeTable, types: &[TypeId]) -> bool
    ensures { result ≡ are_none (types_at (types_in t.now) types.now) }
{
    let _ = t;
    types.len() == 0
}

fn are_one_text(t: &TypeTable, types: &[TypeId]) -> bool
    requires table { IsTable t.now }
    requires below { AreBelow (count t.now) types.now }
    ensures { result ≡ are_one_text (types_at (types_in t.now) types.now) }
{
    match types {
        [] => false,
        [of, rest @ ..] => is_text(t, *of) && are_none(t, rest),
    }
}

fn gives_text(t: &TypeTable, of: &Signature) -> bool
    requires table { IsTable t.now }
    requires below { SignatureBelow (count t.now) of.now }
    ensures { result ≡ gives_text (signature_of (types_in t.now) of.now) }
{
    are_none(t, of.params.as_slice()) && are_one_text(t, of.results.as_slice())
}

fn is_named(m: &Method, name: &str) -> bool
    ensures { result ≡ bytes_eq m.now.name name.now }
{
    m.name.as_str() == name
}

fn is_printing(m: &Method) -> bool
    ensures { result ≡ (bytes_eq m.now.name (codes "Error") || bytes_eq m.now.name (codes "String")) }
{
    is_named(m, "Error") || is_named(m, "String")
}

fn is_wanted(t: &TypeTable, wanted: Wanted, m: &Method) -> bool
    requires table { IsTable t.now }
    requires below { SignatureBelow (count t.now) m.now.of }
    ensures { result ≡ is_wanted wanted (method_of (types_in t.now) m.now) }
{
    match wanted {
        Wanted::Format => is_named(m, "Format"),
        Wanted::Text => is_printing(m) && gives_text(t, &m.of),
        Wanted::Error => is_named(m, "Error") && gives_text(t, &m.of),
    }
}

// ---- the methods of a type

fn any_wanted(t: &TypeTable, wanted: Wanted, methods: &[Method]) -> bool
    requires table { IsTable t.now }
    requires below { MethodsBelow (count t.now) methods.now }
    ensures { result ≡ list_any (is_wanted wanted) (map (method_of (types_in t.now)) methods.now) }
{
    for m in methods {
        if is_wanted(t, wanted, m) {
            return true;
        }
    }
    false
}

fn asked_by_set(alloc: Global, t: &TypeTable, id: TypeId) -> Result<Asked, NoMemory>
    requires table { IsTable t.now }
    requires within { id.0 < count t.now }
    ensures { IfOk result (IsAsked t.now id.0) }
{
    let methods = method_set(alloc, t, id)?;
    Ok(Asked {
        format: any_wanted(t, Wanted::Format, &methods),
        text: any_wanted(t, Wanted::Text, &methods),
        error: any_wanted(t, Wanted::Error, &methods),
    })
}

fn is_bare(term: &Term) -> bool
    ensures { (types : List GoType) → result ≡ is_bare (type_of types term.now) }
{
    match term {
        Term::Basic(_) => true,
        Term::Slice(_) => true,
        Term::Array(_, _) => true,
        Term::Map(_, _) => true,
        Term::Chan(_, _) => true,
        Term::Func(_) => true,
        Term::Defined(_) => false,
        Term::Pointer(_) => false,
        Term::Struct(_) => false,
        Term::Interface(_) => false,
    }
}

fn is_bare_at(t: &TypeTable, u: TypeId) -> bool
    requires table { IsTable t.now }
    requires within { u.0 < count t.now }
    ensures { result ≡ is_bare (type_at (types_in t.now) u) }
{
    is_bare(t.term(u))
}

/// Whether a type, or what it points to, has neither members nor a name.
fn is_bare_under(t: &TypeTable, id: TypeId) -> bool
    requires table { IsTable t.now }
    requires within { id.0 < count t.now }
    ensures { result ≡ is_bare (base (type_at (types_in t.now) id)) }
{
    match t.term(id) {
        Term::Basic(_) => true,
        Term::Slice(_) => true,
        Term::Array(_, _) => true,
        Term::Map(_, _) => true,
        Term::Chan(_, _) => true,
        Term::Func(_) => true,
        Term::Defined(_) => false,
        Term::Pointer(of) => is_bare_at(t, *of),
        Term::Struct(_) => false,
        Term::Interface(_) => false,
    }
}

/// Which of the methods a type has. Most types of a table have none, as their form tells.
pub(crate) fn asked_of(alloc: Global, t: &TypeTable, id: TypeId) -> Result<Asked, NoMemory>
    requires table { IsTable t.now }
    requires within { id.0 < count t.now }
    ensures { IfOk result (IsAsked t.now id.0) }
{
    if is_bare_under(t, id) {
        return Ok(Asked {
            format: false,
            text: false,
            error: false,
        });
    }
    let asked = asked_by_set(alloc, t, id)?;
    Ok(asked)
}
