//! Which types a class of arguments has as they stand.
ghost use Rattle.std.specs.Prelude.{◌≡◌, ◌<◌, ◌&&◌, ◌||◌, not, IfOk};
ghost use Rattle.gv_base.specs.Kinds.{is_nil};
ghost use Rattle.type_model.specs.GoTypes.{type_at};
ghost use Rattle.type_model.specs.Tables.{IsTable, types_in, count, declarations_in};
ghost use Rattle.vet_printf.specs.Verbs.{takes_text, takes_pointer, takes_reference, takes_kind};
ghost use Rattle.vet_printf.specs.Fitting.{is_byte_kind, is_byte, is_byte_type, is_parted_type, fits_form, fits_type};
ghost use Rattle.vet_printf.specs.InTable.{IsAsked, IsFitAt};

use crate::asking::{Asked, asked_of};
use crate::shapes::is_parted_type;
use crate::verb::{Class, takes_kind, takes_pointer, takes_reference, takes_text};
use gv_base::{Kind, NoMemory};
use std::alloc::Global;
use type_model::{Term, TypeId, TypeTable};

// ---- forms

fn is_byte_kind(kind: Kind) -> bool
    ensures { result ≡ is_byte_kind kind }
{
    matches!(kind, Kind::Uint8)
}

fn is_byte(t: &TypeTable, of: TypeId) -> bool
    requires table { IsTable t.now }
    requires within { of.0 < count t.now }
    ensures { result ≡ is_byte (type_at (types_in t.now) of) }
{
    match t.term(of) {
        Term::Basic(kind) => is_byte_kind(*kind),
        Term::Defined(_) => false,
        Term::Pointer(_) => false,
        Term::Slice(_) => false,
        Term::Array(_, _) => false,
        Term::Map(_, _) => false,
        Term::Chan(_, _) => false,
        Term::Func(_) => false,
        Term::Struct(_) => false,
        Term::Interface(_) => false,
    }
}

fn is_byte_type(t: &TypeTable, of: TypeId) -> bool
    requires table { IsTable t.now }
    requires within { of.0 < count t.now }
    ensures { result ≡ is_byte_type (declarations_in t.now) (type_at (types_in t.now) of) }
{
    match t.underlying(of) {
        Some(u) => is_byte(t, u),
        None => false,
    }
}

fn fits_kind(class: Class, kind: Kind) -> bool
    ensures { result ≡ (takes_kind class kind || is_nil kind) }
{
    takes_kind(class, kind) || kind.is_nil()
}

fn fits_pointer(t: &TypeTable, class: Class, of: TypeId) -> bool
    requires table { IsTable t.now }
    requires within { of.0 < count t.now }
    ensures { result ≡ (takes_reference class || (takes_pointer class && not (is_parted_type (declarations_in t.now) (type_at (types_in t.now) of)))) }
{
    takes_reference(class) || (takes_pointer(class) && !is_parted_type(t, of))
}

fn fits_bytes(t: &TypeTable, class: Class, of: TypeId) -> bool
    requires table { IsTable t.now }
    requires within { of.0 < count t.now }
    ensures { result ≡ (takes_text class && is_byte_type (declarations_in t.now) (type_at (types_in t.now) of)) }
{
    takes_text(class) && is_byte_type(t, of)
}

fn fits_slice(t: &TypeTable, class: Class, of: TypeId) -> bool
    requires table { IsTable t.now }
    requires within { of.0 < count t.now }
    ensures { result ≡ (takes_reference class || (takes_text class && is_byte_type (declarations_in t.now) (type_at (types_in t.now) of))) }
{
    takes_reference(class) || fits_bytes(t, class, of)
}

fn fits_form(t: &TypeTable, class: Class, u: TypeId) -> bool
    requires table { IsTable t.now }
    requires within { u.0 < count t.now }
    ensures { result ≡ fits_form (declarations_in t.now) class (type_at (types_in t.now) u) }
{
    match t.term(u) {
        Term::Basic(kind) => fits_kind(class, *kind),
        Term::Defined(_) => false,
        Term::Pointer(of) => fits_pointer(t, class, *of),
        Term::Slice(of) => fits_slice(t, class, *of),
        Term::Array(_, of) => fits_bytes(t, class, *of),
        Term::Map(_, _) => takes_reference(class),
        Term::Chan(_, _) => takes_reference(class),
        Term::Func(_) => takes_reference(class),
        Term::Struct(_) => false,
        Term::Interface(_) => true,
    }
}

fn fits_type(t: &TypeTable, class: Class, id: TypeId) -> bool
    requires table { IsTable t.now }
    requires within { id.0 < count t.now }
    ensures { result ≡ fits_type (declarations_in t.now) class (type_at (types_in t.now) id) }
{
    match t.underlying(id) {
        Some(u) => fits_form(t, class, u),
        None => false,
    }
}

// ---- with methods

fn prints(class: Class, x: Asked) -> bool
    ensures { result ≡ (x.format || (takes_text class && x.text)) }
{
    x.format || (takes_text(class) && x.text)
}

fn fit_value(t: &TypeTable, class: Class, x: Asked, id: TypeId) -> bool
    requires table { IsTable t.now }
    requires within { id.0 < count t.now }
    ensures { result ≡ (fits_type (declarations_in t.now) class (type_at (types_in t.now) id) || (x.format || (takes_text class && x.text))) }
{
    fits_type(t, class, id) || prints(class, x)
}

/// Whether a class has a type as it stands, or the type's methods print it.
pub(crate) fn is_fit(t: &TypeTable, class: Class, x: Asked, id: TypeId) -> bool
    requires table { IsTable t.now }
    requires within { id.0 < count t.now }
    requires asked { IsAsked t.now id.0 x }
    ensures { IsFitAt t.now class id.0 result }
{
    fit_value(t, class, x, id)
}

/// The same of a type that is met as a part. Its methods are asked for where its form doesn't tell.
pub(crate) fn fits(alloc: Global, t: &TypeTable, class: Class, id: TypeId) -> Result<bool, NoMemory>
    requires table { IsTable t.now }
    requires within { id.0 < count t.now }
    ensures { IfOk result (IsFitAt t.now class id.0) }
{
    if fits_type(t, class, id) {
        return Ok(true);
    }
    let asked = asked_of(alloc, t, id)?;
    Ok(is_fit(t, class, asked, id))
}
