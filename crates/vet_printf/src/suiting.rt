//! Which types of arguments a class has.
ghost use Rattle.std.specs.Prelude.{◌≡◌, ◌<◌, option_map, unwrap_or, IfOk, IfSome};
ghost use Rattle.type_model.specs.GoTypes.{type_at, PointerTo};
ghost use Rattle.type_model.specs.Tables.{IsTable, types_in, count, declarations_in};
ghost use Rattle.vet_printf.specs.Fitting.{parted_behind, pointed};
ghost use Rattle.vet_printf.specs.InTable.{IsAsked, IsSuited};

use crate::asking::Asked;
use crate::fitting::is_fit;
use crate::searching::fails;
use crate::shapes::is_parted_type;
use crate::verb::Class;
use gv_base::NoMemory;
use std::alloc::Global;
use type_model::{Term, TypeId, TypeTable};

// ---- what pointers point to

fn if_parted(t: &TypeTable, of: TypeId) -> Option<TypeId>
    requires table { IsTable t.now }
    requires within { of.0 < count t.now }
    ensures is { option_map (type_at (types_in t.now)) result ≡ parted_behind (declarations_in t.now) (PointerTo (type_at (types_in t.now) of)) }
    ensures within { IfSome result (λ id. id.0 < count t.now) }
{
    if is_parted_type(t, of) {
        Some(of)
    } else {
        None
    }
}

fn parted_behind(t: &TypeTable, u: TypeId) -> Option<TypeId>
    requires table { IsTable t.now }
    requires within { u.0 < count t.now }
    ensures is { option_map (type_at (types_in t.now)) result ≡ parted_behind (declarations_in t.now) (type_at (types_in t.now) u) }
    ensures within { IfSome result (λ id. id.0 < count t.now) }
{
    match t.term(u) {
        Term::Pointer(of) => if_parted(t, *of),
        Term::Basic(_) => None,
        Term::Defined(_) => None,
        Term::Slice(_) => None,
        Term::Array(_, _) => None,
        Term::Map(_, _) => None,
        Term::Chan(_, _) => None,
        Term::Func(_) => None,
        Term::Struct(_) => None,
        Term::Interface(_) => None,
    }
}

fn pointed(t: &TypeTable, id: TypeId) -> Option<TypeId>
    requires table { IsTable t.now }
    requires within { id.0 < count t.now }
    ensures is { option_map (type_at (types_in t.now)) result ≡ pointed (declarations_in t.now) (type_at (types_in t.now) id) }
    ensures within { IfSome result (λ id. id.0 < count t.now) }
{
    match t.underlying(id) {
        Some(u) => parted_behind(t, u),
        None => None,
    }
}

/// The type for which an argument of a type stands.
fn stands_for(t: &TypeTable, id: TypeId) -> TypeId
    requires table { IsTable t.now }
    requires within { id.0 < count t.now }
    ensures is { type_at (types_in t.now) result ≡ unwrap_or (pointed (declarations_in t.now) (type_at (types_in t.now) id)) (type_at (types_in t.now) id) }
    ensures within { result.0 < count t.now }
{
    match pointed(t, id) {
        Some(of) => of,
        None => id,
    }
}

// ---- classes

/// Whether a class has arguments of a type, whose methods were asked for. A type without parts is judged by itself.
pub(crate) fn suits(
    alloc: Global,
    t: &TypeTable,
    class: Class,
    asked: Asked,
    id: TypeId,
) -> Result<bool, NoMemory>
    requires table { IsTable t.now }
    requires within { id.0 < count t.now }
    requires asked { IsAsked t.now id.0 asked }
    ensures { IfOk result (IsSuited t.now class id.0) }
{
    let fit = is_fit(t, class, asked, id);
    if fit {
        return Ok(true);
    }
    let of = stands_for(t, id);
    let parted = is_parted_type(t, of);
    if parted {
        let fails = fails(alloc, t, class, of)?;
        return Ok(!fails);
    }
    Ok(false)
}
