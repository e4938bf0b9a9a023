//! To which type embedded fields lead.
ghost use Rattle.std.specs.Prelude.{◌≡◌, ◌<◌, length, option_map, slice_get, Some, IfSome};
ghost use Rattle.method_sets.specs.Paths.{base};
ghost use Rattle.type_model.specs.GoTypes.{type_at, FieldsBelow};
ghost use Rattle.type_model.specs.declared.term.Field.{Field as AField};
ghost use Rattle.type_model.specs.Tables.{IsTable, types_in, count, declarations_in};
ghost use Rattle.selected_methods.specs.Ways.{embedded_of, embedded, led};

use type_model::{Field, Term, TypeId, TypeTable};

/// A type, or that to which it points.
pub fn base_of(t: &TypeTable, of: TypeId) -> TypeId
    requires table { IsTable t.now }
    requires within { of.0 < count t.now }
    ensures is { type_at (types_in t.now) result ≡ base (type_at (types_in t.now) of) }
    ensures below { result.0 < count t.now }
{
    match t.term(of) {
        Term::Pointer(to) => *to,
        Term::Basic(_) => of,
        Term::Defined(_) => of,
        Term::Slice(_) => of,
        Term::Array(_, _) => of,
        Term::Map(_, _) => of,
        Term::Chan(_, _) => of,
        Term::Func(_) => of,
        Term::Struct(_) => of,
        Term::Interface(_) => of,
    }
}

/// The type of the field of this number.
#[tactic(auto, using(crate::proofs::WayLemmas::field_below))]
fn field_type(t: &TypeTable, under: TypeId, fields: &[Field], k: u32) -> Option<TypeId>
    requires within { under.0 < count t.now }
    requires below { FieldsBelow under.0 fields.now }
    ensures is { option_map (type_at (types_in t.now)) result ≡ option_map (λ (f : AField). type_at (types_in t.now) f.of) (slice_get fields.now k) }
    ensures within { IfSome result (λ id. id.0 < count t.now) }
{
    let _ = t;
    let _ = under;
    match fields.get(k as usize) {
        Some(field) => Some(field.of),
        None => None,
    }
}

fn field_base(t: &TypeTable, under: TypeId, fields: &[Field], k: u32) -> Option<TypeId>
    requires table { IsTable t.now }
    requires within { under.0 < count t.now }
    requires below { FieldsBelow under.0 fields.now }
    ensures is { option_map (type_at (types_in t.now)) result ≡ option_map (λ (f : AField). base (type_at (types_in t.now) f.of)) (slice_get fields.now k) }
    ensures within { IfSome result (λ id. id.0 < count t.now) }
{
    match field_type(t, under, fields, k) {
        Some(of) => Some(base_of(t, of)),
        None => None,
    }
}

fn embedded_of(t: &TypeTable, under: TypeId, k: u32) -> Option<TypeId>
    requires table { IsTable t.now }
    requires within { under.0 < count t.now }
    ensures is { option_map (type_at (types_in t.now)) result ≡ embedded_of (Some (type_at (types_in t.now) under)) k }
    ensures within { IfSome result (λ id. id.0 < count t.now) }
{
    match t.term(under) {
        Term::Struct(fields) => field_base(t, under, fields.as_slice(), k),
        Term::Basic(_) => None,
        Term::Defined(_) => None,
        Term::Pointer(_) => None,
        Term::Slice(_) => None,
        Term::Array(_, _) => None,
        Term::Map(_, _) => None,
        Term::Chan(_, _) => None,
        Term::Func(_) => None,
        Term::Interface(_) => None,
    }
}

fn embedded(t: &TypeTable, a: TypeId, k: u32) -> Option<TypeId>
    requires table { IsTable t.now }
    requires within { a.0 < count t.now }
    ensures is { option_map (type_at (types_in t.now)) result ≡ embedded (declarations_in t.now) (type_at (types_in t.now) a) k }
    ensures within { IfSome result (λ id. id.0 < count t.now) }
{
    match t.underlying(a) {
        Some(under) => embedded_of(t, under, k),
        None => None,
    }
}

fn number_at(path: &[u32], i: usize) -> u32
    requires { i < length path.now }
    ensures { slice_get path.now i ≡ Some result }
{
    path[i]
}

/// To which type the fields of these numbers lead, one after the other.
pub fn led(t: &TypeTable, a: TypeId, path: &[u32]) -> Option<TypeId>
    requires table { IsTable t.now }
    requires within { a.0 < count t.now }
    ensures is { option_map (type_at (types_in t.now)) result ≡ led (declarations_in t.now) (type_at (types_in t.now) a) path.now }
    ensures within { IfSome result (λ id. id.0 < count t.now) }
{
    let mut at = a;
    for i in 0..path.len() {
        let k = number_at(path, i);
        let found = embedded(t, at, k);
        match found {
            Some(next) => at = next,
            None => return None,
        }
    }
    Some(at)
}
