//! What types have as parts.
ghost use Rattle.std.specs.Prelude.{◌≡◌, ◌<◌, ◌++◌, List, IfOk, OnOk};
ghost use Rattle.type_model.specs.GoTypes.{GoType, type_at, type_of};
ghost use Rattle.type_model.specs.Tables.{IsTable, types_in, count, declarations_in};
ghost use Rattle.vet_printf.specs.Fitting.{is_parted, is_parted_type};
ghost use Rattle.vet_printf.specs.InTable.{field_ids, ids_of, AreParts};

use gv_base::{NoMemory, Row};
use std::alloc::Global;
use type_model::{Field, Term, TypeId, TypeTable};

/// The parts of a function, by their numbers: to which it hands on.
#[derive(Drop)]
pub struct Shape {
    /// Whether it is judged by its parts.
    pub parted: bool,
    pub parts: Row<u32>,
}

fn is_parted(term: &Term) -> bool
    ensures { (types : List GoType) → result ≡ is_parted (type_of types term.now) }
{
    match term {
        Term::Slice(_) => true,
        Term::Array(_, _) => true,
        Term::Map(_, _) => true,
        Term::Struct(_) => true,
        Term::Basic(_) => false,
        Term::Defined(_) => false,
        Term::Pointer(_) => false,
        Term::Chan(_, _) => false,
        Term::Func(_) => false,
        Term::Interface(_) => false,
    }
}

fn is_parted_at(t: &TypeTable, u: TypeId) -> bool
    requires table { IsTable t.now }
    requires within { u.0 < count t.now }
    ensures { result ≡ is_parted (type_at (types_in t.now) u) }
{
    is_parted(t.term(u))
}

/// Whether a type is a struct, an array, a slice or a map.
pub(crate) fn is_parted_type(t: &TypeTable, id: TypeId) -> bool
    requires table { IsTable t.now }
    requires within { id.0 < count t.now }
    ensures { result ≡ is_parted_type (declarations_in t.now) (type_at (types_in t.now) id) }
{
    match t.underlying(id) {
        Some(u) => is_parted_at(t, u),
        None => false,
    }
}

fn push_fields(fields: &[Field], ids: &mut Vec<u32>) -> Result<(), NoMemory>
    ensures { OnOk result (ids.new.items ≡ ids.old.items ++ field_ids fields.now) }
{
    for field in fields {
        ids.push(field.of.0)?;
    }
    Ok(())
}

/// The numbers of the parts of a type without a name.
fn push_ids(term: &Term, ids: &mut Vec<u32>) -> Result<(), NoMemory>
    ensures { OnOk result (ids.new.items ≡ ids.old.items ++ ids_of term.now) }
{
    match term {
        Term::Slice(of) => {
            ids.push(of.0)?;
            Ok(())
        }
        Term::Array(_, of) => {
            ids.push(of.0)?;
            Ok(())
        }
        Term::Map(key, of) => {
            ids.push(key.0)?;
            ids.push(of.0)?;
            Ok(())
        }
        Term::Struct(fields) => {
            push_fields(fields.as_slice(), ids)?;
            Ok(())
        }
        Term::Basic(_) => Ok(()),
        Term::Defined(_) => Ok(()),
        Term::Pointer(_) => Ok(()),
        Term::Chan(_, _) => Ok(()),
        Term::Func(_) => Ok(()),
        Term::Interface(_) => Ok(()),
    }
}

/// The numbers of the parts of a type.
pub(crate) fn parts_of(alloc: Global, t: &TypeTable, id: TypeId) -> Result<Vec<u32>, NoMemory>
    requires table { IsTable t.now }
    requires within { id.0 < count t.now }
    ensures { IfOk result (λ ids. AreParts t.now id.0 ids.items) }
{
    let mut ids = Vec::new(alloc);
    match t.underlying(id) {
        Some(u) => {
            push_ids(t.term(u), &mut ids)?;
            Ok(ids)
        }
        None => Ok(ids),
    }
}
