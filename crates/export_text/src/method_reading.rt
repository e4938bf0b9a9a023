//! Reading the methods of a defined type into a table.
#![tactic(auto, using(type_texts::proofs::GrowLaws::grown_itself))]

ghost use Rattle.std.specs.Prelude.{◌≡◌, ◌<◌, IfOk, map};
ghost use Rattle.gv_bytes.specs.Reading.{Gives, each_at, items_at};
ghost use Rattle.type_model.specs.GoTypes.{type_at as type_of_id, signature_of, SignatureBelow, MethodsBelow};
ghost use Rattle.type_model.specs.Parts.{method_of};
ghost use Rattle.type_model.specs.Tables.{IsTable, Grown, types_in, count as count_of};
ghost use Rattle.export_text.specs.Faces.{function_of, function_at, method_at, methods_at};

use crate::rising::methods_rise;
use gv_bytes::{Unread, read_natural};
use package_faces::copied_signature;
use std::alloc::Global;
use type_model::{Method, Signature, Term, TypeId, TypeTable};
use type_texts::{read_bit, read_name, read_type};

/// The signature of a function type.
fn signature_in(alloc: Global, table: &TypeTable, id: TypeId) -> Result<Signature, Unread>
    requires table { IsTable table.now }
    requires within { id.0 < count_of table.now }
    ensures is { Gives (λ s. signature_of (types_in table.now) s) result (function_of (type_of_id (types_in table.now) id)) }
    ensures below { IfOk result (λ s. SignatureBelow (count_of table.now) s) }
{
    match table.term(id) {
        Term::Basic(_) => Err(Unread::Unspelled),
        Term::Defined(_) => Err(Unread::Unspelled),
        Term::Pointer(_) => Err(Unread::Unspelled),
        Term::Slice(_) => Err(Unread::Unspelled),
        Term::Array(_, _) => Err(Unread::Unspelled),
        Term::Map(_, _) => Err(Unread::Unspelled),
        Term::Chan(_, _) => Err(Unread::Unspelled),
        Term::Func(of) => {
            let copy = copied_signature(alloc, of)?;
            Ok(copy)
        }
        Term::Struct(_) => Err(Unread::Unspelled),
        Term::Interface(_) => Err(Unread::Unspelled),
    }
}

#[tactic(auto, using(type_texts::proofs::GrowLaws::grown_itself), unfolding(crate::specs::Faces::function_at))]
fn read_function<'a>(
    alloc: Global,
    table: &mut TypeTable,
    bytes: &'a [u8],
) -> Result<(Signature, &'a [u8]), Unread>
    requires table { IsTable table.old }
    ensures grown { Grown table.old table.new }
    ensures table { IsTable table.new }
    ensures is { Gives (λ x. (signature_of (types_in table.new) x.0, x.1.now)) result (function_at bytes.now) }
    ensures below { IfOk result (λ x. SignatureBelow (count_of table.new) x.0) }
{
    let (id, rest) = read_type(alloc, table, bytes)?;
    let of = signature_in(alloc, table, id)?;
    Ok((of, rest))
}

#[tactic(auto, using(type_texts::proofs::GrowLaws::grown_itself), unfolding(crate::specs::Faces::method_at))]
fn read_method<'a>(
    alloc: Global,
    table: &mut TypeTable,
    bytes: &'a [u8],
) -> Result<(Method, &'a [u8]), Unread>
    requires table { IsTable table.old }
    ensures grown { Grown table.old table.new }
    ensures table { IsTable table.new }
    ensures is { Gives (λ x. (method_of (types_in table.new) x.0, x.1.now)) result (method_at bytes.now) }
    ensures below { IfOk result (λ x. SignatureBelow (count_of table.new) x.0.of) }
{
    let (name, rest) = read_name(alloc, bytes)?;
    let (package, rest) = read_name(alloc, rest)?;
    let (pointer, rest) = read_bit(rest)?;
    let (of, rest) = read_function(alloc, table, rest)?;
    Ok((
        Method {
            name,
            package,
            pointer,
            of,
        },
        rest,
    ))
}

/// So many methods.
fn read_methods<'a>(
    alloc: Global,
    table: &mut TypeTable,
    count: u64,
    bytes: &'a [u8],
) -> Result<(Vec<Method>, &'a [u8]), Unread>
    requires table { IsTable table.old }
    ensures grown { Grown table.old table.new }
    ensures table { IsTable table.new }
    ensures is { Gives (λ x. (map (λ m. method_of (types_in table.new) m) x.0.items, x.1.now)) result (each_at method_at count bytes.now) }
    ensures below { IfOk result (λ x. MethodsBelow (count_of table.new) x.0.items) }
{
    let mut methods = Vec::new(alloc);
    let mut rest = bytes;
    for _ in 0..count {
        let (method, after) = read_method(alloc, table, rest)?;
        methods.push(method)?;
        rest = after;
    }
    Ok((methods, rest))
}

#[tactic(auto, using(type_texts::proofs::GrowLaws::grown_itself), unfolding(crate::specs::Faces::methods_at, gv_bytes::specs::Reading::items_at))]
pub fn read_ordered_methods<'a>(
    alloc: Global,
    table: &mut TypeTable,
    bytes: &'a [u8],
) -> Result<(Vec<Method>, &'a [u8]), Unread>
    requires table { IsTable table.old }
    ensures grown { Grown table.old table.new }
    ensures table { IsTable table.new }
    ensures is { Gives (λ x. (map (λ m. method_of (types_in table.new) m) x.0.items, x.1.now)) result (methods_at bytes.now) }
    ensures below { IfOk result (λ x. MethodsBelow (count_of table.new) x.0.items) }
{
    let (count, rest) = read_natural(bytes, u64::MAX)?;
    let (methods, rest) = read_methods(alloc, table, count, rest)?;
    if !methods_rise(table, &methods) {
        return Err(Unread::Unspelled);
    }
    Ok((methods, rest))
}
