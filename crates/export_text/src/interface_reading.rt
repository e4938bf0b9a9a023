//! Reading an interface into a table.
#![tactic(auto, using(type_texts::proofs::GrowLaws::grown_itself))]

ghost use Rattle.std.specs.Prelude.{◌≡◌, ◌<◌, IfOk, IfSome, IsSomeAnd, map};
ghost use Rattle.gv_bytes.specs.Reading.{Gives, each_at, items_at};
ghost use Rattle.type_model.specs.GoTypes.{type_at as type_of_id, DefinedType};
ghost use Rattle.type_model.specs.Tables.{IsTable, Grown, types_in, count as count_of};
ghost use Rattle.package_faces.specs.Faces.{Face};
ghost use Rattle.export_text.specs.Faces.{IsFaceText, form_at, object_at, defined_at, objects_at, defineds_at, face_at, face_in};
ghost use Rattle.package_faces.specs.Reaching.{own_name};
ghost use Rattle.package_faces.specs.Interfaces.{form_in, object_in, defined_in, face_of, id_of, IsOwn, IsObjectIn, IsDefinedIn, AreObjectsIn, AreDefinedIn, IsInterfaceIn};

use crate::method_reading::read_ordered_methods;
use crate::rising::{defineds_rise, objects_rise};
use gv_base::{NoMemory, Row, Text};
use gv_bytes::{Unread, read_natural};
use package_faces::{ExportForm, Exported, ExportedType, Interface};
use std::alloc::Global;
use type_model::{Added, Term, TypeId, TypeName, TypeTable};
use type_texts::{read_name, read_type, read_value};

/// A name of package level.
fn full_name(alloc: Global, path: &Text, name: &Text) -> Result<TypeName, NoMemory>
    ensures { IfOk result (λ full. full ≡ own_name path.now name.now) }
{
    let package = path.copy(alloc)?;
    let copy = name.copy(alloc)?;
    Ok(TypeName {
        package,
        name: copy,
        local: 0,
    })
}

/// The defined type of this name.
#[tactic(auto, using(type_texts::proofs::GrowLaws::grown_itself, type_texts::proofs::GrowLaws::grown_table))]
fn own_type(
    alloc: Global,
    table: &mut TypeTable,
    path: &Text,
    name: &Text,
) -> Result<TypeId, NoMemory>
    requires table { IsTable table.old }
    ensures grown { Grown table.old table.new }
    ensures table { IsTable table.new }
    ensures is { IfOk result (λ id. type_of_id (types_in table.new) id ≡ DefinedType (own_name path.now name.now)) }
    ensures below { IfOk result (λ id. id.0 < count_of table.new) }
{
    let full = full_name(alloc, path, name)?;
    let added = table.add(Term::Defined(full))?;
    match added {
        Added::Id(id) => Ok(id),
        Added::TooWide => unreachable!(),
    }
}

/// A form. `path` and `name` are those of the object.
#[tactic(auto, using(type_texts::proofs::GrowLaws::grown_itself), unfolding(crate::specs::Faces::form_at, crate::specs::Faces::constant_at))]
fn read_form<'a>(
    alloc: Global,
    table: &mut TypeTable,
    path: &Text,
    name: &Text,
    bytes: &'a [u8],
) -> Result<(ExportForm, &'a [u8]), Unread>
    requires table { IsTable table.old }
    ensures grown { Grown table.old table.new }
    ensures table { IsTable table.new }
    ensures is { Gives (λ x. (form_in (types_in table.new) x.0, x.1.now)) result (form_at bytes.now) }
    ensures below { IfOk result (λ x. (id_of x.0).0 < count_of table.new) }
    ensures own { IfOk result (λ x. IsOwn path.now (types_in table.new) name.now x.0) }
{
    match bytes {
        [b'k', rest @ ..] => {
            let (id, rest) = read_type(alloc, table, rest)?;
            let (value, rest) = read_value(alloc, rest)?;
            Ok((ExportForm::Constant(id, value), rest))
        }
        [b'v', rest @ ..] => {
            let (id, rest) = read_type(alloc, table, rest)?;
            Ok((ExportForm::Variable(id), rest))
        }
        [b'f', rest @ ..] => {
            let (id, rest) = read_type(alloc, table, rest)?;
            Ok((ExportForm::Function(id), rest))
        }
        [b't', rest @ ..] => {
            let id = own_type(alloc, table, path, name)?;
            Ok((ExportForm::Own(id), rest))
        }
        [b'a', rest @ ..] => {
            let (id, rest) = read_type(alloc, table, rest)?;
            Ok((ExportForm::Alias(id), rest))
        }
        _ => Err(Unread::Unspelled),
    }
}

#[tactic(auto, using(type_texts::proofs::GrowLaws::grown_itself), unfolding(crate::specs::Faces::object_at))]
fn read_object<'a>(
    alloc: Global,
    table: &mut TypeTable,
    path: &Text,
    bytes: &'a [u8],
) -> Result<(Exported, &'a [u8]), Unread>
    requires table { IsTable table.old }
    ensures grown { Grown table.old table.new }
    ensures table { IsTable table.new }
    ensures is { Gives (λ x. (object_in (types_in table.new) x.0, x.1.now)) result (object_at bytes.now) }
    ensures own { IfOk result (λ x. IsObjectIn path.now (count_of table.new) (types_in table.new) x.0) }
{
    let (name, rest) = read_name(alloc, bytes)?;
    let (form, rest) = read_form(alloc, table, path, &name, rest)?;
    Ok((Exported { name, form }, rest))
}

/// So many objects.
fn read_objects<'a>(
    alloc: Global,
    table: &mut TypeTable,
    path: &Text,
    count: u64,
    bytes: &'a [u8],
) -> Result<(Vec<Exported>, &'a [u8]), Unread>
    requires table { IsTable table.old }
    ensures grown { Grown table.old table.new }
    ensures table { IsTable table.new }
    ensures is { Gives (λ x. (map (λ o. object_in (types_in table.new) o) x.0.items, x.1.now)) result (each_at object_at count bytes.now) }
    ensures own { IfOk result (λ x. AreObjectsIn path.now (count_of table.new) (types_in table.new) x.0.items) }
{
    let mut objects = Vec::new(alloc);
    let mut rest = bytes;
    for _ in 0..count {
        let (object, after) = read_object(alloc, table, path, rest)?;
        objects.push(object)?;
        rest = after;
    }
    Ok((objects, rest))
}

#[tactic(auto, using(type_texts::proofs::GrowLaws::grown_itself), unfolding(crate::specs::Faces::objects_at, gv_bytes::specs::Reading::items_at))]
fn read_ordered_objects<'a>(
    alloc: Global,
    table: &mut TypeTable,
    path: &Text,
    bytes: &'a [u8],
) -> Result<(Vec<Exported>, &'a [u8]), Unread>
    requires table { IsTable table.old }
    ensures grown { Grown table.old table.new }
    ensures table { IsTable table.new }
    ensures is { Gives (λ x. (map (λ o. object_in (types_in table.new) o) x.0.items, x.1.now)) result (objects_at bytes.now) }
    ensures own { IfOk result (λ x. AreObjectsIn path.now (count_of table.new) (types_in table.new) x.0.items) }
{
    let (count, rest) = read_natural(bytes, u64::MAX)?;
    let (objects, rest) = read_objects(alloc, table, path, count, rest)?;
    if !objects_rise(table, &objects) {
        return Err(Unread::Unspelled);
    }
    Ok((objects, rest))
}

#[tactic(auto, using(type_texts::proofs::GrowLaws::grown_itself), unfolding(crate::specs::Faces::defined_at))]
fn read_defined<'a>(
    alloc: Global,
    table: &mut TypeTable,
    bytes: &'a [u8],
) -> Result<(ExportedType, &'a [u8]), Unread>
    requires table { IsTable table.old }
    ensures grown { Grown table.old table.new }
    ensures table { IsTable table.new }
    ensures is { Gives (λ x. (defined_in (types_in table.new) x.0, x.1.now)) result (defined_at bytes.now) }
    ensures below { IfOk result (λ x. IsDefinedIn (count_of table.new) x.0) }
{
    let (name, rest) = read_name(alloc, bytes)?;
    let (under, rest) = read_type(alloc, table, rest)?;
    let (methods, rest) = read_ordered_methods(alloc, table, rest)?;
    Ok((
        ExportedType {
            name,
            under,
            methods: Row::new(methods),
        },
        rest,
    ))
}

/// So many defined types.
fn read_defineds<'a>(
    alloc: Global,
    table: &mut TypeTable,
    count: u64,
    bytes: &'a [u8],
) -> Result<(Vec<ExportedType>, &'a [u8]), Unread>
    requires table { IsTable table.old }
    ensures grown { Grown table.old table.new }
    ensures table { IsTable table.new }
    ensures is { Gives (λ x. (map (λ d. defined_in (types_in table.new) d) x.0.items, x.1.now)) result (each_at defined_at count bytes.now) }
    ensures below { IfOk result (λ x. AreDefinedIn (count_of table.new) x.0.items) }
{
    let mut types = Vec::new(alloc);
    let mut rest = bytes;
    for _ in 0..count {
        let (defined, after) = read_defined(alloc, table, rest)?;
        types.push(defined)?;
        rest = after;
    }
    Ok((types, rest))
}

#[tactic(auto, using(type_texts::proofs::GrowLaws::grown_itself), unfolding(crate::specs::Faces::defineds_at, gv_bytes::specs::Reading::items_at))]
fn read_ordered_defineds<'a>(
    alloc: Global,
    table: &mut TypeTable,
    bytes: &'a [u8],
) -> Result<(Vec<ExportedType>, &'a [u8]), Unread>
    requires table { IsTable table.old }
    ensures grown { Grown table.old table.new }
    ensures table { IsTable table.new }
    ensures is { Gives (λ x. (map (λ d. defined_in (types_in table.new) d) x.0.items, x.1.now)) result (defineds_at bytes.now) }
    ensures below { IfOk result (λ x. AreDefinedIn (count_of table.new) x.0.items) }
{
    let (count, rest) = read_natural(bytes, u64::MAX)?;
    let (types, rest) = read_defineds(alloc, table, count, rest)?;
    if !defineds_rise(table, &types) {
        return Err(Unread::Unspelled);
    }
    Ok((types, rest))
}

#[tactic(auto, using(type_texts::proofs::GrowLaws::grown_itself), unfolding(crate::specs::Faces::face_at))]
fn read_face<'a>(
    alloc: Global,
    table: &mut TypeTable,
    bytes: &'a [u8],
) -> Result<(Interface, &'a [u8]), Unread>
    requires table { IsTable table.old }
    ensures grown { Grown table.old table.new }
    ensures table { IsTable table.new }
    ensures is { Gives (λ x. (face_of (types_in table.new) x.0, x.1.now)) result (face_at bytes.now) }
    ensures within { IfOk result (λ x. IsInterfaceIn (count_of table.new) (types_in table.new) x.0) }
{
    let (path, rest) = read_name(alloc, bytes)?;
    let (name, rest) = read_name(alloc, rest)?;
    let (objects, rest) = read_ordered_objects(alloc, table, &path, rest)?;
    let (types, rest) = read_ordered_defineds(alloc, table, rest)?;
    Ok((
        Interface {
            path,
            name,
            objects: Row::new(objects),
            types: Row::new(types),
        },
        rest,
    ))
}

#[tactic(auto, using(type_texts::proofs::GrowLaws::grown_itself), unfolding(crate::specs::Faces::face_in))]
fn whole(alloc: Global, table: &mut TypeTable, bytes: &[u8]) -> Result<Interface, Unread>
    requires table { IsTable table.old }
    ensures grown { Grown table.old table.new }
    ensures table { IsTable table.new }
    ensures is { Gives (λ x. face_of (types_in table.new) x) result (face_in bytes.now) }
    ensures within { IfOk result (λ x. IsInterfaceIn (count_of table.new) (types_in table.new) x) }
{
    let (interface, rest) = read_face(alloc, table, bytes)?;
    if !rest.is_empty() {
        return Err(Unread::Unspelled);
    }
    Ok(interface)
}

/// The interface that the bytes spell, all of the bytes; its types are in the table. None exactly where they spell none: a field
/// that is no number or text, a name that isn't UTF-8, a type or value of no kind, a type of more than 10,000 nodes, objects,
/// types or methods in another order or twice, or bytes behind the end.
pub fn read(
    alloc: Global,
    table: &mut TypeTable,
    bytes: &[u8],
) -> Result<Option<Interface>, NoMemory>
    requires table { IsTable table.old }
    ensures grown { Grown table.old table.new }
    ensures table { IsTable table.new }
    // What is read is spelled so.
    ensures found { IfOk result (λ o. IfSome o (λ i. IsFaceText (face_of (types_in table.new) i) bytes.now)) }
    // What is spelled so is read.
    ensures only { (f : Face) → IsFaceText f bytes.now → IfOk result (λ o. IsSomeAnd o (λ i. face_of (types_in table.new) i ≡ f)) }
    // Its numbers are those of types in the table.
    ensures within { IfOk result (λ o. IfSome o (λ i. IsInterfaceIn (count_of table.new) (types_in table.new) i)) }
{
    match whole(alloc, table, bytes) {
        Ok(interface) => Ok(Some(interface)),
        Err(Unread::Unspelled) => Ok(None),
        Err(Unread::Memory) => Err(NoMemory),
    }
}
