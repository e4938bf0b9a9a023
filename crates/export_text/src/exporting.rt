//! The export text of a package's exported objects over a table.
ghost use Rattle.std.specs.Prelude.{◌≡◌, List, ℕ, IfOk, IfSome, IsSomeAnd, IsTrue, length, map};
ghost use Rattle.type_model.specs.GoTypes.{AreBelow};
ghost use Rattle.type_model.specs.Tables.{IsTable, types_in, count, declarations_in};
ghost use Rattle.type_texts.specs.Answers.{Tells};
ghost use Rattle.package_faces.specs.Orders.{rises};
ghost use Rattle.package_faces.specs.Interfaces.{AreObjectsIn, IsInterfaceIn, face_of, id_of, object_in};
ghost use Rattle.export_text.specs.Gathering.{CanBeExported, IsGathered};
ghost use Rattle.export_text.specs.Listing.{AllCanBeListed, AreListed, type_stands};
ghost use Rattle.export_text.specs.Reaching.{IsExportText};
ghost use Rattle.export_text.specs.Searching.{AreReached, Once};

use crate::interface_writing::write;
use crate::listing::listing;
use crate::reaching::reached;
use gv_base::{NoMemory, Row, Text};
use gv_bytes::Unread;
use package_faces::{ExportForm, Exported, ExportedType, Interface};
use std::alloc::Global;
use type_model::{TypeId, TypeTable};

/// The type of a form.
fn type_of_form(form: &ExportForm) -> TypeId
    ensures { result ≡ id_of form.now }
{
    match form {
        ExportForm::Constant(id, _) => *id,
        ExportForm::Variable(id) => *id,
        ExportForm::Function(id) => *id,
        ExportForm::Own(id) => *id,
        ExportForm::Alias(id) => *id,
    }
}

/// The types of some objects.
fn object_ids(alloc: Global, objects: &[Exported]) -> Result<Vec<TypeId>, NoMemory>
    ensures { IfOk result (λ v. v.items ≡ map (λ o. id_of o.form) objects.now) }
{
    let mut ids = Vec::new(alloc);
    for object in objects {
        ids.push(type_of_form(&object.form))?;
    }
    Ok(ids)
}

/// The types that are reached from some objects.
fn reached_of(
    alloc: Global,
    table: &TypeTable,
    path: &Text,
    objects: &Row<Exported>,
) -> Result<Vec<TypeId>, NoMemory>
    requires table { IsTable table.now }
    requires within { AreObjectsIn path.now (count table.now) (types_in table.now) objects.now }
    ensures { IfOk result (λ ids. AreReached table.now (declarations_in table.now) path.now (map (λ o. id_of o.form) objects.now) ids.items) }
{
    let start = object_ids(alloc, objects.as_slice())?;
    let ids = reached(alloc, table, true, path.as_str(), &start)?;
    Ok(ids)
}

/// The package's own defined types among these.
fn listed_of(
    alloc: Global,
    table: &TypeTable,
    path: &Text,
    ids: &Vec<TypeId>,
) -> Result<Vec<ExportedType>, Unread>
    requires table { IsTable table.now }
    requires within { AreBelow (count table.now) ids.now.items }
    requires once { Once ids.now.items }
    ensures are { IfOk result (λ v. AreListed table.now path.now ids.now.items (length ids.now.items) v.items) }
    ensures rise { IfOk result (λ v. IsTrue (rises type_stands v.items)) }
    ensures tells { Tells (AllCanBeListed table.now path.now ids.now.items) result }
{
    let types = listing(alloc, table, path.as_str(), ids)?;
    Ok(types)
}

/// The interface of a package with these exported objects: they, and its own defined types that are reached, as they are declared.
/// Unspelled where one of these is local or isn't declared.
pub fn gather(
    alloc: Global,
    table: &TypeTable,
    path: Text,
    name: Text,
    objects: Row<Exported>,
) -> Result<Interface, Unread>
    requires table { IsTable table.now }
    requires within { AreObjectsIn path (count table.now) (types_in table.now) objects }
    ensures is { IfOk result (λ i. IsGathered (declarations_in table.now) path name (map (λ o. object_in (types_in table.now) o) objects) (face_of (types_in table.now) i)) }
    ensures within { IfOk result (λ i. IsInterfaceIn (count table.now) (types_in table.now) i) }
    ensures tells { Tells (CanBeExported (declarations_in table.now) path (map (λ o. object_in (types_in table.now) o) objects)) result }
{
    let ids = reached_of(alloc, table, &path, &objects)?;
    let types = listed_of(alloc, table, &path, &ids)?;
    Ok(Interface {
        path,
        name,
        objects,
        types: Row::new(types),
    })
}

/// The export text of a package with this path, this name and these exported objects: they stand in it, and exactly those defined
/// types of the package that are reached from them, each as the table has it declared. None exactly where it has none: objects in
/// another order or twice, a type of more than 10,000 nodes, one that mentions a local type, or a type of the package that isn't
/// declared.
pub fn export(
    alloc: Global,
    table: &TypeTable,
    path: Text,
    name: Text,
    objects: Row<Exported>,
) -> Result<Option<Vec<u8>>, NoMemory>
    requires table { IsTable table.now }
    requires within { AreObjectsIn path (count table.now) (types_in table.now) objects }
    ensures found { IfOk result (λ o. IfSome o (λ text. IsExportText (declarations_in table.now) path name (map (λ o. object_in (types_in table.now) o) objects) text.items)) }
    ensures only { (bytes : List ℕ) → IsExportText (declarations_in table.now) path name (map (λ o. object_in (types_in table.now) o) objects) bytes → IfOk result (λ o. IsSomeAnd o (λ text. text.items ≡ bytes)) }
{
    match gather(alloc, table, path, name, objects) {
        Ok(interface) => {
            let text = write(alloc, table, &interface)?;
            Ok(text)
        }
        Err(Unread::Unspelled) => Ok(None),
        Err(Unread::Memory) => Err(NoMemory),
    }
}
