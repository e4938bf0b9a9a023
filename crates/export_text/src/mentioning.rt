//! The packages that an interface mentions.
ghost use Rattle.std.specs.Prelude.{◌≡◌, ◌<◌, ◌++◌, IfOk, OnOk, bytes_eq};
ghost use Rattle.std.specs.List.{dedup, flat_map};
ghost use Rattle.std.specs.List.Sorted.{IsPermutation, IsSorted};
ghost use Rattle.std.specs.Ordering.{nat_cmp};
ghost use Rattle.std.specs.Cmp.Lexicographic.{slice_cmp};
ghost use Rattle.type_model.specs.GoTypes.{AreBelow, type_at};
ghost use Rattle.type_model.specs.Tables.{IsTable, types_in, count};
ghost use Rattle.package_faces.specs.Interfaces.{IsInterfaceIn, face_of};
ghost use Rattle.export_text.specs.Mentions.{AreMentions, AreSorted, mention_in};
ghost use Rattle.export_text.specs.Reaching.{nothing_declared};
ghost use Rattle.export_text.specs.Searching.{AreReached};
ghost use Rattle.export_text.specs.MentionIds.{defined_ids, face_ids, form_ids, object_ids};

use crate::listing::defined_name;
use crate::reaching::{is_own, push, push_methods, reached};
use gv_base::{NoMemory, Text};
use package_faces::{ExportForm, Exported, ExportedType, Interface};
use std::alloc::Global;
use type_model::{TypeId, TypeTable};

/// The types in a form's text.
fn push_form(out: &mut Vec<TypeId>, form: &ExportForm) -> Result<(), NoMemory>
    ensures { OnOk result (out.new.items ≡ out.old.items ++ form_ids form.now) }
{
    match form {
        ExportForm::Constant(id, _) => {
            push(out, *id)?;
            Ok(())
        }
        ExportForm::Variable(id) => {
            push(out, *id)?;
            Ok(())
        }
        ExportForm::Function(id) => {
            push(out, *id)?;
            Ok(())
        }
        ExportForm::Own(_) => Ok(()),
        ExportForm::Alias(id) => {
            push(out, *id)?;
            Ok(())
        }
    }
}

fn push_objects(out: &mut Vec<TypeId>, objects: &[Exported]) -> Result<(), NoMemory>
    ensures { OnOk result (out.new.items ≡ out.old.items ++ flat_map object_ids objects.now) }
{
    for object in objects {
        push_form(out, &object.form)?;
    }
    Ok(())
}

/// The types in a defined type's text.
fn push_defined(out: &mut Vec<TypeId>, defined: &ExportedType) -> Result<(), NoMemory>
    ensures { OnOk result (out.new.items ≡ out.old.items ++ defined_ids defined.now) }
{
    push(out, defined.under)?;
    push_methods(out, defined.methods.as_slice())?;
    Ok(())
}

fn push_defineds(out: &mut Vec<TypeId>, types: &[ExportedType]) -> Result<(), NoMemory>
    ensures { OnOk result (out.new.items ≡ out.old.items ++ flat_map defined_ids types.now) }
{
    for defined in types {
        push_defined(out, defined)?;
    }
    Ok(())
}

/// The types in an interface's text.
fn spelled_ids(alloc: Global, interface: &Interface) -> Result<Vec<TypeId>, NoMemory>
    ensures { IfOk result (λ v. v.items ≡ face_ids interface.now) }
{
    let mut out = Vec::new(alloc);
    push_objects(&mut out, interface.objects.as_slice())?;
    push_defineds(&mut out, interface.types.as_slice())?;
    Ok(out)
}

/// The package of a defined type, unless it is this one or none.
fn push_mention(
    alloc: Global,
    out: &mut Vec<Text>,
    table: &TypeTable,
    path: &str,
    id: TypeId,
) -> Result<(), NoMemory>
    requires table { IsTable table.now }
    requires within { id.0 < count table.now }
    ensures { OnOk result (out.new.items ≡ out.old.items ++ mention_in path.now (type_at (types_in table.now) id)) }
{
    let Some(name) = defined_name(table, id) else {
        return Ok(());
    };
    if is_own(path, &name.package) {
        return Ok(());
    }
    if name.package.as_str().is_empty() {
        return Ok(());
    }
    let copy = name.package.copy(alloc)?;
    out.push(copy)?;
    Ok(())
}

/// The packages of defined types, as they come.
fn packages_of(
    alloc: Global,
    table: &TypeTable,
    path: &str,
    ids: &[TypeId],
) -> Result<Vec<Text>, NoMemory>
    requires table { IsTable table.now }
    requires within { AreBelow (count table.now) ids.now }
    ensures { IfOk result (λ v. v.items ≡ flat_map (λ id. mention_in path.now (type_at (types_in table.now) id)) ids.now) }
{
    let mut out = Vec::new(alloc);
    for id in ids {
        push_mention(alloc, &mut out, table, path, *id)?;
    }
    Ok(out)
}

fn sort(texts: &mut Vec<Text>)
    ensures moved { IsPermutation texts.old.items texts.new.items }
    ensures sorted { IsSorted (slice_cmp nat_cmp) texts.new.items }
{
    texts.sort_unstable_by(|a, b| a.as_str().as_bytes().cmp(b.as_str().as_bytes()));
}

fn drop_repeats(texts: &mut Vec<Text>)
    ensures { texts.new.items ≡ dedup bytes_eq texts.old.items }
{
    texts.dedup_by(|a, b| a.as_str().as_bytes() == b.as_str().as_bytes());
}

/// Texts in byte order, each once.
pub(crate) fn in_order(texts: Vec<Text>) -> Vec<Text>
    ensures { AreSorted texts.items result.items }
{
    let mut texts = texts;
    sort(&mut texts);
    drop_repeats(&mut texts);
    texts
}

/// The types that stand in an interface's text.
fn standing(
    alloc: Global,
    table: &TypeTable,
    interface: &Interface,
) -> Result<Vec<TypeId>, NoMemory>
    requires table { IsTable table.now }
    requires within { IsInterfaceIn (count table.now) (types_in table.now) interface.now }
    ensures { IfOk result (λ ids. AreReached table.now nothing_declared interface.now.path (face_ids interface.now) ids.items) }
{
    let start = spelled_ids(alloc, interface)?;
    let ids = reached(alloc, table, false, interface.path.as_str(), &start)?;
    Ok(ids)
}

fn mentioned(
    alloc: Global,
    table: &TypeTable,
    path: &Text,
    ids: &Vec<TypeId>,
) -> Result<Vec<Text>, NoMemory>
    requires table { IsTable table.now }
    requires within { AreBelow (count table.now) ids.now.items }
    ensures { IfOk result (λ v. v.items ≡ flat_map (λ id. mention_in path.now (type_at (types_in table.now) id)) ids.now.items) }
{
    let paths = packages_of(alloc, table, path.as_str(), ids)?;
    Ok(paths)
}

/// The packages of the defined types in an interface's text, in byte order, each once; without its own, and without the empty one of
/// predeclared types.
pub fn mentions(
    alloc: Global,
    table: &TypeTable,
    interface: &Interface,
) -> Result<Vec<Text>, NoMemory>
    requires table { IsTable table.now }
    requires within { IsInterfaceIn (count table.now) (types_in table.now) interface.now }
    ensures { IfOk result (λ paths. AreMentions (face_of (types_in table.now) interface.now) paths.items) }
{
    let ids = standing(alloc, table, interface)?;
    let paths = mentioned(alloc, table, &interface.path, &ids)?;
    Ok(in_order(paths))
}
