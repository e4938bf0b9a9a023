//! Writing an interface over the types of a table. What can't be spelled is none.
ghost use Rattle.std.specs.Prelude.{◌≡◌, ◌<◌, ◌++◌, ◌∷◌, IfOk, IfSome, IsSomeAnd, IsTrue, OnOk, map};
ghost use Rattle.gv_bytes.specs.Spelling.{items, AreItems};
ghost use Rattle.type_model.specs.GoTypes.{type_at, MethodsBelow, SignatureBelow};
ghost use Rattle.type_model.specs.Parts.{method_of};
ghost use Rattle.type_model.specs.Tables.{IsTable, types_in, count};
ghost use Rattle.type_texts.specs.Answers.{Tells};
ghost use Rattle.package_faces.specs.Orders.{rises, method_before, object_before, defined_before};
ghost use Rattle.type_texts.specs.Fields.{value, IsConst};
ghost use Rattle.type_texts.specs.Texts.{type_text, IsType};
ghost use Rattle.export_text.specs.Faces.{form_text, object_text, method_text, defined_text, face_text, IsForm, IsObjectOut, IsMethodOut, IsDefinedOut, IsFace, IsFaceText};
ghost use Rattle.package_faces.specs.Interfaces.{form_in, object_in, defined_in, face_of, id_of, IsDefinedIn, AreObjectsIn, AreDefinedIn, IsInterfaceIn};

use crate::rising::{defineds_rise, methods_rise, objects_rise};
use gv_base::{Const, NoMemory};
use gv_bytes::{Unread, put_num, put_text};
use package_faces::{ExportForm, Exported, ExportedType, Interface};
use std::alloc::Global;
use type_model::{Method, TypeId, TypeTable};
use type_texts::{put_function, put_name, put_truth, put_type};

#[tactic(auto, unfolding(type_texts::specs::Fields::value))]
fn put_value(out: &mut Vec<u8>, c: &Const) -> Result<(), NoMemory>
    ensures written { OnOk result (out.new.items ≡ out.old.items ++ value c.now) }
    ensures size { OnOk result (IsConst c.now) }
{
    match c {
        Const::Truth(truth) => {
            out.push(b'q')?;
            put_truth(out, *truth)?;
            Ok(())
        }
        Const::Int(n) => {
            out.push(b'n')?;
            put_num(out, *n)?;
            Ok(())
        }
        Const::Text(text) => {
            out.push(b'x')?;
            put_text(out, text.bytes())?;
            Ok(())
        }
    }
}

/// A mark, and a type.
fn put_marked(
    alloc: Global,
    out: &mut Vec<u8>,
    table: &TypeTable,
    mark: u8,
    id: TypeId,
) -> Result<(), Unread>
    requires table { IsTable table.now }
    requires within { id.0 < count table.now }
    ensures written { OnOk result (out.new.items ≡ out.old.items ++ (mark ∷ type_text (type_at (types_in table.now) id))) }
    ensures fits { Tells (IsType (type_at (types_in table.now) id)) result }
{
    out.push(mark)?;
    put_type(alloc, out, table, id)?;
    Ok(())
}

fn put_constant(
    alloc: Global,
    out: &mut Vec<u8>,
    table: &TypeTable,
    id: TypeId,
    c: &Const,
) -> Result<(), Unread>
    requires table { IsTable table.now }
    requires within { id.0 < count table.now }
    ensures written { OnOk result (out.new.items ≡ out.old.items ++ (107 ∷ (type_text (type_at (types_in table.now) id) ++ value c.now))) }
    ensures fits { Tells (IsType (type_at (types_in table.now) id) × IsConst c.now) result }
{
    put_marked(alloc, out, table, b'k', id)?;
    put_value(out, c)?;
    Ok(())
}

fn put_form(
    alloc: Global,
    out: &mut Vec<u8>,
    table: &TypeTable,
    form: &ExportForm,
) -> Result<(), Unread>
    requires table { IsTable table.now }
    requires within { (id_of form.now).0 < count table.now }
    ensures written { OnOk result (out.new.items ≡ out.old.items ++ form_text (form_in (types_in table.now) form.now)) }
    ensures fits { Tells (IsForm (form_in (types_in table.now) form.now)) result }
{
    match form {
        ExportForm::Constant(id, c) => {
            put_constant(alloc, out, table, *id, c)?;
            Ok(())
        }
        ExportForm::Variable(id) => {
            put_marked(alloc, out, table, b'v', *id)?;
            Ok(())
        }
        ExportForm::Function(id) => {
            put_marked(alloc, out, table, b'f', *id)?;
            Ok(())
        }
        ExportForm::Own(_) => {
            out.push(b't')?;
            Ok(())
        }
        ExportForm::Alias(id) => {
            put_marked(alloc, out, table, b'a', *id)?;
            Ok(())
        }
    }
}

fn put_object(
    alloc: Global,
    out: &mut Vec<u8>,
    table: &TypeTable,
    object: &Exported,
) -> Result<(), Unread>
    requires table { IsTable table.now }
    requires within { (id_of object.now.form).0 < count table.now }
    ensures written { OnOk result (out.new.items ≡ out.old.items ++ object_text (object_in (types_in table.now) object.now)) }
    ensures fits { Tells (IsObjectOut (object_in (types_in table.now) object.now)) result }
{
    put_name(out, &object.name)?;
    put_form(alloc, out, table, &object.form)?;
    Ok(())
}

/// The count of the objects, and each of them.
fn put_objects(
    alloc: Global,
    out: &mut Vec<u8>,
    table: &TypeTable,
    _path: &str,
    objects: &[Exported],
) -> Result<(), Unread>
    requires table { IsTable table.now }
    requires within { AreObjectsIn _path.now (count table.now) (types_in table.now) objects.now }
    ensures written { OnOk result (out.new.items ≡ out.old.items ++ items object_text (map (λ o. object_in (types_in table.now) o) objects.now)) }
    ensures fits { Tells (AreItems IsObjectOut (map (λ o. object_in (types_in table.now) o) objects.now)) result }
{
    put_num(out, objects.len() as i128)?;
    for object in objects {
        put_object(alloc, out, table, object)?;
    }
    Ok(())
}

fn put_method(
    alloc: Global,
    out: &mut Vec<u8>,
    table: &TypeTable,
    method: &Method,
) -> Result<(), Unread>
    requires table { IsTable table.now }
    requires within { SignatureBelow (count table.now) method.now.of }
    ensures written { OnOk result (out.new.items ≡ out.old.items ++ method_text (method_of (types_in table.now) method.now)) }
    ensures fits { Tells (IsMethodOut (method_of (types_in table.now) method.now)) result }
{
    put_name(out, &method.name)?;
    put_name(out, &method.package)?;
    put_truth(out, method.pointer)?;
    put_function(alloc, out, table, &method.of)?;
    Ok(())
}

/// The count of the methods, and each of them.
fn put_methods(
    alloc: Global,
    out: &mut Vec<u8>,
    table: &TypeTable,
    methods: &[Method],
) -> Result<(), Unread>
    requires table { IsTable table.now }
    requires within { MethodsBelow (count table.now) methods.now }
    ensures written { OnOk result (out.new.items ≡ out.old.items ++ items method_text (map (λ m. method_of (types_in table.now) m) methods.now)) }
    ensures fits { Tells (AreItems IsMethodOut (map (λ m. method_of (types_in table.now) m) methods.now)) result }
{
    put_num(out, methods.len() as i128)?;
    for method in methods {
        put_method(alloc, out, table, method)?;
    }
    Ok(())
}

/// Methods in order.
fn put_ordered_methods(
    alloc: Global,
    out: &mut Vec<u8>,
    table: &TypeTable,
    methods: &[Method],
) -> Result<(), Unread>
    requires table { IsTable table.now }
    requires within { MethodsBelow (count table.now) methods.now }
    ensures written { OnOk result (out.new.items ≡ out.old.items ++ items method_text (map (λ m. method_of (types_in table.now) m) methods.now)) }
    ensures fits { Tells (AreItems IsMethodOut (map (λ m. method_of (types_in table.now) m) methods.now) × IsTrue (rises method_before (map (λ m. method_of (types_in table.now) m) methods.now))) result }
{
    if !methods_rise(table, methods) {
        return Err(Unread::Unspelled);
    }
    put_methods(alloc, out, table, methods)?;
    Ok(())
}

fn put_defined(
    alloc: Global,
    out: &mut Vec<u8>,
    table: &TypeTable,
    defined: &ExportedType,
) -> Result<(), Unread>
    requires table { IsTable table.now }
    requires within { IsDefinedIn (count table.now) defined.now }
    ensures written { OnOk result (out.new.items ≡ out.old.items ++ defined_text (defined_in (types_in table.now) defined.now)) }
    ensures fits { Tells (IsDefinedOut (defined_in (types_in table.now) defined.now)) result }
{
    put_name(out, &defined.name)?;
    put_type(alloc, out, table, defined.under)?;
    put_ordered_methods(alloc, out, table, defined.methods.as_slice())?;
    Ok(())
}

/// The count of the defined types, and each of them.
fn put_defineds(
    alloc: Global,
    out: &mut Vec<u8>,
    table: &TypeTable,
    types: &[ExportedType],
) -> Result<(), Unread>
    requires table { IsTable table.now }
    requires within { AreDefinedIn (count table.now) types.now }
    ensures written { OnOk result (out.new.items ≡ out.old.items ++ items defined_text (map (λ d. defined_in (types_in table.now) d) types.now)) }
    ensures fits { Tells (AreItems IsDefinedOut (map (λ d. defined_in (types_in table.now) d) types.now)) result }
{
    put_num(out, types.len() as i128)?;
    for defined in types {
        put_defined(alloc, out, table, defined)?;
    }
    Ok(())
}

/// Objects in order.
fn put_ordered_objects(
    alloc: Global,
    out: &mut Vec<u8>,
    table: &TypeTable,
    path: &str,
    objects: &[Exported],
) -> Result<(), Unread>
    requires table { IsTable table.now }
    requires within { AreObjectsIn path.now (count table.now) (types_in table.now) objects.now }
    ensures written { OnOk result (out.new.items ≡ out.old.items ++ items object_text (map (λ o. object_in (types_in table.now) o) objects.now)) }
    ensures fits { Tells (AreItems IsObjectOut (map (λ o. object_in (types_in table.now) o) objects.now) × IsTrue (rises object_before (map (λ o. object_in (types_in table.now) o) objects.now))) result }
{
    if !objects_rise(table, objects) {
        return Err(Unread::Unspelled);
    }
    put_objects(alloc, out, table, path, objects)?;
    Ok(())
}

/// Defined types in order.
fn put_ordered_defineds(
    alloc: Global,
    out: &mut Vec<u8>,
    table: &TypeTable,
    types: &[ExportedType],
) -> Result<(), Unread>
    requires table { IsTable table.now }
    requires within { AreDefinedIn (count table.now) types.now }
    ensures written { OnOk result (out.new.items ≡ out.old.items ++ items defined_text (map (λ d. defined_in (types_in table.now) d) types.now)) }
    ensures fits { Tells (AreItems IsDefinedOut (map (λ d. defined_in (types_in table.now) d) types.now) × IsTrue (rises defined_before (map (λ d. defined_in (types_in table.now) d) types.now))) result }
{
    if !defineds_rise(table, types) {
        return Err(Unread::Unspelled);
    }
    put_defineds(alloc, out, table, types)?;
    Ok(())
}

fn put_face(
    alloc: Global,
    out: &mut Vec<u8>,
    table: &TypeTable,
    interface: &Interface,
) -> Result<(), Unread>
    requires table { IsTable table.now }
    requires within { IsInterfaceIn (count table.now) (types_in table.now) interface.now }
    ensures written { OnOk result (out.new.items ≡ out.old.items ++ face_text (face_of (types_in table.now) interface.now)) }
    ensures fits { Tells (IsFace (face_of (types_in table.now) interface.now)) result }
{
    put_name(out, &interface.path)?;
    put_name(out, &interface.name)?;
    put_ordered_objects(
        alloc,
        out,
        table,
        interface.path.as_str(),
        interface.objects.as_slice(),
    )?;
    put_ordered_defineds(alloc, out, table, interface.types.as_slice())?;
    Ok(())
}

fn face_bytes(alloc: Global, table: &TypeTable, interface: &Interface) -> Result<Vec<u8>, Unread>
    requires table { IsTable table.now }
    requires within { IsInterfaceIn (count table.now) (types_in table.now) interface.now }
    ensures written { IfOk result (λ out. out.items ≡ face_text (face_of (types_in table.now) interface.now)) }
    ensures fits { Tells (IsFace (face_of (types_in table.now) interface.now)) result }
{
    let mut out = Vec::new(alloc);
    put_face(alloc, &mut out, table, interface)?;
    Ok(out)
}

/// The text of an interface over the types of a table. None exactly where it has none: objects, types or methods in another order or
/// twice, a type of more than 10,000 nodes, or one that mentions a local type.
pub fn write(
    alloc: Global,
    table: &TypeTable,
    interface: &Interface,
) -> Result<Option<Vec<u8>>, NoMemory>
    requires table { IsTable table.now }
    requires within { IsInterfaceIn (count table.now) (types_in table.now) interface.now }
    ensures written { IfOk result (λ o. IfSome o (λ text. IsFaceText (face_of (types_in table.now) interface.now) text.items)) }
    ensures only { IsFace (face_of (types_in table.now) interface.now) → IfOk result (λ o. IsSomeAnd o (λ text. text.items ≡ face_text (face_of (types_in table.now) interface.now))) }
{
    match face_bytes(alloc, table, interface) {
        Ok(text) => Ok(Some(text)),
        Err(Unread::Unspelled) => Ok(None),
        Err(Unread::Memory) => Err(NoMemory),
    }
}
