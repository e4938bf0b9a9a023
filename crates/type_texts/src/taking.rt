//! Taking values off a stack. What isn't of the wanted sort is none.
ghost use Rattle.std.specs.Prelude.{◌≡◌, ◌<◌, ◌∷◌, [], IfOk, IfSome, MatchOption};
ghost use Rattle.gv_bytes.specs.Reading.{Gives};
ghost use Rattle.type_model.specs.GoTypes.{type_at, types_at, signature_of, fields_of, methods_of, AreBelow, SignatureBelow, FieldsBelow, MethodsBelow};
ghost use Rattle.type_model.specs.Tables.{types_in, count as count_of};
ghost use Rattle.type_texts.specs.Building.{type_off, list_off, tag_off, signature_off, field_off, method_off, types_off, fields_off, methods_off, lists_off};
ghost use Rattle.type_model.specs.Parts.{method_of};
ghost use Rattle.type_texts.specs.Values.{field_of, part_of, parts_in, IsBelow, Stand};

use crate::values::Value;
use gv_base::{Bytes, Row};
use gv_bytes::Unread;
use std::alloc::Global;
use type_model::{Field, Method, Signature, TypeId, TypeTable};

/// The last value.
fn pop(_table: &TypeTable, values: &mut Vec<Value>) -> Option<Value>
    requires stand { Stand (count_of _table.now) values.old.items }
    ensures is { MatchOption result (parts_in (types_in _table.now) values.old.items ≡ []) (λ v. parts_in (types_in _table.now) values.old.items ≡ part_of (types_in _table.now) v ∷ parts_in (types_in _table.now) values.new.items) }
    ensures below { IfSome result (λ v. IsBelow (count_of _table.now) v) }
    ensures stand { Stand (count_of _table.now) values.new.items }
{
    let Some(last) = values.pop() else {
        return None;
    };
    Some(last)
}

pub fn take_type(table: &TypeTable, values: &mut Vec<Value>) -> Result<TypeId, Unread>
    requires stand { Stand (count_of table.now) values.old.items }
    ensures is { Gives (λ id. (type_at (types_in table.now) id, parts_in (types_in table.now) values.new.items)) result (type_off (parts_in (types_in table.now) values.old.items)) }
    ensures below { IfOk result (λ id. id.0 < count_of table.now) }
    ensures stand { Stand (count_of table.now) values.new.items }
{
    let Some(value) = pop(table, values) else {
        return Err(Unread::Unspelled);
    };
    match value {
        Value::Type(id) => Ok(id),
        Value::List(_) => Err(Unread::Unspelled),
        Value::Field(_) => Err(Unread::Unspelled),
        Value::Tag(_) => Err(Unread::Unspelled),
        Value::Method(_) => Err(Unread::Unspelled),
        Value::Signature(_) => Err(Unread::Unspelled),
    }
}

pub fn take_list(table: &TypeTable, values: &mut Vec<Value>) -> Result<Row<TypeId>, Unread>
    requires stand { Stand (count_of table.now) values.old.items }
    ensures is { Gives (λ ids. (types_at (types_in table.now) ids, parts_in (types_in table.now) values.new.items)) result (list_off (parts_in (types_in table.now) values.old.items)) }
    ensures below { IfOk result (λ ids. AreBelow (count_of table.now) ids) }
    ensures stand { Stand (count_of table.now) values.new.items }
{
    let Some(value) = pop(table, values) else {
        return Err(Unread::Unspelled);
    };
    match value {
        Value::Type(_) => Err(Unread::Unspelled),
        Value::List(ids) => Ok(ids),
        Value::Field(_) => Err(Unread::Unspelled),
        Value::Tag(_) => Err(Unread::Unspelled),
        Value::Method(_) => Err(Unread::Unspelled),
        Value::Signature(_) => Err(Unread::Unspelled),
    }
}

pub fn take_tag(table: &TypeTable, values: &mut Vec<Value>) -> Result<Bytes, Unread>
    requires stand { Stand (count_of table.now) values.old.items }
    ensures is { Gives (λ tag. (tag, parts_in (types_in table.now) values.new.items)) result (tag_off (parts_in (types_in table.now) values.old.items)) }
    ensures stand { Stand (count_of table.now) values.new.items }
{
    let Some(value) = pop(table, values) else {
        return Err(Unread::Unspelled);
    };
    match value {
        Value::Type(_) => Err(Unread::Unspelled),
        Value::List(_) => Err(Unread::Unspelled),
        Value::Field(_) => Err(Unread::Unspelled),
        Value::Tag(tag) => Ok(tag),
        Value::Method(_) => Err(Unread::Unspelled),
        Value::Signature(_) => Err(Unread::Unspelled),
    }
}

pub fn take_signature(table: &TypeTable, values: &mut Vec<Value>) -> Result<Signature, Unread>
    requires stand { Stand (count_of table.now) values.old.items }
    ensures is { Gives (λ s. (signature_of (types_in table.now) s, parts_in (types_in table.now) values.new.items)) result (signature_off (parts_in (types_in table.now) values.old.items)) }
    ensures below { IfOk result (λ s. SignatureBelow (count_of table.now) s) }
    ensures stand { Stand (count_of table.now) values.new.items }
{
    let Some(value) = pop(table, values) else {
        return Err(Unread::Unspelled);
    };
    match value {
        Value::Type(_) => Err(Unread::Unspelled),
        Value::List(_) => Err(Unread::Unspelled),
        Value::Field(_) => Err(Unread::Unspelled),
        Value::Tag(_) => Err(Unread::Unspelled),
        Value::Method(_) => Err(Unread::Unspelled),
        Value::Signature(s) => Ok(s),
    }
}

fn take_field(table: &TypeTable, values: &mut Vec<Value>) -> Result<Field, Unread>
    requires stand { Stand (count_of table.now) values.old.items }
    ensures is { Gives (λ f. (field_of (types_in table.now) f, parts_in (types_in table.now) values.new.items)) result (field_off (parts_in (types_in table.now) values.old.items)) }
    ensures below { IfOk result (λ f. f.of.0 < count_of table.now) }
    ensures stand { Stand (count_of table.now) values.new.items }
{
    let Some(value) = pop(table, values) else {
        return Err(Unread::Unspelled);
    };
    match value {
        Value::Type(_) => Err(Unread::Unspelled),
        Value::List(_) => Err(Unread::Unspelled),
        Value::Field(f) => Ok(f),
        Value::Tag(_) => Err(Unread::Unspelled),
        Value::Method(_) => Err(Unread::Unspelled),
        Value::Signature(_) => Err(Unread::Unspelled),
    }
}

fn take_method(table: &TypeTable, values: &mut Vec<Value>) -> Result<Method, Unread>
    requires stand { Stand (count_of table.now) values.old.items }
    ensures is { Gives (λ m. (method_of (types_in table.now) m, parts_in (types_in table.now) values.new.items)) result (method_off (parts_in (types_in table.now) values.old.items)) }
    ensures below { IfOk result (λ m. SignatureBelow (count_of table.now) m.of) }
    ensures stand { Stand (count_of table.now) values.new.items }
{
    let Some(value) = pop(table, values) else {
        return Err(Unread::Unspelled);
    };
    match value {
        Value::Type(_) => Err(Unread::Unspelled),
        Value::List(_) => Err(Unread::Unspelled),
        Value::Field(_) => Err(Unread::Unspelled),
        Value::Tag(_) => Err(Unread::Unspelled),
        Value::Method(m) => Ok(m),
        Value::Signature(_) => Err(Unread::Unspelled),
    }
}

/// So many types.
pub fn take_types(
    alloc: Global,
    table: &TypeTable,
    values: &mut Vec<Value>,
    count: u64,
) -> Result<Vec<TypeId>, Unread>
    requires stand { Stand (count_of table.now) values.old.items }
    ensures is { Gives (λ ids. (types_at (types_in table.now) ids.items, parts_in (types_in table.now) values.new.items)) result (types_off count (parts_in (types_in table.now) values.old.items)) }
    ensures below { IfOk result (λ ids. AreBelow (count_of table.now) ids.items) }
    ensures stand { Stand (count_of table.now) values.new.items }
{
    let mut ids = Vec::new(alloc);
    for _ in 0..count {
        let id = take_type(table, values)?;
        ids.push(id)?;
    }
    Ok(ids)
}

/// So many fields.
pub fn take_fields(
    alloc: Global,
    table: &TypeTable,
    values: &mut Vec<Value>,
    count: u64,
) -> Result<Vec<Field>, Unread>
    requires stand { Stand (count_of table.now) values.old.items }
    ensures is { Gives (λ fields. (fields_of (types_in table.now) fields.items, parts_in (types_in table.now) values.new.items)) result (fields_off count (parts_in (types_in table.now) values.old.items)) }
    ensures below { IfOk result (λ fields. FieldsBelow (count_of table.now) fields.items) }
    ensures stand { Stand (count_of table.now) values.new.items }
{
    let mut fields = Vec::new(alloc);
    for _ in 0..count {
        let field = take_field(table, values)?;
        fields.push(field)?;
    }
    Ok(fields)
}

/// So many methods.
pub fn take_methods(
    alloc: Global,
    table: &TypeTable,
    values: &mut Vec<Value>,
    count: u64,
) -> Result<Vec<Method>, Unread>
    requires stand { Stand (count_of table.now) values.old.items }
    ensures is { Gives (λ methods. (methods_of (types_in table.now) methods.items, parts_in (types_in table.now) values.new.items)) result (methods_off count (parts_in (types_in table.now) values.old.items)) }
    ensures below { IfOk result (λ methods. MethodsBelow (count_of table.now) methods.items) }
    ensures stand { Stand (count_of table.now) values.new.items }
{
    let mut methods = Vec::new(alloc);
    for _ in 0..count {
        let method = take_method(table, values)?;
        methods.push(method)?;
    }
    Ok(methods)
}

/// The parameters and the results of a signature.
pub fn take_lists(
    table: &TypeTable,
    values: &mut Vec<Value>,
    variadic: bool,
) -> Result<Signature, Unread>
    requires stand { Stand (count_of table.now) values.old.items }
    ensures is { Gives (λ s. (signature_of (types_in table.now) s, parts_in (types_in table.now) values.new.items)) result (lists_off variadic (parts_in (types_in table.now) values.old.items)) }
    ensures below { IfOk result (λ s. SignatureBelow (count_of table.now) s) }
    ensures stand { Stand (count_of table.now) values.new.items }
{
    let params = take_list(table, values)?;
    let results = take_list(table, values)?;
    Ok(Signature {
        params,
        results,
        variadic,
    })
}
