//! A piece over the values behind it. Types go into the table.
#![tactic(auto, using(crate::proofs::GrowLaws::grown_itself))]

ghost use Rattle.std.specs.Prelude.{◌≡◌, ◌∷◌, OnOk};
ghost use Rattle.gv_bytes.specs.Reading.{Gives};
ghost use Rattle.type_model.specs.GoTypes.{type_of, methods_of, IsOver, MethodsBelow};
ghost use Rattle.type_model.specs.Orders.{IsOrdered};
ghost use Rattle.type_model.specs.Tables.{IsTable, Grown, types_in, count as count_of};
ghost use Rattle.type_texts.specs.declared.pieces.Piece.TheVariants as piece;
ghost use Rattle.type_texts.specs.Building.{interface_over, placed, type_over};
ghost use Rattle.type_texts.specs.Values.{parts_in, IsBelow, part_of, Stand};

use crate::ordering::are_in_order;
use crate::pieces::Piece;
use crate::taking::{
    take_fields, take_lists, take_methods, take_signature, take_tag, take_type, take_types,
};
use crate::values::Value;
use gv_base::{Bytes, NoMemory, Row, Text};
use gv_bytes::Unread;
use std::alloc::Global;
use type_model::{Added, Dir, Field, Method, Term, TypeTable};

#[tactic(auto, using(crate::proofs::GrowLaws::grown_itself, crate::proofs::ValueLaws::last_first, crate::proofs::ValueLaws::stand_push))]
fn push_value(table: &TypeTable, values: &mut Vec<Value>, value: Value) -> Result<(), NoMemory>
    requires stand { Stand (count_of table.now) values.old.items }
    requires below { IsBelow (count_of table.now) value }
    ensures is { OnOk result (parts_in (types_in table.now) values.new.items ≡ part_of (types_in table.now) value ∷ parts_in (types_in table.now) values.old.items) }
    ensures stand { OnOk result (Stand (count_of table.now) values.new.items) }
{
    values.push(value)?;
    Ok(())
}

/// The term's type comes over the values. None is wider than 10,000 nodes.
#[tactic(auto, using(crate::proofs::GrowLaws::grown_itself, crate::proofs::GrowLaws::grown_table))]
fn push_type(table: &mut TypeTable, values: &mut Vec<Value>, term: Term) -> Result<(), Unread>
    requires table { IsTable table.old }
    requires over { IsOver (count_of table.old) term }
    requires ordered { IsOrdered term }
    requires stand { Stand (count_of table.old) values.old.items }
    ensures grown { Grown table.old table.new }
    ensures table { IsTable table.new }
    ensures is { Gives (λ _. parts_in (types_in table.new) values.new.items) result (type_over (type_of (types_in table.old) term) (parts_in (types_in table.old) values.old.items)) }
    ensures stand { OnOk result (Stand (count_of table.new) values.new.items) }
{
    let added = table.add(term)?;
    match added {
        Added::Id(id) => {
            values.push(Value::Type(id))?;
            Ok(())
        }
        Added::TooWide => Err(Unread::Unspelled),
    }
}

fn place_pointer(table: &mut TypeTable, values: &mut Vec<Value>) -> Result<(), Unread>
    requires table { IsTable table.old }
    requires stand { Stand (count_of table.old) values.old.items }
    ensures grown { Grown table.old table.new }
    ensures table { IsTable table.new }
    ensures is { Gives (λ _. parts_in (types_in table.new) values.new.items) result (placed piece.Pointer (parts_in (types_in table.old) values.old.items)) }
    ensures stand { OnOk result (Stand (count_of table.new) values.new.items) }
{
    let of = take_type(table, values)?;
    push_type(table, values, Term::Pointer(of))?;
    Ok(())
}

fn place_slice(table: &mut TypeTable, values: &mut Vec<Value>) -> Result<(), Unread>
    requires table { IsTable table.old }
    requires stand { Stand (count_of table.old) values.old.items }
    ensures grown { Grown table.old table.new }
    ensures table { IsTable table.new }
    ensures is { Gives (λ _. parts_in (types_in table.new) values.new.items) result (placed piece.Slice (parts_in (types_in table.old) values.old.items)) }
    ensures stand { OnOk result (Stand (count_of table.new) values.new.items) }
{
    let of = take_type(table, values)?;
    push_type(table, values, Term::Slice(of))?;
    Ok(())
}

fn place_array(table: &mut TypeTable, values: &mut Vec<Value>, size: u64) -> Result<(), Unread>
    requires table { IsTable table.old }
    requires stand { Stand (count_of table.old) values.old.items }
    ensures grown { Grown table.old table.new }
    ensures table { IsTable table.new }
    ensures is { Gives (λ _. parts_in (types_in table.new) values.new.items) result (placed (piece.Array size) (parts_in (types_in table.old) values.old.items)) }
    ensures stand { OnOk result (Stand (count_of table.new) values.new.items) }
{
    let of = take_type(table, values)?;
    push_type(table, values, Term::Array(size, of))?;
    Ok(())
}

fn place_map(table: &mut TypeTable, values: &mut Vec<Value>) -> Result<(), Unread>
    requires table { IsTable table.old }
    requires stand { Stand (count_of table.old) values.old.items }
    ensures grown { Grown table.old table.new }
    ensures table { IsTable table.new }
    ensures is { Gives (λ _. parts_in (types_in table.new) values.new.items) result (placed piece.Map (parts_in (types_in table.old) values.old.items)) }
    ensures stand { OnOk result (Stand (count_of table.new) values.new.items) }
{
    let key = take_type(table, values)?;
    let of = take_type(table, values)?;
    push_type(table, values, Term::Map(key, of))?;
    Ok(())
}

fn place_chan(table: &mut TypeTable, values: &mut Vec<Value>, direction: Dir) -> Result<(), Unread>
    requires table { IsTable table.old }
    requires stand { Stand (count_of table.old) values.old.items }
    ensures grown { Grown table.old table.new }
    ensures table { IsTable table.new }
    ensures is { Gives (λ _. parts_in (types_in table.new) values.new.items) result (placed (piece.Chan direction) (parts_in (types_in table.old) values.old.items)) }
    ensures stand { OnOk result (Stand (count_of table.new) values.new.items) }
{
    let of = take_type(table, values)?;
    push_type(table, values, Term::Chan(direction, of))?;
    Ok(())
}

fn place_func(table: &mut TypeTable, values: &mut Vec<Value>, variadic: bool) -> Result<(), Unread>
    requires table { IsTable table.old }
    requires stand { Stand (count_of table.old) values.old.items }
    ensures grown { Grown table.old table.new }
    ensures table { IsTable table.new }
    ensures is { Gives (λ _. parts_in (types_in table.new) values.new.items) result (placed (piece.Func variadic) (parts_in (types_in table.old) values.old.items)) }
    ensures stand { OnOk result (Stand (count_of table.new) values.new.items) }
{
    let of = take_lists(table, values, variadic)?;
    push_type(table, values, Term::Func(of))?;
    Ok(())
}

fn place_list(
    alloc: Global,
    table: &mut TypeTable,
    values: &mut Vec<Value>,
    count: u64,
) -> Result<(), Unread>
    requires table { IsTable table.old }
    requires stand { Stand (count_of table.old) values.old.items }
    ensures grown { Grown table.old table.new }
    ensures table { IsTable table.new }
    ensures is { Gives (λ _. parts_in (types_in table.new) values.new.items) result (placed (piece.List count) (parts_in (types_in table.old) values.old.items)) }
    ensures stand { OnOk result (Stand (count_of table.new) values.new.items) }
{
    let ids = take_types(alloc, table, values, count)?;
    push_value(table, values, Value::List(Row::new(ids)))?;
    Ok(())
}

fn place_struct(
    alloc: Global,
    table: &mut TypeTable,
    values: &mut Vec<Value>,
    count: u64,
) -> Result<(), Unread>
    requires table { IsTable table.old }
    requires stand { Stand (count_of table.old) values.old.items }
    ensures grown { Grown table.old table.new }
    ensures table { IsTable table.new }
    ensures is { Gives (λ _. parts_in (types_in table.new) values.new.items) result (placed (piece.Struct count) (parts_in (types_in table.old) values.old.items)) }
    ensures stand { OnOk result (Stand (count_of table.new) values.new.items) }
{
    let fields = take_fields(alloc, table, values, count)?;
    push_type(table, values, Term::Struct(Row::new(fields)))?;
    Ok(())
}

fn place_field(
    table: &mut TypeTable,
    values: &mut Vec<Value>,
    name: Text,
    package: Text,
    embedded: bool,
) -> Result<(), Unread>
    requires table { IsTable table.old }
    requires stand { Stand (count_of table.old) values.old.items }
    ensures grown { Grown table.old table.new }
    ensures table { IsTable table.new }
    ensures is { Gives (λ _. parts_in (types_in table.new) values.new.items) result (placed (piece.Field name «package» embedded) (parts_in (types_in table.old) values.old.items)) }
    ensures stand { OnOk result (Stand (count_of table.new) values.new.items) }
{
    let of = take_type(table, values)?;
    let tag = take_tag(table, values)?;
    let field = Field {
        name,
        package,
        embedded,
        of,
        tag,
    };
    push_value(table, values, Value::Field(field))?;
    Ok(())
}

fn place_tag(table: &mut TypeTable, values: &mut Vec<Value>, tag: Bytes) -> Result<(), Unread>
    requires table { IsTable table.old }
    requires stand { Stand (count_of table.old) values.old.items }
    ensures grown { Grown table.old table.new }
    ensures table { IsTable table.new }
    ensures is { Gives (λ _. parts_in (types_in table.new) values.new.items) result (placed (piece.Tag tag) (parts_in (types_in table.old) values.old.items)) }
    ensures stand { OnOk result (Stand (count_of table.new) values.new.items) }
{
    push_value(table, values, Value::Tag(tag))?;
    Ok(())
}

/// The interface of methods in order comes over the values.
fn push_interface(
    table: &mut TypeTable,
    values: &mut Vec<Value>,
    methods: Vec<Method>,
) -> Result<(), Unread>
    requires table { IsTable table.old }
    requires below { MethodsBelow (count_of table.old) methods.items }
    requires stand { Stand (count_of table.old) values.old.items }
    ensures grown { Grown table.old table.new }
    ensures table { IsTable table.new }
    ensures is { Gives (λ _. parts_in (types_in table.new) values.new.items) result (interface_over (methods_of (types_in table.old) methods.items) (parts_in (types_in table.old) values.old.items)) }
    ensures stand { OnOk result (Stand (count_of table.new) values.new.items) }
{
    if !are_in_order(table, &methods) {
        return Err(Unread::Unspelled);
    }
    push_type(table, values, Term::Interface(Row::new(methods)))?;
    Ok(())
}

fn place_interface(
    alloc: Global,
    table: &mut TypeTable,
    values: &mut Vec<Value>,
    count: u64,
) -> Result<(), Unread>
    requires table { IsTable table.old }
    requires stand { Stand (count_of table.old) values.old.items }
    ensures grown { Grown table.old table.new }
    ensures table { IsTable table.new }
    ensures is { Gives (λ _. parts_in (types_in table.new) values.new.items) result (placed (piece.Interface count) (parts_in (types_in table.old) values.old.items)) }
    ensures stand { OnOk result (Stand (count_of table.new) values.new.items) }
{
    let methods = take_methods(alloc, table, values, count)?;
    push_interface(table, values, methods)?;
    Ok(())
}

fn place_method(
    table: &mut TypeTable,
    values: &mut Vec<Value>,
    name: Text,
    package: Text,
    pointer: bool,
) -> Result<(), Unread>
    requires table { IsTable table.old }
    requires stand { Stand (count_of table.old) values.old.items }
    ensures grown { Grown table.old table.new }
    ensures table { IsTable table.new }
    ensures is { Gives (λ _. parts_in (types_in table.new) values.new.items) result (placed (piece.Method name «package» pointer) (parts_in (types_in table.old) values.old.items)) }
    ensures stand { OnOk result (Stand (count_of table.new) values.new.items) }
{
    let of = take_signature(table, values)?;
    let method = Method {
        name,
        package,
        pointer,
        of,
    };
    push_value(table, values, Value::Method(method))?;
    Ok(())
}

fn place_signature(
    table: &mut TypeTable,
    values: &mut Vec<Value>,
    variadic: bool,
) -> Result<(), Unread>
    requires table { IsTable table.old }
    requires stand { Stand (count_of table.old) values.old.items }
    ensures grown { Grown table.old table.new }
    ensures table { IsTable table.new }
    ensures is { Gives (λ _. parts_in (types_in table.new) values.new.items) result (placed (piece.Signature variadic) (parts_in (types_in table.old) values.old.items)) }
    ensures stand { OnOk result (Stand (count_of table.new) values.new.items) }
{
    let of = take_lists(table, values, variadic)?;
    push_value(table, values, Value::Signature(of))?;
    Ok(())
}

/// A piece over the values behind it.
pub fn place(
    alloc: Global,
    table: &mut TypeTable,
    values: &mut Vec<Value>,
    next: Piece,
) -> Result<(), Unread>
    requires table { IsTable table.old }
    requires stand { Stand (count_of table.old) values.old.items }
    ensures grown { Grown table.old table.new }
    ensures table { IsTable table.new }
    ensures is { Gives (λ _. parts_in (types_in table.new) values.new.items) result (placed next (parts_in (types_in table.old) values.old.items)) }
    ensures stand { OnOk result (Stand (count_of table.new) values.new.items) }
{
    match next {
        Piece::Basic(kind) => {
            push_type(table, values, Term::Basic(kind))?;
            Ok(())
        }
        Piece::Defined(name) => {
            push_type(table, values, Term::Defined(name))?;
            Ok(())
        }
        Piece::Pointer => {
            place_pointer(table, values)?;
            Ok(())
        }
        Piece::Slice => {
            place_slice(table, values)?;
            Ok(())
        }
        Piece::Array(size) => {
            place_array(table, values, size)?;
            Ok(())
        }
        Piece::Map => {
            place_map(table, values)?;
            Ok(())
        }
        Piece::Chan(direction) => {
            place_chan(table, values, direction)?;
            Ok(())
        }
        Piece::Func(variadic) => {
            place_func(table, values, variadic)?;
            Ok(())
        }
        Piece::List(count) => {
            place_list(alloc, table, values, count)?;
            Ok(())
        }
        Piece::Struct(count) => {
            place_struct(alloc, table, values, count)?;
            Ok(())
        }
        Piece::Field(name, package, embedded) => {
            place_field(table, values, name, package, embedded)?;
            Ok(())
        }
        Piece::Tag(tag) => {
            place_tag(table, values, tag)?;
            Ok(())
        }
        Piece::Interface(count) => {
            place_interface(alloc, table, values, count)?;
            Ok(())
        }
        Piece::Method(name, package, pointer) => {
            place_method(table, values, name, package, pointer)?;
            Ok(())
        }
        Piece::Signature(variadic) => {
            place_signature(table, values, variadic)?;
            Ok(())
        }
    }
}
