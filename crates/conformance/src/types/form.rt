//! The term that a row's words spell.
ghost use Rattle.std.specs.Prelude.{◌<◌, IfOk};
ghost use Rattle.type_model.specs.GoTypes.{AreBelow, SignatureBelow, IsOver};
ghost use Rattle.type_model.specs.Orders.{IsOrdered};
ghost use Rattle.type_model.specs.Tables.{count};

use crate::types::name::{find, find_all, text, type_name};
use anyhow::{Result, bail};
use gv_base::{Bytes, Kind, Row};
use std::alloc::Global;
use type_model::{Dir, Field, Method, Signature, Term, TypeId, TypeTable};

const KINDS: [(&str, Kind); 12] = [
    ("bool", Kind::Bool),
    ("int", Kind::Int),
    ("int8", Kind::Int8),
    ("int32", Kind::Int32),
    ("uint", Kind::Uint),
    ("uint8", Kind::Uint8),
    ("string", Kind::Text),
    ("untyped-bool", Kind::UntypedBool),
    ("untyped-int", Kind::UntypedInt),
    ("untyped-rune", Kind::UntypedRune),
    ("untyped-string", Kind::UntypedText),
    ("nil", Kind::UntypedNil),
];

fn kind(name: &str) -> Result<Kind> {
    for (of, kind) in KINDS.iter() {
        if *of == name {
            return Ok(*kind);
        }
    }
    bail!("no such kind")
}

fn signature(
    alloc: Global,
    t: &TypeTable,
    names: &[&str],
    ids: &[TypeId],
    params: &str,
    results: &str,
    variadic: bool,
) -> Result<Signature>
    requires { AreBelow (count t.now) ids.now }
    ensures { IfOk result (λ s. SignatureBelow (count t.now) s) }
{
    let params = find_all(alloc, t, names, ids, params)?;
    let results = find_all(alloc, t, names, ids, results)?;
    Ok(Signature {
        params,
        results,
        variadic,
    })
}

/// A struct with one field.
fn one_field(alloc: Global, _t: &TypeTable, name: &str, of: TypeId, tag: &str) -> Result<Term>
    requires { of.0 < count _t.now }
    ensures over { IfOk result (λ term. IsOver (count _t.now) term) }
    ensures ordered { IfOk result (λ term. IsOrdered term) }
{
    let mut fields = Vec::new(alloc);
    let tag = tag.as_bytes().to_vec(alloc)?;
    fields.push(Field {
        name: text(alloc, name)?,
        package: text(alloc, "")?,
        embedded: false,
        of,
        tag: Bytes::new(tag),
    })?;
    Ok(Term::Struct(Row::new(fields)))
}

/// An interface with one method.
fn one_method(alloc: Global, _t: &TypeTable, name: &str, of: Signature) -> Result<Term>
    requires { SignatureBelow (count _t.now) of }
    ensures over { IfOk result (λ term. IsOver (count _t.now) term) }
    ensures ordered { IfOk result (λ term. IsOrdered term) }
{
    let mut methods = Vec::new(alloc);
    methods.push(Method {
        name: text(alloc, name)?,
        package: text(alloc, "")?,
        pointer: false,
        of,
    })?;
    Ok(Term::Interface(Row::new(methods)))
}

/// The term of a row `basic KIND`, `undeclared NAME`, `any`, `interface NAME PARAMS RESULTS`, `func
/// PARAMS RESULTS ...`, or of one over types.
pub fn term(alloc: Global, t: &TypeTable, names: &[&str], ids: &[TypeId], row: &str) -> Result<Term>
    requires { AreBelow (count t.now) ids.now }
    ensures over { IfOk result (λ term. IsOver (count t.now) term) }
    ensures ordered { IfOk result (λ term. IsOrdered term) }
{
    let mut words = row.split(" ");
    let head = words.next().unwrap_or("");
    let first = words.next().unwrap_or("");
    let second = words.next().unwrap_or("");
    let third = words.next().unwrap_or("");
    if head == "basic" {
        let kind = kind(first)?;
        return Ok(Term::Basic(kind));
    }
    if head == "undeclared" {
        let name = type_name(alloc, first)?;
        return Ok(Term::Defined(name));
    }
    if head == "any" {
        return Ok(Term::Interface(Row::new(Vec::new(alloc))));
    }
    if head == "interface" {
        let of = signature(alloc, t, names, ids, second, third, false)?;
        let made = one_method(alloc, t, first, of)?;
        return Ok(made);
    }
    if head == "func" {
        let of = signature(alloc, t, names, ids, first, second, third == "...")?;
        return Ok(Term::Func(of));
    }
    if head == "struct" {
        let of = find(t, names, ids, second)?;
        let made = one_field(alloc, t, first, of, third)?;
        return Ok(made);
    }
    let made = composite(t, names, ids, head, first, second)?;
    Ok(made)
}

/// A term over one or two types.
fn composite(
    t: &TypeTable,
    names: &[&str],
    ids: &[TypeId],
    head: &str,
    first: &str,
    second: &str,
) -> Result<Term>
    requires { AreBelow (count t.now) ids.now }
    ensures over { IfOk result (λ term. IsOver (count t.now) term) }
    ensures ordered { IfOk result (λ term. IsOrdered term) }
{
    if head == "array" {
        let of = find(t, names, ids, second)?;
        let size = first.parse::<u64>()?;
        return Ok(Term::Array(size, of));
    }
    let of = find(t, names, ids, first)?;
    if head == "map" {
        let value = find(t, names, ids, second)?;
        return Ok(Term::Map(of, value));
    }
    if head == "pointer" {
        return Ok(Term::Pointer(of));
    }
    if head == "slice" {
        return Ok(Term::Slice(of));
    }
    if head == "chan" {
        return Ok(Term::Chan(Dir::Both, of));
    }
    if head == "send" {
        return Ok(Term::Chan(Dir::Send, of));
    }
    if head == "receive" {
        return Ok(Term::Chan(Dir::Receive, of));
    }
    bail!("no such form")
}
