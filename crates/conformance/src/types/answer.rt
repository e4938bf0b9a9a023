//! The answers to questions.
ghost use Rattle.std.specs.Prelude.{◌<◌, IsTrue};
ghost use Rattle.type_model.specs.GoTypes.{AreBelow, MethodsBelow, type_at};
ghost use Rattle.type_model.specs.Tables.{IsTable, types_in, declarations_in, count};
ghost use Rattle.type_rel.specs.Answers.{IsInterface};

use crate::types::name::find;
use anyhow::{Result, bail};
use gv_base::{Const, ConstText};
use std::alloc::Global;
use std::fmt::Write;
use type_model::{Method, Term, TypeId, TypeTable};
use type_rel::{Implements, Operand, assignable, comparable, convertible, implements};

/// The methods of an interface; none of every other type.
fn interface_methods(t: &TypeTable, a: TypeId) -> &[Method]
    requires table { IsTable t.now }
    requires within { a.0 < count t.now }
    ensures { MethodsBelow (count t.now) result.now }
{
    match t.term(a) {
        Term::Interface(methods) => methods.as_slice(),
        _ => &[],
    }
}

/// The method set of a type that is declared without methods.
fn method_set(t: &TypeTable, a: TypeId) -> &[Method]
    requires table { IsTable t.now }
    requires within { a.0 < count t.now }
    ensures { MethodsBelow (count t.now) result.now }
{
    match t.underlying(a) {
        Some(under) => interface_methods(t, under),
        None => &[],
    }
}

/// The underlying type is an interface.
fn is_interface(t: &TypeTable, a: TypeId) -> bool
    requires table { IsTable t.now }
    requires within { a.0 < count t.now }
    ensures { IsTrue result → IsInterface (declarations_in t.now) (type_at (types_in t.now) a) }
{
    match t.underlying(a) {
        Some(under) => match t.term(under) {
            Term::Interface(_) => true,
            _ => false,
        },
        None => false,
    }
}

/// `true`, an integer, `'` for an empty text, and nothing for what is no constant.
fn constant(alloc: Global, word: &str) -> Result<Option<Const>> {
    if word == "" {
        return Ok(None);
    }
    if word == "true" {
        return Ok(Some(Const::Truth(true)));
    }
    if word == "'" {
        return Ok(Some(Const::Text(ConstText::new(Vec::new(alloc)))));
    }
    let value = word.parse::<i128>()?;
    Ok(Some(Const::Int(value)))
}

fn word(yes: bool) -> &'static str {
    if yes { "yes" } else { "no" }
}

/// Whether the first type implements the second one; else its first missing method.
fn write_missing(
    out: &mut String,
    alloc: Global,
    t: &TypeTable,
    of: TypeId,
    to: TypeId,
    line: &str,
) -> Result<()>
    requires table { IsTable t.now }
    requires first { of.0 < count t.now }
    requires second { to.0 < count t.now }
{
    if !is_interface(t, to) {
        bail!("a type that is no interface");
    }
    match implements(alloc, t, method_set(t, of), to) {
        Ok(Implements::Yes) => writeln!(out, "{line}: yes")?,
        Ok(Implements::Missing(name)) => writeln!(out, "{line}: no {}", name.as_str())?,
        Err(_) => bail!("no memory"),
    }
    Ok(())
}

/// Whether the relation that a question names holds.
fn holds(t: &TypeTable, question: &str, x: &Operand, to: TypeId) -> Result<bool>
    requires table { IsTable t.now }
    requires first { x.now.of.0 < count t.now }
    requires second { to.0 < count t.now }
{
    if question == "identical" {
        return Ok(t.same(x.of, to));
    }
    if question == "assign" {
        return Ok(assignable(t, x, method_set(t, x.of), to));
    }
    if question == "convert" {
        return Ok(convertible(t, x, method_set(t, x.of), to));
    }
    bail!("no such question")
}

/// Writes a question `compare V`, `implement V T`, `identical V T`, `assign V T VALUE` or `convert V T VALUE`
/// with its answer.
pub fn write_answer(
    out: &mut String,
    alloc: Global,
    t: &TypeTable,
    names: &[&str],
    ids: &[TypeId],
    line: &str,
) -> Result<()>
    requires table { IsTable t.now }
    requires below { AreBelow (count t.now) ids.now }
{
    let mut words = line.split(" ");
    let question = words.next().unwrap_or("");
    let of = find(t, names, ids, words.next().unwrap_or(""))?;
    if question == "compare" {
        writeln!(out, "{line}: {}", word(comparable(t, of)))?;
        return Ok(());
    }
    let to = find(t, names, ids, words.next().unwrap_or(""))?;
    if question == "implement" {
        return write_missing(out, alloc, t, of, to, line);
    }
    let value = constant(alloc, words.next().unwrap_or(""))?;
    let yes = holds(t, question, &Operand { of, value }, to)?;
    writeln!(out, "{line}: {}", word(yes))?;
    Ok(())
}
