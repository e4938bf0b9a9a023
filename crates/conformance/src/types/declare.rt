//! New types, in the table.
ghost use Rattle.std.specs.Prelude.{◌≡◌, ◌<◌, ◌≤◌, IfOk, OnOk};
ghost use Rattle.type_model.specs.GoTypes.{AreBelow, IsOver, type_at};
ghost use Rattle.type_model.specs.Orders.{IsOrdered};
ghost use Rattle.type_model.specs.Tables.{IsTable, types_in, count};
ghost use Rattle.conformance.specs.Plain.{is_plain};

use crate::types::form::term;
use crate::types::name::{find, type_name};
use anyhow::{Result, bail};
use std::alloc::Global;
use type_model::{Added, Term, TypeId, TypeTable};

/// The number of a new type.
fn add(t: &mut TypeTable, term: Term) -> Result<TypeId>
    requires table { IsTable t.old }
    requires over { IsOver (count t.old) term }
    requires ordered { IsOrdered term }
    ensures table { IsTable t.new }
    ensures more { count t.old ≤ count t.new }
    ensures within { IfOk result (λ id. id.0 < count t.new) }
{
    let added = t.add(term);
    match added {
        Ok(Added::Id(id)) => Ok(id),
        Ok(Added::TooWide) => bail!("a type of too many nodes"),
        Err(_) => bail!("no memory"),
    }
}

/// The type is neither a defined type nor one that holds others.
fn is_plain_type(t: &TypeTable, a: TypeId) -> bool
    requires table { IsTable t.now }
    requires within { a.0 < count t.now }
    ensures { result ≡ is_plain (type_at (types_in t.now) a) }
{
    match t.term(a) {
        Term::Basic(_) => true,
        Term::Defined(_) => false,
        Term::Pointer(_) => true,
        Term::Slice(_) => true,
        Term::Array(_, _) => false,
        Term::Map(_, _) => true,
        Term::Chan(_, _) => true,
        Term::Func(_) => true,
        Term::Struct(_) => false,
        Term::Interface(_) => true,
    }
}

/// The number of a new defined type with this underlying type.
fn define(alloc: Global, t: &mut TypeTable, name: &str, under: TypeId) -> Result<TypeId>
    requires table { IsTable t.old }
    requires under { under.0 < count t.old }
    ensures table { IsTable t.new }
    ensures more { count t.old ≤ count t.new }
    ensures within { IfOk result (λ id. id.0 < count t.new) }
{
    let of = type_name(alloc, name)?;
    let again = type_name(alloc, name)?;
    let added = t.add(Term::Defined(of));
    let Ok(Added::Id(id)) = added else {
        bail!("no room for a defined type");
    };
    if !is_plain_type(t, under) {
        bail!("a defined type that holds others");
    }
    match t.underlying(id) {
        Some(_) => bail!("a type that is declared twice"),
        None => match t.declare(again, under, Vec::new(alloc)) {
            Ok(()) => Ok(id),
            Err(_) => bail!("no memory"),
        },
    }
}

/// The number of the type of a row `NAME = FORM`.
pub fn enter(
    alloc: Global,
    t: &mut TypeTable,
    names: &[&str],
    ids: &[TypeId],
    name: &str,
    form: &str,
) -> Result<TypeId>
    requires table { IsTable t.old }
    requires below { AreBelow (count t.old) ids.now }
    ensures table { IsTable t.new }
    ensures more { count t.old ≤ count t.new }
    ensures within { IfOk result (λ id. id.0 < count t.new) }
{
    match form.strip_prefix("defined ") {
        Some(under) => {
            let under = find(t, names, ids, under)?;
            let id = define(alloc, t, name, under)?;
            Ok(id)
        }
        None => {
            let made = term(alloc, t, names, ids, form)?;
            let id = add(t, made)?;
            Ok(id)
        }
    }
}
