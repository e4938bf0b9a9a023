//! Names of methods.
ghost use Rattle.std.specs.Prelude.{◌≡◌, ◌<◌, option_map, IfOk};
ghost use Rattle.method_sets.specs.Shown.{is_interface_type};
ghost use Rattle.type_model.specs.GoTypes.{type_at};
ghost use Rattle.type_model.specs.Tables.{IsTable, types_in, count, declarations_in};
ghost use Rattle.selected_methods.specs.Selected.{is_interface};
ghost use Rattle.member_names.specs.Named.{dotted, method_named, named_of, method_of, method_led};
ghost use Rattle.member_names.specs.InCode.{named_in, found_named};

use gv_base::{NoMemory, Text};
use selected_methods::{base_of, led};
use std::alloc::Global;
use type_model::{Term, TypeId, TypeName, TypeTable};

/// A function or method: the path of its package, and its name or `Type.Method`.
#[derive(Drop)]
pub struct Named {
    pub path: Text,
    pub name: Text,
}

/// `Type.Method`.
pub fn dotted(alloc: Global, of: &str, method: &str) -> Result<Text, NoMemory>
    ensures { IfOk result (λ text. text ≡ dotted of.now method.now) }
{
    let mut text = String::from_str(alloc, of)?;
    text.push_str(".")?;
    text.push_str(method)?;
    Ok(Text::new(text))
}

fn method_named(alloc: Global, method: &str, t: &TypeName) -> Result<Named, NoMemory>
    ensures { IfOk result (λ x. named_in x ≡ method_named method.now t.now) }
{
    let path = t.package.copy(alloc)?;
    let name = dotted(alloc, t.name.as_str(), method)?;
    Ok(Named { path, name })
}

fn named_of(
    alloc: Global,
    t: &TypeTable,
    method: &str,
    of: TypeId,
) -> Result<Option<Named>, NoMemory>
    requires table { IsTable t.now }
    requires within { of.0 < count t.now }
    ensures { IfOk result (λ o. found_named o ≡ named_of method.now (type_at (types_in t.now) of)) }
{
    match t.term(of) {
        Term::Defined(name) => {
            let named = method_named(alloc, method, name)?;
            Ok(Some(named))
        }
        Term::Basic(_) => Ok(None),
        Term::Pointer(_) => Ok(None),
        Term::Slice(_) => Ok(None),
        Term::Array(_, _) => Ok(None),
        Term::Map(_, _) => Ok(None),
        Term::Chan(_, _) => Ok(None),
        Term::Func(_) => Ok(None),
        Term::Struct(_) => Ok(None),
        Term::Interface(_) => Ok(None),
    }
}

fn is_interface_type(t: &TypeTable, under: TypeId) -> bool
    requires table { IsTable t.now }
    requires within { under.0 < count t.now }
    ensures { result ≡ is_interface_type (type_at (types_in t.now) under) }
{
    match t.term(under) {
        Term::Interface(_) => true,
        Term::Basic(_) => false,
        Term::Defined(_) => false,
        Term::Pointer(_) => false,
        Term::Slice(_) => false,
        Term::Array(_, _) => false,
        Term::Map(_, _) => false,
        Term::Chan(_, _) => false,
        Term::Func(_) => false,
        Term::Struct(_) => false,
    }
}

fn is_interface(t: &TypeTable, of: TypeId) -> bool
    requires table { IsTable t.now }
    requires within { of.0 < count t.now }
    ensures { result ≡ is_interface (declarations_in t.now) (type_at (types_in t.now) of) }
{
    match t.underlying(of) {
        Some(under) => is_interface_type(t, under),
        None => false,
    }
}

/// The method of a name of a type that is no interface.
fn method_of(
    alloc: Global,
    t: &TypeTable,
    method: &str,
    of: TypeId,
) -> Result<Option<Named>, NoMemory>
    requires table { IsTable t.now }
    requires within { of.0 < count t.now }
    ensures { IfOk result (λ o. found_named o ≡ method_of (declarations_in t.now) method.now (type_at (types_in t.now) of)) }
{
    if is_interface(t, of) {
        return Ok(None);
    }
    let named = named_of(alloc, t, method, of)?;
    Ok(named)
}

/// The method of the type to which a path of embedded fields leads.
pub(crate) fn method_led(
    alloc: Global,
    t: &TypeTable,
    method: &str,
    of: TypeId,
    path: &[u32],
) -> Result<Option<Named>, NoMemory>
    requires table { IsTable t.now }
    requires within { of.0 < count t.now }
    ensures { IfOk result (λ o. found_named o ≡ method_led (declarations_in t.now) method.now (type_at (types_in t.now) of) path.now) }
{
    match led(t, base_of(t, of), path) {
        Some(to) => {
            let named = method_of(alloc, t, method, to)?;
            Ok(named)
        }
        None => Ok(None),
    }
}
