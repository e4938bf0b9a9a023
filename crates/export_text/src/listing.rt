//! The package's own defined types among types that are reached, each as it is declared.
ghost use Rattle.std.specs.Prelude.{◌≡◌, ◌↔◌, ◌<◌, IfOk, IsTrue, MatchOption, OnOk, length, map};
ghost use Rattle.std.specs.List.Sorted.{IsPermutation, IsSortedBy};
ghost use Rattle.std.specs.Ordering.{nat_cmp, ordering_then};
ghost use Rattle.std.specs.Cmp.Lexicographic.{slice_cmp};
ghost use Rattle.type_model.specs.declared.term.TypeName.{TypeName};
ghost use Rattle.type_model.specs.GoTypes.{AreBelow, DefinedType, MethodsBelow, type_at};
ghost use Rattle.type_model.specs.Declarations.{declared_methods};
ghost use Rattle.type_model.specs.Parts.{method_of};
ghost use Rattle.type_model.specs.Tables.{IsTable, types_in, count, declarations_in};
ghost use Rattle.type_texts.specs.Answers.{Tells};
ghost use Rattle.package_faces.specs.Orders.{rises};
ghost use Rattle.export_text.specs.Listing.{AllCanBeListed, AreListed, AreNamedOnce, CanBeListed, IsForeign, IsListed, IsListedIn, IsOwnType, IsPlain, method_stands, type_stands};
ghost use Rattle.export_text.specs.Searching.{Once};

use crate::reaching::{is_own, type_listed};
use gv_base::{NoMemory, Row};
use gv_bytes::Unread;
use package_faces::{ExportedType, copied_methods};
use std::alloc::Global;
use std::cmp::Ordering;
use type_model::{Method, Term, TypeId, TypeName, TypeTable};

/// The order of names, and of packages where the names are one.
fn compare_methods(one: &Method, other: &Method) -> Ordering
    ensures { result ≡ ordering_then (slice_cmp nat_cmp one.now.name other.now.name) (slice_cmp nat_cmp one.now.«package» other.now.«package») }
{
    match one.name.as_str().cmp(other.name.as_str()) {
        Ordering::Less => Ordering::Less,
        Ordering::Equal => one.package.as_str().cmp(other.package.as_str()),
        Ordering::Greater => Ordering::Greater,
    }
}

fn sort_methods(methods: &mut Vec<Method>)
    ensures same { IsPermutation methods.old.items methods.new.items }
    ensures sorted { IsSortedBy method_stands methods.new.items }
{
    methods.sort_unstable_by(|one, other| compare_methods(one, other));
}

fn sort_types(types: &mut Vec<ExportedType>)
    ensures same { IsPermutation types.old.items types.new.items }
    ensures sorted { IsSortedBy type_stands types.new.items }
{
    types.sort_unstable_by(|one, other| one.name.as_str().cmp(other.name.as_str()));
}

/// The methods that a defined type is declared with, in order of name and package.
fn sorted_methods(alloc: Global, table: &TypeTable, id: TypeId) -> Result<Vec<Method>, NoMemory>
    requires table { IsTable table.now }
    requires within { id.0 < count table.now }
    ensures same { IfOk result (λ v. IsPermutation (declared_methods (declarations_in table.now) (type_at (types_in table.now) id)) (map (λ m. method_of (types_in table.now) m) v.items)) }
    ensures sorted { IfOk result (λ v. IsSortedBy method_stands v.items) }
    ensures below { IfOk result (λ v. MethodsBelow (count table.now) v.items) }
{
    let mut methods = copied_methods(alloc, table.methods(id))?;
    sort_methods(&mut methods);
    Ok(methods)
}

/// The name of a defined type.
pub(crate) fn defined_name(table: &TypeTable, id: TypeId) -> Option<&TypeName>
    requires table { IsTable table.now }
    requires within { id.0 < count table.now }
    ensures { MatchOption result ((name : TypeName) → type_at (types_in table.now) id ≡ DefinedType name → ⊥) (λ name. type_at (types_in table.now) id ≡ DefinedType name.now) }
{
    match table.term(id) {
        Term::Basic(_) => None,
        Term::Defined(name) => Some(name),
        Term::Pointer(_) => None,
        Term::Slice(_) => None,
        Term::Array(_, _) => None,
        Term::Map(_, _) => None,
        Term::Chan(_, _) => None,
        Term::Func(_) => None,
        Term::Struct(_) => None,
        Term::Interface(_) => None,
    }
}

/// A defined type of package level as it is declared. Unspelled where it isn't declared.
fn declared_global(
    alloc: Global,
    table: &TypeTable,
    id: TypeId,
    name: &TypeName,
) -> Result<ExportedType, Unread>
    requires table { IsTable table.now }
    requires within { id.0 < count table.now }
    requires named { type_at (types_in table.now) id ≡ DefinedType name.now }
    requires global { name.now.local ≡ 0 }
    ensures is { IfOk result (λ d. IsOwnType table.now name.now.«package» id d) }
    ensures tells { Tells (IsPlain (declarations_in table.now) name.now) result }
{
    let Some(under) = table.underlying(id) else {
        return Err(Unread::Unspelled);
    };
    let copy = name.name.copy(alloc)?;
    let methods = sorted_methods(alloc, table, id)?;
    Ok(ExportedType {
        name: copy,
        under,
        methods: Row::new(methods),
    })
}

/// Whether a name is of package level.
fn is_global(name: &TypeName) -> bool
    ensures { IsTrue result ↔ (name.now.local ≡ 0) }
{
    name.local == 0
}

/// A defined type as it is declared. Unspelled where it is local or isn't declared.
fn declared_type(
    alloc: Global,
    table: &TypeTable,
    id: TypeId,
    name: &TypeName,
) -> Result<ExportedType, Unread>
    requires table { IsTable table.now }
    requires within { id.0 < count table.now }
    requires named { type_at (types_in table.now) id ≡ DefinedType name.now }
    ensures is { IfOk result (λ d. IsOwnType table.now name.now.«package» id d) }
    ensures tells { Tells (IsPlain (declarations_in table.now) name.now) result }
{
    if is_global(name) {
        let own = declared_global(alloc, table, id, name)?;
        return Ok(own);
    }
    Err(Unread::Unspelled)
}

/// The name of a defined type of the package.
fn own_name_of<'a>(table: &'a TypeTable, path: &str, id: TypeId) -> Option<&'a TypeName>
    requires table { IsTable table.now }
    requires within { id.0 < count table.now }
    ensures { MatchOption result (IsForeign path.now (type_at (types_in table.now) id)) (λ name. (type_at (types_in table.now) id ≡ DefinedType name.now) × (name.now.«package» ≡ path.now)) }
{
    let Some(name) = defined_name(table, id) else {
        return None;
    };
    if is_own(path, &name.package) {
        return Some(name);
    }
    None
}

/// The type as it is declared, where it is a defined type of the package. Unspelled where that is local or isn't declared.
fn listed(
    alloc: Global,
    table: &TypeTable,
    path: &str,
    id: TypeId,
) -> Result<Option<ExportedType>, Unread>
    requires table { IsTable table.now }
    requires within { id.0 < count table.now }
    ensures is { IfOk result (λ o. IsListed table.now path.now id o) }
    ensures tells { Tells (CanBeListed (declarations_in table.now) path.now (type_at (types_in table.now) id)) result }
{
    let Some(name) = own_name_of(table, path, id) else {
        return Ok(None);
    };
    let own = declared_type(alloc, table, id, name)?;
    Ok(Some(own))
}

/// Adds what is listed of a type.
fn push_listed(
    alloc: Global,
    table: &TypeTable,
    path: &str,
    id: TypeId,
    types: &mut Vec<ExportedType>,
) -> Result<(), Unread>
    requires table { IsTable table.now }
    requires within { id.0 < count table.now }
    ensures is { OnOk result (IsListedIn table.now path.now id types.old.items types.new.items) }
    ensures tells { Tells (CanBeListed (declarations_in table.now) path.now (type_at (types_in table.now) id)) result }
{
    let own = listed(alloc, table, path, id)?;
    match own {
        Some(defined) => {
            types.push(defined)?;
            Ok(())
        }
        None => Ok(()),
    }
}

/// What is listed of some types, as they come.
fn own_types(
    alloc: Global,
    table: &TypeTable,
    path: &str,
    ids: &[TypeId],
) -> Result<Vec<ExportedType>, Unread>
    requires table { IsTable table.now }
    requires within { AreBelow (count table.now) ids.now }
    requires once { Once ids.now }
    ensures are { IfOk result (λ v. AreListed table.now path.now ids.now (length ids.now) v.items) }
    ensures once { IfOk result (λ v. AreNamedOnce v.items) }
    ensures tells { Tells (AllCanBeListed table.now path.now ids.now) result }
{
    let mut types = Vec::new(alloc);
    for k in 0..ids.len() {
        let id = type_listed(ids, k);
        push_listed(alloc, table, path, id, &mut types)?;
    }
    Ok(types)
}

/// The package's own defined types among some types, by name, each as it is declared. Unspelled where one is local or isn't declared.
pub(crate) fn listing(
    alloc: Global,
    table: &TypeTable,
    path: &str,
    ids: &[TypeId],
) -> Result<Vec<ExportedType>, Unread>
    requires table { IsTable table.now }
    requires within { AreBelow (count table.now) ids.now }
    requires once { Once ids.now }
    ensures are { IfOk result (λ v. AreListed table.now path.now ids.now (length ids.now) v.items) }
    ensures rise { IfOk result (λ v. IsTrue (rises type_stands v.items)) }
    ensures tells { Tells (AllCanBeListed table.now path.now ids.now) result }
{
    let mut types = own_types(alloc, table, path, ids)?;
    sort_types(&mut types);
    Ok(types)
}
