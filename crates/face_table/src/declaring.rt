//! The types of other packages are declared in a table.
ghost use Rattle.std.specs.Prelude.{◌≡◌, ◌<◌, ℕ, List, true, false, IfOk, map};
ghost use Rattle.package_faces.specs.Faces.{Face};
ghost use Rattle.package_faces.specs.Reaching.{own_name};
ghost use Rattle.package_faces.specs.Interfaces.{defined_in, face_of, faces_of, IsDefinedIn, AreDefinedIn, IsInterfaceIn, AreInterfacesIn};
ghost use Rattle.type_model.specs.declared.term.TypeName.{TypeName as AName};
ghost use Rattle.type_model.specs.GoTypes.{DefinedType, is_defined as is_defined_type, type_at};
ghost use Rattle.type_model.specs.Tables.{IsTable, Grown, count, declarations_in, types_in};
ghost use Rattle.go_tree.specs.Lexeme.{place_of};
ghost use Rattle.unit_read.specs.Index.{found};
ghost use Rattle.face_table.specs.Fitting.{DeclaresType, DeclaresTypes, DeclaresFace, IsBad, IsDeclared, IsUnfit, counts_by, is_place, paths_in, universe};

use gv_base::{NoMemory, Text};
use package_faces::{ExportedType, Interface, copied_methods, copied_name};
use rel_growth::is_met;
use std::alloc::Global;
use std::collections::HashMap;
use type_model::{Added, Term, TypeId, TypeName, TypeTable};
use unit_read::{find, path_index};

fn own_name(alloc: Global, path: &Text, name: &Text) -> Result<TypeName, NoMemory>
    ensures { IfOk result (λ n. n ≡ own_name path.now name.now) }
{
    let package = path.copy(alloc)?;
    let copy = name.copy(alloc)?;
    Ok(TypeName {
        package,
        name: copy,
        local: 0,
    })
}

/// The number of the defined type of a name.
fn number_of(t: &mut TypeTable, name: TypeName) -> Result<TypeId, NoMemory>
    requires { IsTable t.old }
    ensures grown { Grown t.old t.new }
    ensures is { IfOk result (λ id. type_at (types_in t.new) id ≡ DefinedType name) }
    ensures within { IfOk result (λ id. id.0 < count t.new) }
{
    let added = t.add(Term::Defined(name))?;
    match added {
        Added::Id(id) => Ok(id),
        Added::TooWide => unreachable!(),
    }
}

fn is_defined(t: &TypeTable, a: TypeId) -> bool
    requires table { IsTable t.now }
    requires within { a.0 < count t.now }
    ensures { result ≡ is_defined_type (type_at (types_in t.now) a) }
{
    match t.term(a) {
        Term::Basic(_) => false,
        Term::Defined(_) => true,
        Term::Pointer(_) => false,
        Term::Slice(_) => false,
        Term::Array(_, _) => false,
        Term::Map(_, _) => false,
        Term::Chan(_, _) => false,
        Term::Func(_) => false,
        Term::Struct(_) => false,
        Term::Interface(_) => false,
    }
}

/// Whether a type can't be the underlying type of a defined type: it is a defined type itself, or would hold that.
fn is_bad(alloc: Global, t: &TypeTable, id: TypeId, under: TypeId) -> Result<bool, NoMemory>
    requires table { IsTable t.now }
    requires name { id.0 < count t.now }
    requires within { under.0 < count t.now }
    ensures bad { IfOk result (λ b. b ≡ true → (name : AName) → type_at (types_in t.now) id ≡ DefinedType name → IsBad (declarations_in t.now) name (type_at (types_in t.now) under)) }
    ensures fine { IfOk result (λ b. b ≡ false → (name : AName) → type_at (types_in t.now) id ≡ DefinedType name → IsBad (declarations_in t.now) name (type_at (types_in t.now) under) → ⊥) }
{
    if is_defined(t, under) {
        return Ok(true);
    }
    let met = is_met(alloc, t, id, under)?;
    Ok(met)
}

/// Whether a defined type can't be declared with an underlying type: it is declared, or that is bad.
fn is_unfit(alloc: Global, t: &TypeTable, id: TypeId, under: TypeId) -> Result<bool, NoMemory>
    requires table { IsTable t.now }
    requires name { id.0 < count t.now }
    requires within { under.0 < count t.now }
    ensures unfit { IfOk result (λ b. b ≡ true → (name : AName) → type_at (types_in t.now) id ≡ DefinedType name → IsUnfit (declarations_in t.now) name (type_at (types_in t.now) under)) }
    ensures fit { IfOk result (λ b. b ≡ false → (name : AName) → type_at (types_in t.now) id ≡ DefinedType name → IsUnfit (declarations_in t.now) name (type_at (types_in t.now) under) → ⊥) }
{
    match t.underlying(id) {
        Some(_) => Ok(true),
        None => {
            let bad = is_bad(alloc, t, id, under)?;
            Ok(bad)
        }
    }
}

/// Declares a type of a package, if it can be declared.
fn declare_type(
    alloc: Global,
    t: &mut TypeTable,
    path: &Text,
    d: &ExportedType,
) -> Result<bool, NoMemory>
    requires table { IsTable t.old }
    requires within { IsDefinedIn (count t.old) d.now }
    ensures { IfOk result (DeclaresType t.old t.new path.now (defined_in (types_in t.old) d.now)) }
{
    let name = own_name(alloc, path, &d.name)?;
    let copy = copied_name(alloc, &name)?;
    let id = number_of(t, copy)?;
    let unfit = is_unfit(alloc, t, id, d.under)?;
    if unfit {
        return Ok(false);
    }
    let methods = copied_methods(alloc, d.methods.as_slice())?;
    t.declare(name, d.under, methods)?;
    Ok(true)
}

/// Declares the types of a package.
fn declare_types(
    alloc: Global,
    t: &mut TypeTable,
    path: &Text,
    types: &[ExportedType],
) -> Result<bool, NoMemory>
    requires table { IsTable t.old }
    requires within { AreDefinedIn (count t.old) types.now }
    ensures { IfOk result (DeclaresTypes t.old t.new path.now (map (λ d. defined_in (types_in t.old) d) types.now)) }
{
    for i in 0..types.len() {
        let fit = declare_type(alloc, t, path, &types[i])?;
        if !fit {
            return Ok(false);
        }
    }
    Ok(true)
}

fn is_place(k: usize, place: Option<usize>) -> bool
    ensures { result ≡ is_place k place }
{
    match place {
        Some(place) => place == k,
        None => false,
    }
}

fn counts_by(own: &[u8], path: &[u8], k: usize, first: Option<usize>) -> bool
    ensures { result ≡ counts_by own.now path.now k first }
{
    own != path && is_place(k, first)
}

/// Whether the package at a place is the first of its path, and another than the one that is checked.
fn counts(own: &[u8], firsts: &HashMap<&[u8], usize>, k: usize, interface: &Interface) -> bool
    ensures { result ≡ counts_by own.now interface.now.path k (found firsts.now interface.now.path) }
{
    let path = interface.path.as_str().as_bytes();
    counts_by(own, path, k, find(firsts, path))
}

/// Declares the types of the package at a place, if it counts.
fn declare_face(
    alloc: Global,
    t: &mut TypeTable,
    own: &[u8],
    firsts: &HashMap<&[u8], usize>,
    k: usize,
    interface: &Interface,
) -> Result<bool, NoMemory>
    requires table { IsTable t.old }
    requires within { IsInterfaceIn (count t.old) (types_in t.old) interface.now }
    ensures { IfOk result (λ fit. (faces : List Face) → ((q : List ℕ) → found firsts.now q ≡ place_of (paths_in faces) q) → DeclaresFace t.old t.new own.now faces k (face_of (types_in t.old) interface.now) fit) }
{
    if !counts(own, firsts, k, interface) {
        return Ok(true);
    }
    let fit = declare_types(alloc, t, &interface.path, interface.types.as_slice())?;
    Ok(fit)
}

/// Declares the types of the packages, beside `error`, in a table that has their types; but of a package of the path `own`, which is the one
/// that is checked, and of a second one of a path, nothing. It answers false exactly where the types can't all be declared: one stands twice in
/// a package, has a defined type as its underlying type or needs itself. Then nothing is said of the table.
pub fn declare_faces(
    alloc: Global,
    t: &mut TypeTable,
    own: &[u8],
    interfaces: &[Interface],
) -> Result<bool, NoMemory>
    requires table { IsTable t.old }
    requires within { AreInterfacesIn (count t.old) (types_in t.old) interfaces.now }
    requires error { (name : AName) → declarations_in t.old name ≡ universe name }
    ensures { IfOk result (IsDeclared own.now (faces_of (types_in t.old) interfaces.now) t.old t.new) }
{
    let firsts = path_index(alloc, interfaces)?;
    for k in 0..interfaces.len() {
        let fit = declare_face(alloc, t, own, &firsts, k, &interfaces[k])?;
        if !fit {
            return Ok(false);
        }
    }
    Ok(true)
}
