//! Methods that take and give nothing.
ghost use Rattle.std.specs.Prelude.{◌≡◌, ◌<◌, ◌↔◌, ◌&&◌, List, [], codes, IfOk, true, false, bytes_eq};
ghost use Rattle.type_model.specs.GoTypes.{GoType, type_at, type_of, PointerTo};
ghost use Rattle.type_model.specs.Tables.{IsTable, types_in, count, declarations_in};
ghost use Rattle.lock_types.specs.Locks.{is_struct, is_struct_type, HasMethod, HasBoth, IsLocker, IsLock};
ghost use Rattle.lock_types.specs.InTable.{is_empty, is_plain, is_plain_method, any_plain, is_plain_part, is_plain_selection, holds, holds_type};

use gv_base::NoMemory;
use method_sets::{Selected, Selection, method_set, one_selection, select};
use std::alloc::Global;
use type_model::{Method, Signature, Term, TypeId, TypeTable};

// ---- methods

fn is_empty(ids: &[TypeId]) -> bool
    ensures { result ≡ is_empty ids.now }
{
    ids.is_empty()
}

fn is_plain(s: &Signature) -> bool
    ensures { result ≡ is_plain s.now }
{
    is_empty(s.params.as_slice()) && (is_empty(s.results.as_slice()) && !s.variadic)
}

fn is_own(name: &str, m: &Method) -> bool
    ensures { result ≡ (bytes_eq m.now.name name.now && bytes_eq m.now.package []) }
{
    m.name.as_str() == name && m.package.as_str() == ""
}

fn is_plain_method(name: &str, m: &Method) -> bool
    ensures { result ≡ is_plain_method name.now m.now }
{
    is_own(name, m) && is_plain(&m.of)
}

fn any_plain(name: &str, methods: &[Method]) -> bool
    ensures { result ≡ any_plain name.now methods.now }
{
    for m in methods {
        if is_plain_method(name, m) {
            return true;
        }
    }
    false
}

fn is_plain_part(kind: &Selected) -> bool
    ensures { result ≡ is_plain_part kind.now }
{
    match kind {
        Selected::Field(_) => false,
        Selected::Method(of, _) => is_plain(of),
    }
}

fn is_plain_selection(selection: &Selection) -> bool
    ensures { result ≡ is_plain_selection selection.now }
{
    match selection {
        Selection::Found { path: _, kind } => is_plain_part(kind),
        Selection::Ambiguous { depth: _ } => false,
        Selection::Absent => false,
    }
}

// ---- locks

fn is_struct(term: &Term) -> bool
    ensures { (types : List GoType) → result ≡ is_struct (type_of types term.now) }
{
    match term {
        Term::Struct(_) => true,
        Term::Basic(_) => false,
        Term::Defined(_) => false,
        Term::Pointer(_) => false,
        Term::Slice(_) => false,
        Term::Array(_, _) => false,
        Term::Map(_, _) => false,
        Term::Chan(_, _) => false,
        Term::Func(_) => false,
        Term::Interface(_) => false,
    }
}

fn is_struct_at(t: &TypeTable, u: TypeId) -> bool
    requires table { IsTable t.now }
    requires within { u.0 < count t.now }
    ensures { result ≡ is_struct (type_at (types_in t.now) u) }
{
    is_struct(t.term(u))
}

fn is_struct_type(t: &TypeTable, id: TypeId) -> bool
    requires table { IsTable t.now }
    requires within { id.0 < count t.now }
    ensures { result ≡ is_struct_type (declarations_in t.now) (type_at (types_in t.now) id) }
{
    match t.underlying(id) {
        Some(u) => is_struct_at(t, u),
        None => false,
    }
}

/// Whether a pointer to a struct type has the method.
fn pointer_has(alloc: Global, t: &TypeTable, id: TypeId, name: &str) -> Result<bool, NoMemory>
    requires table { IsTable t.now }
    requires within { id.0 < count t.now }
    requires is_struct { is_struct_type (declarations_in t.now) (type_at (types_in t.now) id) ≡ true }
    ensures { IfOk result (λ b. (b ≡ true) ↔ HasMethod (declarations_in t.now) (PointerTo (type_at (types_in t.now) id)) name.now) }
{
    let selection = select(alloc, t, id, name, "")?;
    one_selection();
    Ok(is_plain_selection(&selection))
}

fn pointer_locks(alloc: Global, t: &TypeTable, id: TypeId) -> Result<bool, NoMemory>
    requires table { IsTable t.now }
    requires within { id.0 < count t.now }
    requires is_struct { is_struct_type (declarations_in t.now) (type_at (types_in t.now) id) ≡ true }
    ensures { IfOk result (λ b. (b ≡ true) ↔ HasBoth (declarations_in t.now) (PointerTo (type_at (types_in t.now) id))) }
{
    let locks = pointer_has(alloc, t, id, "Lock")?;
    if locks {
        let unlocks = pointer_has(alloc, t, id, "Unlock")?;
        return Ok(unlocks);
    }
    Ok(false)
}

fn has_both(methods: &[Method]) -> bool
    ensures { result ≡ (any_plain (codes "Lock") methods.now && any_plain (codes "Unlock") methods.now) }
{
    any_plain("Lock", methods) && any_plain("Unlock", methods)
}

/// Whether the type itself has both methods.
fn value_locks(alloc: Global, t: &TypeTable, id: TypeId) -> Result<bool, NoMemory>
    requires table { IsTable t.now }
    requires within { id.0 < count t.now }
    ensures { IfOk result (λ b. (b ≡ true) ↔ HasBoth (declarations_in t.now) (type_at (types_in t.now) id)) }
{
    let methods = method_set(alloc, t, id)?;
    Ok(has_both(&methods))
}

fn struct_locks(alloc: Global, t: &TypeTable, id: TypeId) -> Result<bool, NoMemory>
    requires table { IsTable t.now }
    requires within { id.0 < count t.now }
    requires is_struct { is_struct_type (declarations_in t.now) (type_at (types_in t.now) id) ≡ true }
    ensures { IfOk result (λ b. (b ≡ true) ↔ IsLocker (declarations_in t.now) (type_at (types_in t.now) id)) }
{
    let pointer = pointer_locks(alloc, t, id)?;
    if pointer {
        let value = value_locks(alloc, t, id)?;
        return Ok(!value);
    }
    Ok(false)
}

/// Whether a type is locked by its address, and not by itself.
pub fn is_locker(alloc: Global, t: &TypeTable, id: TypeId) -> Result<bool, NoMemory>
    requires table { IsTable t.now }
    requires within { id.0 < count t.now }
    ensures { IfOk result (λ b. (b ≡ true) ↔ IsLocker (declarations_in t.now) (type_at (types_in t.now) id)) }
{
    if is_struct_type(t, id) {
        let locks = struct_locks(alloc, t, id)?;
        return Ok(locks);
    }
    Ok(false)
}

// ---- types that may be lock types

fn holds(term: &Term) -> bool
    ensures { (types : List GoType) → result ≡ holds (type_of types term.now) }
{
    match term {
        Term::Struct(_) => true,
        Term::Array(_, _) => true,
        Term::Basic(_) => false,
        Term::Defined(_) => true,
        Term::Pointer(_) => false,
        Term::Slice(_) => false,
        Term::Map(_, _) => false,
        Term::Chan(_, _) => false,
        Term::Func(_) => false,
        Term::Interface(_) => false,
    }
}

fn holds_at(t: &TypeTable, u: TypeId) -> bool
    requires table { IsTable t.now }
    requires within { u.0 < count t.now }
    ensures { result ≡ holds (type_at (types_in t.now) u) }
{
    holds(t.term(u))
}

fn holds_type(t: &TypeTable, id: TypeId) -> bool
    requires table { IsTable t.now }
    requires within { id.0 < count t.now }
    ensures { result ≡ holds_type (declarations_in t.now) (type_at (types_in t.now) id) }
{
    match t.underlying(id) {
        Some(u) => holds_at(t, u),
        None => false,
    }
}

/// Whether a type is a struct or an array. Others are no lock types.
pub fn may_be_lock(t: &TypeTable, id: TypeId) -> bool
    requires table { IsTable t.now }
    requires within { id.0 < count t.now }
    ensures is { result ≡ holds_type (declarations_in t.now) (type_at (types_in t.now) id) }
    ensures none { result ≡ false → IsLock (declarations_in t.now) (type_at (types_in t.now) id) → ⊥ }
{
    holds_type(t, id)
}
