//! The types that are reached. The cost is in step with what is reached: each type is met once.
ghost use Rattle.std.specs.Prelude.{◌≡◌, ◌<◌, ◌++◌, ◌∷◌, [], ℕ, true, IfOk, OnOk, Some, cond, length, map, nat_eq, slice_get};
ghost use Rattle.std.specs.Str.{bytes_eq};
ghost use Rattle.type_model.specs.GoTypes.{AreBelow, type_at};
ghost use Rattle.type_model.specs.Tables.{types_in, count, IsTable, declarations_in};
ghost use Rattle.package_faces.specs.Reaching.{next_types};
ghost use Rattle.export_text.specs.Reaching.{nothing_declared};
ghost use Rattle.export_text.specs.Searching.{AreReached, AreVisited, IsVisited, declared_ids, fields_ids, has, known, methods_ids, next_ids, signature_ids};

use gv_base::{NoMemory, Text};
use std::alloc::Global;
use std::collections::HashSet;
use type_model::{Field, Method, Signature, Term, TypeId, TypeTable};

fn has(met: &HashSet<u32>, at: u32) -> bool
    ensures { result ≡ has met.now at }
{
    met.contains(&at)
}

fn note(met: &mut HashSet<u32>, at: u32) -> Result<(), NoMemory>
    ensures { OnOk result ((n : ℕ) → has met.new n ≡ cond (nat_eq at n) true (has met.old n)) }
{
    met.insert(at)?;
    Ok(())
}

pub(crate) fn push(list: &mut Vec<TypeId>, id: TypeId) -> Result<(), NoMemory>
    ensures { OnOk result (list.new.items ≡ list.old.items ++ id ∷ []) }
{
    list.push(id)?;
    Ok(())
}

/// Notes and lists a type, where it isn't yet.
fn visit(met: &mut HashSet<u32>, list: &mut Vec<TypeId>, id: TypeId) -> Result<(), NoMemory>
    ensures { OnOk result (IsVisited id (has met.old) list.old.items (has met.new) list.new.items) }
{
    if has(met, id.0) {
        return Ok(());
    }
    note(met, id.0)?;
    push(list, id)?;
    Ok(())
}

pub(crate) fn type_listed(list: &[TypeId], at: usize) -> TypeId
    requires { at < length list.now }
    ensures { slice_get list.now at ≡ Some result }
{
    list[at]
}

fn visit_all(met: &mut HashSet<u32>, list: &mut Vec<TypeId>, ids: &[TypeId]) -> Result<(), NoMemory>
    ensures { OnOk result (AreVisited ids.now (length ids.now) (has met.old) list.old.items (has met.new) list.new.items) }
{
    for k in 0..ids.len() {
        let id = type_listed(ids, k);
        visit(met, list, id)?;
    }
    Ok(())
}

fn push_all(out: &mut Vec<TypeId>, ids: &[TypeId]) -> Result<(), NoMemory>
    ensures { OnOk result (out.new.items ≡ out.old.items ++ ids.now) }
{
    out.extend_from_slice(ids)?;
    Ok(())
}

fn push_signature(out: &mut Vec<TypeId>, of: &Signature) -> Result<(), NoMemory>
    ensures { OnOk result (out.new.items ≡ out.old.items ++ signature_ids of.now) }
{
    push_all(out, of.params.as_slice())?;
    push_all(out, of.results.as_slice())?;
    Ok(())
}

pub(crate) fn push_methods(out: &mut Vec<TypeId>, methods: &[Method]) -> Result<(), NoMemory>
    ensures { OnOk result (out.new.items ≡ out.old.items ++ methods_ids methods.now) }
{
    for method in methods {
        push_signature(out, &method.of)?;
    }
    Ok(())
}

fn push_fields(out: &mut Vec<TypeId>, fields: &[Field]) -> Result<(), NoMemory>
    ensures { OnOk result (out.new.items ≡ out.old.items ++ fields_ids fields.now) }
{
    for field in fields {
        out.push(field.of)?;
    }
    Ok(())
}

/// An underlying type, and the types in the signatures of methods.
fn push_declared(
    out: &mut Vec<TypeId>,
    under: Option<TypeId>,
    methods: &[Method],
) -> Result<(), NoMemory>
    ensures { OnOk result (out.new.items ≡ out.old.items ++ declared_ids under methods.now) }
{
    let Some(of) = under else {
        return Ok(());
    };
    push(out, of)?;
    push_methods(out, methods)?;
    Ok(())
}

pub(crate) fn is_own(path: &str, package: &Text) -> bool
    ensures { result ≡ bytes_eq «package».now path.now }
{
    package.as_str() == path
}

/// The parts of a term, one after the other; of a name of the package what it is declared with.
fn push_next(
    out: &mut Vec<TypeId>,
    path: &str,
    term: &Term,
    under: Option<TypeId>,
    methods: &[Method],
) -> Result<(), NoMemory>
    ensures { OnOk result (out.new.items ≡ out.old.items ++ next_ids path.now term.now under methods.now) }
{
    match term {
        Term::Basic(_) => Ok(()),
        Term::Defined(name) => {
            if !is_own(path, &name.package) {
                return Ok(());
            }
            push_declared(out, under, methods)?;
            Ok(())
        }
        Term::Pointer(of) => {
            push(out, *of)?;
            Ok(())
        }
        Term::Slice(of) => {
            push(out, *of)?;
            Ok(())
        }
        Term::Array(_, of) => {
            push(out, *of)?;
            Ok(())
        }
        Term::Map(key, of) => {
            push(out, *key)?;
            push(out, *of)?;
            Ok(())
        }
        Term::Chan(_, of) => {
            push(out, *of)?;
            Ok(())
        }
        Term::Func(of) => {
            push_signature(out, of)?;
            Ok(())
        }
        Term::Struct(fields) => {
            push_fields(out, fields.as_slice())?;
            Ok(())
        }
        Term::Interface(methods) => {
            push_methods(out, methods.as_slice())?;
            Ok(())
        }
    }
}

/// The types that a type leads to, where declarations are followed.
fn next_declared(
    alloc: Global,
    table: &TypeTable,
    path: &str,
    id: TypeId,
) -> Result<Vec<TypeId>, NoMemory>
    requires table { IsTable table.now }
    requires within { id.0 < count table.now }
    ensures are { IfOk result (λ v. map (λ id. type_at (types_in table.now) id) v.items ≡ next_types (declarations_in table.now) path.now (type_at (types_in table.now) id)) }
    ensures below { IfOk result (λ v. AreBelow (count table.now) v.items) }
{
    let mut out = Vec::new(alloc);
    push_next(
        &mut out,
        path,
        table.term(id),
        table.underlying(id),
        table.methods(id),
    )?;
    Ok(out)
}

/// The types of which a type is made.
fn next_parts(
    alloc: Global,
    table: &TypeTable,
    path: &str,
    id: TypeId,
) -> Result<Vec<TypeId>, NoMemory>
    requires table { IsTable table.now }
    requires within { id.0 < count table.now }
    ensures are { IfOk result (λ v. map (λ id. type_at (types_in table.now) id) v.items ≡ next_types nothing_declared path.now (type_at (types_in table.now) id)) }
    ensures below { IfOk result (λ v. AreBelow (count table.now) v.items) }
{
    let mut out = Vec::new(alloc);
    push_next(&mut out, path, table.term(id), None, &[])?;
    Ok(out)
}

/// The types that a type leads to.
fn next_of(
    alloc: Global,
    table: &TypeTable,
    follows: bool,
    path: &str,
    id: TypeId,
) -> Result<Vec<TypeId>, NoMemory>
    requires table { IsTable table.now }
    requires within { id.0 < count table.now }
    ensures are { IfOk result (λ v. map (λ id. type_at (types_in table.now) id) v.items ≡ next_types (known follows table.now) path.now (type_at (types_in table.now) id)) }
    ensures below { IfOk result (λ v. AreBelow (count table.now) v.items) }
{
    if follows {
        let next = next_declared(alloc, table, path, id)?;
        return Ok(next);
    }
    let next = next_parts(alloc, table, path, id)?;
    Ok(next)
}

/// The types that are reached from these: their parts, the parts of those, and, where declarations are followed, what the package's
/// own defined types are declared with.
pub fn reached(
    alloc: Global,
    table: &TypeTable,
    follows: bool,
    path: &str,
    start: &[TypeId],
) -> Result<Vec<TypeId>, NoMemory>
    requires table { IsTable table.now }
    requires within { AreBelow (count table.now) start.now }
    ensures { IfOk result (λ list. AreReached table.now (known follows table.now) path.now start.now list.items) }
{
    let mut met = HashSet::new(alloc);
    let mut list = Vec::new(alloc);
    visit_all(&mut met, &mut list, start)?;
    let mut next = 0;
    while next < list.len() {
        let here = type_listed(&list, next);
        let ids = next_of(alloc, table, follows, path, here)?;
        visit_all(&mut met, &mut list, &ids)?;
        next += 1;
    }
    Ok(list)
}
