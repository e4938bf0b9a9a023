//! What is met from a type by what it holds. The cost is in step with what is met: each type is met once.
ghost use Rattle.std.specs.Prelude.{◌≡◌, ◌<◌, ◌++◌, ◌∷◌, [], ℕ, true, IsTrue, IfOk, OnOk, Some, cond, length, map, nat_eq, slice_get, MatchOption, option_to_list};
ghost use Rattle.type_model.specs.declared.term.TypeName.{TypeName as ATypeName};
ghost use Rattle.type_model.specs.GoTypes.{AreBelow, DefinedType, type_at};
ghost use Rattle.type_model.specs.Declarations.{held, Meets};
ghost use Rattle.type_model.specs.Tables.{types_in, count, IsTable, declarations_in};
ghost use Rattle.rel_growth.specs.Compare.{EnoughToCompare};
ghost use Rattle.rel_growth.specs.Meeting.{AreVisited, IsMetMissing, IsVisited, has, held_in};

use gv_base::NoMemory;
use std::alloc::Global;
use std::collections::HashSet;
use type_growth::is_missing;
use type_model::{Field, Term, TypeId, TypeTable};

fn has(met: &HashSet<u32>, at: u32) -> bool
    ensures { result ≡ has met.now at }
{
    met.contains(&at)
}

fn note(met: &mut HashSet<u32>, at: u32) -> Result<(), NoMemory>
    ensures { OnOk result ((n : ℕ) → has met.new n ≡ cond (nat_eq at n) true (has met.old n)) }
{
    met.insert(at)?;
    Ok(())
}

fn push(list: &mut Vec<TypeId>, id: TypeId) -> Result<(), NoMemory>
    ensures { OnOk result (list.new.items ≡ list.old.items ++ id ∷ []) }
{
    list.push(id)?;
    Ok(())
}

/// Notes and lists a type, where it isn't yet.
fn visit(met: &mut HashSet<u32>, list: &mut Vec<TypeId>, id: TypeId) -> Result<(), NoMemory>
    ensures { OnOk result (IsVisited id (has met.old) list.old.items (has met.new) list.new.items) }
{
    if has(met, id.0) {
        return Ok(());
    }
    note(met, id.0)?;
    push(list, id)?;
    Ok(())
}

fn type_listed(list: &[TypeId], at: usize) -> TypeId
    requires { at < length list.now }
    ensures { slice_get list.now at ≡ Some result }
{
    list[at]
}

fn visit_all(met: &mut HashSet<u32>, list: &mut Vec<TypeId>, ids: &[TypeId]) -> Result<(), NoMemory>
    ensures { OnOk result (AreVisited ids.now (length ids.now) (has met.old) list.old.items (has met.new) list.new.items) }
{
    for k in 0..ids.len() {
        let id = type_listed(ids, k);
        visit(met, list, id)?;
    }
    Ok(())
}

fn one_type(alloc: Global, of: TypeId) -> Result<Vec<TypeId>, NoMemory>
    ensures { IfOk result (λ v. v.items ≡ of ∷ []) }
{
    let mut types = Vec::new(alloc);
    types.push(of)?;
    Ok(types)
}

fn field_types(alloc: Global, fields: &[Field]) -> Result<Vec<TypeId>, NoMemory>
    ensures { IfOk result (λ v. v.items ≡ map (λ (f : Field). f.of) fields.now) }
{
    let mut types = Vec::new(alloc);
    for field in fields {
        types.push(field.of)?;
    }
    Ok(types)
}

fn under_types(alloc: Global, under: Option<TypeId>) -> Result<Vec<TypeId>, NoMemory>
    ensures { IfOk result (λ v. v.items ≡ option_to_list under) }
{
    match under {
        Some(of) => {
            let types = one_type(alloc, of)?;
            Ok(types)
        }
        None => Ok(Vec::new(alloc)),
    }
}

/// The types that a term holds, where a name's underlying type is this one.
fn term_types(alloc: Global, term: &Term, under: Option<TypeId>) -> Result<Vec<TypeId>, NoMemory>
    ensures { IfOk result (λ v. v.items ≡ held_in term.now under) }
{
    match term {
        Term::Defined(_) => {
            let types = under_types(alloc, under)?;
            Ok(types)
        }
        Term::Array(_, of) => {
            let types = one_type(alloc, *of)?;
            Ok(types)
        }
        Term::Struct(fields) => {
            let types = field_types(alloc, fields.as_slice())?;
            Ok(types)
        }
        Term::Basic(_) => Ok(Vec::new(alloc)),
        Term::Pointer(_) => Ok(Vec::new(alloc)),
        Term::Slice(_) => Ok(Vec::new(alloc)),
        Term::Map(_, _) => Ok(Vec::new(alloc)),
        Term::Chan(_, _) => Ok(Vec::new(alloc)),
        Term::Func(_) => Ok(Vec::new(alloc)),
        Term::Interface(_) => Ok(Vec::new(alloc)),
    }
}

/// The types that a type holds, as far as names are declared.
fn held_types(alloc: Global, t: &TypeTable, a: TypeId) -> Result<Vec<TypeId>, NoMemory>
    requires table { IsTable t.now }
    requires within { a.0 < count t.now }
    ensures are { IfOk result (λ v. map (λ id. type_at (types_in t.now) id) v.items ≡ held (declarations_in t.now) (type_at (types_in t.now) a)) }
    ensures below { IfOk result (λ v. AreBelow (count t.now) v.items) }
{
    let types = term_types(alloc, t.term(a), t.underlying(a))?;
    Ok(types)
}

/// The first defined type that is met from a type and isn't declared, in the order of the search.
pub fn undeclared(alloc: Global, t: &TypeTable, a: TypeId) -> Result<Option<TypeId>, NoMemory>
    requires table { IsTable t.now }
    requires within { a.0 < count t.now }
    ensures { IfOk result (λ o. MatchOption o (EnoughToCompare (declarations_in t.now) (type_at (types_in t.now) a)) (IsMetMissing t.now (type_at (types_in t.now) a))) }
{
    let mut met = HashSet::new(alloc);
    let mut list = Vec::new(alloc);
    visit(&mut met, &mut list, a)?;
    let mut next = 0;
    while next < list.len() {
        let here = type_listed(&list, next);
        if is_missing(t, here) {
            return Ok(Some(here));
        }
        let ids = held_types(alloc, t, here)?;
        visit_all(&mut met, &mut list, &ids)?;
        next += 1;
    }
    Ok(None)
}

/// Whether a defined type is met from a type by what that holds.
pub fn is_met(alloc: Global, t: &TypeTable, of: TypeId, a: TypeId) -> Result<bool, NoMemory>
    requires table { IsTable t.now }
    requires name { of.0 < count t.now }
    requires within { a.0 < count t.now }
    ensures met { (name : ATypeName) → type_at (types_in t.now) of ≡ DefinedType name → IfOk result (λ b. IsTrue b → Meets (declarations_in t.now) name (type_at (types_in t.now) a)) }
    ensures only { (name : ATypeName) → type_at (types_in t.now) of ≡ DefinedType name → IfOk result (λ b. Meets (declarations_in t.now) name (type_at (types_in t.now) a) → IsTrue b) }
{
    let mut met = HashSet::new(alloc);
    let mut list = Vec::new(alloc);
    visit(&mut met, &mut list, a)?;
    let mut at = 0;
    while at < list.len() {
        let here = type_listed(&list, at);
        if t.same(here, of) {
            return Ok(true);
        }
        let parts = held_types(alloc, t, here)?;
        visit_all(&mut met, &mut list, &parts)?;
        at += 1;
    }
    Ok(false)
}
