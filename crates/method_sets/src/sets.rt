//! The method set of a type.
ghost use Rattle.std.specs.Prelude.{◌≡◌, ◌<◌, ◌++◌, IfOk, OnOk, List};
ghost use Rattle.std.specs.BTreeMap.{IsOrdered};
ghost use Rattle.std.specs.Option.{option_copied, option_to_list};
ghost use Rattle.type_model.specs.GoTypes.{GoType, type_at};
ghost use Rattle.type_model.specs.Tables.{IsTable, types_in, count, declarations_in};
ghost use Rattle.method_sets.specs.Paths.{base, IsDefinedPointer, Opens};
ghost use Rattle.method_sets.specs.Selections.{IsMethodSet};
ghost use Rattle.method_sets.specs.Shown.{IsReached};
ghost use Rattle.method_sets.specs.Notes.{key_cmp, seen, pick, picked};

use crate::note::{Note, note_entries};
use crate::opening::{defined_pointer, opened};
use crate::search::Entry;
use crate::selecting::signature_copied;
use crate::walk::{begin, expand, is_pointer};
use gv_base::NoMemory;
use std::alloc::Global;
use std::collections::{BTreeMap, HashMap};
use type_model::{Method, TypeId, TypeTable};

/// All types that paths from a type lead to, each once.
pub fn reach(alloc: Global, t: &TypeTable, at: TypeId) -> Result<Vec<Entry>, NoMemory>
    requires table { IsTable t.now }
    requires within { at.0 < count t.now }
    ensures { IfOk result (λ v. IsReached t.now (type_at (types_in t.now) at) v.items) }
{
    let mut entries = Vec::new(alloc);
    let mut numbers = HashMap::new(alloc);
    begin(t, &mut entries, &mut numbers, at)?;
    let mut i = 0;
    while i < entries.len() {
        expand(t, &mut entries, &mut numbers, i)?;
        i += 1;
    }
    Ok(entries)
}

fn method_copied(alloc: Global, of: &Method) -> Result<Method, NoMemory>
    ensures { IfOk result (λ m. m ≡ of.now) }
{
    let name = of.name.copy(alloc)?;
    let package = of.package.copy(alloc)?;
    let signature = signature_copied(alloc, &of.of)?;
    Ok(Method {
        name,
        package,
        pointer: of.pointer,
        of: signature,
    })
}

/// The method of the set that stands under a name, if one does: one path of least length leads to it,
/// and its receiver is a value, or the type or the path has a pointer.
fn chosen<'a>(note: &Note<'a>, pointer: bool) -> Option<&'a Method>
    ensures { option_copied result ≡ pick pointer (seen note.now) }
{
    if note.entry.several || note.again {
        return None;
    }
    let method = note.method?;
    if method.pointer && !pointer && !note.entry.indirect {
        return None;
    }
    Some(method)
}

/// The method that a note gives to the set, after the others.
fn push_chosen(
    alloc: Global,
    methods: &mut Vec<Method>,
    note: &Note<'_>,
    pointer: bool,
) -> Result<(), NoMemory>
    ensures { OnOk result (methods.new.items ≡ methods.old.items ++ option_to_list (pick pointer (seen note.now))) }
{
    if let Some(method) = chosen(note, pointer) {
        let copy = method_copied(alloc, method)?;
        methods.push(copy)?;
    }
    Ok(())
}

/// The methods of the set, in order of name and package.
fn taken(
    alloc: Global,
    names: &BTreeMap<(&str, &str), Note<'_>>,
    pointer: bool,
) -> Result<Vec<Method>, NoMemory>
    ensures are { IfOk result (λ v. v.items ≡ picked pointer names.now.entries) }
    ensures ordered { IsOrdered key_cmp names.now }
{
    let mut methods = Vec::new(alloc);
    for (_name, note) in names.iter() {
        push_chosen(alloc, &mut methods, note, pointer)?;
    }
    Ok(methods)
}

/// The methods of the set, from all types that paths lead to.
pub fn set_over(
    alloc: Global,
    t: &TypeTable,
    of: TypeId,
    entries: &[Entry],
) -> Result<Vec<Method>, NoMemory>
    requires table { IsTable t.now }
    requires within { of.0 < count t.now }
    requires plain { (p : GoType) → ¬ IsDefinedPointer (declarations_in t.now) (type_at (types_in t.now) of) p }
    requires open { Opens (declarations_in t.now) (type_at (types_in t.now) of) (base (type_at (types_in t.now) of)) }
    requires reached { IsReached t.now (base (type_at (types_in t.now) of)) entries.now }
    ensures { IfOk result (λ v. IsMethodSet t.now (type_at (types_in t.now) of) v.items) }
{
    let names = note_entries(alloc, t, entries)?;
    let methods = taken(alloc, &names, is_pointer(t, of))?;
    Ok(methods)
}

/// The method set of a type (Go 1.17, "Method sets"), with the methods that embedded fields promote
/// ("Struct types"), in order of name and package. A method with a pointer receiver is in the set of a
/// pointer type, or where an embedded pointer leads to it. Interfaces have the methods that they name, a
/// pointer to one and a defined pointer type have none.
///
/// Each type is visited once, however many paths lead to it.
pub fn method_set(alloc: Global, t: &TypeTable, of: TypeId) -> Result<Vec<Method>, NoMemory>
    requires table { IsTable t.now }
    requires within { of.0 < count t.now }
    ensures { IfOk result (λ v. IsMethodSet t.now (type_at (types_in t.now) of) v.items) }
{
    if defined_pointer(t, of).is_some() {
        return Ok(Vec::new(alloc));
    }
    let Some(start) = opened(t, of) else {
        return Ok(Vec::new(alloc));
    };
    let entries = reach(alloc, t, start)?;
    let methods = set_over(alloc, t, of, &entries)?;
    Ok(methods)
}
