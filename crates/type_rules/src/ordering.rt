//! Methods in order of name and package.
ghost use Rattle.std.specs.Prelude.{◌≡◌, ◌++◌, ◌∷◌, [], IfOk, OnOk, map};
ghost use Rattle.std.specs.BTreeMap.{IsOrdered, insert_entry};
ghost use Rattle.method_sets.specs.Notes.{key_cmp};
ghost use Rattle.type_model.specs.GoTypes.{SignatureBelow, MethodsBelow};
ghost use Rattle.type_model.specs.Orders.{AreInOrder};
ghost use Rattle.type_model.specs.Tables.{count};
ghost use Rattle.type_rules.specs.Interfaces.{name_cmp, entered, in_order};
ghost use Rattle.type_rules.specs.Elements.{method_in, entries_in, listed_methods, AreEntries};

use crate::copies::{method_copied, nth_method};
use gv_base::NoMemory;
use std::alloc::Global;
use std::collections::BTreeMap;
use type_model::Method;
use typed_marks::State;

/// Enters a method under its name and package.
fn enter<'a>(
    s: &State,
    names: &mut BTreeMap<(&'a str, &'a str), &'a Method>,
    m: &'a Method,
) -> Result<(), NoMemory>
    requires of { SignatureBelow (count s.now.table) m.now.of }
    requires entries { AreEntries s.now names.old.entries }
    ensures is { OnOk result (entries_in s.now names.new.entries ≡ insert_entry name_cmp (entries_in s.now names.old.entries) (m.now.name, m.now.«package») (method_in s.now m.now)) }
    ensures entries { OnOk result (AreEntries s.now names.new.entries) }
{
    names.insert((m.name.as_str(), m.package.as_str()), m)?;
    Ok(())
}

fn all_entered<'a>(
    alloc: Global,
    s: &State,
    methods: &'a [Method],
) -> Result<BTreeMap<(&'a str, &'a str), &'a Method>, NoMemory>
    requires { MethodsBelow (count s.now.table) methods.now }
    ensures is { IfOk result (λ names. entries_in s.now names.entries ≡ entered [] (map (method_in s.now) methods.now)) }
    ensures entries { IfOk result (λ names. AreEntries s.now names.entries) }
{
    let mut names = BTreeMap::new(alloc);
    for i in 0..methods.len() {
        let m = nth_method(methods, i);
        enter(s, &mut names, m)?;
    }
    Ok(names)
}

fn push_copy(alloc: Global, m: &Method, out: &mut Vec<Method>) -> Result<(), NoMemory>
    ensures { OnOk result (out.new.items ≡ out.old.items ++ m.now ∷ []) }
{
    let copy = method_copied(alloc, m)?;
    out.push(copy)?;
    Ok(())
}

fn listed(alloc: Global, names: &BTreeMap<(&str, &str), &Method>) -> Result<Vec<Method>, NoMemory>
    ensures are { IfOk result (λ v. v.items ≡ listed_methods names.now.entries) }
    ensures ordered { IsOrdered key_cmp names.now }
{
    let mut out = Vec::new(alloc);
    for (_name, method) in names.iter() {
        push_copy(alloc, *method, &mut out)?;
    }
    Ok(out)
}

/// The methods, each name and package once.
pub fn methods_in_order(
    alloc: Global,
    s: &State,
    methods: &[Method],
) -> Result<Vec<Method>, NoMemory>
    requires { MethodsBelow (count s.now.table) methods.now }
    ensures are { IfOk result (λ list. map (method_in s.now) list.items ≡ in_order (map (method_in s.now) methods.now)) }
    ensures below { IfOk result (λ list. MethodsBelow (count s.now.table) list.items) }
    ensures ordered { IfOk result (λ list. AreInOrder list.items) }
{
    let names = all_entered(alloc, s, methods)?;
    let list = listed(alloc, &names)?;
    Ok(list)
}
