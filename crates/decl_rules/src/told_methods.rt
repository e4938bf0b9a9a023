//! Methods as their marks tell them (Go 1.17, "Method declarations").
ghost use Rattle.std.specs.Prelude.{◌≡◌, ◌++◌, map, OnOk};
ghost use Rattle.type_model.specs.GoTypes.{MethodsBelow};
ghost use Rattle.type_model.specs.Tables.{count, IsTable};
ghost use Rattle.unit_read.specs.Subjects.{unit_of, IsRead};
ghost use Rattle.rule_words.specs.Scenes.{said, IsMarkOf, type_in, IsTypeOf};
ghost use Rattle.rule_words.specs.Good.{known_of, AreFactsOf};
ghost use Rattle.type_rules.specs.Elements.{method_in};
ghost use Rattle.decl_rules.specs.Methods.{is_pointer, unknown_method, signed_method, received_method, told_method};

use gv_base::NoMemory;
use rule_words::good::known;
use std::alloc::Global;
use type_answers::no_signature;
use type_model::{Method, Term, TypeId};
use type_rules::interfaces::{add_with, signature_told};
use typed_marks::{Facts, Mark, State};
use unit_read::Subject;

fn is_pointer(s: &State, of: TypeId) -> bool
    requires table { IsTable s.now.table }
    requires within { IsTypeOf s.now of }
    ensures { result ≡ is_pointer (type_in s.now of) }
{
    match s.table.term(of) {
        Term::Pointer(_) => true,
        Term::Basic(_) => false,
        Term::Defined(_) => false,
        Term::Slice(_) => false,
        Term::Array(_, _) => false,
        Term::Map(_, _) => false,
        Term::Chan(_, _) => false,
        Term::Func(_) => false,
        Term::Struct(_) => false,
        Term::Interface(_) => false,
    }
}

/// Adds a method whose signature isn't known.
fn add_unknown(
    alloc: Global,
    u: &Subject,
    s: &State,
    name: &str,
    r: Facts,
    out: &mut Vec<Method>,
) -> Result<(), NoMemory>
    requires read { IsRead u.now }
    requires table { IsTable s.now.table }
    requires receiver { AreFactsOf s.now r }
    requires below { MethodsBelow (count s.now.table) out.old.items }
    ensures is { OnOk result (map (method_in s.now) out.new.items ≡ map (method_in s.now) out.old.items ++ unknown_method (unit_of u.now) name.now (known_of s.now r)) }
    ensures below { OnOk result (MethodsBelow (count s.now.table) out.new.items) }
{
    let of = no_signature(alloc);
    add_with(alloc, u, s, name, is_pointer(s, r.of), &of, out)?;
    Ok(())
}

fn add_signed(
    alloc: Global,
    u: &Subject,
    s: &State,
    name: &str,
    x: Facts,
    r: Facts,
    out: &mut Vec<Method>,
) -> Result<(), NoMemory>
    requires read { IsRead u.now }
    requires table { IsTable s.now.table }
    requires of { AreFactsOf s.now x }
    requires receiver { AreFactsOf s.now r }
    requires below { MethodsBelow (count s.now.table) out.old.items }
    ensures is { OnOk result (map (method_in s.now) out.new.items ≡ map (method_in s.now) out.old.items ++ signed_method (unit_of u.now) name.now (known_of s.now x) (known_of s.now r)) }
    ensures below { OnOk result (MethodsBelow (count s.now.table) out.new.items) }
{
    match signature_told(s, x.of) {
        Some(of) => {
            add_with(alloc, u, s, name, is_pointer(s, r.of), of, out)?;
        }
        None => {
            add_unknown(alloc, u, s, name, r, out)?;
        }
    }
    Ok(())
}

fn add_received(
    alloc: Global,
    u: &Subject,
    s: &State,
    name: &str,
    m: Mark,
    r: Facts,
    out: &mut Vec<Method>,
) -> Result<(), NoMemory>
    requires read { IsRead u.now }
    requires table { IsTable s.now.table }
    requires mark { IsMarkOf s.now m }
    requires receiver { AreFactsOf s.now r }
    requires below { MethodsBelow (count s.now.table) out.old.items }
    ensures is { OnOk result (map (method_in s.now) out.new.items ≡ map (method_in s.now) out.old.items ++ received_method (unit_of u.now) name.now (said s.now m) (known_of s.now r)) }
    ensures below { OnOk result (MethodsBelow (count s.now.table) out.new.items) }
{
    match known(s, m) {
        Some(facts) => {
            add_signed(alloc, u, s, name, facts, r, out)?;
        }
        None => {
            add_unknown(alloc, u, s, name, r, out)?;
        }
    }
    Ok(())
}

/// Adds the method of this mark, whose receiver has that mark.
pub(crate) fn add_told(
    alloc: Global,
    u: &Subject,
    s: &State,
    name: &str,
    m: Mark,
    r: Mark,
    out: &mut Vec<Method>,
) -> Result<(), NoMemory>
    requires read { IsRead u.now }
    requires table { IsTable s.now.table }
    requires mark { IsMarkOf s.now m }
    requires receiver { IsMarkOf s.now r }
    requires below { MethodsBelow (count s.now.table) out.old.items }
    ensures is { OnOk result (map (method_in s.now) out.new.items ≡ map (method_in s.now) out.old.items ++ told_method (unit_of u.now) name.now (said s.now m) (said s.now r)) }
    ensures below { OnOk result (MethodsBelow (count s.now.table) out.new.items) }
{
    if let Some(facts) = known(s, r) {
        add_received(alloc, u, s, name, m, facts, out)?;
    }
    Ok(())
}
