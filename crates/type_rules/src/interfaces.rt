//! Interface types (Go 1.17, "Interface types").
ghost use Rattle.std.specs.Prelude.{◌≡◌, ◌++◌, ◌∷◌, [], IfOk, IfSome, OnOk, map, option_map};
ghost use Rattle.std.specs.Option.{option_copied};
ghost use Rattle.mark_walk.specs.Telling.{tell};
ghost use Rattle.type_model.specs.GoTypes.{SignatureBelow, MethodsBelow, methods_of, signature_of};
ghost use Rattle.type_model.specs.Orders.{AreInOrder};
ghost use Rattle.type_model.specs.Tables.{types_in, count, IsTable};
ghost use Rattle.typed_marks.specs.States.{IsState};
ghost use Rattle.typed_tree.specs.Basics.{HasBasics};
ghost use Rattle.unit_read.specs.Subjects.{unit_of, IsRead};
ghost use Rattle.rule_words.specs.Putting.{methods_from};
ghost use Rattle.rule_words.specs.Scenes.{sight, type_in, IsTypeOf, MayBeTypeOf, part_in, IsSeenOf, parts_in, AreSeenOf};
ghost use Rattle.rule_words.specs.Steps.{step_in, IsStepOf};
ghost use Rattle.type_rules.specs.Interfaces.{signature_told, methods_told, method_with, written_method, embedded_methods, is_method, elem_methods, elem_at, nth_methods, all_methods, in_order, interface_rule};
ghost use Rattle.type_rules.specs.Elements.{method_in};

use crate::copies::{method_copied, nth_method, signature_copied};
use crate::fields::owner_of;
use crate::ordering::methods_in_order;
use crate::params::{are_good, type_of_part};
use go_tree::{Node, NodeKind};
use gv_base::{NoMemory, Row, Text};
use package_objects::{node_of, part_count, part_of};
use rule_words::good::{gives_type, part_at, silent};
use rule_words::{Seen, Step};
use std::alloc::Global;
use type_model::{Method, Signature, Term, TypeId};
use typed_marks::State;
use unit_read::Subject;

fn add_method(s: &State, m: Method, out: &mut Vec<Method>) -> Result<(), NoMemory>
    requires of { SignatureBelow (count s.now.table) m.of }
    requires below { MethodsBelow (count s.now.table) out.old.items }
    ensures is { OnOk result (map (method_in s.now) out.new.items ≡ map (method_in s.now) out.old.items ++ method_in s.now m ∷ []) }
    ensures below { OnOk result (MethodsBelow (count s.now.table) out.new.items) }
{
    out.push(m)?;
    Ok(())
}

pub fn signature_told(s: &State, of: TypeId) -> Option<&Signature>
    requires table { IsTable s.now.table }
    requires within { IsTypeOf s.now of }
    ensures is { option_map (signature_of (types_in s.now.table)) (option_copied result) ≡ signature_told (type_in s.now of) }
    ensures below { IfSome (option_copied result) (SignatureBelow (count s.now.table)) }
{
    match s.table.term(of) {
        Term::Func(signature) => Some(signature),
        Term::Basic(_) => None,
        Term::Defined(_) => None,
        Term::Pointer(_) => None,
        Term::Slice(_) => None,
        Term::Array(_, _) => None,
        Term::Map(_, _) => None,
        Term::Chan(_, _) => None,
        Term::Struct(_) => None,
        Term::Interface(_) => None,
    }
}

/// Adds a method with this name and signature.
pub fn add_with(
    alloc: Global,
    u: &Subject,
    s: &State,
    name: &str,
    pointer: bool,
    of: &Signature,
    out: &mut Vec<Method>,
) -> Result<(), NoMemory>
    requires read { IsRead u.now }
    requires of { SignatureBelow (count s.now.table) of.now }
    requires below { MethodsBelow (count s.now.table) out.old.items }
    ensures is { OnOk result (map (method_in s.now) out.new.items ≡ map (method_in s.now) out.old.items ++ method_with (unit_of u.now) name.now pointer (signature_of (types_in s.now.table) of.now)) }
    ensures below { OnOk result (MethodsBelow (count s.now.table) out.new.items) }
{
    let package = owner_of(alloc, u, name)?;
    let name = Text::of(alloc, name)?;
    let of = signature_copied(alloc, of)?;
    let method = Method {
        name,
        package,
        pointer,
        of,
    };
    add_method(s, method, out)?;
    Ok(())
}

/// Adds a method that is written.
fn add_written(
    alloc: Global,
    u: &Subject,
    s: &State,
    name: &str,
    of: TypeId,
    out: &mut Vec<Method>,
) -> Result<(), NoMemory>
    requires read { IsRead u.now }
    requires table { IsTable s.now.table }
    requires of { IsTypeOf s.now of }
    requires below { MethodsBelow (count s.now.table) out.old.items }
    ensures is { OnOk result (map (method_in s.now) out.new.items ≡ map (method_in s.now) out.old.items ++ written_method (unit_of u.now) name.now (type_in s.now of)) }
    ensures below { OnOk result (MethodsBelow (count s.now.table) out.new.items) }
{
    if let Some(signature) = signature_told(s, of) {
        add_with(alloc, u, s, name, false, signature, out)?;
    }
    Ok(())
}

/// The methods of an interface; none of what is none.
pub fn methods_told(s: &State, of: TypeId) -> &[Method]
    requires table { IsTable s.now.table }
    requires within { IsTypeOf s.now of }
    ensures is { map (method_in s.now) result.now ≡ methods_told (type_in s.now of) }
    ensures below { MethodsBelow (count s.now.table) result.now }
{
    match s.table.term(of) {
        Term::Interface(methods) => methods.as_slice(),
        Term::Basic(_) => &[],
        Term::Defined(_) => &[],
        Term::Pointer(_) => &[],
        Term::Slice(_) => &[],
        Term::Array(_, _) => &[],
        Term::Map(_, _) => &[],
        Term::Chan(_, _) => &[],
        Term::Func(_) => &[],
        Term::Struct(_) => &[],
    }
}

fn add_copy(alloc: Global, s: &State, m: &Method, out: &mut Vec<Method>) -> Result<(), NoMemory>
    requires of { SignatureBelow (count s.now.table) m.now.of }
    requires below { MethodsBelow (count s.now.table) out.old.items }
    ensures is { OnOk result (map (method_in s.now) out.new.items ≡ map (method_in s.now) out.old.items ++ method_in s.now m.now ∷ []) }
    ensures below { OnOk result (MethodsBelow (count s.now.table) out.new.items) }
{
    let copy = method_copied(alloc, m)?;
    add_method(s, copy, out)?;
    Ok(())
}

fn add_all(
    alloc: Global,
    s: &State,
    methods: &[Method],
    out: &mut Vec<Method>,
) -> Result<(), NoMemory>
    requires methods { MethodsBelow (count s.now.table) methods.now }
    requires below { MethodsBelow (count s.now.table) out.old.items }
    ensures is { OnOk result (map (method_in s.now) out.new.items ≡ map (method_in s.now) out.old.items ++ map (method_in s.now) methods.now) }
    ensures below { OnOk result (MethodsBelow (count s.now.table) out.new.items) }
{
    for i in 0..methods.len() {
        let m = nth_method(methods, i);
        add_copy(alloc, s, m, out)?;
    }
    Ok(())
}

/// Adds the methods of an interface that is embedded.
fn add_embedded(
    alloc: Global,
    s: &State,
    under: Option<TypeId>,
    out: &mut Vec<Method>,
) -> Result<(), NoMemory>
    requires table { IsTable s.now.table }
    requires under { MayBeTypeOf s.now under }
    requires below { MethodsBelow (count s.now.table) out.old.items }
    ensures is { OnOk result (map (method_in s.now) out.new.items ≡ map (method_in s.now) out.old.items ++ embedded_methods (option_map (type_in s.now) under)) }
    ensures below { OnOk result (MethodsBelow (count s.now.table) out.new.items) }
{
    if let Some(of) = under {
        let methods = methods_told(s, of);
        add_all(alloc, s, methods, out)?;
    }
    Ok(())
}

pub fn is_method(kind: NodeKind) -> bool
    ensures { result ≡ is_method kind }
{
    match kind {
        NodeKind::Method => true,
        _ => false,
    }
}

fn add_elem(
    alloc: Global,
    u: &Subject,
    s: &State,
    file: u32,
    p: Seen,
    node: &Node,
    out: &mut Vec<Method>,
) -> Result<(), NoMemory>
    requires read { IsRead u.now }
    requires state { IsState s.now }
    requires basics { HasBasics s.now.table }
    requires part { IsSeenOf s.now p }
    requires below { MethodsBelow (count s.now.table) out.old.items }
    ensures is { OnOk result (map (method_in s.now) out.new.items ≡ map (method_in s.now) out.old.items ++ elem_methods (unit_of u.now) file (part_in s.now p) node.now) }
    ensures below { OnOk result (MethodsBelow (count s.now.table) out.new.items) }
{
    if is_method(node.kind) {
        let of = type_of_part(s, p);
        add_written(alloc, u, s, u.spelled_text(file, node.first), of, out)?;
    } else {
        add_embedded(alloc, s, p.under, out)?;
    }
    Ok(())
}

/// Adds the methods of an element of an interface.
pub fn add_at(
    alloc: Global,
    u: &Subject,
    s: &State,
    file: u32,
    p: Seen,
    n: u32,
    out: &mut Vec<Method>,
) -> Result<(), NoMemory>
    requires read { IsRead u.now }
    requires state { IsState s.now }
    requires basics { HasBasics s.now.table }
    requires part { IsSeenOf s.now p }
    requires below { MethodsBelow (count s.now.table) out.old.items }
    ensures is { OnOk result (map (method_in s.now) out.new.items ≡ map (method_in s.now) out.old.items ++ elem_at (unit_of u.now) file (part_in s.now p) n) }
    ensures below { OnOk result (MethodsBelow (count s.now.table) out.new.items) }
{
    if let Some(node) = node_of(u.nodes_at(file), n) {
        add_elem(alloc, u, s, file, p, node, out)?;
    }
    Ok(())
}

/// Adds the methods of a part of an interface.
fn add_part(
    alloc: Global,
    u: &Subject,
    s: &State,
    file: u32,
    node: &Node,
    parts: &[Seen],
    i: usize,
    out: &mut Vec<Method>,
) -> Result<(), NoMemory>
    requires read { IsRead u.now }
    requires state { IsState s.now }
    requires basics { HasBasics s.now.table }
    requires parts { AreSeenOf s.now parts.now }
    requires below { MethodsBelow (count s.now.table) out.old.items }
    ensures is { OnOk result (map (method_in s.now) out.new.items ≡ map (method_in s.now) out.old.items ++ nth_methods (unit_of u.now) file node.now (parts_in s.now parts.now) i) }
    ensures below { OnOk result (MethodsBelow (count s.now.table) out.new.items) }
{
    let p = part_at(s, parts, i);
    if let Some(n) = part_of(node, i) {
        add_at(alloc, u, s, file, p, n, out)?;
    }
    Ok(())
}

fn all_methods(
    alloc: Global,
    u: &Subject,
    s: &State,
    file: u32,
    node: &Node,
    parts: &[Seen],
) -> Result<Vec<Method>, NoMemory>
    requires read { IsRead u.now }
    requires state { IsState s.now }
    requires basics { HasBasics s.now.table }
    requires parts { AreSeenOf s.now parts.now }
    ensures are { IfOk result (λ list. map (method_in s.now) list.items ≡ all_methods (unit_of u.now) file node.now (parts_in s.now parts.now)) }
    ensures below { IfOk result (λ list. MethodsBelow (count s.now.table) list.items) }
{
    let mut out = Vec::new(alloc);
    for i in 0..part_count(node) {
        add_part(alloc, u, s, file, node, parts, i, &mut out)?;
    }
    Ok(out)
}

fn method_row(
    alloc: Global,
    u: &Subject,
    s: &State,
    file: u32,
    node: &Node,
    parts: &[Seen],
) -> Result<Vec<Method>, NoMemory>
    requires read { IsRead u.now }
    requires state { IsState s.now }
    requires basics { HasBasics s.now.table }
    requires parts { AreSeenOf s.now parts.now }
    ensures are { IfOk result (λ list. methods_of (types_in s.now.table) list.items ≡ methods_from (in_order (all_methods (unit_of u.now) file node.now (parts_in s.now parts.now)))) }
    ensures below { IfOk result (λ list. MethodsBelow (count s.now.table) list.items) }
    ensures ordered { IfOk result (λ list. AreInOrder list.items) }
{
    let all = all_methods(alloc, u, s, file, node, parts)?;
    let list = methods_in_order(alloc, s, &all)?;
    Ok(list)
}

/// An interface type.
pub fn interface(
    alloc: Global,
    u: &Subject,
    s: &State,
    file: u32,
    node: &Node,
    parts: &[Seen],
) -> Result<Step, NoMemory>
    requires read { IsRead u.now }
    requires state { IsState s.now }
    requires basics { HasBasics s.now.table }
    requires parts { AreSeenOf s.now parts.now }
    ensures is { IfOk result (λ step. step_in s.now step ≡ tell (sight s.now) (interface_rule (unit_of u.now) file node.now (parts_in s.now parts.now))) }
    ensures over { IfOk result (IsStepOf s.now) }
{
    if !are_good(s, parts, part_count(node)) {
        return Ok(silent());
    }
    let methods = method_row(alloc, u, s, file, node, parts)?;
    Ok(gives_type(Term::Interface(Row::new(methods))))
}
