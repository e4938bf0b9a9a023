//! The methods with which types are declared (Go 1.17, "Method declarations", "Method sets").
ghost use Rattle.std.specs.Prelude.{◌≡◌, ◌++◌, ◌<◌, List, [], map, false, Some, length, slice_get, OnOk, IfOk};
ghost use Rattle.mark_walk.specs.Asks.{done};
ghost use Rattle.type_model.specs.Parts.{GoMethod};
ghost use Rattle.type_model.specs.GoTypes.{fields_of, MethodsBelow};
ghost use Rattle.type_model.specs.Tables.{types_in, count, IsTable};
ghost use Rattle.typed_tree.specs.Basics.{HasBasics};
ghost use Rattle.typed_marks.specs.States.{IsState};
ghost use Rattle.unit_read.specs.Methods.{part_name, method_name};
ghost use Rattle.unit_read.specs.Subjects.{unit_of, IsRead};
ghost use Rattle.unit_read.specs.Units.{is_blank};
ghost use Rattle.rule_words.specs.Scenes.{sight, IsScene, said, IsMarkOf, type_in, IsTypeOf};
ghost use Rattle.type_rules.specs.Elements.{method_in};
ghost use Rattle.decl_rules.specs.Methods.{same_name, is_field_of, has_field, is_left_out, first_entry, receiver_entry, entry_ask, receiver_ask, signature_ask, node_ask, method_ask, methods_ask, Gives, GivesAll};
ghost use Rattle.type_rules.specs.Structs.{owner_of};

use crate::told_methods::add_told;
use go_tree::{Node, NodeRef};
use gv_base::NoMemory;
use package_objects::{node_of, part_of};
use rule_words::look;
use std::alloc::Global;
use type_model::{Field, Method, Term, TypeId};
use type_questions::Found;
use type_rules::fields::is_exported;
use typed_marks::{Item, Mark, Stage, State};
use unit_read::Subject;

fn same_name(name: &str, owner: &str, field: &Field) -> bool
    ensures { result ≡ same_name name.now owner.now field.now.name field.now.«package» }
{
    name == field.name.as_str() && owner == field.package.as_str()
}

fn nth_field(fields: &[Field], i: usize) -> &Field
    requires { i < length fields.now }
    ensures { slice_get fields.now i ≡ Some result.now }
{
    &fields[i]
}

fn is_field_of(s: &State, name: &str, owner: &str, fields: &[Field]) -> bool
    ensures { result ≡ is_field_of name.now owner.now (fields_of (types_in s.now.table) fields.now) }
{
    let _ = s;
    for i in 0..fields.len() {
        if same_name(name, owner, nth_field(fields, i)) {
            return true;
        }
    }
    false
}

/// Whether a struct has a field of this name.
pub(crate) fn has_field(s: &State, name: &str, owner: &str, of: TypeId) -> bool
    requires table { IsTable s.now.table }
    requires within { IsTypeOf s.now of }
    ensures { result ≡ has_field name.now owner.now (type_in s.now of) }
{
    match s.table.term(of) {
        Term::Struct(fields) => is_field_of(s, name, owner, fields.as_slice()),
        Term::Basic(_) => false,
        Term::Defined(_) => false,
        Term::Pointer(_) => false,
        Term::Slice(_) => false,
        Term::Array(_, _) => false,
        Term::Map(_, _) => false,
        Term::Chan(_, _) => false,
        Term::Func(_) => false,
        Term::Interface(_) => false,
    }
}

/// The package of a name; empty for an exported one.
pub(crate) fn owner_of<'a>(u: &Subject<'a>, name: &str) -> &'a str
    requires { IsRead u.now }
    ensures { result.now ≡ owner_of (unit_of u.now) name.now }
{
    if is_exported(name) { "" } else { u.path_text() }
}

pub(crate) fn is_blank(name: &str) -> bool
    ensures { result ≡ is_blank name.now }
{
    name == "_"
}

/// Whether a method is in no set.
fn is_left_out(u: &Subject, s: &State, under: TypeId, at: NodeRef, name: &str) -> bool
    requires read { IsRead u.now }
    requires table { IsTable s.now.table }
    requires within { IsTypeOf s.now under }
    ensures { result ≡ is_left_out (unit_of u.now) (type_in s.now under) at name.now }
{
    let owner = owner_of(u, name);
    is_blank(name) || (u.is_repeated_method(at) || has_field(s, name, owner, under))
}

fn first_entry(nodes: &[Node], list: u32) -> Option<u32>
    ensures { result ≡ first_entry nodes.now list }
{
    match node_of(nodes, list) {
        Some(node) => part_of(node, 0),
        None => None,
    }
}

/// The receiver of a method.
fn receiver_entry(nodes: &[Node], node: &Node) -> Option<u32>
    ensures { result ≡ receiver_entry nodes.now node.now }
{
    match part_of(node, 0) {
        Some(list) => first_entry(nodes, list),
        None => None,
    }
}

fn entry(
    alloc: Global,
    u: &Subject,
    s: &State,
    at: NodeRef,
    name: &str,
    m: Mark,
    entry: u32,
    out: &mut Vec<Method>,
) -> Result<Option<Item>, NoMemory>
    requires scene { IsScene u.now s.now }
    requires mark { IsMarkOf s.now m }
    requires below { MethodsBelow (count s.now.table) out.old.items }
    ensures gives { IfOk result (Gives (sight s.now) (entry_ask (unit_of u.now) at name.now (said s.now m) entry) (map (method_in s.now) out.old.items) (map (method_in s.now) out.new.items)) }
    ensures below { OnOk result (MethodsBelow (count s.now.table) out.new.items) }
{
    match look(u, s, Stage::Placed, at.file as usize, entry) {
        Found::Is(r) => {
            add_told(alloc, u, s, name, m, r, out)?;
            Ok(None)
        }
        Found::Wait(item) => Ok(Some(item)),
    }
}

fn receiver(
    alloc: Global,
    u: &Subject,
    s: &State,
    at: NodeRef,
    node: &Node,
    name: &str,
    m: Mark,
    out: &mut Vec<Method>,
) -> Result<Option<Item>, NoMemory>
    requires scene { IsScene u.now s.now }
    requires mark { IsMarkOf s.now m }
    requires below { MethodsBelow (count s.now.table) out.old.items }
    ensures gives { IfOk result (Gives (sight s.now) (receiver_ask (unit_of u.now) at node.now name.now (said s.now m)) (map (method_in s.now) out.old.items) (map (method_in s.now) out.new.items)) }
    ensures below { OnOk result (MethodsBelow (count s.now.table) out.new.items) }
{
    match receiver_entry(u.nodes_at(at.file), node) {
        Some(first) => {
            let waits = entry(alloc, u, s, at, name, m, first, out)?;
            Ok(waits)
        }
        None => Ok(None),
    }
}

fn signature(
    alloc: Global,
    u: &Subject,
    s: &State,
    at: NodeRef,
    node: &Node,
    name: &str,
    out: &mut Vec<Method>,
) -> Result<Option<Item>, NoMemory>
    requires scene { IsScene u.now s.now }
    requires below { MethodsBelow (count s.now.table) out.old.items }
    ensures gives { IfOk result (Gives (sight s.now) (signature_ask (unit_of u.now) at node.now name.now) (map (method_in s.now) out.old.items) (map (method_in s.now) out.new.items)) }
    ensures below { OnOk result (MethodsBelow (count s.now.table) out.new.items) }
{
    match look(u, s, Stage::Placed, at.file as usize, at.node) {
        Found::Is(m) => {
            let waits = receiver(alloc, u, s, at, node, name, m, out)?;
            Ok(waits)
        }
        Found::Wait(item) => Ok(Some(item)),
    }
}

fn part_name<'a>(u: &Subject<'a>, file: u32, node: &Node) -> &'a str
    requires { IsRead u.now }
    ensures { result.now ≡ part_name (unit_of u.now) file node.now }
{
    match part_of(node, 1) {
        Some(n) => u.name_text(NodeRef { file, node: n }),
        None => "",
    }
}

fn method_name<'a>(u: &Subject<'a>, at: NodeRef) -> &'a str
    requires { IsRead u.now }
    ensures { result.now ≡ method_name (unit_of u.now) at }
{
    match u.node_at(at) {
        Some(node) => part_name(u, at.file, node),
        None => "",
    }
}

fn node_method(
    alloc: Global,
    u: &Subject,
    s: &State,
    under: TypeId,
    at: NodeRef,
    node: &Node,
    out: &mut Vec<Method>,
) -> Result<Option<Item>, NoMemory>
    requires scene { IsScene u.now s.now }
    requires under { IsTypeOf s.now under }
    requires below { MethodsBelow (count s.now.table) out.old.items }
    ensures gives { IfOk result (Gives (sight s.now) (node_ask (unit_of u.now) (type_in s.now under) at node.now) (map (method_in s.now) out.old.items) (map (method_in s.now) out.new.items)) }
    ensures below { OnOk result (MethodsBelow (count s.now.table) out.new.items) }
{
    let name = method_name(u, at);
    if is_left_out(u, s, under, at, name) {
        return Ok(None);
    }
    let waits = signature(alloc, u, s, at, node, name, out)?;
    Ok(waits)
}

/// Adds the method that a node declares, if it is in the set, or answers the item for which it waits.
fn method(
    alloc: Global,
    u: &Subject,
    s: &State,
    under: TypeId,
    at: NodeRef,
    out: &mut Vec<Method>,
) -> Result<Option<Item>, NoMemory>
    requires scene { IsScene u.now s.now }
    requires under { IsTypeOf s.now under }
    requires below { MethodsBelow (count s.now.table) out.old.items }
    ensures gives { IfOk result (Gives (sight s.now) (method_ask (unit_of u.now) (type_in s.now under) at) (map (method_in s.now) out.old.items) (map (method_in s.now) out.new.items)) }
    ensures below { OnOk result (MethodsBelow (count s.now.table) out.new.items) }
{
    match u.node_at(at) {
        Some(node) => {
            let waits = node_method(alloc, u, s, under, at, node, out)?;
            Ok(waits)
        }
        None => Ok(None),
    }
}

fn nth(list: &[NodeRef], i: usize) -> NodeRef
    requires { i < length list.now }
    ensures { slice_get list.now i ≡ Some result }
{
    list[i]
}

/// Adds the methods of the type whose name stands at a node, or answers an item for which one of them waits.
pub fn add_methods(
    alloc: Global,
    u: &Subject,
    s: &State,
    under: TypeId,
    name: NodeRef,
    out: &mut Vec<Method>,
) -> Result<Option<Item>, NoMemory>
    requires scene { IsScene u.now s.now }
    requires under { IsTypeOf s.now under }
    requires bare { out.old.items ≡ [] }
    ensures gives { IfOk result (GivesAll (sight s.now) (methods_ask (unit_of u.now) (type_in s.now under) name) (map (method_in s.now) out.new.items)) }
    ensures below { OnOk result (MethodsBelow (count s.now.table) out.new.items) }
{
    let methods = u.methods_of(name);
    for i in 0..methods.len() {
        let waits = method(alloc, u, s, under, nth(methods, i), out)?;
        if let Some(item) = waits {
            return Ok(Some(item));
        }
    }
    Ok(None)
}
