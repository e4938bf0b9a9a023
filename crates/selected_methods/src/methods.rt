//! Methods by name.
ghost use Rattle.std.specs.Prelude.{◌≡◌, ◌<◌, Some, length, slice_get, option_and_then};
ghost use Rattle.std.specs.Str.{bytes_eq};
ghost use Rattle.object_order.specs.Spots.{place};
ghost use Rattle.method_sets.specs.Shown.{is_interface_type};
ghost use Rattle.type_model.specs.GoTypes.{type_at};
ghost use Rattle.type_model.specs.Tables.{IsTable, types_in, count, declarations_in};
ghost use Rattle.unit_read.specs.Methods.{method_name, part_name};
ghost use Rattle.unit_read.specs.Subjects.{unit_of, IsRead};
ghost use Rattle.selected_methods.specs.Selected.{first_called, name_in, name_of, method_at, node_named, is_interface, method_of};

use go_tree::{Node, NodeRef};
use package_objects::part_of;
use type_model::{Term, TypeId, TypeTable};
use unit_read::Subject;

fn place(file: u32, node: u32) -> NodeRef
    ensures { result ≡ place file node }
{
    NodeRef { file, node }
}

fn part_name<'a>(u: &Subject<'a>, file: u32, node: &Node) -> &'a [u8]
    ensures { result.now ≡ part_name (unit_of u.now) file node.now }
{
    match part_of(node, 1) {
        Some(n) => u.name_at(place(file, n)),
        None => &[],
    }
}

/// The name of the method that a node declares.
fn method_name<'a>(u: &Subject<'a>, at: NodeRef) -> &'a [u8]
    ensures { result.now ≡ method_name (unit_of u.now) at }
{
    match u.node_at(at) {
        Some(node) => part_name(u, at.file, node),
        None => &[],
    }
}

fn is_called(u: &Subject, name: &[u8], at: NodeRef) -> bool
    ensures { result ≡ bytes_eq (method_name (unit_of u.now) at) name.now }
{
    method_name(u, at) == name
}

fn nth(list: &[NodeRef], i: usize) -> NodeRef
    requires { i < length list.now }
    ensures { slice_get list.now i ≡ Some result }
{
    list[i]
}

/// The first of these declarations of methods that has the name.
fn first_called(u: &Subject, name: &[u8], list: &[NodeRef]) -> Option<NodeRef>
    ensures { result ≡ first_called (unit_of u.now) name.now list.now }
{
    for i in 0..list.len() {
        let at = nth(list, i);
        if is_called(u, name, at) {
            return Some(at);
        }
    }
    None
}

fn name_in(file: u32, node: &Node) -> Option<NodeRef>
    ensures { result ≡ name_in file node.now }
{
    match part_of(node, 1) {
        Some(n) => Some(place(file, n)),
        None => None,
    }
}

fn name_of(u: &Subject, at: NodeRef) -> Option<NodeRef>
    ensures { result ≡ name_of (unit_of u.now) at }
{
    match u.node_at(at) {
        Some(node) => name_in(at.file, node),
        None => None,
    }
}

fn method_at(u: &Subject, name: &[u8], t: NodeRef) -> Option<NodeRef>
    requires { IsRead u.now }
    ensures { result ≡ method_at (unit_of u.now) name.now t }
{
    match first_called(u, name, u.methods_of(t)) {
        Some(at) => name_of(u, at),
        None => None,
    }
}

fn node_named(u: &Subject, t: &TypeTable, of: TypeId) -> Option<NodeRef>
    requires read { IsRead u.now }
    requires table { IsTable t.now }
    requires within { of.0 < count t.now }
    ensures { result ≡ node_named (unit_of u.now) (type_at (types_in t.now) of) }
{
    match t.term(of) {
        Term::Defined(name) => u.type_node(name),
        Term::Basic(_) => None,
        Term::Pointer(_) => None,
        Term::Slice(_) => None,
        Term::Array(_, _) => None,
        Term::Map(_, _) => None,
        Term::Chan(_, _) => None,
        Term::Func(_) => None,
        Term::Struct(_) => None,
        Term::Interface(_) => None,
    }
}

fn is_interface_type(t: &TypeTable, under: TypeId) -> bool
    requires table { IsTable t.now }
    requires within { under.0 < count t.now }
    ensures { result ≡ is_interface_type (type_at (types_in t.now) under) }
{
    match t.term(under) {
        Term::Interface(_) => true,
        Term::Basic(_) => false,
        Term::Defined(_) => false,
        Term::Pointer(_) => false,
        Term::Slice(_) => false,
        Term::Array(_, _) => false,
        Term::Map(_, _) => false,
        Term::Chan(_, _) => false,
        Term::Func(_) => false,
        Term::Struct(_) => false,
    }
}

fn is_interface(t: &TypeTable, of: TypeId) -> bool
    requires table { IsTable t.now }
    requires within { of.0 < count t.now }
    ensures { result ≡ is_interface (declarations_in t.now) (type_at (types_in t.now) of) }
{
    match t.underlying(of) {
        Some(under) => is_interface_type(t, under),
        None => false,
    }
}

fn method_by(u: &Subject, t: &TypeTable, name: &[u8], of: TypeId) -> Option<NodeRef>
    requires read { IsRead u.now }
    requires table { IsTable t.now }
    requires within { of.0 < count t.now }
    ensures { result ≡ option_and_then (method_at (unit_of u.now) name.now) (node_named (unit_of u.now) (type_at (types_in t.now) of)) }
{
    match node_named(u, t, of) {
        Some(at) => method_at(u, name, at),
        None => None,
    }
}

/// The method of a name of a type of this package that is no interface.
pub(crate) fn method_of(u: &Subject, t: &TypeTable, name: &[u8], of: TypeId) -> Option<NodeRef>
    requires read { IsRead u.now }
    requires table { IsTable t.now }
    requires within { of.0 < count t.now }
    ensures { result ≡ method_of (unit_of u.now) (declarations_in t.now) name.now (type_at (types_in t.now) of) }
{
    if is_interface(t, of) {
        None
    } else {
        method_by(u, t, name, of)
    }
}
