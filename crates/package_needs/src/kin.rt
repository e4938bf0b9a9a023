//! The methods of each type.
ghost use Rattle.std.specs.Prelude.{◌≡◌, ◌==◌, true, false, length, option_and_then, if◌then◌else◌, Some, None};
ghost use Rattle.std.specs.Option.{option_map_or};
ghost use Rattle.object_order.specs.Views.{world_of};
ghost use Rattle.package_needs.specs.Follow.{kind_at as kind_in, part_in};
ghost use Rattle.package_needs.specs.Links.{AreEnds};
ghost use Rattle.package_needs.specs.Kin.{is_star, is_names, is_method, has_methods, is_defined, type_of_one, type_by, only_type, defined, IsBaseOf, IsBaseBy, IsTarget, IsReceiverOf, IsMethodAt, method};

use crate::ends::end_of;
use crate::read::{denoted_at, entry_at, kind_at, node_at, part_at};
use go_tree::{NodeKind, NodeRef};
use object_order::{Form, View};

/// A method: the type that has it, and its name.
#[derive(Clone, Copy, Debug, PartialEq, Eq, Drop)]
pub struct Method {
    pub of: NodeRef,
    pub name: NodeRef,
}

/// Where the names of types lead: through aliases alone, and through all types of the package.
#[derive(Drop)]
pub struct Tables {
    pub near: Vec<Option<NodeRef>>,
    pub far: Vec<Option<NodeRef>>,
}

pub fn is_pointer(kind: NodeKind) -> bool
    ensures { result ≡ is_star kind }
{
    match kind {
        NodeKind::Star => true,
        _ => false,
    }
}

fn is_list_of_names(kind: NodeKind) -> bool
    ensures { result ≡ is_names kind }
{
    match kind {
        NodeKind::Names => true,
        _ => false,
    }
}

fn is_method_declaration(kind: NodeKind) -> bool
    ensures { result ≡ is_method kind }
{
    match kind {
        NodeKind::MethodDecl => true,
        _ => false,
    }
}

fn takes_methods(kind: NodeKind) -> bool
    ensures { result ≡ has_methods kind }
{
    match kind {
        NodeKind::Star => false,
        NodeKind::InterfaceType => false,
        _ => true,
    }
}

fn is_own(form: Form) -> bool
    ensures { result ≡ is_defined form }
{
    match form {
        Form::Defined => true,
        _ => false,
    }
}

fn typed_one(view: &View, at: NodeRef, name: NodeRef) -> Option<NodeRef>
    ensures { result ≡ type_of_one (world_of view.now) at name }
{
    if is_list_of_names(kind_at(view, name)) {
        return None;
    }
    part_at(view, 1, at)
}

fn typed_param(view: &View, at: NodeRef) -> Option<NodeRef>
    ensures { result ≡ option_and_then (λ name. type_of_one (world_of view.now) at name) (part_in (world_of view.now) 0 at) }
{
    match part_at(view, 0, at) {
        Some(name) => typed_one(view, at, name),
        None => None,
    }
}

/// The type of a parameter that stands for one.
fn type_in(view: &View, kind: NodeKind, at: NodeRef) -> Option<NodeRef>
    ensures { result ≡ type_by (world_of view.now) kind at }
{
    match kind {
        NodeKind::Param => typed_param(view, at),
        NodeKind::SpreadParam => None,
        _ => Some(at),
    }
}

fn is_single(view: &View, list: NodeRef) -> bool
    ensures { result ≡ option_map_or (λ node. length node.parts == 1) ((world_of view.now).node list) false }
{
    match node_at(view, list) {
        Some(node) => node.parts.as_slice().len() == 1,
        None => false,
    }
}

/// The type of the only parameter of a list.
fn sole_type(view: &View, list: NodeRef) -> Option<NodeRef>
    ensures { result ≡ only_type (world_of view.now) list }
{
    if is_single(view, list) {
        return match part_at(view, 0, list) {
            Some(at) => type_in(view, kind_at(view, at), at),
            None => None,
        };
    }
    None
}

fn own_type(view: &View, object: NodeRef) -> Option<NodeRef>
    ensures { result ≡ option_and_then (λ e. if is_defined e.form then Some object else None) ((world_of view.now).entry object) }
{
    match entry_at(view, object) {
        Some(entry) => if is_own(entry.form) {
            Some(object)
        } else {
            None
        },
        None => None,
    }
}

/// The defined type that a node denotes.
fn defined_at(view: &View, at: NodeRef) -> Option<NodeRef>
    ensures { result ≡ defined (world_of view.now) at }
{
    match denoted_at(view, at) {
        Some(object) => own_type(view, object),
        None => None,
    }
}

/// Whether a type that ends there has methods of its own.
fn is_plain(view: &View, end: Option<NodeRef>) -> bool
    ensures { result ≡ option_map_or (λ e. has_methods (kind_in (world_of view.now) e)) end true }
{
    match end {
        Some(end) => takes_methods(kind_at(view, end)),
        None => true,
    }
}

/// The defined type that a node denotes, where it has methods of its own.
fn base_at(view: &View, tables: &Tables, at: NodeRef) -> Option<NodeRef>
    requires far { AreEnds (world_of view.now) view.now.entries.items true tables.now.far.items }
    ensures { IsBaseOf (world_of view.now) at result }
{
    if is_plain(view, end_of(view, true, &tables.far, at)) {
        return defined_at(view, at);
    }
    None
}

/// What a pointer points to, followed through aliases.
fn pointed(view: &View, tables: &Tables, at: NodeRef) -> Option<NodeRef>
    requires near { AreEnds (world_of view.now) view.now.entries.items false tables.now.near.items }
    requires pointer { is_star (kind_in (world_of view.now) at) ≡ true }
    ensures { IsTarget (world_of view.now) at result }
{
    match part_at(view, 0, at) {
        Some(part) => end_of(view, false, &tables.near, part),
        None => None,
    }
}

fn base_of_pointer(view: &View, tables: &Tables, at: NodeRef) -> Option<NodeRef>
    requires near { AreEnds (world_of view.now) view.now.entries.items false tables.now.near.items }
    requires far { AreEnds (world_of view.now) view.now.entries.items true tables.now.far.items }
    requires pointer { is_star (kind_in (world_of view.now) at) ≡ true }
    ensures { IsBaseBy (world_of view.now) at result }
{
    match pointed(view, tables, at) {
        Some(to) => base_at(view, tables, to),
        None => None,
    }
}

fn base_by(view: &View, tables: &Tables, at: NodeRef) -> Option<NodeRef>
    requires near { AreEnds (world_of view.now) view.now.entries.items false tables.now.near.items }
    requires far { AreEnds (world_of view.now) view.now.entries.items true tables.now.far.items }
    ensures { IsBaseBy (world_of view.now) at result }
{
    if is_pointer(kind_at(view, at)) {
        return base_of_pointer(view, tables, at);
    }
    base_at(view, tables, at)
}

/// The type to which a receiver of this type belongs.
fn receiver_base(view: &View, tables: &Tables, at: NodeRef) -> Option<NodeRef>
    requires near { AreEnds (world_of view.now) view.now.entries.items false tables.now.near.items }
    requires far { AreEnds (world_of view.now) view.now.entries.items true tables.now.far.items }
    ensures { IsReceiverOf (world_of view.now) at result }
{
    match end_of(view, false, &tables.near, at) {
        Some(end) => base_by(view, tables, end),
        None => None,
    }
}

fn method_of(name: Option<NodeRef>, of: Option<NodeRef>) -> Option<Method>
    ensures { result ≡ method name of }
{
    match name {
        Some(name) => match of {
            Some(of) => Some(Method { of, name }),
            None => None,
        },
        None => None,
    }
}

fn receiver_at(view: &View, at: NodeRef) -> Option<NodeRef>
    ensures { result ≡ option_and_then (λ list. only_type (world_of view.now) list) (part_in (world_of view.now) 0 at) }
{
    match part_at(view, 0, at) {
        Some(list) => sole_type(view, list),
        None => None,
    }
}

/// The method that a declaration of one declares.
fn declared_method(view: &View, tables: &Tables, at: NodeRef) -> Option<Method>
    requires near { AreEnds (world_of view.now) view.now.entries.items false tables.now.near.items }
    requires far { AreEnds (world_of view.now) view.now.entries.items true tables.now.far.items }
    requires declares { is_method (kind_in (world_of view.now) at) ≡ true }
    ensures { IsMethodAt (world_of view.now) at result }
{
    match receiver_at(view, at) {
        Some(receiver) => {
            let name = part_at(view, 1, at);
            method_of(name, receiver_base(view, tables, receiver))
        }
        None => None,
    }
}

/// The method that a node declares.
pub fn method_at(view: &View, tables: &Tables, at: NodeRef) -> Option<Method>
    requires near { AreEnds (world_of view.now) view.now.entries.items false tables.now.near.items }
    requires far { AreEnds (world_of view.now) view.now.entries.items true tables.now.far.items }
    ensures { IsMethodAt (world_of view.now) at result }
{
    if is_method_declaration(kind_at(view, at)) {
        return declared_method(view, tables, at);
    }
    None
}
