//! Which function or method a node names (Go 1.17, "Qualified identifiers", "Selectors").
ghost use Rattle.std.specs.Prelude.{◌≡◌, if◌then◌else◌, Some, None, false, option_map, option_and_then, slice_get};
ghost use Rattle.std.specs.Option.{option_copied, option_map_or};
ghost use Rattle.object_order.specs.Spots.{place};
ghost use Rattle.package_objects.specs.Declares.{part};
ghost use Rattle.unit_read.specs.Imports.{lead_at};
ghost use Rattle.unit_read.specs.Units.{node_at};
ghost use Rattle.findings.specs.Passes.{unit_in, marks_in, IsPass};
ghost use Rattle.vet_words.specs.Marked.{known_at, mode_is};
ghost use Rattle.vet_words.specs.Called.{is_function_declaration, declares_at, declares_function, own_function, named_function, path_at, path_led, package_path, object_of, owner_path, is_value, with_name, selected_function, function_of, function_at};
ghost use Rattle.vet_words.specs.InCode.{function_found};

use crate::marked::known_at;
use findings::Pass;
use go_tree::{Node, NodeKind, NodeRef, Object};
use package_faces::Interface;
use package_objects::{node_of, part_of};
use typed_tree::Mode;
use unit_read::{Lead, Place};

/// A function, by the path of its package and its name.
#[derive(Clone, Copy, Drop)]
pub struct Function<'a> {
    pub path: &'a str,
    pub name: &'a str,
}

fn place(file: u32, node: u32) -> NodeRef
    ensures { result ≡ place file node }
{
    NodeRef { file, node }
}

// ---- functions of the package itself

fn is_function_declaration(kind: NodeKind) -> bool
    ensures { result ≡ is_function_declaration kind }
{
    matches!(kind, NodeKind::FuncDecl)
}

fn is_declaration(p: &Pass, at: NodeRef) -> bool
    ensures { result ≡ option_map_or (λ node. is_function_declaration node.kind) (node_at (unit_in p.now) at) false }
{
    match p.subject.node_at(at) {
        Some(node) => is_function_declaration(node.kind),
        None => false,
    }
}

fn declares_at(p: &Pass, name: NodeRef, at: Place) -> bool
    ensures { result ≡ declares_at (unit_in p.now) name at }
{
    at.slot == 0 && is_declaration(p, place(name.file, at.around))
}

fn declares_function(p: &Pass, name: NodeRef) -> bool
    requires { IsPass p.now }
    ensures { result ≡ declares_function (unit_in p.now) name }
{
    match p.subject.place_at(name) {
        Some(at) => declares_at(p, name, at),
        None => false,
    }
}

fn own_function<'a>(p: &Pass<'a>, name: &'a str, object: Object) -> Option<Function<'a>>
    requires { IsPass p.now }
    ensures { function_found result ≡ own_function (unit_in p.now) name.now object }
{
    match object {
        Object::Package(at) => function_if(declares_function(p, at), p.subject.path_text(), name),
        Object::Universe(_) => None,
        Object::Import(_) => None,
        Object::Local(_) => None,
    }
}

fn function_if<'a>(holds: bool, path: &'a str, name: &'a str) -> Option<Function<'a>>
    ensures { function_found result ≡ (if holds then Some (path.now, name.now) else None) }
{
    if holds {
        Some(Function { path, name })
    } else {
        None
    }
}

fn object_of(p: &Pass, file: u32, n: u32) -> Option<Object>
    requires { IsPass p.now }
    ensures { result ≡ object_of (unit_in p.now) file n }
{
    p.subject.object_at(place(file, n))
}

/// A function of the package itself.
fn named_function<'a>(p: &Pass<'a>, file: u32, n: u32, node: &Node) -> Option<Function<'a>>
    requires { IsPass p.now }
    ensures { function_found result ≡ named_function (unit_in p.now) file n node.now }
{
    match object_of(p, file, n) {
        Some(object) => own_function(p, p.subject.spelled_text(file, node.first), object),
        None => None,
    }
}

// ---- functions of other packages

fn interface_at<'a>(p: &Pass<'a>, i: usize) -> Option<&'a Interface>
    ensures { option_copied result ≡ slice_get p.now.subject.now.env.now.interfaces.now i }
{
    p.subject.env.interfaces.get(i)
}

fn path_at<'a>(p: &Pass<'a>, i: usize) -> Option<&'a str>
    ensures { option_copied result ≡ path_at (unit_in p.now) i }
{
    match interface_at(p, i) {
        Some(face) => Some(face.path.as_str()),
        None => None,
    }
}

fn path_led<'a>(p: &Pass<'a>, lead: Lead) -> Option<&'a str>
    ensures { option_copied result ≡ path_led (unit_in p.now) lead }
{
    match lead.interface {
        Some(i) => path_at(p, i),
        None => None,
    }
}

fn imported_path<'a>(p: &Pass<'a>, at: NodeRef) -> Option<&'a str>
    requires { IsPass p.now }
    ensures { option_copied result ≡ option_and_then (path_led (unit_in p.now)) (lead_at (unit_in p.now) at) }
{
    match p.subject.lead_at(at) {
        Some(lead) => path_led(p, lead),
        None => None,
    }
}

/// The path of the package that a name denotes.
fn package_path<'a>(p: &Pass<'a>, object: Object) -> Option<&'a str>
    requires { IsPass p.now }
    ensures { option_copied result ≡ package_path (unit_in p.now) object }
{
    match object {
        Object::Import(at) => imported_path(p, at),
        Object::Package(_) => None,
        Object::Universe(_) => None,
        Object::Local(_) => None,
    }
}

fn part_object(p: &Pass, file: u32, node: &Node) -> Option<Object>
    requires { IsPass p.now }
    ensures { result ≡ option_and_then (object_of (unit_in p.now) file) (part node.now 0) }
{
    match part_of(node, 0) {
        Some(n) => object_of(p, file, n),
        None => None,
    }
}

fn owner_path<'a>(p: &Pass<'a>, file: u32, node: &Node) -> Option<&'a str>
    requires { IsPass p.now }
    ensures { option_copied result ≡ owner_path (unit_in p.now) file node.now }
{
    match part_object(p, file, node) {
        Some(object) => package_path(p, object),
        None => None,
    }
}

fn is_value(mode: Mode) -> bool
    ensures { result ≡ is_value mode }
{
    matches!(mode, Mode::Value)
}

fn is_value_at(p: &Pass, file: u32, n: u32) -> bool
    requires { IsPass p.now }
    ensures { result ≡ mode_is is_value (known_at (marks_in p.now) file n) }
{
    match known_at(p, file, n) {
        Some(x) => is_value(x.mode),
        None => false,
    }
}

fn with_name<'a>(name: &'a str, path: Option<&'a str>) -> Option<Function<'a>>
    ensures { function_found result ≡ option_map (with_name name.now) (option_copied path.entry) }
{
    match path {
        Some(path) => Some(Function { path, name }),
        None => None,
    }
}

fn selected_function<'a>(p: &Pass<'a>, file: u32, n: u32, node: &Node) -> Option<Function<'a>>
    requires { IsPass p.now }
    ensures { function_found result ≡ selected_function (unit_in p.now) (marks_in p.now) file n node.now }
{
    if is_value_at(p, file, n) {
        with_name(
            p.subject.spelled_text(file, node.last),
            owner_path(p, file, node),
        )
    } else {
        None
    }
}

fn function_of<'a>(p: &Pass<'a>, file: u32, n: u32, node: &Node) -> Option<Function<'a>>
    requires { IsPass p.now }
    ensures { function_found result ≡ function_of (unit_in p.now) (marks_in p.now) file n node.now }
{
    match node.kind {
        NodeKind::Name => named_function(p, file, n, node),
        NodeKind::Selector => selected_function(p, file, n, node),
        _ => None,
    }
}

/// The function that a node names.
pub fn function_at<'a>(p: &Pass<'a>, file: u32, n: u32) -> Option<Function<'a>>
    requires { IsPass p.now }
    ensures { function_found result ≡ function_at (unit_in p.now) (marks_in p.now) file n }
{
    match node_of(p.subject.nodes_at(file), n) {
        Some(node) => function_of(p, file, n, node),
        None => None,
    }
}
