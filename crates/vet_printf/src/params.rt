//! The last parameters of a declaration.
ghost use Rattle.std.specs.Prelude.{◌≡◌, ◌<◌, ◌&&◌, List, option_map, option_and_then, slice_get, IfSome};
ghost use Rattle.std.specs.Option.{option_map_or, option_copied};
ghost use Rattle.package_objects.specs.Declares.{part, items};
ghost use Rattle.type_model.specs.GoTypes.{GoType, type_at, type_of, methods_of};
ghost use Rattle.type_model.specs.Tables.{IsTable, types_in, count};
ghost use Rattle.typed_tree.specs.Places.{is_type};
ghost use Rattle.unit_read.specs.Units.{nodes_at};
ghost use Rattle.findings.specs.Passes.{unit_in, marks_in, IsPass};
ghost use Rattle.vet_printf.specs.Fitting.{is_text};
ghost use Rattle.vet_printf.specs.Forwards.{params_slot, params_part, nth_back, entry_back, is_spread_param, is_param, has_none, is_any, type_passes, part_passes, variadic_in, format_in, variadic_of, format_of};

use crate::asking::is_text;
use findings::Pass;
use go_tree::{Node, NodeKind};
use package_objects::{count, item, node_of, part_of};
use type_model::{Method, Term, TypeId, TypeTable};
use typed_tree::Mode;
use vet_words::known_at;

// ---- entries

fn params_slot(kind: NodeKind) -> Option<usize>
    ensures { result ≡ params_slot kind }
{
    match kind {
        NodeKind::FuncDecl => Some(1),
        NodeKind::MethodDecl => Some(2),
        _ => None,
    }
}

fn params_part(node: &Node) -> Option<u32>
    ensures { result ≡ params_part node.now }
{
    match params_slot(node.kind) {
        Some(slot) => part_of(node, slot),
        None => None,
    }
}

/// An item, counted from the end of a list: 1 is the last.
pub(crate) fn nth_back(list: &[u32], back: usize) -> Option<u32>
    ensures { result ≡ nth_back list.now back }
{
    if back <= list.len() {
        list.get(list.len() - back).copied()
    } else {
        None
    }
}

fn params_at<'a>(nodes: &'a [Node], node: &Node) -> Option<&'a Node>
    ensures { option_copied result ≡ option_and_then (slice_get nodes.now) (params_part node.now) }
{
    match params_part(node) {
        Some(n) => node_of(nodes, n),
        None => None,
    }
}

pub(crate) fn entry_back(nodes: &[Node], node: &Node, back: usize) -> Option<u32>
    ensures { result ≡ entry_back nodes.now node.now back }
{
    match params_at(nodes, node) {
        Some(params) => nth_back(params.parts.as_slice(), back),
        None => None,
    }
}

pub(crate) fn entry_node<'a>(nodes: &'a [Node], node: &Node, back: usize) -> Option<&'a Node>
    ensures { option_copied result ≡ option_and_then (slice_get nodes.now) (entry_back nodes.now node.now back) }
{
    match entry_back(nodes, node, back) {
        Some(n) => node_of(nodes, n),
        None => None,
    }
}

// ---- types

#[tactic(auto, using(crate::proofs::AskLemmas::methods_counted))]
fn has_none(methods: &[Method]) -> bool
    ensures { (types : List GoType) → result ≡ has_none (methods_of types methods.now) }
{
    methods.is_empty()
}

fn is_any(t: &TypeTable, of: TypeId) -> bool
    requires table { IsTable t.now }
    requires within { of.0 < count t.now }
    ensures { result ≡ is_any (type_at (types_in t.now) of) }
{
    match t.term(of) {
        Term::Interface(methods) => has_none(methods.as_slice()),
        Term::Basic(_) => false,
        Term::Defined(_) => false,
        Term::Pointer(_) => false,
        Term::Slice(_) => false,
        Term::Array(_, _) => false,
        Term::Map(_, _) => false,
        Term::Chan(_, _) => false,
        Term::Func(_) => false,
        Term::Struct(_) => false,
    }
}

fn is_type(mode: Mode) -> bool
    ensures { result ≡ is_type mode }
{
    matches!(mode, Mode::TypeName)
}

pub(crate) fn any_at(p: &Pass, file: u32, n: u32) -> bool
    requires { IsPass p.now }
    ensures { result ≡ type_passes is_any (marks_in p.now) file n }
{
    match known_at(p, file, n) {
        Some(x) => is_type(x.mode) && is_any(&p.state.table, x.of),
        None => false,
    }
}

pub(crate) fn text_at(p: &Pass, file: u32, n: u32) -> bool
    requires { IsPass p.now }
    ensures { result ≡ type_passes is_text (marks_in p.now) file n }
{
    match known_at(p, file, n) {
        Some(x) => is_type(x.mode) && is_text(&p.state.table, x.of),
        None => false,
    }
}

fn is_any_entry(p: &Pass, file: u32, entry: &Node) -> bool
    requires { IsPass p.now }
    ensures { result ≡ part_passes is_any (marks_in p.now) file entry.now }
{
    match part_of(entry, 1) {
        Some(n) => any_at(p, file, n),
        None => false,
    }
}

fn is_text_entry(p: &Pass, file: u32, entry: &Node) -> bool
    requires { IsPass p.now }
    ensures { result ≡ part_passes is_text (marks_in p.now) file entry.now }
{
    match part_of(entry, 1) {
        Some(n) => text_at(p, file, n),
        None => false,
    }
}

// ---- parameters

fn is_spread_param(kind: NodeKind) -> bool
    ensures { result ≡ is_spread_param kind }
{
    matches!(kind, NodeKind::SpreadParam)
}

fn is_param(kind: NodeKind) -> bool
    ensures { result ≡ is_param kind }
{
    matches!(kind, NodeKind::Param)
}

pub(crate) fn is_variadic(p: &Pass, file: u32, entry: &Node) -> bool
    requires { IsPass p.now }
    ensures { result ≡ (is_spread_param entry.now.kind && part_passes is_any (marks_in p.now) file entry.now) }
{
    is_spread_param(entry.kind) && is_any_entry(p, file, entry)
}

fn variadic_in(p: &Pass, file: u32, entry: &Node) -> Option<u32>
    requires { IsPass p.now }
    ensures { result ≡ variadic_in (marks_in p.now) file entry.now }
{
    if is_variadic(p, file, entry) {
        part_of(entry, 0)
    } else {
        None
    }
}

pub(crate) fn is_format(p: &Pass, file: u32, entry: &Node) -> bool
    requires { IsPass p.now }
    ensures { result ≡ (is_param entry.now.kind && part_passes is_text (marks_in p.now) file entry.now) }
{
    is_param(entry.kind) && is_text_entry(p, file, entry)
}

/// The last of the names that a part stands for.
fn last_item(nodes: &[Node], names: Option<u32>) -> Option<u32>
    ensures { result ≡ nth_back (items nodes.now names) 1 }
{
    let all = count(nodes, names);
    if 1 <= all {
        item(nodes, names, all - 1)
    } else {
        None
    }
}

fn format_in(p: &Pass, file: u32, nodes: &[Node], entry: &Node) -> Option<u32>
    requires { IsPass p.now }
    ensures { result ≡ format_in (marks_in p.now) file nodes.now entry.now }
{
    if is_format(p, file, entry) {
        last_item(nodes, part_of(entry, 0))
    } else {
        None
    }
}

/// The last parameter of a declaration, if it is `...interface{}`.
pub(crate) fn variadic_of(p: &Pass, file: u32, node: &Node) -> Option<u32>
    requires { IsPass p.now }
    ensures { result ≡ variadic_of (unit_in p.now) (marks_in p.now) file node.now }
{
    match entry_node(p.subject.nodes_at(file), node, 1) {
        Some(entry) => variadic_in(p, file, entry),
        None => None,
    }
}

/// The parameter before the last, if it is a string.
pub(crate) fn format_of(p: &Pass, file: u32, node: &Node) -> Option<u32>
    requires { IsPass p.now }
    ensures { result ≡ format_of (unit_in p.now) (marks_in p.now) file node.now }
{
    let nodes = p.subject.nodes_at(file);
    match entry_node(nodes, node, 2) {
        Some(entry) => format_in(p, file, nodes, entry),
        None => None,
    }
}
