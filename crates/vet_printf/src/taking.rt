//! Whether a declared function takes what a kind of printing asks for: its parameters may have names or none.
ghost use Rattle.std.specs.Prelude.{◌≡◌, ◌==◌, ◌&&◌, ◌||◌, false, option_and_then, slice_get};
ghost use Rattle.std.specs.Option.{option_map_or};
ghost use Rattle.unit_read.specs.Units.{nodes_at};
ghost use Rattle.findings.specs.Passes.{unit_in, marks_in, IsPass};
ghost use Rattle.vet_printf.specs.Forwards.{entry_back, is_any, is_spread_type, first_passes, is_rest, ends_in_rest, is_text_group, is_text_entry, has_text_before, takes_kind};

use crate::params::{any_at, entry_back, entry_node, is_format, is_variadic, text_at};
use findings::Pass;
use go_tree::{Node, NodeKind};
use package_objects::{node_of, part_of};

fn is_spread_type(kind: NodeKind) -> bool
    ensures { result ≡ is_spread_type kind }
{
    matches!(kind, NodeKind::Variadic)
}

fn is_first_any(p: &Pass, file: u32, entry: &Node) -> bool
    requires { IsPass p.now }
    ensures { result ≡ first_passes is_any (marks_in p.now) file entry.now }
{
    match part_of(entry, 0) {
        Some(n) => any_at(p, file, n),
        None => false,
    }
}

fn is_nameless_rest(p: &Pass, file: u32, entry: &Node) -> bool
    requires { IsPass p.now }
    ensures { result ≡ (is_spread_type entry.now.kind && first_passes is_any (marks_in p.now) file entry.now) }
{
    is_spread_type(entry.kind) && is_first_any(p, file, entry)
}

fn is_rest(p: &Pass, file: u32, entry: &Node) -> bool
    requires { IsPass p.now }
    ensures { result ≡ is_rest (marks_in p.now) file entry.now }
{
    is_variadic(p, file, entry) || is_nameless_rest(p, file, entry)
}

fn ends_in_rest(p: &Pass, file: u32, node: &Node) -> bool
    requires { IsPass p.now }
    ensures { result ≡ ends_in_rest (unit_in p.now) (marks_in p.now) file node.now }
{
    match entry_node(p.subject.nodes_at(file), node, 1) {
        Some(entry) => is_rest(p, file, entry),
        None => false,
    }
}

fn is_text_group_at(p: &Pass, file: u32, nodes: &[Node], n: u32) -> bool
    requires { IsPass p.now }
    ensures { result ≡ option_map_or (is_text_group (marks_in p.now) file) (slice_get nodes.now n) false }
{
    match node_of(nodes, n) {
        Some(entry) => is_format(p, file, entry),
        None => false,
    }
}

fn is_text_entry(p: &Pass, file: u32, nodes: &[Node], n: u32) -> bool
    requires { IsPass p.now }
    ensures { result ≡ is_text_entry (marks_in p.now) file nodes.now n }
{
    text_at(p, file, n) || is_text_group_at(p, file, nodes, n)
}

fn has_text_before(p: &Pass, file: u32, node: &Node) -> bool
    requires { IsPass p.now }
    ensures { result ≡ has_text_before (unit_in p.now) (marks_in p.now) file node.now }
{
    match entry_back(p.subject.nodes_at(file), node, 2) {
        Some(n) => is_text_entry(p, file, p.subject.nodes_at(file), n),
        None => false,
    }
}

fn has_before(p: &Pass, file: u32, node: &Node, kind: u8) -> bool
    requires { IsPass p.now }
    ensures { result ≡ ((kind == 1) || has_text_before (unit_in p.now) (marks_in p.now) file node.now) }
{
    kind == 1 || has_text_before(p, file, node)
}

/// Whether the last parameter is `...interface{}`, with a string before it where the kind has a format.
pub(crate) fn takes_kind(p: &Pass, file: u32, node: &Node, kind: u8) -> bool
    requires { IsPass p.now }
    ensures { result ≡ takes_kind (unit_in p.now) (marks_in p.now) file node.now kind }
{
    ends_in_rest(p, file, node) && has_before(p, file, node, kind)
}
