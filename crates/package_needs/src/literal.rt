//! The types of composite literals, and which names before colons are field keys.
ghost use Rattle.std.specs.Prelude.{◌≡◌, ◌==◌, true, false, option_and_then, Option, if◌then◌else◌, unwrap_or, Some, None};
ghost use Rattle.object_order.specs.Views.{world_of};
ghost use Rattle.package_needs.specs.Follow.{kind_at as kind_in, part_in, Ends};
ghost use Rattle.package_needs.specs.Links.{AreEnds};
ghost use Rattle.package_needs.specs.Keys.{above, up, is_value, is_composite, is_struct, is_part_at, held_in, held, written_in, written, inner_place, inner_of, elided, IsInnerOf, AreAbove, number_at};

use crate::ends::end_of;
use crate::kin::is_pointer;
use crate::read::{beside, kind_at, part_at};
use go_tree::{NodeKind, NodeRef};
use object_order::View;

/// The braces of the literal in which a node stands, and whether it is a key there.
#[derive(Clone, Copy, Debug, PartialEq, Eq, Drop)]
pub struct Held {
    pub braces: NodeRef,
    pub key: bool,
}

fn is_braces(kind: NodeKind) -> bool
    ensures { result ≡ is_value kind }
{
    match kind {
        NodeKind::Value => true,
        _ => false,
    }
}

fn is_literal(kind: NodeKind) -> bool
    ensures { result ≡ is_composite kind }
{
    match kind {
        NodeKind::Composite => true,
        _ => false,
    }
}

pub fn is_struct_type(kind: NodeKind) -> bool
    ensures { result ≡ is_struct kind }
{
    match kind {
        NodeKind::StructType => true,
        _ => false,
    }
}

fn above_at(table: &Vec<Option<u32>>, n: u32) -> Option<u32>
    ensures { result ≡ number_at table.now.items n }
{
    match table.get(n as usize) {
        Some(above) => *above,
        None => None,
    }
}

/// The node of which this one is a part.
fn up_from(view: &View, table: &Vec<Option<u32>>, at: NodeRef) -> Option<NodeRef>
    requires above { AreAbove view.now.trees.now at.file table.now.items }
    ensures { result ≡ up view.now.trees.now at }
{
    match above_at(table, at.node) {
        Some(n) => Some(beside(at, n)),
        None => None,
    }
}

fn is_part(view: &View, i: usize, at: NodeRef, part: NodeRef) -> bool
    ensures { result ≡ is_part_at (world_of view.now) i at part }
{
    match part_at(view, i, at) {
        Some(p) => p.node == part.node,
        None => false,
    }
}

fn pair_in(view: &View, at: NodeRef, pair: NodeRef, braces: NodeRef) -> Option<Held>
    ensures { result ≡ (if is_value (kind_in (world_of view.now) braces) then Some (record { braces = braces; key = is_part_at (world_of view.now) 0 pair at }) else None) }
{
    if is_braces(kind_at(view, braces)) {
        let key = is_part(view, 0, pair, at);
        return Some(Held { braces, key });
    }
    None
}

fn held_by_pair(view: &View, table: &Vec<Option<u32>>, at: NodeRef, pair: NodeRef) -> Option<Held>
    requires above { AreAbove view.now.trees.now pair.file table.now.items }
    ensures { result ≡ option_and_then (λ v. if is_value (kind_in (world_of view.now) v) then Some (record { braces = v; key = is_part_at (world_of view.now) 0 pair at }) else None) (up view.now.trees.now pair) }
{
    match up_from(view, table, pair) {
        Some(braces) => pair_in(view, at, pair, braces),
        None => None,
    }
}

fn held_by(
    view: &View,
    table: &Vec<Option<u32>>,
    at: NodeRef,
    kind: NodeKind,
    p: NodeRef,
) -> Option<Held>
    requires above { AreAbove view.now.trees.now p.file table.now.items }
    ensures { result ≡ held_in (world_of view.now) (up view.now.trees.now) at kind p }
{
    match kind {
        NodeKind::Value => Some(Held {
            braces: p,
            key: false,
        }),
        NodeKind::KeyValue => held_by_pair(view, table, at, p),
        _ => None,
    }
}

/// The braces in which a node stands.
pub fn held_at(view: &View, table: &Vec<Option<u32>>, at: NodeRef) -> Option<Held>
    requires above { AreAbove view.now.trees.now at.file table.now.items }
    ensures { result ≡ held (world_of view.now) (up view.now.trees.now) at }
{
    match up_from(view, table, at) {
        Some(p) => held_by(view, table, at, kind_at(view, p), p),
        None => None,
    }
}

/// The type before these braces, if they are those of the literal.
fn typed_before(view: &View, at: NodeRef, p: NodeRef) -> Option<NodeRef>
    ensures { result ≡ (if is_part_at (world_of view.now) 1 p at then part_in (world_of view.now) 0 p else None) }
{
    if is_part(view, 1, p, at) {
        return part_at(view, 0, p);
    }
    None
}

fn written_by(view: &View, at: NodeRef, p: NodeRef) -> Option<NodeRef>
    ensures { result ≡ written_in (world_of view.now) at p }
{
    if is_literal(kind_at(view, p)) {
        return typed_before(view, at, p);
    }
    None
}

/// The type that is written before the braces.
pub fn written_at(view: &View, table: &Vec<Option<u32>>, at: NodeRef) -> Option<NodeRef>
    requires above { AreAbove view.now.trees.now at.file table.now.items }
    ensures { result ≡ written (world_of view.now) (up view.now.trees.now) at }
{
    match up_from(view, table, at) {
        Some(p) => written_by(view, at, p),
        None => None,
    }
}

fn place_of_inner(key: bool, kind: NodeKind) -> Option<usize>
    ensures { result ≡ inner_place key kind }
{
    match (key, kind) {
        (true, NodeKind::MapType) => Some(0),
        (false, NodeKind::MapType) => Some(1),
        (false, NodeKind::ArrayType) => Some(1),
        (false, NodeKind::SliceType) => Some(0),
        (false, NodeKind::DotsType) => Some(0),
        _ => None,
    }
}

fn inner_at(view: &View, key: bool, end: NodeRef) -> Option<NodeRef>
    ensures { result ≡ inner_of (world_of view.now) key end }
{
    match place_of_inner(key, kind_at(view, end)) {
        Some(i) => part_at(view, i, end),
        None => None,
    }
}

fn target_of(view: &View, t: NodeRef, end: NodeRef) -> NodeRef
    ensures { result ≡ unwrap_or (part_in (world_of view.now) 0 end) t }
{
    match part_at(view, 0, end) {
        Some(to) => to,
        None => t,
    }
}

fn elided_by(view: &View, t: NodeRef, end: Option<NodeRef>) -> NodeRef
    ensures { result ≡ elided (world_of view.now) t end }
{
    match end {
        Some(end) => if is_pointer(kind_at(view, end)) {
            target_of(view, t, end)
        } else {
            t
        },
        None => t,
    }
}

fn inner_by(
    view: &View,
    far: &Vec<Option<NodeRef>>,
    key: bool,
    of: NodeRef,
    end: NodeRef,
) -> Option<NodeRef>
    requires far { AreEnds (world_of view.now) view.now.entries.items true far.now.items }
    requires ends { Ends (world_of view.now) true of end }
    ensures { IsInnerOf (world_of view.now) key of result }
{
    match inner_at(view, key, end) {
        Some(part) => {
            let last = end_of(view, true, far, part);
            Some(elided_by(view, part, last))
        }
        None => None,
    }
}

/// The type of a literal that leaves out its own among the elements or keys of one of this type.
pub fn inner_type(
    view: &View,
    far: &Vec<Option<NodeRef>>,
    key: bool,
    of: NodeRef,
) -> Option<NodeRef>
    requires far { AreEnds (world_of view.now) view.now.entries.items true far.now.items }
    ensures { IsInnerOf (world_of view.now) key of result }
{
    match end_of(view, true, far, of) {
        Some(end) => inner_by(view, far, key, of, end),
        None => None,
    }
}
