//! Which parameters are assigned or have their address taken.
ghost use Rattle.std.specs.Prelude.{◌≡◌, ◌<◌, ◌==◌, ℕ, true, false, set, slice_get, codes, bytes_eq, length, replicate, option_and_then, if◌then◌else◌, Some, None, IfOk};
ghost use Rattle.std.specs.List.{list_any};
ghost use Rattle.std.specs.Option.{option_map_or};
ghost use Rattle.object_order.specs.Spots.{place};
ghost use Rattle.package_objects.specs.Declares.{part, items};
ghost use Rattle.unit_read.specs.Units.{nodes_at};
ghost use Rattle.findings.specs.Passes.{unit_in, IsPass};
ghost use Rattle.vet_words.specs.Forms.{bare};
ghost use Rattle.vet_printf.specs.Forwards.{local_in, denoted, denotes, is_address, left_touches, address_touches, touch_of, touches, is_touched, IsMore, AreTouched};

use findings::Pass;
use go_tree::{Node, NodeKind, NodeRef, Object};
use gv_base::NoMemory;
use package_objects::{count, item, part_of};
use std::alloc::Global;
use vet_words::bare;

/// What a node touches.
#[derive(Clone, Copy, Drop)]
pub enum Touch {
    /// What stands on its left.
    Left,
    /// Its operand, if it takes an address.
    Address,
    Never,
}

fn touch_of(kind: NodeKind) -> Touch
    ensures { result ≡ touch_of kind }
{
    match kind {
        NodeKind::Assign => Touch::Left,
        NodeKind::OpAssign => Touch::Left,
        NodeKind::Define => Touch::Left,
        NodeKind::ForRangeAssign => Touch::Left,
        NodeKind::Unary => Touch::Address,
        _ => Touch::Never,
    }
}

// ---- what names denote

fn if_in(file: u32, at: NodeRef) -> Option<u32>
    ensures { result ≡ (if at.file == file then Some at.node else None) }
{
    if at.file == file { Some(at.node) } else { None }
}

fn local_in(file: u32, object: Object) -> Option<u32>
    ensures { result ≡ local_in file object }
{
    match object {
        Object::Local(at) => if_in(file, at),
        Object::Universe(_) => None,
        Object::Import(_) => None,
        Object::Package(_) => None,
    }
}

fn bare_place(p: &Pass, file: u32, n: u32) -> NodeRef
    ensures { result ≡ place file (bare (nodes_at (unit_in p.now) file) n) }
{
    NodeRef {
        file,
        node: bare(p.subject.nodes_at(file), n),
    }
}

/// What is declared within a function of the file that a node denotes.
pub(crate) fn denoted(p: &Pass, file: u32, n: u32) -> Option<u32>
    requires { IsPass p.now }
    ensures { result ≡ denoted (unit_in p.now) file n }
{
    match p.subject.object_at(bare_place(p, file, n)) {
        Some(object) => local_in(file, object),
        None => None,
    }
}

/// Whether a node denotes what is declared at another.
pub(crate) fn denotes(p: &Pass, file: u32, at: u32, n: u32) -> bool
    requires { IsPass p.now }
    ensures { result ≡ denotes (unit_in p.now) file at n }
{
    match denoted(p, file, n) {
        Some(q) => q == at,
        None => false,
    }
}

// ---- one node

fn is_address(p: &Pass, file: u32, node: &Node) -> bool
    ensures { result ≡ is_address (unit_in p.now) file node.now }
{
    p.subject.spelled(file, node.first) == "&".as_bytes()
}

fn set_flag(row: &mut Vec<bool>, q: u32)
    requires { q < length row.old.items }
    ensures { row.new.items ≡ set row.old.items q true }
{
    row[q as usize] = true;
}

fn touch_one(row: &mut Vec<bool>, q: u32)
    ensures { IsMore (λ (m : ℕ). q == m) row.old.items row.new.items }
{
    if (q as usize) < row.as_slice().len() {
        set_flag(row, q);
        return;
    }
}

fn touch_denoted(p: &Pass, file: u32, n: u32, row: &mut Vec<bool>)
    requires { IsPass p.now }
    ensures { IsMore (λ (m : ℕ). denotes (unit_in p.now) file m n) row.old.items row.new.items }
{
    match denoted(p, file, n) {
        Some(q) => touch_one(row, q),
        None => {}
    }
}

fn touch_item(p: &Pass, file: u32, node: &Node, i: usize, row: &mut Vec<bool>)
    requires { IsPass p.now }
    ensures { IsMore (λ (m : ℕ). option_map_or (denotes (unit_in p.now) file m) (slice_get (items (nodes_at (unit_in p.now) file) (part node.now 0)) i) false) row.old.items row.new.items }
{
    match item(p.subject.nodes_at(file), part_of(node, 0), i) {
        Some(n) => touch_denoted(p, file, n, row),
        None => {}
    }
}

fn left_count(p: &Pass, file: u32, node: &Node) -> usize
    ensures { result ≡ length (items (nodes_at (unit_in p.now) file) (part node.now 0)) }
{
    count(p.subject.nodes_at(file), part_of(node, 0))
}

fn touch_left(p: &Pass, file: u32, node: &Node, row: &mut Vec<bool>)
    requires { IsPass p.now }
    ensures { IsMore (λ (m : ℕ). left_touches (unit_in p.now) file m node.now) row.old.items row.new.items }
{
    for i in 0..left_count(p, file, node) {
        touch_item(p, file, node, i, row);
    }
}

fn touch_operand(p: &Pass, file: u32, node: &Node, row: &mut Vec<bool>)
    requires { IsPass p.now }
    ensures { IsMore (λ (m : ℕ). option_map_or (denotes (unit_in p.now) file m) (part node.now 0) false) row.old.items row.new.items }
{
    match part_of(node, 0) {
        Some(n) => touch_denoted(p, file, n, row),
        None => {}
    }
}

fn touch_address(p: &Pass, file: u32, node: &Node, row: &mut Vec<bool>)
    requires { IsPass p.now }
    ensures { IsMore (λ (m : ℕ). address_touches (unit_in p.now) file m node.now) row.old.items row.new.items }
{
    if is_address(p, file, node) {
        touch_operand(p, file, node, row);
        return;
    }
}

fn touch_node(p: &Pass, file: u32, node: &Node, row: &mut Vec<bool>)
    requires { IsPass p.now }
    ensures { IsMore (λ (m : ℕ). touches (unit_in p.now) file m node.now) row.old.items row.new.items }
{
    match touch_of(node.kind) {
        Touch::Left => touch_left(p, file, node, row),
        Touch::Address => touch_address(p, file, node, row),
        Touch::Never => {}
    }
}

// ---- whether one is touched, at first hand

fn left_denotes(p: &Pass, file: u32, at: u32, node: &Node, i: usize) -> bool
    requires { IsPass p.now }
    ensures { result ≡ option_map_or (denotes (unit_in p.now) file at) (slice_get (items (nodes_at (unit_in p.now) file) (part node.now 0)) i) false }
{
    match item(p.subject.nodes_at(file), part_of(node, 0), i) {
        Some(n) => denotes(p, file, at, n),
        None => false,
    }
}

fn left_touches(p: &Pass, file: u32, at: u32, node: &Node) -> bool
    requires { IsPass p.now }
    ensures { result ≡ left_touches (unit_in p.now) file at node.now }
{
    for i in 0..left_count(p, file, node) {
        if left_denotes(p, file, at, node, i) {
            return true;
        }
    }
    false
}

fn operand_denotes(p: &Pass, file: u32, at: u32, node: &Node) -> bool
    requires { IsPass p.now }
    ensures { result ≡ option_map_or (denotes (unit_in p.now) file at) (part node.now 0) false }
{
    match part_of(node, 0) {
        Some(n) => denotes(p, file, at, n),
        None => false,
    }
}

fn address_touches(p: &Pass, file: u32, at: u32, node: &Node) -> bool
    requires { IsPass p.now }
    ensures { result ≡ address_touches (unit_in p.now) file at node.now }
{
    is_address(p, file, node) && operand_denotes(p, file, at, node)
}

fn touches(p: &Pass, file: u32, at: u32, node: &Node) -> bool
    requires { IsPass p.now }
    ensures { result ≡ touches (unit_in p.now) file at node.now }
{
    match touch_of(node.kind) {
        Touch::Left => left_touches(p, file, at, node),
        Touch::Address => address_touches(p, file, at, node),
        Touch::Never => false,
    }
}

/// Whether some node touches what is declared at a node. For what a row has no flag for, which is nothing that is declared in the file.
pub(crate) fn is_touched(p: &Pass, file: u32, at: u32) -> bool
    requires { IsPass p.now }
    ensures { result ≡ is_touched (unit_in p.now) file at }
{
    let nodes = p.subject.nodes_at(file);
    for node in nodes {
        if touches(p, file, at, node) {
            return true;
        }
    }
    false
}

// ---- a file

fn no_flags(alloc: Global, count: usize) -> Result<Vec<bool>, NoMemory>
    ensures { IfOk result (λ row. row.items ≡ replicate count false) }
{
    let row = vec![in alloc; false; count]?;
    Ok(row)
}

/// For each node of a file whether some node touches what is declared there.
pub(crate) fn touched_row(alloc: Global, p: &Pass, file: u32) -> Result<Vec<bool>, NoMemory>
    requires { IsPass p.now }
    ensures { IfOk result (λ row. AreTouched (unit_in p.now) file (length (nodes_at (unit_in p.now) file)) (nodes_at (unit_in p.now) file) row.items) }
{
    let nodes = p.subject.nodes_at(file);
    let mut row = no_flags(alloc, nodes.len())?;
    for node in nodes {
        touch_node(p, file, node, &mut row);
    }
    Ok(row)
}
