//! Items of which nothing is said, as far as the node and its place show it: most nodes declare nothing, and many are no expressions.
ghost use Rattle.std.specs.Prelude.{◌≡◌, true};
ghost use Rattle.mark_walk.specs.Asks.{done};
ghost use Rattle.typed_marks.specs.Meanings.{Quiet};
ghost use Rattle.unit_read.specs.Subjects.{unit_of, IsRead};
ghost use Rattle.go_rules.specs.Quiet.{is_quiet_before, may_declare, declares_nothing, is_quiet_in, is_quiet_beside, is_quiet_part, is_quiet_object, is_quiet_under, is_quiet_own, is_quiet_stage, is_quiet_at, is_quiet_in_file, is_quiet};
ghost use Rattle.go_rules.specs.Stages.{rule};

use crate::family::{family_of, is_expression};
use crate::number::number;
use crate::objects::is_late;
use crate::role::{is_name, states_names};
use crate::statements::is_type_clause;
use decl_rules::declares_names;
use go_tree::{Node, NodeKind, NodeRef};
use typed_marks::{Item, Stage};
use unit_read::{Place, Subject};

// ---- before anything is wanted of it

fn is_quiet_before(node: &Node) -> bool
    ensures { result ≡ is_quiet_before node.now }
{
    if is_name(node.kind) {
        return false;
    }
    !is_expression(family_of(node.kind))
}

// ---- what is declared at it

fn may_declare(around: NodeKind, slot: usize) -> bool
    ensures { result ≡ may_declare around slot }
{
    if states_names(around, slot) {
        return true;
    }
    declares_names(around, slot)
}

fn declares_nothing(kind: NodeKind, around: NodeKind, slot: usize) -> bool
    ensures { result ≡ declares_nothing kind around slot }
{
    if is_name(kind) {
        return !may_declare(around, slot);
    }
    true
}

fn is_quiet_in(kind: NodeKind, p: Place, around: &Node) -> bool
    ensures { result ≡ is_quiet_in kind p around.now }
{
    if is_late(around.kind) {
        return false;
    }
    declares_nothing(kind, around.kind, p.slot)
}

fn is_quiet_beside(u: &Subject, at: NodeRef, node: &Node, p: Place) -> bool
    ensures { result ≡ is_quiet_beside (unit_of u.now) at node.now p }
{
    let whole = NodeRef {
        file: at.file,
        node: p.around,
    };
    match u.node_at(whole) {
        Some(around) => is_quiet_in(node.kind, p, around),
        None => false,
    }
}

fn is_quiet_part(u: &Subject, at: NodeRef, node: &Node) -> bool
    requires { IsRead u.now }
    ensures { result ≡ is_quiet_part (unit_of u.now) at node.now }
{
    match u.place_at(at) {
        Some(p) => is_quiet_beside(u, at, node, p),
        None => false,
    }
}

fn is_quiet_object(u: &Subject, at: NodeRef, node: &Node) -> bool
    requires { IsRead u.now }
    ensures { result ≡ is_quiet_object (unit_of u.now) at node.now }
{
    if is_type_clause(node.kind) {
        return false;
    }
    is_quiet_part(u, at, node)
}

/// No defined type is declared at a node.
fn is_quiet_under(u: &Subject, at: NodeRef) -> bool
    requires { IsRead u.now }
    ensures { result ≡ is_quiet_under (unit_of u.now) at }
{
    !u.local_at(at).is_some()
}

fn own_object(u: &Subject, block: usize, at: NodeRef, node: &Node) -> bool
    requires { IsRead u.now }
    ensures { result ≡ is_quiet_own block at (is_quiet_object (unit_of u.now) at node.now) }
{
    if block == at.file as usize {
        is_quiet_object(u, at, node)
    } else {
        true
    }
}

fn own_under(u: &Subject, block: usize, at: NodeRef) -> bool
    requires { IsRead u.now }
    ensures { result ≡ is_quiet_own block at (is_quiet_under (unit_of u.now) at) }
{
    if block == at.file as usize {
        is_quiet_under(u, at)
    } else {
        true
    }
}

// ---- items

fn is_quiet_stage(u: &Subject, stage: Stage, block: usize, at: NodeRef, node: &Node) -> bool
    requires { IsRead u.now }
    ensures { result ≡ is_quiet_stage stage (unit_of u.now) block at node.now }
{
    match stage {
        Stage::Before => is_quiet_before(node),
        Stage::Wanted => false,
        Stage::Judged => false,
        Stage::Placed => false,
        Stage::Object => own_object(u, block, at, node),
        Stage::Under => own_under(u, block, at),
    }
}

fn is_quiet_at(u: &Subject, item: Item, at: NodeRef) -> bool
    requires { IsRead u.now }
    ensures { result ≡ is_quiet_at (unit_of u.now) item at }
{
    match u.node_at(at) {
        Some(node) => is_quiet_stage(u, item.stage, item.block, at, node),
        None => true,
    }
}

fn is_quiet_in_file(u: &Subject, item: Item, file: u32) -> bool
    requires { IsRead u.now }
    ensures { result ≡ is_quiet_in_file (unit_of u.now) item file }
{
    match number(item.node) {
        Some(node) => is_quiet_at(u, item, NodeRef { file, node }),
        None => true,
    }
}

fn is_quiet(u: &Subject, item: Item) -> bool
    requires { IsRead u.now }
    ensures { result ≡ is_quiet (unit_of u.now) item }
{
    match u.passage_at(item.block) {
        Some(passage) => is_quiet_in_file(u, item, passage.file),
        None => true,
    }
}

/// Whether nothing is said of an item, as far as the node and its place show it.
pub fn is_quiet_item(u: &Subject, item: Item) -> bool
    requires { IsRead u.now }
    ensures is { result ≡ is_quiet (unit_of u.now) item }
    ensures none { result ≡ true → rule (unit_of u.now) item ≡ done Quiet }
{
    is_quiet(u, item)
}
