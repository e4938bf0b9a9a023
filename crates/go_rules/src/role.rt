//! What a node is where it stands, and what its place makes of it.
ghost use Rattle.std.specs.Prelude.{◌≡◌};
ghost use Rattle.object_order.specs.Spots.{place};
ghost use Rattle.unit_read.specs.Subjects.{unit_of, IsRead};
ghost use Rattle.assign_rules.specs.Around.{outermost};
ghost use Rattle.go_rules.specs.Roles.{is_name, states_names, stated_role, takes_in, takes_beside, is_assigned, is_dropped, is_key, used_role, blank_or_use, key_or_use, declared_or_use, stated_or_use, name_role, role_of, role_in, role_beside, role_at, clause_for, is_method, element_placing, is_body, function_placing, placing_of, unless_stated, placing_at};

use crate::family::{family_of, is_told};
use assign_rules::around::{clause_of, outermost};
use assign_rules::kinds::names_label;
use decl_rules::declares_names;
use go_tree::{Node, NodeKind, NodeRef, Object};
use rule_words::is_blank;
use statement_rules::{Placing as StatementPlacing, placing_of as statement_placing, takes_blank};
use unit_read::{Place, Subject};

/// What a node is where it stands.
#[derive(Clone, Copy, Debug, PartialEq, Eq, Drop)]
pub enum Role {
    /// A part of the node around it.
    Part,
    /// A name before a colon: that of a field, or a use.
    Key,
    /// A name that is declared there: it is no use.
    Declared,
    /// A blank to which something is assigned: it is no use.
    Blank,
    /// The name of a label, or one in a node of which nothing is said.
    Untold,
}

/// What a place makes of the node that stands there.
#[derive(Clone, Copy, Debug, PartialEq, Eq, Drop)]
pub enum Placing {
    /// What is wanted there is tested.
    Plain,
    /// An interface embeds it.
    Embedded,
    /// A call calls it, or takes it as an argument.
    Argument,
    /// A part of a specification of variables of a type that is written.
    Shared,
    /// The body of a function.
    Body,
    /// A statement makes more of it than what it wants.
    Stated(StatementPlacing),
}

pub fn is_name(kind: NodeKind) -> bool
    ensures { result ≡ is_name kind }
{
    match kind {
        NodeKind::Name => true,
        _ => false,
    }
}

// ---- the names of statements

/// The names that a statement declares stand in the slot.
pub fn states_names(around: NodeKind, slot: usize) -> bool
    ensures { result ≡ states_names around slot }
{
    match around {
        NodeKind::Define => slot == 0,
        NodeKind::ForRangeDefine => slot == 0,
        NodeKind::Bind => slot == 0,
        _ => false,
    }
}

fn stated_role(object: Option<Object>) -> Role
    ensures { result ≡ stated_role object }
{
    match object {
        Some(_) => Role::Part,
        None => Role::Declared,
    }
}

// ---- blanks to which something is assigned

fn takes_in(p: Place, around: &Node) -> bool
    ensures { result ≡ takes_in p around.now }
{
    takes_blank(around.kind, p.slot)
}

fn takes_beside(u: &Subject, at: NodeRef, p: Place) -> bool
    ensures { result ≡ takes_beside (unit_of u.now) at p }
{
    let whole = NodeRef {
        file: at.file,
        node: p.around,
    };
    match u.node_at(whole) {
        Some(around) => takes_in(p, around),
        None => false,
    }
}

fn is_assigned(u: &Subject, at: NodeRef) -> bool
    requires { IsRead u.now }
    ensures { result ≡ is_assigned (unit_of u.now) at }
{
    match u.place_at(at) {
        Some(p) => takes_beside(u, at, p),
        None => false,
    }
}

fn is_assigned_around(u: &Subject, at: NodeRef) -> bool
    requires { IsRead u.now }
    ensures { result ≡ is_assigned (unit_of u.now) (place at.file (outermost (unit_of u.now) at.file at.node)) }
{
    let node = outermost(u, at.file, at.node);
    is_assigned(
        u,
        NodeRef {
            file: at.file,
            node,
        },
    )
}

/// A blank to which something is assigned, parentheses aside.
fn is_dropped(u: &Subject, at: NodeRef) -> bool
    requires { IsRead u.now }
    ensures { result ≡ is_dropped (unit_of u.now) at }
{
    is_blank(u.name_at(at)) && is_assigned_around(u, at)
}

// ---- what a name is

fn is_key(around: NodeKind, slot: usize) -> bool
    ensures { result ≡ is_key around slot }
{
    match around {
        NodeKind::KeyValue => slot == 0,
        _ => false,
    }
}

fn used_role(around: NodeKind) -> Role
    ensures { result ≡ used_role around }
{
    if is_told(family_of(around)) {
        Role::Part
    } else {
        Role::Untold
    }
}

fn blank_or_use(u: &Subject, at: NodeRef, around: NodeKind) -> Role
    requires { IsRead u.now }
    ensures { result ≡ blank_or_use (unit_of u.now) at around }
{
    if is_dropped(u, at) {
        Role::Blank
    } else {
        used_role(around)
    }
}

fn key_or_use(u: &Subject, at: NodeRef, around: NodeKind, slot: usize) -> Role
    requires { IsRead u.now }
    ensures { result ≡ key_or_use (unit_of u.now) at around slot }
{
    if is_key(around, slot) {
        Role::Key
    } else {
        blank_or_use(u, at, around)
    }
}

fn declared_or_use(u: &Subject, at: NodeRef, around: NodeKind, slot: usize) -> Role
    requires { IsRead u.now }
    ensures { result ≡ declared_or_use (unit_of u.now) at around slot }
{
    if declares_names(around, slot) {
        Role::Declared
    } else {
        key_or_use(u, at, around, slot)
    }
}

fn stated_or_use(u: &Subject, at: NodeRef, around: NodeKind, slot: usize) -> Role
    requires { IsRead u.now }
    ensures { result ≡ stated_or_use (unit_of u.now) at around slot }
{
    if states_names(around, slot) {
        stated_role(u.object_at(at))
    } else {
        declared_or_use(u, at, around, slot)
    }
}

fn name_role(u: &Subject, at: NodeRef, around: NodeKind, slot: usize) -> Role
    requires { IsRead u.now }
    ensures { result ≡ name_role (unit_of u.now) at around slot }
{
    if names_label(around, slot) {
        Role::Untold
    } else {
        stated_or_use(u, at, around, slot)
    }
}

/// What a node of a kind is in a slot of a node.
fn role_of(u: &Subject, at: NodeRef, around: NodeKind, slot: usize, kind: NodeKind) -> Role
    requires { IsRead u.now }
    ensures { result ≡ role_of (unit_of u.now) at around slot kind }
{
    if is_name(kind) {
        name_role(u, at, around, slot)
    } else {
        Role::Part
    }
}

fn role_in(u: &Subject, at: NodeRef, node: &Node, p: Place, around: &Node) -> Role
    requires { IsRead u.now }
    ensures { result ≡ role_in (unit_of u.now) at node.now p around.now }
{
    role_of(u, at, around.kind, p.slot, node.kind)
}

fn role_beside(u: &Subject, at: NodeRef, node: &Node, p: Place) -> Role
    requires { IsRead u.now }
    ensures { result ≡ role_beside (unit_of u.now) at node.now p }
{
    let whole = NodeRef {
        file: at.file,
        node: p.around,
    };
    match u.node_at(whole) {
        Some(around) => role_in(u, at, node, p, around),
        None => Role::Part,
    }
}

/// What a node is where it stands.
pub fn role_at(u: &Subject, at: NodeRef, node: &Node) -> Role
    requires { IsRead u.now }
    ensures { result ≡ role_at (unit_of u.now) at node.now }
{
    // most nodes are no names, and these need no look at their place
    if !is_name(node.kind) {
        return Role::Part;
    }
    match u.place_at(at) {
        Some(p) => role_beside(u, at, node, p),
        None => Role::Part,
    }
}

/// The clause of a type switch whose variable a name denotes.
pub fn clause_for(u: &Subject, at: NodeRef, node: &Node) -> Option<u32>
    requires { IsRead u.now }
    ensures { result ≡ clause_for (unit_of u.now) at node.now }
{
    if is_name(node.kind) {
        clause_of(u, at)
    } else {
        None
    }
}

// ---- what a place makes of a node

fn is_method(kind: NodeKind) -> bool
    ensures { result ≡ is_method kind }
{
    match kind {
        NodeKind::Method => true,
        _ => false,
    }
}

fn element_placing(kind: NodeKind) -> Placing
    ensures { result ≡ element_placing kind }
{
    if is_method(kind) {
        Placing::Plain
    } else {
        Placing::Embedded
    }
}

fn is_body(kind: NodeKind) -> bool
    ensures { result ≡ is_body kind }
{
    match kind {
        NodeKind::Block => true,
        _ => false,
    }
}

fn function_placing(kind: NodeKind) -> Placing
    ensures { result ≡ function_placing kind }
{
    if is_body(kind) {
        Placing::Body
    } else {
        Placing::Plain
    }
}

/// What a place in a node of a kind makes of a node of another.
fn placing_of(around: NodeKind, kind: NodeKind) -> Placing
    ensures { result ≡ placing_of around kind }
{
    match around {
        NodeKind::InterfaceType => element_placing(kind),
        NodeKind::FuncDecl => function_placing(kind),
        NodeKind::MethodDecl => function_placing(kind),
        NodeKind::FuncLit => function_placing(kind),
        NodeKind::Call => Placing::Argument,
        NodeKind::VarTypedValues => Placing::Shared,
        _ => Placing::Plain,
    }
}

fn unless_stated(placing: StatementPlacing, rest: Placing) -> Placing
    ensures { result ≡ unless_stated placing rest }
{
    match placing {
        StatementPlacing::Plain => rest,
        StatementPlacing::Standing => Placing::Stated(StatementPlacing::Standing),
        StatementPlacing::Communicating => Placing::Stated(StatementPlacing::Communicating),
        StatementPlacing::Target => Placing::Stated(StatementPlacing::Target),
        StatementPlacing::Several => Placing::Stated(StatementPlacing::Several),
        StatementPlacing::Passed => Placing::Stated(StatementPlacing::Passed),
        StatementPlacing::Value => Placing::Stated(StatementPlacing::Value),
        StatementPlacing::Type => Placing::Stated(StatementPlacing::Type),
        StatementPlacing::Ranged => Placing::Stated(StatementPlacing::Ranged),
    }
}

/// What a place in a node makes of the node that stands there.
pub fn placing_at(u: &Subject, at: NodeRef, node: &Node, p: Place, around: &Node) -> Placing
    requires { IsRead u.now }
    ensures { result ≡ placing_at (unit_of u.now) at node.now p around.now }
{
    let stated = statement_placing(u, at.file, p, around, at.node, node.kind);
    unless_stated(stated, placing_of(around.kind, node.kind))
}
