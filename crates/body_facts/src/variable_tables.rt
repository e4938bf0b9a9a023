//! Which names declare variables of functions, by node.
ghost use Rattle.std.specs.Prelude.{◌≡◌, ◌<◌, ◌≤◌, ◌^◌, ◌==◌, ◌||◌, ℕ, false, IfOk, length, get_or};
ghost use Rattle.std.specs.Option.{option_copied};
ghost use Rattle.go_tree.specs.declared.tree.Node.{Node};
ghost use Rattle.go_tree.specs.Kinds.{is_function};
ghost use Rattle.object_order.specs.Spots.{place};
ghost use Rattle.node_values.specs.Parents.{AreParents};
ghost use Rattle.node_values.specs.Trees.{IsTree};
ghost use Rattle.unit_read.specs.Subjects.{unit_of, IsRead};
ghost use Rattle.unit_read.specs.Units.{is_blank, name_at, object_at};
ghost use Rattle.body_facts.specs.NameTables.{AreValues, is_declaring, kind_declares, declared_by, stands_declared, is_none, is_new, within_rule, AreWithin, is_variable, AreVariables};

use crate::name_tables::place;
use go_tree::{Node, NodeKind, NodeRef, Object, is_function};
use gv_base::NoMemory;
use node_values::{Hands, hand_down};
use std::alloc::Global;
use unit_read::{Place, Subject};

pub(crate) fn is_declaring(kind: NodeKind) -> bool
    ensures { result ≡ is_declaring kind }
{
    matches!(
        kind,
        NodeKind::VarValues
            | NodeKind::VarTyped
            | NodeKind::VarTypedValues
            | NodeKind::Define
            | NodeKind::ForRangeDefine
            | NodeKind::Bind
    )
}

fn kind_declares(node: Option<&Node>) -> bool
    ensures { result ≡ kind_declares (option_copied node.entry) }
{
    match node {
        Some(node) => is_declaring(node.kind),
        None => false,
    }
}

fn declared_by(u: &Subject, file: u32, p: Place) -> bool
    ensures { result ≡ declared_by (unit_of u.now) file p }
{
    let around = NodeRef {
        file,
        node: p.around,
    };
    if !kind_declares(u.node_at(around)) {
        return false;
    }
    p.slot == 0
}

fn stands_declared(u: &Subject, file: u32, n: usize) -> bool
    requires read { IsRead u.now }
    requires few { n < 2 ^ 32 }
    ensures { result ≡ stands_declared (unit_of u.now) file n }
{
    match u.place_at(place(file, n)) {
        Some(p) => declared_by(u, file, p),
        None => false,
    }
}

fn is_none(object: Option<Object>) -> bool
    ensures { result ≡ is_none object }
{
    match object {
        Some(_) => false,
        None => true,
    }
}

fn is_blank(name: &[u8]) -> bool
    ensures { result ≡ is_blank name.now }
{
    name == b"_".as_slice()
}

fn is_new(u: &Subject, file: u32, n: usize) -> bool
    requires read { IsRead u.now }
    requires few { n < 2 ^ 32 }
    ensures { result ≡ is_new (unit_of u.now) file n }
{
    let at = place(file, n);
    if !is_none(u.object_at(at)) {
        return false;
    }
    !is_blank(u.name_at(at))
}

fn is_within(kind: NodeKind, own: bool) -> bool
    ensures { result ≡ (is_function kind || own) }
{
    if is_function(kind) {
        return true;
    }
    own
}

struct Within;

impl Hands<bool> for Within {
    ghost rule = { λ s. within_rule };

    ghost top = { λ s. false };

    fn top(&self) -> bool {
        false
    }

    fn hand(&self, p: usize, node: &Node, n: usize, own: bool) -> bool {
        let _ = p;
        let _ = n;
        is_within(node.kind, own)
    }
}

fn within_of(alloc: Global, nodes: &[Node], parents: &[usize]) -> Result<Vec<bool>, NoMemory>
    requires tree { IsTree nodes.now }
    requires parents { AreParents nodes.now (length nodes.now) parents.now }
    ensures { IfOk result (λ found. AreWithin nodes.now found.items) }
{
    let found = hand_down(alloc, &Within, nodes, parents)?;
    Ok(found)
}

fn flag_at(flags: &[bool], n: usize) -> bool
    ensures { result ≡ get_or flags.now n false }
{
    if n < flags.len() { flags[n] } else { false }
}

fn is_variable(u: &Subject, file: u32, inside: &[bool], n: usize) -> bool
    requires read { IsRead u.now }
    requires few { n < 2 ^ 32 }
    ensures { result ≡ is_variable (unit_of u.now) file inside.now n }
{
    if !flag_at(inside, n) {
        return false;
    }
    if !stands_declared(u, file, n) {
        return false;
    }
    is_new(u, file, n)
}

fn values_of(
    alloc: Global,
    u: &Subject,
    file: u32,
    inside: &[bool],
    count: usize,
) -> Result<Vec<bool>, NoMemory>
    requires read { IsRead u.now }
    requires few { count ≤ 2 ^ 32 }
    ensures { IfOk result (λ flags. AreValues (is_variable (unit_of u.now) file inside.now) false count flags.items) }
{
    let mut flags = Vec::new(alloc);
    for n in 0..count {
        let value = is_variable(u, file, inside, n);
        flags.push(value)?;
    }
    Ok(flags)
}

/// Which nodes are the names of variables of functions.
pub(crate) fn variables_of(
    alloc: Global,
    u: &Subject,
    file: u32,
    nodes: &[Node],
    parents: &[usize],
) -> Result<Vec<bool>, NoMemory>
    requires read { IsRead u.now }
    requires few { length nodes.now ≤ 2 ^ 32 }
    requires tree { IsTree nodes.now }
    requires parents { AreParents nodes.now (length nodes.now) parents.now }
    ensures { IfOk result (λ flags. AreVariables (unit_of u.now) file nodes.now flags.items) }
{
    let inside = within_of(alloc, nodes, parents)?;
    let flags = values_of(alloc, u, file, &inside, nodes.len())?;
    Ok(flags)
}
