//! How each statement ends.
ghost use Rattle.std.specs.Prelude.{◌≡◌, ◌-◌, ◌<◌, ◌≤◌, ◌==◌, ◌||◌, ◌&&◌, not, ℕ, Bool, IfOk, length, get_or};
ghost use Rattle.go_tree.specs.declared.tree.Node.{Node};
ghost use Rattle.body_rules.specs.declared.endings.Ending.{Ending};
ghost use Rattle.body_rules.specs.declared.endings.Ending.TheVariants as e;
ghost use Rattle.body_rules.specs.Kinds.{is_clause, is_default, is_condition};
ghost use Rattle.body_rules.specs.Endings.{kind_of, flag_of, is_closed, is_shut, closed_if, last_of, has_kind, clauses_end, from_last, branches_end, loop_ends, choice_ends, whole_ending, part_ending, ending_by, ending_of, endings};

use crate::kinds::{
    is_body, is_call, is_clause, is_clause_for, is_condition, is_default, is_fall, is_final, is_if,
    is_passed, is_plain_for, is_select, is_switch, is_type_switch,
};
use go_tree::{Node, NodeKind};
use gv_base::NoMemory;
use node_values::{Fills, fill};
use std::alloc::Global;

/// How a statement ends: it may pass, it doesn't, or it falls through.
#[derive(Clone, Copy, Drop)]
pub enum Ending {
    Open,
    Closed,
    Falls,
}

pub(crate) fn is_closed(ending: Ending) -> bool
    ensures { result ≡ is_closed ending }
{
    match ending {
        Ending::Open => false,
        Ending::Closed => true,
        Ending::Falls => false,
    }
}

fn is_shut(ending: Ending) -> bool
    ensures { result ≡ is_shut ending }
{
    match ending {
        Ending::Open => false,
        Ending::Closed => true,
        Ending::Falls => true,
    }
}

fn closed_if(test: bool) -> Ending
    ensures { result ≡ closed_if test }
{
    if test { Ending::Closed } else { Ending::Open }
}

pub(crate) fn kind_of(nodes: &[Node], n: u32) -> NodeKind
    ensures { result ≡ kind_of nodes.now n }
{
    match nodes.get(n as usize) {
        Some(node) => node.kind,
        None => NodeKind::Name,
    }
}

pub(crate) fn flag_at(flags: &[bool], n: usize) -> bool
    ensures { result ≡ flag_of flags.now n }
{
    if n < flags.len() { flags[n] } else { false }
}

pub(crate) fn ending_at(found: &[Ending], n: u32) -> Ending
    ensures { result ≡ get_or found.now n e.Open }
{
    let at = n as usize;
    if at < found.len() {
        found[at]
    } else {
        Ending::Open
    }
}

fn last_of(found: &[Ending], parts: &[u32]) -> Ending
    ensures { result ≡ last_of (λ x. get_or found.now x e.Open) e.Open parts.now }
{
    let mut ending = Ending::Open;
    for part in parts {
        ending = ending_at(found, *part);
    }
    ending
}

fn has_default(nodes: &[Node], parts: &[u32]) -> bool
    ensures { result ≡ has_kind is_default (kind_of nodes.now) parts.now }
{
    for part in parts {
        if is_default(kind_of(nodes, *part)) {
            return true;
        }
    }
    false
}

fn has_condition(nodes: &[Node], parts: &[u32]) -> bool
    ensures { result ≡ has_kind is_condition (kind_of nodes.now) parts.now }
{
    for part in parts {
        if is_condition(kind_of(nodes, *part)) {
            return true;
        }
    }
    false
}

fn clause_shut(nodes: &[Node], found: &[Ending], part: u32) -> bool
    ensures { result ≡ (not (is_clause (kind_of nodes.now part)) || is_shut (get_or found.now part e.Open)) }
{
    if is_clause(kind_of(nodes, part)) {
        return is_shut(ending_at(found, part));
    }
    true
}

fn clause_closed(nodes: &[Node], found: &[Ending], part: u32) -> bool
    ensures { result ≡ (not (is_clause (kind_of nodes.now part)) || is_closed (get_or found.now part e.Open)) }
{
    if is_clause(kind_of(nodes, part)) {
        return is_closed(ending_at(found, part));
    }
    true
}

fn clauses_shut(nodes: &[Node], found: &[Ending], parts: &[u32]) -> bool
    ensures { result ≡ clauses_end is_shut (kind_of nodes.now) (λ x. get_or found.now x e.Open) parts.now }
{
    for part in parts {
        if !clause_shut(nodes, found, *part) {
            return false;
        }
    }
    true
}

fn clauses_closed(nodes: &[Node], found: &[Ending], parts: &[u32]) -> bool
    ensures { result ≡ clauses_end is_closed (kind_of nodes.now) (λ x. get_or found.now x e.Open) parts.now }
{
    for part in parts {
        if !clause_closed(nodes, found, *part) {
            return false;
        }
    }
    true
}

/// The part this many from the end.
pub(crate) fn from_last(parts: &[u32], i: usize) -> u32
    requires within { i ≤ length parts.now }
    requires some { 0 < i }
    ensures { result ≡ from_last parts.now i }
{
    parts[parts.len() - i]
}

fn branches_end(nodes: &[Node], found: &[Ending], parts: &[u32]) -> bool
    ensures { result ≡ branches_end (kind_of nodes.now) (λ x. get_or found.now x e.Open) parts.now }
{
    if parts.len() < 2 {
        return false;
    }
    let one = from_last(parts, 2);
    if !is_body(kind_of(nodes, one)) {
        return false;
    }
    if !is_closed(ending_at(found, one)) {
        return false;
    }
    is_closed(ending_at(found, from_last(parts, 1)))
}

fn switch_ends(left: bool, nodes: &[Node], found: &[Ending], parts: &[u32]) -> bool
    ensures { result ≡ (not left && (has_kind is_default (kind_of nodes.now) parts.now && clauses_end is_shut (kind_of nodes.now) (λ x. get_or found.now x e.Open) parts.now)) }
{
    if left {
        return false;
    }
    if !has_default(nodes, parts) {
        return false;
    }
    clauses_shut(nodes, found, parts)
}

fn select_ends(left: bool, nodes: &[Node], found: &[Ending], parts: &[u32]) -> bool
    ensures { result ≡ (not left && clauses_end is_closed (kind_of nodes.now) (λ x. get_or found.now x e.Open) parts.now) }
{
    if left {
        return false;
    }
    clauses_closed(nodes, found, parts)
}

fn for_ends(left: bool, parts: &[u32]) -> bool
    ensures { result ≡ (not left && (length parts.now == 1)) }
{
    if left {
        return false;
    }
    parts.len() == 1
}

fn for_clause_ends(left: bool, nodes: &[Node], parts: &[u32]) -> bool
    ensures { result ≡ (not left && not (has_kind is_condition (kind_of nodes.now) parts.now)) }
{
    if left {
        return false;
    }
    !has_condition(nodes, parts)
}

/// A `for` that ends by no condition and no `break`.
fn loop_ends(left: bool, nodes: &[Node], kind: NodeKind, parts: &[u32]) -> bool
    ensures { result ≡ loop_ends left (kind_of nodes.now) kind parts.now }
{
    if is_plain_for(kind) {
        return for_ends(left, parts);
    }
    if is_clause_for(kind) {
        return for_clause_ends(left, nodes, parts);
    }
    false
}

/// A `switch` or `select` of which no clause passes.
fn choice_ends(left: bool, nodes: &[Node], found: &[Ending], kind: NodeKind, parts: &[u32]) -> bool
    ensures { result ≡ choice_ends left (kind_of nodes.now) (λ x. get_or found.now x e.Open) kind parts.now }
{
    if is_select(kind) {
        return select_ends(left, nodes, found, parts);
    }
    if is_switch(kind) {
        return switch_ends(left, nodes, found, parts);
    }
    if is_type_switch(kind) {
        return switch_ends(left, nodes, found, parts);
    }
    false
}

fn whole_ending(
    left: bool,
    nodes: &[Node],
    found: &[Ending],
    kind: NodeKind,
    parts: &[u32],
) -> Ending
    ensures { result ≡ whole_ending left (kind_of nodes.now) (λ x. get_or found.now x e.Open) kind parts.now }
{
    if is_if(kind) {
        return closed_if(branches_end(nodes, found, parts));
    }
    if loop_ends(left, nodes, kind, parts) {
        return Ending::Closed;
    }
    closed_if(choice_ends(left, nodes, found, kind, parts))
}

fn part_ending(
    left: bool,
    nodes: &[Node],
    found: &[Ending],
    kind: NodeKind,
    parts: &[u32],
) -> Ending
    ensures { result ≡ part_ending left (kind_of nodes.now) (λ x. get_or found.now x e.Open) kind parts.now }
{
    if is_passed(kind) {
        return last_of(found, parts);
    }
    if is_body(kind) {
        return closed_if(is_closed(last_of(found, parts)));
    }
    whole_ending(left, nodes, found, kind, parts)
}

fn ending_by(
    left: bool,
    panics: bool,
    nodes: &[Node],
    found: &[Ending],
    kind: NodeKind,
    parts: &[u32],
) -> Ending
    ensures { result ≡ ending_by left panics (kind_of nodes.now) (λ x. get_or found.now x e.Open) kind parts.now }
{
    if is_final(kind) {
        return Ending::Closed;
    }
    if is_fall(kind) {
        return Ending::Falls;
    }
    if is_call(kind) {
        return closed_if(panics);
    }
    part_ending(left, nodes, found, kind, parts)
}

/// Which statements a `break` leaves, and which are calls of `panic`.
#[derive(Clone, Copy, Drop)]
pub(crate) struct Endings<'a> {
    pub nodes: &'a [Node],
    pub left: &'a [bool],
    pub panics: &'a [bool],
}

fn ending_of(rule: &Endings, found: &[Ending], node: &Node) -> Ending
    ensures { result ≡ ending_of (flag_of rule.now.left.now) (flag_of rule.now.panics.now) rule.now.nodes.now found.now node.now }
{
    let n = found.len();
    let left = flag_at(rule.left, n);
    let panics = flag_at(rule.panics, n);
    ending_by(
        left,
        panics,
        rule.nodes,
        found,
        node.kind,
        node.parts.as_slice(),
    )
}

impl<'a> Fills<Node, Ending> for Endings<'a> {
    ghost rule = { λ s. ending_of (flag_of s.left.now) (flag_of s.panics.now) s.nodes.now };

    fn value(&self, so_far: &[Ending], node: &Node) -> Ending {
        ending_of(self, so_far, node)
    }
}

/// How each node ends.
pub(crate) fn endings_of(alloc: Global, rule: &Endings) -> Result<Vec<Ending>, NoMemory>
    ensures { IfOk result (λ found. found.items ≡ endings (flag_of rule.now.left.now) (flag_of rule.now.panics.now) rule.now.nodes.now) }
{
    let found = fill(alloc, rule, rule.nodes)?;
    Ok(found)
}
