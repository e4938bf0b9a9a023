//! What a node is for the late rules.
ghost use Rattle.std.specs.Prelude.{◌≡◌, ◌<◌, ◌&&◌, ℕ, Bool, true, not, cond, nat_lt, Option, Some, None, length, get_or, slice_get, option_and_then};
ghost use Rattle.std.specs.Option.{option_map_or};
ghost use Rattle.go_tree.specs.declared.tree.Node.{Node};
ghost use Rattle.body_rules.specs.Asked.{acts, acts_at};
ghost use Rattle.body_rules.specs.Branches.{branch_of};
ghost use Rattle.body_rules.specs.Endings.{kind_of, from_last};
ghost use Rattle.body_rules.specs.Files.{goto_label, is_none, lacks_label, is_undefined, branch_at, bare_parts, is_nil, has_none, returns_by, body_of, falls_at, brace_of};
ghost use Rattle.body_rules.specs.Given.{given};
ghost use Rattle.body_rules.specs.Jumps.{label_of};
ghost use Rattle.body_rules.specs.Kinds.{is_goto, is_params};

use crate::branches::{Branch, branch_of};
use crate::endings::{from_last, kind_of};
use crate::file::{File, end_of};
use crate::kinds::{is_body, is_declaration, is_fall, is_goto, is_jump, is_method, is_params};
use crate::latest::number_at;
use go_tree::{Node, NodeKind, is_function};
use gv_base::Place;

// ---- jumps

fn label_of(labels: &[Option<usize>], node: &Node) -> Option<usize>
    ensures { result ≡ label_of labels.now node.now }
{
    match node.parts.as_slice().first() {
        Some(m) => number_at(labels, *m as usize),
        None => None,
    }
}

fn goto_by(f: &File, node: &Node) -> Option<usize>
    ensures { result ≡ cond (is_goto node.now.kind) (label_of f.now.labels.now node.now) None }
{
    if is_goto(node.kind) {
        label_of(f.labels, node)
    } else {
        None
    }
}

/// The label that a `goto` denotes.
pub(crate) fn goto_label(f: &File, n: usize) -> Option<usize>
    ensures { result ≡ goto_label (given f.now) n }
{
    match f.nodes.get(n) {
        Some(node) => goto_by(f, node),
        None => None,
    }
}

fn is_none(o: Option<usize>) -> bool
    ensures { result ≡ is_none o }
{
    match o {
        Some(_) => false,
        None => true,
    }
}

pub(crate) fn is_nil(parts: &[u32]) -> bool
    ensures { result ≡ is_nil parts.now }
{
    parts.is_empty()
}

fn lacks_label(labels: &[Option<usize>], node: &Node) -> bool
    ensures { result ≡ lacks_label labels.now node.now }
{
    if !is_jump(node.kind) {
        return false;
    }
    if is_nil(node.parts.as_slice()) {
        return false;
    }
    is_none(label_of(labels, node))
}

/// Whether a jump names a label that there isn't.
pub(crate) fn is_undefined(f: &File, n: usize) -> bool
    ensures { result ≡ is_undefined (given f.now) n }
{
    match f.nodes.get(n) {
        Some(node) => lacks_label(f.labels, node),
        None => false,
    }
}

/// Which word a node is a statement of.
pub(crate) fn branch_at(f: &File, n: usize) -> Option<Branch>
    ensures { result ≡ branch_at (given f.now) n }
{
    match f.nodes.get(n) {
        Some(node) => branch_of(node.kind),
        None => None,
    }
}

/// Whether a node is a `fallthrough`.
pub(crate) fn falls_at(f: &File, n: usize) -> bool
    ensures { result ≡ falls_at (given f.now) n }
{
    match f.nodes.get(n) {
        Some(node) => is_fall(node.kind),
        None => false,
    }
}

// ---- functions with results

fn bare_parts(kind: NodeKind) -> usize
    ensures { result ≡ bare_parts kind }
{
    if is_method(kind) {
        return 4;
    }
    if is_declaration(kind) {
        return 3;
    }
    2
}

fn is_bare(node: &Node) -> bool
    ensures { result ≡ (is_params node.now.kind && is_nil node.now.parts) }
{
    if is_params(node.kind) {
        return is_nil(node.parts.as_slice());
    }
    false
}

fn has_none(nodes: &[Node], n: u32) -> bool
    ensures { result ≡ has_none nodes.now n }
{
    match nodes.get(n as usize) {
        Some(node) => is_bare(node),
        None => false,
    }
}

fn returns_by(nodes: &[Node], kind: NodeKind, parts: &[u32]) -> bool
    ensures { result ≡ returns_by nodes.now kind parts.now }
{
    if !is_function(kind) {
        return false;
    }
    if bare_parts(kind) >= parts.len() {
        return false;
    }
    if !is_body(kind_of(nodes, from_last(parts, 1))) {
        return false;
    }
    !has_none(nodes, from_last(parts, 2))
}

fn body_by(nodes: &[Node], kind: NodeKind, parts: &[u32]) -> Option<u32>
    ensures { result ≡ cond (returns_by nodes.now kind parts.now) (Some (from_last parts.now 1)) None }
{
    if parts.is_empty() {
        return None;
    }
    if returns_by(nodes, kind, parts) {
        Some(from_last(parts, 1))
    } else {
        None
    }
}

/// The body of a function with results.
pub(crate) fn body_of(f: &File, n: usize) -> Option<u32>
    ensures { result ≡ body_of (given f.now) n }
{
    match f.nodes.get(n) {
        Some(node) => body_by(f.nodes, node.kind, node.parts.as_slice()),
        None => None,
    }
}

/// Where that body ends.
pub(crate) fn brace_of(f: &File, n: usize) -> Place
    ensures { result ≡ brace_of (given f.now) n }
{
    match body_of(f, n) {
        Some(b) => end_of(f, b),
        None => end_of(f, 0),
    }
}

// ---- of which nodes rules are asked

/// A function with results and a body, a jump or a `fallthrough`.
pub fn acts(nodes: &[Node], node: &Node) -> bool
    ensures { result ≡ acts nodes.now node.now }
{
    if returns_by(nodes, node.kind, node.parts.as_slice()) {
        return true;
    }
    if is_jump(node.kind) {
        return true;
    }
    is_fall(node.kind)
}

/// Whether a node is one of these.
pub(crate) fn acts_at(f: &File, n: usize) -> bool
    ensures { result ≡ acts_at (given f.now) n }
{
    match f.nodes.get(n) {
        Some(node) => acts(f.nodes, node),
        None => false,
    }
}
