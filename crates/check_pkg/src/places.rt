//! Where faults stand.
ghost use Rattle.std.specs.Prelude.{◌≡◌, ◌≤◌, ◌+◌, IfOk, true, false, slice_get};
ghost use Rattle.std.specs.Option.{option_map_or, option_copied};
ghost use Rattle.const_tree.specs.Constants.{names_of, values_of};
ghost use Rattle.object_order.specs.Spots.{place};
ghost use Rattle.unit_read.specs.Units.{text_in};
ghost use Rattle.unit_read.specs.Subjects.{unit_of};
ghost use Rattle.check_pkg.specs.declared.refusal.Fault.TheVariants.{Rule as RuleFault};
ghost use Rattle.check_pkg.specs.Faults.{start_of, offset_of, place_of, constraint_in, constraint_offset, is_constraint_limit, is_constraint, entry_type, type_in, first_type, embedded_name, bearer_by, bearer, written_offset, name_beside, value_before, value_from, value_in, beside, copied_offset, fault_offset};

use crate::refusal::Fault;
use const_tree::{Spec, name_at, value_at, value_count};
use go_tree::{FileTree, Node, NodeKind, NodeRef, Token};
use gv_base::{NoMemory, Place};
use package_objects::part_of;
use std::alloc::Global;
use typed_tree::{BAD_RECEIVER, DUPLICATE_MEMBER, Limit, Rule};
use unit_read::{Passage, Subject};

fn token_of<'a>(tree: &'a FileTree, token: u32) -> Option<&'a Token>
    ensures { option_copied result ≡ slice_get tree.now.tokens token }
{
    tree.tokens.as_slice().get(token as usize)
}

fn token_start(tree: &FileTree, token: u32) -> u32
    ensures { result ≡ option_map_or (λ t. t.start) (slice_get tree.now.tokens token) 0 }
{
    match token_of(tree, token) {
        Some(token) => token.start,
        None => 0,
    }
}

/// Where a token of a file begins.
pub fn start_of(u: &Subject, file: u32, token: u32) -> u32
    ensures { result ≡ start_of (unit_of u.now) file token }
{
    match u.tree_at(file) {
        Some(tree) => token_start(tree, token),
        None => 0,
    }
}

fn node_in(nodes: &[Node], node: usize) -> Option<&Node>
    ensures { option_copied result ≡ slice_get nodes.now node }
{
    nodes.get(node)
}

/// Where the first token of a node begins.
fn offset_at(u: &Subject, file: u32, node: usize) -> u32
    ensures { result ≡ offset_of (unit_of u.now) (place file node) }
{
    match node_in(u.nodes_at(file), node) {
        Some(node) => start_of(u, file, node.first),
        None => 0,
    }
}

/// The first token of a node.
pub fn place_of(u: &Subject, at: NodeRef) -> Place
    ensures { result ≡ place_of (unit_of u.now) at }
{
    Place {
        file: at.file,
        offset: offset_at(u, at.file, at.node as usize),
    }
}

/// The bytes of a file.
pub fn text_in<'a>(u: &Subject<'a>, file: u32) -> &'a [u8]
    ensures { result.now ≡ text_in (unit_of u.now) file }
{
    if (file as usize) < u.texts.len() {
        u.texts[file as usize]
    } else {
        &[]
    }
}

/// Where the first build constraint of a file begins.
fn constraint_in(alloc: Global, tree: &FileTree, text: &[u8]) -> Result<u32, NoMemory>
    ensures { IfOk result (λ offset. offset ≡ constraint_in text.now tree.now) }
{
    let head = tree.head(alloc, text)?;
    match head.constraint {
        Some(offset) => Ok(offset),
        None => Ok(0),
    }
}

fn constraint_offset(alloc: Global, u: &Subject, file: u32) -> Result<u32, NoMemory>
    ensures { IfOk result (λ offset. offset ≡ constraint_offset (unit_of u.now) file) }
{
    match u.tree_at(file) {
        Some(tree) => {
            let offset = constraint_in(alloc, tree, text_in(u, file))?;
            Ok(offset)
        }
        None => Ok(0),
    }
}

fn is_constraint_limit(limit: Limit) -> bool
    ensures { result ≡ is_constraint_limit limit }
{
    match limit {
        Limit::BuildConstraint => true,
        Limit::Float => false,
        Limit::Complex => false,
        Limit::Wide => false,
        Limit::LongText => false,
        Limit::WideType => false,
        Limit::Unsafe => false,
        Limit::Cgo => false,
        Limit::DotImport => false,
    }
}

fn is_constraint(fault: Fault) -> bool
    ensures { result ≡ is_constraint fault }
{
    match fault {
        Fault::Limit(limit) => is_constraint_limit(limit),
        Fault::Rule(_) => false,
    }
}

fn or_itself(n: Option<u32>, other: usize) -> usize
    ensures { result ≡ option_map_or (λ n. n) n other }
{
    match n {
        Some(n) => n as usize,
        None => other,
    }
}

/// The type of a parameter with a name, or what stands for one without.
fn entry_type(node: &Node, n: usize) -> usize
    ensures { result ≡ entry_type node.now.kind node.now n }
{
    match node.kind {
        NodeKind::Param => or_itself(part_of(node, 1), n),
        NodeKind::SpreadParam => or_itself(part_of(node, 1), n),
        _ => n,
    }
}

fn type_in(nodes: &[Node], n: usize) -> usize
    ensures { result ≡ type_in nodes.now n }
{
    match node_in(nodes, n) {
        Some(node) => entry_type(node, n),
        None => n,
    }
}

fn first_type(nodes: &[Node], node: &Node, n: usize) -> usize
    ensures { result ≡ first_type nodes.now node.now n }
{
    match part_of(node, 0) {
        Some(entry) => type_in(nodes, entry as usize),
        None => n,
    }
}

fn embedded_name(node: &Node, n: usize) -> usize
    ensures { result ≡ embedded_name node.now.kind node.now n }
{
    match node.kind {
        NodeKind::EmbeddedPointer => or_itself(part_of(node, 0), n),
        _ => n,
    }
}

fn rule_bearer(nodes: &[Node], node: &Node, n: usize, rule: Rule) -> usize
    ensures { result ≡ bearer_by nodes.now node.now n (RuleFault rule) }
{
    if rule.0 == BAD_RECEIVER.0 {
        first_type(nodes, node, n)
    } else if rule.0 == DUPLICATE_MEMBER.0 {
        embedded_name(node, n)
    } else {
        n
    }
}

fn bearer_by(nodes: &[Node], node: &Node, n: usize, fault: Fault) -> usize
    ensures { result ≡ bearer_by nodes.now node.now n fault }
{
    match fault {
        Fault::Rule(rule) => rule_bearer(nodes, node, n, rule),
        Fault::Limit(_) => n,
    }
}

/// What bears the fault of a node: of a bad receiver its type, of an embedded pointer its name.
fn bearer(u: &Subject, file: u32, n: usize, fault: Fault) -> usize
    ensures { result ≡ bearer (unit_of u.now) file n fault }
{
    let nodes = u.nodes_at(file);
    match node_in(nodes, n) {
        Some(node) => bearer_by(nodes, node, n, fault),
        None => n,
    }
}

/// Where the fault of a node that is written stands.
fn written_offset(
    alloc: Global,
    u: &Subject,
    file: u32,
    node: usize,
    fault: Fault,
) -> Result<u32, NoMemory>
    ensures { IfOk result (λ offset. offset ≡ written_offset (unit_of u.now) (place file node) fault) }
{
    if !is_constraint(fault) {
        return Ok(offset_at(u, file, bearer(u, file, node, fault)));
    }
    let offset = constraint_offset(alloc, u, file)?;
    Ok(offset)
}

fn or_first(name: Option<u32>, first: Option<u32>) -> u32
    ensures { result ≡ option_map_or (λ n. n) name (option_map_or (λ n. n) first 0) }
{
    if let Some(name) = name {
        return name;
    }
    match first {
        Some(first) => first,
        None => 0,
    }
}

/// The name beside a value, or the first where there is none.
fn name_beside(nodes: &[Node], spec: Spec, value: usize) -> u32
    ensures { result ≡ name_beside (names_of nodes.now spec) value }
{
    or_first(name_at(nodes, spec, value), name_at(nodes, spec, 0))
}

/// Where the fault of a node in a repeated list stands: at the name beside its value.
fn copied_offset(u: &Subject, file: u32, value: usize, spec: Spec) -> u32
    ensures { result ≡ copied_offset (unit_of u.now) file value spec }
{
    offset_at(u, file, name_beside(u.nodes_at(file), spec, value) as usize)
}

/// Where the fault of a node of a passage stands in its file, by the value in which the node stands.
pub fn fault_offset(
    alloc: Global,
    u: &Subject,
    p: Passage,
    node: usize,
    value: usize,
    fault: Fault,
) -> Result<u32, NoMemory>
    ensures { IfOk result (λ offset. offset ≡ fault_offset (unit_of u.now) p node value fault) }
{
    match p.spec {
        Some(spec) => Ok(copied_offset(u, p.file, value, spec)),
        None => {
            let offset = written_offset(alloc, u, p.file, node, fault)?;
            Ok(offset)
        }
    }
}

/// Whether the value at a place is there and comes before a node.
fn comes_before(nodes: &[Node], spec: Spec, value: usize, node: usize) -> bool
    requires { value ≤ value_before (values_of nodes.now spec) node }
    ensures past { result ≡ true → value + 1 ≤ value_before (values_of nodes.now spec) node }
    ensures here { result ≡ false → value ≡ value_before (values_of nodes.now spec) node }
{
    match value_at(nodes, spec, value) {
        Some(at) => (at as usize) < node,
        None => false,
    }
}

/// The first value that isn't before a node, looked for from a place on.
fn value_from(nodes: &[Node], spec: Spec, from: usize, node: usize) -> usize
    requires { from ≤ value_before (values_of nodes.now spec) node }
    ensures { result ≡ value_before (values_of nodes.now spec) node }
{
    let count = value_count(nodes, spec);
    for value in from..count {
        if !comes_before(nodes, spec, value, node) {
            return value;
        }
    }
    count
}

/// The value in which a node of a passage stands, looked for from that of the node before it on.
pub fn value_in(u: &Subject, p: Passage, from: usize, node: usize) -> usize
    requires { from ≤ value_in (unit_of u.now) p node }
    ensures { result ≡ value_in (unit_of u.now) p node }
{
    match p.spec {
        Some(spec) => value_from(u.nodes_at(p.file), spec, from, node),
        None => 0,
    }
}
