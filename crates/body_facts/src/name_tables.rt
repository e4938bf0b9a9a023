//! What names denote and declare in a file, by node.
ghost use Rattle.std.specs.Prelude.{◌≡◌, ◌<◌, ◌≤◌, ◌^◌, ◌==◌, ◌↔◌, ℕ, true, false, if◌then◌else◌, IfOk, Some, None, length, replicate, get_or};
ghost use Rattle.go_tree.specs.declared.tree.Node.{Node};
ghost use Rattle.object_order.specs.Spots.{place};
ghost use Rattle.node_values.specs.Parents.{AreParents};
ghost use Rattle.node_values.specs.Trees.{IsTree};
ghost use Rattle.unit_read.specs.Subjects.{unit_of, IsRead, cell};
ghost use Rattle.unit_read.specs.Units.{object_at};
ghost use Rattle.body_facts.specs.NameTables.{AreValues, local_in, meant_at, is_panic, is_paren, is_call, is_first, callee_rule, AreCallees, DenotesPanic, Panics, ArePanics};

use go_tree::{Node, NodeKind, NodeRef, Object};
use gv_base::NoMemory;
use node_values::{Hands, Targets, flag_targets, hand_down};
use std::alloc::Global;
use unit_read::{Subject, cell};

pub(crate) fn place(file: u32, n: usize) -> NodeRef
    requires { n < 2 ^ 32 }
    ensures { result ≡ place file n }
{
    NodeRef {
        file,
        node: n as u32,
    }
}

// ---- what uses denote

fn is_file(at: NodeRef, file: u32) -> bool
    ensures { result ≡ (at.file == file) }
{
    at.file == file
}

fn node_in(file: u32, at: NodeRef) -> Option<usize>
    ensures { result ≡ local_in file (Some at) }
{
    if is_file(at, file) {
        Some(at.node as usize)
    } else {
        None
    }
}

fn local_in(file: u32, name: Option<NodeRef>) -> Option<usize>
    ensures { result ≡ local_in file name }
{
    match name {
        Some(at) => node_in(file, at),
        None => None,
    }
}

fn meant_at(meant: &Vec<Vec<Option<NodeRef>>>, file: u32, n: usize) -> Option<usize>
    requires { n < 2 ^ 32 }
    ensures { result ≡ meant_at (cell meant.now.items) file n }
{
    local_in(file, cell(meant, place(file, n)))
}

/// The declaration in the same file that each node means.
pub(crate) fn meant_of(
    alloc: Global,
    meant: &Vec<Vec<Option<NodeRef>>>,
    file: u32,
    count: usize,
) -> Result<Vec<Option<usize>>, NoMemory>
    requires { count ≤ 2 ^ 32 }
    ensures { IfOk result (λ found. AreValues (meant_at (cell meant.now.items) file) None count found.items) }
{
    let mut found = Vec::with_capacity(alloc, count)?;
    for n in 0..count {
        let value = meant_at(meant, file, n);
        found.push(value)?;
    }
    Ok(found)
}

// ---- calls of `panic`

fn is_panic(object: Option<Object>) -> bool
    ensures { result ≡ is_panic object }
{
    match object {
        Some(Object::Universe(k)) => k == 25,
        Some(Object::Local(_)) => false,
        Some(Object::Import(_)) => false,
        Some(Object::Package(_)) => false,
        None => false,
    }
}

fn is_paren(kind: NodeKind) -> bool
    ensures { result ≡ is_paren kind }
{
    matches!(kind, NodeKind::Paren)
}

fn is_call(kind: NodeKind) -> bool
    ensures { result ≡ is_call kind }
{
    matches!(kind, NodeKind::Call)
}

fn is_first(parts: &[u32], n: usize) -> bool
    ensures { result ≡ is_first parts.now n }
{
    match parts.first() {
        Some(part) => *part as usize == n,
        None => false,
    }
}

fn if_first(parts: &[u32], n: usize, p: usize) -> Option<usize>
    ensures { result ≡ (if is_first parts.now n then Some p else None) }
{
    if is_first(parts, n) { Some(p) } else { None }
}

fn callee_of(p: usize, node: &Node, n: usize, own: Option<usize>) -> Option<usize>
    ensures { result ≡ callee_rule p node.now n own }
{
    if is_call(node.kind) {
        return if_first(node.parts.as_slice(), n, p);
    }
    if is_paren(node.kind) {
        return own;
    }
    None
}

struct Callees;

impl Hands<Option<usize>> for Callees {
    ghost rule = { λ s. callee_rule };

    ghost top = { λ s. None };

    fn top(&self) -> Option<usize> {
        None
    }

    fn hand(&self, p: usize, node: &Node, n: usize, own: Option<usize>) -> Option<usize> {
        callee_of(p, node, n, own)
    }
}

fn callees_of(
    alloc: Global,
    nodes: &[Node],
    parents: &[usize],
) -> Result<Vec<Option<usize>>, NoMemory>
    requires tree { IsTree nodes.now }
    requires parents { AreParents nodes.now (length nodes.now) parents.now }
    ensures { IfOk result (λ found. AreCallees nodes.now found.items) }
{
    let found = hand_down(alloc, &Callees, nodes, parents)?;
    Ok(found)
}

fn answer_at(found: &[Option<usize>], n: usize) -> Option<usize>
    ensures { result ≡ get_or found.now n None }
{
    if n < found.len() { found[n] } else { None }
}

fn denotes_panic(u: &Subject, file: u32, n: usize) -> bool
    requires read { IsRead u.now }
    requires few { n < 2 ^ 32 }
    ensures { result ≡ is_panic (object_at (unit_of u.now) (place file n)) }
{
    is_panic(u.object_at(place(file, n)))
}

/// The calls of which a function denotes `panic`.
#[derive(Clone, Copy, Drop)]
struct Panicking<'a> {
    u: &'a Subject<'a>,
    file: u32,
    count: usize,
    callees: &'a [Option<usize>],
}

impl<'a> Targets for Panicking<'a> {
    ghost IsState = { λ s. IsRead s.u.now × (s.count ≤ 2 ^ 32) };

    ghost count = { λ s. s.count };

    ghost Leads = { λ s. Panics (unit_of s.u.now) s.file s.callees.now };

    fn count(&self) -> usize {
        self.count
    }

    fn target(&self, n: usize) -> Option<usize> {
        if !denotes_panic(self.u, self.file, n) {
            return None;
        }
        answer_at(self.callees, n)
    }
}

/// Whether a node denotes `panic`.
fn any_panics(u: &Subject, file: u32, count: usize) -> bool
    requires read { IsRead u.now }
    requires few { count ≤ 2 ^ 32 }
    ensures { (result ≡ true) ↔ ((n : ℕ) × DenotesPanic (unit_of u.now) file count n) }
{
    for n in 0..count {
        if denotes_panic(u, file, n) {
            return true;
        }
    }
    false
}

fn all_false(alloc: Global, count: usize) -> Result<Vec<bool>, NoMemory>
    ensures { IfOk result (λ flags. flags.items ≡ replicate count false) }
{
    let flags = vec![in alloc; false; count]?;
    Ok(flags)
}

/// Which nodes are calls of `panic`. In most files nothing denotes it.
pub(crate) fn panics_of(
    alloc: Global,
    u: &Subject,
    file: u32,
    nodes: &[Node],
    parents: &[usize],
) -> Result<Vec<bool>, NoMemory>
    requires read { IsRead u.now }
    requires few { length nodes.now ≤ 2 ^ 32 }
    requires tree { IsTree nodes.now }
    requires parents { AreParents nodes.now (length nodes.now) parents.now }
    ensures { IfOk result (λ flags. ArePanics (unit_of u.now) file nodes.now flags.items) }
{
    if !any_panics(u, file, nodes.len()) {
        let none = all_false(alloc, nodes.len())?;
        return Ok(none);
    }
    let callees = callees_of(alloc, nodes, parents)?;
    let rule = Panicking {
        u,
        file,
        count: nodes.len(),
        callees: &callees,
    };
    let flags = flag_targets(alloc, &rule, nodes.len())?;
    Ok(flags)
}
