//! Statements that can't be reached.
ghost use Rattle.std.specs.Prelude.{◌≡◌, ◌<◌, ◌≤◌, ◌^◌, ◌*◌, ◌↔◌, ◌++◌, ◌∷◌, [], ℕ, true, IfOk, OnOk, is_some, length, suc, Some, slice_get, cond, option_map, if◌then◌else◌};
ghost use Rattle.flow.specs.Around.{IsTree};
ghost use Rattle.flow.specs.Edges.{before};
ghost use Rattle.flow.specs.Passing.{is_statements, flag_of, AreUnreached, cut_part, cut_at, AreMarkedBehind, statements_of, nowhere_named, IsCutOff, IsCutOffIn, AreMarked, AreFlagged};

use crate::around::around_of;
use crate::edges::before;
use crate::marks::{left_points, mark, named_points, no_marks};
use crate::passing::{flag_at, passing, surely_passing};
use go_tree::{FileTree, Node, NodeKind};
use gv_base::NoMemory;
use std::alloc::Global;

fn is_statements(kind: NodeKind) -> bool
    ensures { result ≡ is_statements kind }
{
    matches!(kind, NodeKind::Block | NodeKind::List)
}

/// A statement that can't be reached from the one before it, as a number.
fn cut_next(passing: &[bool], named: &[bool], first: u32, next: u32) -> Option<usize>
    ensures { result ≡ cond (flag_of passing.now first) None (cond (flag_of named.now (before next)) None (Some next)) }
{
    if flag_at(passing, first as usize) {
        return None;
    }
    if flag_at(named, before(next)) {
        return None;
    }
    Some(next as usize)
}

fn cut_part(
    passing: &[bool],
    named: &[bool],
    first: Option<&u32>,
    next: Option<&u32>,
) -> Option<usize>
    ensures { result ≡ cut_part (flag_of passing.now) (λ n. flag_of named.now (before n)) (option_map (λ x. x.now) first.entry) (option_map (λ x. x.now) next.entry) }
{
    match first {
        None => None,
        Some(first) => match next {
            None => None,
            Some(next) => cut_next(passing, named, *first, *next),
        },
    }
}

/// What is cut off by the part at a place: the one behind it, or nothing.
fn cut_at(passing: &[bool], named: &[bool], parts: &[u32], i: usize) -> Option<usize>
    requires { i < length parts.now }
    ensures { result ≡ cut_at (flag_of passing.now) (λ n. flag_of named.now (before n)) parts.now i }
{
    cut_part(passing, named, parts.get(i), parts.get(i + 1))
}

/// Marks the parts of a list that can't be reached.
fn mark_behind(flags: &mut Vec<bool>, passing: &[bool], named: &[bool], parts: &[u32])
    ensures { AreMarkedBehind (flag_of passing.now) (λ n. flag_of named.now (before n)) parts.now (length parts.now) flags.old.items flags.new.items }
{
    for i in 0..parts.len() {
        mark(flags, cut_at(passing, named, parts, i));
    }
}

/// The statements of a node, if it has statements.
fn statements_of(node: &Node) -> &[u32]
    ensures { result.now ≡ statements_of node.now }
{
    if is_statements(node.kind) {
        return node.parts.as_slice();
    }
    &[]
}

/// Marks the statements that can't be reached.
fn cut_off(
    alloc: Global,
    nodes: &[Node],
    passing: &[bool],
    named: &[bool],
) -> Result<Vec<bool>, NoMemory>
    ensures { IfOk result (λ flags. AreMarked (IsCutOffIn (flag_of passing.now) (λ n. flag_of named.now (before n)) nodes.now) (length nodes.now) (length nodes.now) flags.items) }
{
    let mut flags = no_marks(alloc, nodes.len())?;
    for n in 0..nodes.len() {
        mark_behind(&mut flags, passing, named, statements_of(&nodes[n]));
    }
    Ok(flags)
}

fn push_if(numbers: &mut Vec<u32>, so: bool, n: u32) -> Result<(), NoMemory>
    ensures { OnOk result (numbers.new.items ≡ (if so then (numbers.old.items ++ n ∷ []) else numbers.old.items)) }
{
    if so {
        numbers.push(n)?;
    }
    Ok(())
}

/// The numbers whose flag is set.
fn flagged(alloc: Global, flags: &[bool]) -> Result<Vec<u32>, NoMemory>
    requires few { length flags.now ≤ 2 ^ 32 }
    ensures { IfOk result (λ numbers. AreFlagged flags.now (length flags.now) numbers.items) }
{
    let mut numbers = Vec::new(alloc);
    for n in 0..flags.len() {
        push_if(&mut numbers, flags[n], n as u32)?;
    }
    Ok(numbers)
}

/// Whether a part cuts off the one behind it, where no statement is named.
fn cuts(passing: &[bool], parts: &[u32], i: usize) -> bool
    requires { i < length parts.now }
    ensures { result ≡ is_some (cut_at (flag_of passing.now) nowhere_named parts.now i) }
{
    match cut_at(passing, &[], parts, i) {
        Some(_) => true,
        None => false,
    }
}

/// Whether some part cuts off the one behind it.
fn cuts_some(passing: &[bool], parts: &[u32]) -> bool
    ensures { (result ≡ true) ↔ ((n : ℕ) × IsCutOff (flag_of passing.now) nowhere_named parts.now (length parts.now) n) }
{
    for i in 0..parts.len() {
        if cuts(passing, parts, i) {
            return true;
        }
    }
    false
}

/// Whether some statement stands behind one that isn't among those that pass.
fn may_be_cut(nodes: &[Node], passing: &[bool]) -> bool
    ensures { (result ≡ true) ↔ ((n : ℕ) × (p : ℕ) × IsCutOffIn (flag_of passing.now) nowhere_named nodes.now n p) }
{
    for p in 0..nodes.len() {
        if cuts_some(passing, statements_of(&nodes[p])) {
            return true;
        }
    }
    false
}

/// The statements that can't be reached, where jumps must be asked.
fn all_unreached(
    alloc: Global,
    tree: &FileTree,
    labels: &[Option<u32>],
    stops: &[bool],
) -> Result<Vec<u32>, NoMemory>
    requires tree { IsTree tree.now.nodes }
    requires few { length tree.now.nodes ≤ 2 ^ 32 }
    ensures { IfOk result (λ found. AreUnreached tree.now labels.now (flag_of stops.now) found.items) }
{
    let table = around_of(alloc, tree)?;
    let left = left_points(alloc, tree, labels, &table)?;
    let named = named_points(alloc, tree, labels)?;
    let passing = passing(alloc, tree, labels, stops, &left)?;
    let flags = cut_off(alloc, tree.nodes.as_slice(), &passing, &named)?;
    let found = flagged(alloc, &flags)?;
    Ok(found)
}

/// The statements of a file that can't be reached, by the numbers of their nodes, in order. `labels` has
/// for the name behind a jump the labeled statement that it denotes, `stops` is set for the calls that
/// don't pass. In time and memory in step with the file. Jumps are asked only where a statement before another
/// may not pass.
pub fn unreached(
    alloc: Global,
    tree: &FileTree,
    labels: &[Option<u32>],
    stops: &[bool],
) -> Result<Vec<u32>, NoMemory>
    requires tree { IsTree tree.now.nodes }
    requires few { length tree.now.nodes ≤ 2 ^ 32 }
    ensures { IfOk result (λ found. AreUnreached tree.now labels.now (flag_of stops.now) found.items) }
{
    let sure = surely_passing(alloc, tree, stops)?;
    if !may_be_cut(tree.nodes.as_slice(), &sure) {
        return Ok(Vec::new(alloc));
    }
    let found = all_unreached(alloc, tree, labels, stops)?;
    Ok(found)
}
