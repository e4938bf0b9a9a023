//! What is handed down in bodies.
ghost use Rattle.std.specs.Prelude.{◌≡◌, ◌==◌, ◌&&◌, ◌||◌, not, ℕ, Bool, false, IfOk, length};
ghost use Rattle.go_tree.specs.declared.tree.Node.{Node};
ghost use Rattle.node_values.specs.Parents.{AreParents};
ghost use Rattle.node_values.specs.Trees.{IsTree};
ghost use Rattle.body_rules.specs.Endings.{from_last};
ghost use Rattle.body_rules.specs.Hands.{clause_by, clause_rule, alone_by, alone_rule, AreClauseEnds, AreAlone};
ghost use Rattle.body_rules.specs.Kinds.{is_label, is_clause, is_list, is_several, is_paren};

use crate::branches::is_first;
use crate::kinds::{is_assigning, is_clause, is_label, is_list, is_paren, is_several, is_switch};
use go_tree::{Node, NodeKind};
use gv_base::NoMemory;
use node_values::{Hands, hand_down};
use std::alloc::Global;

fn is_last(parts: &[u32], n: usize) -> bool
    ensures { result ≡ (from_last parts.now 1 == n) }
{
    match parts.last() {
        Some(part) => *part as usize == n,
        None => n == 0,
    }
}

fn is_clause_or_list(kind: NodeKind) -> bool
    ensures { result ≡ (is_clause kind || is_list kind) }
{
    if is_clause(kind) {
        return true;
    }
    is_list(kind)
}

/// What hands its own value on to a part.
fn passes(kind: NodeKind, parts: &[u32], n: usize) -> bool
    ensures { result ≡ (is_label kind || ((is_clause kind || is_list kind) && (from_last parts.now 1 == n))) }
{
    if is_label(kind) {
        return true;
    }
    if !is_clause_or_list(kind) {
        return false;
    }
    is_last(parts, n)
}

fn clause_by(kind: NodeKind, parts: &[u32], n: usize, own: bool) -> bool
    ensures { result ≡ clause_by kind parts.now n own }
{
    if is_switch(kind) {
        return !is_last(parts, n);
    }
    if !own {
        return false;
    }
    passes(kind, parts, n)
}

fn groups(kind: NodeKind) -> bool
    ensures { result ≡ (is_several kind || is_paren kind) }
{
    if is_several(kind) {
        return true;
    }
    is_paren(kind)
}

fn alone_by(kind: NodeKind, parts: &[u32], n: usize, own: bool) -> bool
    ensures { result ≡ alone_by kind parts.now n own }
{
    if is_assigning(kind) {
        return is_first(parts, n);
    }
    if !own {
        return false;
    }
    groups(kind)
}

struct ClauseEnds;

impl Hands<bool> for ClauseEnds {
    ghost rule = { λ s. clause_rule };

    ghost top = { λ s. false };

    fn top(&self) -> bool {
        false
    }

    fn hand(&self, p: usize, node: &Node, n: usize, own: bool) -> bool {
        let _ = p;
        clause_by(node.kind, node.parts.as_slice(), n, own)
    }
}

struct Alone;

impl Hands<bool> for Alone {
    ghost rule = { λ s. alone_rule };

    ghost top = { λ s. false };

    fn top(&self) -> bool {
        false
    }

    fn hand(&self, p: usize, node: &Node, n: usize, own: bool) -> bool {
        let _ = p;
        alone_by(node.kind, node.parts.as_slice(), n, own)
    }
}

/// Where a `fallthrough` may stand.
pub(crate) fn clause_ends(
    alloc: Global,
    nodes: &[Node],
    parents: &[usize],
) -> Result<Vec<bool>, NoMemory>
    requires tree { IsTree nodes.now }
    requires parents { AreParents nodes.now (length nodes.now) parents.now }
    ensures { IfOk result (λ found. AreClauseEnds nodes.now found.items) }
{
    let found = hand_down(alloc, &ClauseEnds, nodes, parents)?;
    Ok(found)
}

/// What stands alone on the left of an assignment.
pub(crate) fn alone_of(
    alloc: Global,
    nodes: &[Node],
    parents: &[usize],
) -> Result<Vec<bool>, NoMemory>
    requires tree { IsTree nodes.now }
    requires parents { AreParents nodes.now (length nodes.now) parents.now }
    ensures { IfOk result (λ found. AreAlone nodes.now found.items) }
{
    let found = hand_down(alloc, &Alone, nodes, parents)?;
    Ok(found)
}
