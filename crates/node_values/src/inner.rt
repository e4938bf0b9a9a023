//! The innermost node of some kinds that holds each node.
ghost use Rattle.std.specs.Prelude.{◌≡◌, ℕ, Bool, cond, Some, None, Option, IfOk, length};
ghost use Rattle.node_values.specs.Parents.{AreParents};
ghost use Rattle.node_values.specs.Trees.{IsTree, AreInnermost};
ghost use Rattle.go_tree.specs.declared.tree.NodeKind.{NodeKind};
ghost use Rattle.go_tree.specs.declared.tree.Node.{Node};

use crate::handing::{Hands, hand_down};
use go_tree::{Node, NodeKind};
use gv_base::NoMemory;
use std::alloc::Global;

/// Some kinds of nodes.
pub trait Stops {
    ghost kinds: { Self → NodeKind → Bool };

    fn is_one(&self, kind: NodeKind) -> bool
        ensures { result ≡ kinds self.now kind };
}

impl<S: Stops> Hands<Option<usize>> for S {
    ghost rule = { λ s. λ p node n own. cond (S.kinds s node.kind) (Some p) own };

    ghost top = { λ s. None };

    fn top(&self) -> Option<usize> {
        None
    }

    fn hand(&self, p: usize, node: &Node, n: usize, own: Option<usize>) -> Option<usize> {
        let _ = n;
        if self.is_one(node.kind) { Some(p) } else { own }
    }
}

/// The innermost node of some kinds that holds each node.
pub fn innermost<S: Stops>(
    alloc: Global,
    stops: &S,
    nodes: &[Node],
    parents: &[usize],
) -> Result<Vec<Option<usize>>, NoMemory>
    requires tree { IsTree nodes.now }
    requires parents { AreParents nodes.now (length nodes.now) parents.now }
    ensures { IfOk result (λ found. AreInnermost (S.kinds stops.now) nodes.now found.items) }
{
    let found = hand_down(alloc, stops, nodes, parents)?;
    Ok(found)
}
