//! The flow of a file, from its tree and its bytes alone.
ghost use Rattle.std.specs.Prelude.{◌≡◌, IfOk};
ghost use Rattle.go_tree.specs.Pieces.{Spelled};
ghost use Rattle.file_flow.specs.Told.{AreTold};
ghost use Rattle.file_flow.specs.File.{AreUnreachedIn, IsGraphOf};

use crate::calls::panics;
use crate::laws::{nodes_are_few, spelled_is_a_tree};
use crate::told::file_labels;
use flow::{Graph, graph_of, unreached};
use go_tree::FileTree;
use gv_base::NoMemory;
use std::alloc::Global;

/// The graph of a file, where `labels` are what `file_labels` says of it.
pub fn file_graph(
    alloc: Global,
    tree: &FileTree,
    bytes: &[u8],
    labels: &[Option<u32>],
) -> Result<Graph, NoMemory>
    requires spelled { Spelled tree.now.tokens bytes.now tree.now }
    requires told { AreTold bytes.now tree.now labels.now }
    ensures { IfOk result (λ graph. IsGraphOf bytes.now tree.now labels.now graph) }
{
    nodes_are_few(tree, bytes);
    spelled_is_a_tree();
    let graph = graph_of(alloc, tree, labels)?;
    Ok(graph)
}

/// The statements of a file that can't be reached, by the numbers of their nodes, in order.
pub fn unreached_in(alloc: Global, tree: &FileTree, bytes: &[u8]) -> Result<Vec<u32>, NoMemory>
    requires { Spelled tree.now.tokens bytes.now tree.now }
    ensures { IfOk result (λ found. AreUnreachedIn bytes.now tree.now found.items) }
{
    nodes_are_few(tree, bytes);
    spelled_is_a_tree();
    let labels = file_labels(alloc, tree, bytes)?;
    let stops = panics(alloc, tree, bytes)?;
    let found = unreached(alloc, tree, &labels, &stops)?;
    Ok(found)
}
