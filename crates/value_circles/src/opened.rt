//! A package in which blocks are read as lists of statements.
ghost use Rattle.std.specs.Prelude.{◌≡◌, map, IfOk};
ghost use Rattle.value_circles.specs.Bodies.{opened_kind, opened_node, opened, opened_trees};

use go_tree::{FileTree, Node, NodeKind, Parts};
use gv_base::{NoMemory, Row};
use std::alloc::Global;

fn opened_kind(kind: NodeKind) -> NodeKind
    ensures { result ≡ opened_kind kind }
{
    match kind {
        NodeKind::Block => NodeKind::List,
        kind => kind,
    }
}

fn numbers(alloc: Global, list: &[u32]) -> Result<Vec<u32>, NoMemory>
    ensures { IfOk result (λ copy. copy.items ≡ list.now) }
{
    let copy = list.to_vec(alloc)?;
    Ok(copy)
}

fn opened_node(alloc: Global, node: &Node) -> Result<Node, NoMemory>
    ensures { IfOk result (λ n. n ≡ opened_node node.now) }
{
    let parts = numbers(alloc, node.parts.as_slice())?;
    Ok(Node {
        kind: opened_kind(node.kind),
        first: node.first,
        last: node.last,
        parts: Parts::new(parts),
    })
}

fn opened_nodes(alloc: Global, nodes: &[Node]) -> Result<Vec<Node>, NoMemory>
    ensures { IfOk result (λ list. list.items ≡ map opened_node nodes.now) }
{
    let mut list = Vec::with_capacity(alloc, nodes.len())?;
    for node in nodes {
        let one = opened_node(alloc, node)?;
        list.push(one)?;
    }
    Ok(list)
}

fn opened(alloc: Global, tree: &FileTree) -> Result<FileTree, NoMemory>
    ensures { IfOk result (λ t. t ≡ opened tree.now) }
{
    let nodes = opened_nodes(alloc, tree.nodes.as_slice())?;
    let tops = numbers(alloc, tree.tops.as_slice())?;
    Ok(FileTree {
        tokens: Row::new(Vec::new(alloc)),
        nodes: Row::new(nodes),
        tops: Row::new(tops),
    })
}

/// The trees without their tokens, in which each block is a list of statements, so that a search that goes into no block goes into it.
pub fn opened_trees(alloc: Global, trees: &[FileTree]) -> Result<Vec<FileTree>, NoMemory>
    ensures { IfOk result (λ list. list.items ≡ opened_trees trees.now) }
{
    let mut list = Vec::new(alloc);
    for tree in trees {
        let one = opened(alloc, tree)?;
        list.push(one)?;
    }
    Ok(list)
}
