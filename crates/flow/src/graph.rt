//! The graph of a file: where control leads where nothing that is called stops it.
ghost use Rattle.std.specs.Prelude.{◌≡◌, ◌≤◌, ◌++◌, ◌^◌, ℕ, List, IfOk, OnOk, length, slice_get, Some};
ghost use Rattle.flow.specs.Around.{IsTree};
ghost use Rattle.flow.specs.Flow.{edges_at, edges_from};
ghost use Rattle.flow.specs.Search.{IsGraph};

use crate::around::{around_at, around_of};
use crate::edges::{add_edges, add_jump};
use crate::point::{Around, Edge};
use crate::rows::{Targets, rows_of};
use crate::targets::target_of;
use go_tree::{FileTree, Node};
use gv_base::NoMemory;
use std::alloc::Global;
use std::marker::Model;

/// For each point of a file the points to which control leads from it. Before node n is the point 2n,
/// behind it 2n + 1.
#[derive(Drop)]
pub struct Graph {
    rows: Vec<Targets>,
}

impl Model for Graph {
    ghost Value = { List (List ℕ) };

    ghost view = { λ g. g.rows.items };
}

impl Graph {
    pub(crate) fn rows(&self) -> &[Targets]
        ensures { result.now ≡ self.now }
    {
        self.rows.as_slice()
    }
}

fn add_node(
    edges: &mut Vec<Edge>,
    tree: &FileTree,
    labels: &[Option<u32>],
    table: &[Around],
    n: u32,
    node: &Node,
) -> Result<(), NoMemory>
    ensures { OnOk result (edges.new.items ≡ edges.old.items ++ edges_at tree.now labels.now table.now n node.now) }
{
    let target = target_of(tree, labels, node, around_at(table, n as usize));
    add_edges(edges, tree, n, node.kind, node.parts.as_slice())?;
    add_jump(edges, n, target)?;
    Ok(())
}

/// The edges of a file, node by node.
fn edges_of_nodes(
    alloc: Global,
    tree: &FileTree,
    labels: &[Option<u32>],
    table: &[Around],
) -> Result<Vec<Edge>, NoMemory>
    requires few { length tree.now.nodes ≤ 2 ^ 32 }
    ensures { IfOk result (λ edges. edges.items ≡ edges_from tree.now labels.now table.now 0 tree.now.nodes) }
{
    let nodes = tree.nodes.as_slice();
    let mut edges = Vec::with_capacity(alloc, 2 * nodes.len())?;
    for n in 0..nodes.len() {
        add_node(&mut edges, tree, labels, table, n as u32, &nodes[n])?;
    }
    Ok(edges)
}

fn made(rows: Vec<Targets>) -> Graph
    ensures { result ≡ rows.items }
{
    Graph { rows }
}

/// The graph of a file. `labels` has for the name behind a jump the labeled statement that it denotes.
/// In time and memory in step with the file.
pub fn graph_of(alloc: Global, tree: &FileTree, labels: &[Option<u32>]) -> Result<Graph, NoMemory>
    requires tree { IsTree tree.now.nodes }
    requires few { length tree.now.nodes ≤ 2 ^ 32 }
    ensures { IfOk result (λ graph. IsGraph tree.now labels.now graph) }
{
    let table = around_of(alloc, tree)?;
    let edges = edges_of_nodes(alloc, tree, labels, &table)?;
    let rows = rows_of(alloc, &edges, 2 * tree.nodes.as_slice().len())?;
    Ok(made(rows))
}
