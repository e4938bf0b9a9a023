//! Which nodes mention no declared name, and hold none: a search leaves them out.
ghost use Rattle.std.specs.Prelude.{◌≡◌, ◌<◌, ◌≤◌, ◌^◌, Some, length, slice_get, IfOk};
ghost use Rattle.std.specs.List.{list_all};
ghost use Rattle.std.specs.Option.{option_copied};
ghost use Rattle.object_order.specs.Views.{node_in, meant_in};
ghost use Rattle.object_order.specs.Quiet.{is_aside, is_aside_at, passed, quiet_at, quiet_here, IsQuietRow, AreQuiet};

use crate::pick::flag_at;
use crate::tables::is_body;
use crate::view::mention_at;
use go_tree::{FileTree, Node, NodeKind, NodeRef};
use gv_base::NoMemory;
use std::alloc::Global;

/// Whether a node is left aside: a body, unless bodies are looked into.
fn is_aside(bodies: bool, kind: NodeKind) -> bool
    ensures { result ≡ is_aside bodies kind }
{
    if bodies {
        return false;
    }
    is_body(kind)
}

fn is_aside_at(bodies: bool, nodes: &[Node], part: u32) -> bool
    ensures { result ≡ is_aside_at bodies (slice_get nodes.now part) }
{
    match nodes.get(part as usize) {
        Some(node) => is_aside(bodies, node.kind),
        None => false,
    }
}

/// Whether a part is quiet, or left aside.
fn is_passed(bodies: bool, nodes: &[Node], flags: &Vec<bool>, part: u32) -> bool
    ensures { result ≡ passed bodies nodes.now flags.now.items part }
{
    if flag_at(flags, part) {
        return true;
    }
    is_aside_at(bodies, nodes, part)
}

fn are_passed(bodies: bool, nodes: &[Node], flags: &Vec<bool>, parts: &[u32]) -> bool
    ensures { result ≡ list_all (passed bodies nodes.now flags.now.items) parts.now }
{
    parts
        .iter()
        .all(|part| is_passed(bodies, nodes, flags, *part))
}

/// Whether a node is quiet, where those before it are flagged.
fn is_quiet_node(
    bodies: bool,
    nodes: &[Node],
    flags: &Vec<bool>,
    meant: Option<NodeRef>,
    node: &Node,
) -> bool
    ensures { result ≡ quiet_here bodies nodes.now flags.now.items meant node.now }
{
    match meant {
        Some(_) => false,
        None => are_passed(bodies, nodes, flags, node.parts.as_slice()),
    }
}

/// Of so many things those that have a number of 32 bits.
fn numbered(count: usize) -> usize
    ensures all { result ≤ count }
    ensures small { result ≤ 2 ^ 32 }
{
    count.min(4_294_967_296)
}

fn node_here(nodes: &[Node], n: usize) -> &Node
    requires { n < length nodes.now }
    ensures { slice_get nodes.now n ≡ Some result.now }
{
    &nodes[n]
}

/// The quiet nodes of a file.
fn quiet_row(
    alloc: Global,
    bodies: bool,
    meant: &[Vec<Option<NodeRef>>],
    file: u32,
    nodes: &[Node],
) -> Result<Vec<bool>, NoMemory>
    ensures { IfOk result (λ row. IsQuietRow bodies (meant_in meant.now) file nodes.now row.items) }
{
    let end = numbered(nodes.len());
    let mut flags = Vec::with_capacity(alloc, end)?;
    for n in 0..end {
        let at = NodeRef {
            file,
            node: n as u32,
        };
        let mention = mention_at(meant, at);
        let node = node_here(nodes, n);
        let flag = is_quiet_node(bodies, nodes, &flags, mention, node);
        flags.push(flag)?;
    }
    Ok(flags)
}

fn tree_here(trees: &[FileTree], file: usize) -> &FileTree
    requires { file < length trees.now }
    ensures { slice_get trees.now file ≡ Some result.now }
{
    &trees[file]
}

/// For each file which of its nodes are quiet: they mention nothing, and hold nothing that does, in bodies too or outside them. Parts come
/// before the node that has them; no other node is quiet.
pub fn quiet_rows(
    alloc: Global,
    bodies: bool,
    trees: &[FileTree],
    meant: &[Vec<Option<NodeRef>>],
) -> Result<Vec<Vec<bool>>, NoMemory>
    ensures { IfOk result (λ rows. AreQuiet bodies (node_in trees.now) (meant_in meant.now) (quiet_at rows.items)) }
{
    let mut rows = Vec::new(alloc);
    let end = numbered(trees.len());
    for file in 0..end {
        let tree = tree_here(trees, file);
        let row = quiet_row(alloc, bodies, meant, file as u32, tree.nodes.as_slice())?;
        rows.push(row)?;
    }
    Ok(rows)
}

fn row_at(rows: &Vec<Vec<bool>>, file: u32) -> Option<&Vec<bool>>
    ensures { option_copied result ≡ slice_get rows.now.items file }
{
    rows.get(file as usize)
}

/// Whether a node is flagged as quiet.
pub fn is_quiet(rows: &Vec<Vec<bool>>, at: NodeRef) -> bool
    ensures { result ≡ quiet_at rows.now.items at }
{
    match row_at(rows, at.file) {
        Some(row) => flag_at(row, at.node),
        None => false,
    }
}
