//! Quiet expressions, for all nodes in one pass.
ghost use Rattle.std.specs.Prelude.{◌≡◌, ◌<◌, ◌≤◌, ◌^◌, false, length, IfOk, slice_get, slice_index_or};
ghost use Rattle.std.specs.Option.{option_copied};
ghost use Rattle.unit_read.specs.Units.{nodes_at};
ghost use Rattle.findings.specs.Passes.{unit_in, marks_in, IsPass};
ghost use Rattle.vet_words.specs.Quiet.{calls, unary_at, is_arrow, receives, is_noisy, all_quiet, quiet_rule, quiet_nodes, is_quiet};
ghost use Rattle.vet_words.specs.InCode.{AreRowsOf};

use crate::forms::{is_call, is_unary};
use crate::marked::{is_conversion, names_type};
use const_eval::Operator;
use const_tree::unary_operator;
use findings::Pass;
use go_tree::Node;
use gv_base::NoMemory;
use std::alloc::Global;

fn calls(p: &Pass, file: u32, node: &Node) -> bool
    requires { IsPass p.now }
    ensures { result ≡ calls (marks_in p.now) file node.now }
{
    is_call(node.kind) && !is_conversion(p, file, node)
}

fn unary_at(p: &Pass, file: u32, node: &Node) -> Option<Operator>
    ensures { result ≡ unary_at (unit_in p.now) file node.now }
{
    match p.subject.tree_at(file) {
        Some(tree) => unary_operator(tree, node),
        None => None,
    }
}

fn is_arrow(p: &Pass, file: u32, node: &Node) -> bool
    ensures { result ≡ is_arrow (unit_in p.now) file node.now }
{
    is_unary(node.kind) && !unary_at(p, file, node).is_some()
}

fn receives(p: &Pass, file: u32, n: u32, node: &Node) -> bool
    requires { IsPass p.now }
    ensures { result ≡ receives (unit_in p.now) (marks_in p.now) file n node.now }
{
    is_arrow(p, file, node) && !names_type(p, file, n)
}

fn is_noisy(p: &Pass, file: u32, n: u32, node: &Node) -> bool
    requires { IsPass p.now }
    ensures { result ≡ is_noisy (unit_in p.now) (marks_in p.now) file n node.now }
{
    calls(p, file, node) || receives(p, file, n, node)
}

fn flag_in(so_far: &[bool], n: u32) -> bool
    ensures { result ≡ slice_index_or so_far.now n false }
{
    match so_far.get(n as usize) {
        Some(flag) => *flag,
        None => false,
    }
}

fn all_quiet(so_far: &[bool], list: &[u32]) -> bool
    ensures { result ≡ all_quiet so_far.now list.now }
{
    for n in list {
        if !flag_in(so_far, *n) {
            return false;
        }
    }
    true
}

fn quiet_node(p: &Pass, file: u32, so_far: &[bool], node: &Node) -> bool
    requires pass { IsPass p.now }
    requires few { length so_far.now < 2 ^ 32 }
    ensures { result ≡ quiet_rule (unit_in p.now) (marks_in p.now) file so_far.now node.now }
{
    !is_noisy(p, file, so_far.len() as u32, node) && all_quiet(so_far, node.parts.as_slice())
}

fn quiet_row(alloc: Global, p: &Pass, file: u32) -> Result<Vec<bool>, NoMemory>
    requires { IsPass p.now }
    ensures { IfOk result (λ row. row.items ≡ quiet_nodes (unit_in p.now) (marks_in p.now) file) }
{
    let nodes = p.subject.nodes_at(file);
    let mut row = Vec::new(alloc);
    for n in 0..nodes.len() {
        let quiet = quiet_node(p, file, &row, &nodes[n]);
        row.push(quiet)?;
    }
    Ok(row)
}

/// For each node of each file whether it is quiet.
pub fn quiet_rows(alloc: Global, p: &Pass) -> Result<Vec<Vec<bool>>, NoMemory>
    requires { IsPass p.now }
    ensures { IfOk result (λ rows. AreRowsOf (quiet_nodes (unit_in p.now) (marks_in p.now)) rows.items (length (unit_in p.now).trees)) }
{
    let mut rows = Vec::new(alloc);
    for file in 0..p.subject.trees.len() {
        let row = quiet_row(alloc, p, file as u32)?;
        rows.push(row)?;
    }
    Ok(rows)
}

fn row_at(rows: &[Vec<bool>], file: u32) -> Option<&Vec<bool>>
    ensures { option_copied result ≡ slice_get rows.now file }
{
    rows.get(file as usize)
}

/// Whether a node is quiet, by these rows.
pub fn is_quiet(p: &Pass, rows: &[Vec<bool>], file: u32, n: u32) -> bool
    requires { AreRowsOf (quiet_nodes (unit_in p.now) (marks_in p.now)) rows.now (length (unit_in p.now).trees) }
    ensures { result ≡ is_quiet (unit_in p.now) (marks_in p.now) file n }
{
    let _ = p;
    match row_at(rows, file) {
        Some(row) => flag_in(row, n),
        None => false,
    }
}
