//! How much work a run had.
ghost use Rattle.std.specs.Prelude.{◌≡◌, ◌+◌, ◌*◌, ◌<◌, ◌≤◌, ◌^◌, [], length, sum_by};
ghost use Rattle.gv_driver.specs.Tables.{AreShort, fresh_runs, loads_in, missing_in, nodes_in, runs_in, runs_of_node, with_fresh};

use crate::node::{Node, RunNode};
use analysis_core::Counts;

/// Whether a run was executed, as 1 or 0.
fn fresh_one(run: &RunNode) -> usize
    ensures value { result ≡ length (with_fresh run.now.fresh []) }
    ensures small { result ≤ 1 }
{
    match &run.fresh {
        None => 0,
        Some(_) => 1,
    }
}

/// How many of these runs were executed.
fn fresh_count(runs: &[RunNode]) -> usize
    ensures value { result ≡ length (fresh_runs runs.now) }
    ensures small { result ≤ length runs.now }
{
    let mut count = 0;
    for run in runs {
        count += fresh_one(run);
    }
    count
}

fn runs_at(node: &Option<Node>) -> usize
    requires { length (runs_of_node node.now) ≤ 15 }
    ensures value { result ≡ runs_in node.now }
    ensures small { result ≤ 16 }
{
    match node {
        None => 0,
        Some(node) => fresh_count(node.runs.as_slice()),
    }
}

fn nodes_at(node: &Option<Node>) -> usize
    requires { length (runs_of_node node.now) ≤ 15 }
    ensures value { result ≡ nodes_in node.now }
    ensures small { result ≤ 16 }
{
    match node {
        None => 0,
        Some(node) => node.runs.as_slice().len() + 1,
    }
}

/// How many of a package's nodes were missing.
fn missing_of(node: &Node) -> usize
    requires { length node.now.runs ≤ 15 }
    ensures value { result ≡ length (with_fresh node.now.fresh (fresh_runs node.now.runs)) }
    ensures small { result ≤ 16 }
{
    let runs = fresh_count(node.runs.as_slice());
    match &node.fresh {
        None => runs,
        Some(_) => runs + 1,
    }
}

fn missing_at(node: &Option<Node>) -> usize
    requires { length (runs_of_node node.now) ≤ 15 }
    ensures value { result ≡ missing_in node.now }
    ensures small { result ≤ 16 }
{
    match node {
        None => 0,
        Some(node) => missing_of(node),
    }
}

fn loads_at(node: &Option<Node>) -> usize
    requires { length (runs_of_node node.now) ≤ 15 }
    ensures value { result ≡ loads_in node.now }
    ensures small { result ≤ 16 }
{
    if missing_at(node) == 0 { 0 } else { 1 }
}

/// How many nodes there are.
fn count_nodes(table: &[Option<Node>]) -> usize
    requires few { length table.now < 2 ^ 28 }
    requires short { AreShort table.now }
    ensures value { result ≡ sum_by nodes_in table.now }
    ensures small { result ≤ 16 * length table.now }
{
    let mut count = 0;
    for node in table {
        count += nodes_at(node);
    }
    count
}

/// How many of them were missing.
fn count_missing(table: &[Option<Node>]) -> usize
    requires few { length table.now < 2 ^ 28 }
    requires short { AreShort table.now }
    ensures value { result ≡ sum_by missing_in table.now }
    ensures small { result ≤ 16 * length table.now }
{
    let mut count = 0;
    for node in table {
        count += missing_at(node);
    }
    count
}

/// How many loads were executed: one where a node of the package was missing.
fn count_loads(table: &[Option<Node>]) -> usize
    requires few { length table.now < 2 ^ 28 }
    requires short { AreShort table.now }
    ensures value { result ≡ sum_by loads_in table.now }
    ensures small { result ≤ 16 * length table.now }
{
    let mut count = 0;
    for node in table {
        count += loads_at(node);
    }
    count
}

/// How many runs were executed.
fn count_runs(table: &[Option<Node>]) -> usize
    requires few { length table.now < 2 ^ 28 }
    requires short { AreShort table.now }
    ensures value { result ≡ sum_by runs_in table.now }
    ensures small { result ≤ 16 * length table.now }
{
    let mut count = 0;
    for node in table {
        count += runs_at(node);
    }
    count
}

/// The nodes, how many of them were missing, and how many loads and runs were executed.
pub(crate) fn counts(table: &[Option<Node>]) -> Counts
    requires few { length table.now < 2 ^ 28 }
    requires short { AreShort table.now }
    ensures nodes { result.nodes ≡ sum_by nodes_in table.now }
    ensures missing { result.missing ≡ sum_by missing_in table.now }
    ensures loads { result.loads ≡ sum_by loads_in table.now }
    ensures runs { result.runs ≡ sum_by runs_in table.now }
{
    Counts {
        nodes: count_nodes(table) as u32,
        missing: count_missing(table) as u32,
        loads: count_loads(table) as u32,
        runs: count_runs(table) as u32,
    }
}
