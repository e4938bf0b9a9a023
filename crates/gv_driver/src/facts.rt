//! The facts that a run reads: those of the packages of the environment, for an analyzer that has facts.
ghost use Rattle.std.specs.Prelude.{◌≡◌, ◌++◌, IfOk, OnOk, map, slice_get};
ghost use Rattle.action_graph.specs.Work.{has_facts};
ghost use Rattle.gv_driver.specs.Given.{fact_if, fact_pair_at, facts_at, given_over, outcome_in, told_at, told_facts};

use crate::node::{Node, RunNode};
use crate::parts::path_at;
use crate::tree::PackageTexts;
use action_graph::facts_in;
use gv_base::{Bytes, NoMemory, Row, Text};
use std::alloc::Global;

fn outcome_of(runs: &[RunNode], analyzer: u8) -> &[u8]
    ensures { result.now ≡ outcome_in runs.now analyzer }
{
    for run in runs {
        if run.analyzer == analyzer {
            return run.outcome.as_slice();
        }
    }
    b""
}

fn known_facts(table: &[Option<Node>], at: usize, analyzer: u8) -> &[u8]
    ensures { result.now ≡ facts_at (slice_get table.now at) analyzer }
{
    match table.get(at) {
        None => facts_in(b""),
        Some(None) => facts_in(b""),
        Some(Some(node)) => facts_in(outcome_of(node.runs.as_slice(), analyzer)),
    }
}

fn fact_pair(
    alloc: Global,
    tree: &[PackageTexts],
    table: &[Option<Node>],
    analyzer: u8,
    number: u32,
) -> Result<(Text, Bytes), NoMemory>
    ensures { IfOk result (λ x. x ≡ fact_pair_at tree.now table.now analyzer number) }
{
    let at = number as usize;
    let path = Text::of(alloc, path_at(tree, at))?;
    let facts = Bytes::of(alloc, known_facts(table, at, analyzer))?;
    Ok((path, facts))
}

fn fact_pairs(
    alloc: Global,
    tree: &[PackageTexts],
    table: &[Option<Node>],
    analyzer: u8,
    numbers: &[u32],
) -> Result<Vec<(Text, Bytes)>, NoMemory>
    ensures { IfOk result (λ v. v.items ≡ map (fact_pair_at tree.now table.now analyzer) numbers.now) }
{
    let mut pairs = Vec::new(alloc);
    for number in numbers {
        pairs.push(fact_pair(alloc, tree, table, analyzer, *number)?)?;
    }
    Ok(pairs)
}

/// Whether the analyzer has facts, and reads those of others.
pub(crate) fn gives_facts(analyzer: u8) -> bool
    ensures { result ≡ has_facts analyzer }
{
    if analyzer == 4 {
        return true;
    }
    analyzer == 6
}

/// What the run of an analyzer over a package reads of facts.
pub(crate) fn facts_for(
    alloc: Global,
    tree: &[PackageTexts],
    table: &[Option<Node>],
    analyzer: u8,
    env: &[u32],
) -> Result<Vec<(Text, Bytes)>, NoMemory>
    ensures { IfOk result (λ v. v.items ≡ given_over tree.now table.now analyzer env.now) }
{
    if !gives_facts(analyzer) {
        return Ok(Vec::new(alloc));
    }
    let pairs = fact_pairs(alloc, tree, table, analyzer, env)?;
    Ok(pairs)
}

/// Adds what a run gives of facts.
fn tell_one(alloc: Global, list: &mut Vec<(u8, Bytes)>, run: &RunNode) -> Result<(), NoMemory>
    ensures { OnOk result (list.new.items ≡ list.old.items ++ fact_if (has_facts run.now.analyzer) run.now) }
{
    if gives_facts(run.analyzer) {
        let facts = Bytes::of(alloc, facts_in(run.outcome.as_slice()))?;
        list.push((run.analyzer, facts))?;
    }
    Ok(())
}

fn tell_runs(alloc: Global, runs: &[RunNode]) -> Result<Vec<(u8, Bytes)>, NoMemory>
    ensures { IfOk result (λ v. v.items ≡ told_facts runs.now) }
{
    let mut list = Vec::new(alloc);
    for run in runs {
        tell_one(alloc, &mut list, run)?;
    }
    Ok(list)
}

fn tell_node(alloc: Global, node: &Option<Node>) -> Result<Row<(u8, Bytes)>, NoMemory>
    ensures { IfOk result (λ v. v ≡ told_at node.now) }
{
    match node {
        None => Ok(Row::new(Vec::new(alloc))),
        Some(node) => {
            let list = tell_runs(alloc, node.runs.as_slice())?;
            Ok(Row::new(list))
        }
    }
}

/// The facts of each package, in order.
pub(crate) fn tell_facts(
    alloc: Global,
    table: &[Option<Node>],
) -> Result<Vec<Row<(u8, Bytes)>>, NoMemory>
    ensures { IfOk result (λ v. v.items ≡ map told_at table.now) }
{
    let mut list = Vec::new(alloc);
    for node in table {
        list.push(tell_node(alloc, node)?)?;
    }
    Ok(list)
}
