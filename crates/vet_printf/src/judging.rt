//! The types of the arguments that are printed by formats, each judged once.
ghost use Rattle.std.specs.Prelude.{IfOk, OnOk};
ghost use Rattle.findings.specs.Passes.{IsPass};
ghost use Rattle.vet_printf.specs.Tables.{AreJudged};

use crate::calls::{bare_at, is_plain_call};
use crate::checking::rest_parts;
use crate::const_texts::part_text;
use crate::fault::Argument;
use crate::kept::{judge_type, no_cells};
use crate::spreads::node_count;
use crate::ways::{Way, param_count, way_at};
use findings::Pass;
use go_tree::Node;
use gv_base::NoMemory;
use package_objects::{node_of, part_of};
use std::alloc::Global;
use vet_words::known_at;

// ---- the arguments of a call

fn judge_argument(
    alloc: Global,
    p: &Pass,
    file: u32,
    n: u32,
    cells: &mut Vec<Option<Argument>>,
) -> Result<(), NoMemory>
    requires pass { IsPass p.now }
    requires cells { AreJudged p.now.state.now.table cells.old.items }
    ensures { OnOk result (AreJudged p.now.state.now.table cells.new.items) }
{
    match known_at(p, file, n) {
        Some(x) => {
            judge_type(alloc, &p.state.table, cells, x.last)?;
            Ok(())
        }
        None => Ok(()),
    }
}

fn judge_arguments(
    alloc: Global,
    p: &Pass,
    file: u32,
    nodes: &[u32],
    cells: &mut Vec<Option<Argument>>,
) -> Result<(), NoMemory>
    requires pass { IsPass p.now }
    requires cells { AreJudged p.now.state.now.table cells.old.items }
    ensures { OnOk result (AreJudged p.now.state.now.table cells.new.items) }
{
    for n in nodes {
        judge_argument(alloc, p, file, *n, cells)?;
    }
    Ok(())
}

fn judge_format(
    alloc: Global,
    p: &Pass,
    file: u32,
    node: &Node,
    count: usize,
    cells: &mut Vec<Option<Argument>>,
) -> Result<(), NoMemory>
    requires pass { IsPass p.now }
    requires cells { AreJudged p.now.state.now.table cells.old.items }
    ensures { OnOk result (AreJudged p.now.state.now.table cells.new.items) }
{
    match part_text(p, file, node, count.saturating_sub(1)) {
        Some(_text) => {
            judge_arguments(alloc, p, file, rest_parts(node, count), cells)?;
            Ok(())
        }
        None => Ok(()),
    }
}

// ---- calls

fn judge_known(
    alloc: Global,
    p: &Pass,
    file: u32,
    node: &Node,
    n: u32,
    cells: &mut Vec<Option<Argument>>,
) -> Result<(), NoMemory>
    requires pass { IsPass p.now }
    requires cells { AreJudged p.now.state.now.table cells.old.items }
    ensures { OnOk result (AreJudged p.now.state.now.table cells.new.items) }
{
    match known_at(p, file, n) {
        Some(x) => {
            let count = param_count(&p.state.table, x.of);
            judge_format(alloc, p, file, node, count, cells)?;
            Ok(())
        }
        None => Ok(()),
    }
}

fn judge_callee(
    alloc: Global,
    p: &Pass,
    kinds: &Vec<Vec<u8>>,
    file: u32,
    node: &Node,
    callee: u32,
    cells: &mut Vec<Option<Argument>>,
) -> Result<(), NoMemory>
    requires pass { IsPass p.now }
    requires cells { AreJudged p.now.state.now.table cells.old.items }
    ensures { OnOk result (AreJudged p.now.state.now.table cells.new.items) }
{
    let n = bare_at(p, file, callee);
    match way_at(kinds, file, n) {
        Way::Format(_) => {
            judge_known(alloc, p, file, node, n, cells)?;
            Ok(())
        }
        Way::Plain => Ok(()),
        Way::Silent => Ok(()),
    }
}

fn judge_part(
    alloc: Global,
    p: &Pass,
    kinds: &Vec<Vec<u8>>,
    file: u32,
    node: &Node,
    cells: &mut Vec<Option<Argument>>,
) -> Result<(), NoMemory>
    requires pass { IsPass p.now }
    requires cells { AreJudged p.now.state.now.table cells.old.items }
    ensures { OnOk result (AreJudged p.now.state.now.table cells.new.items) }
{
    match part_of(node, 0) {
        Some(callee) => {
            judge_callee(alloc, p, kinds, file, node, callee, cells)?;
            Ok(())
        }
        None => Ok(()),
    }
}

fn judge_call(
    alloc: Global,
    p: &Pass,
    kinds: &Vec<Vec<u8>>,
    file: u32,
    node: &Node,
    cells: &mut Vec<Option<Argument>>,
) -> Result<(), NoMemory>
    requires pass { IsPass p.now }
    requires cells { AreJudged p.now.state.now.table cells.old.items }
    ensures { OnOk result (AreJudged p.now.state.now.table cells.new.items) }
{
    if is_plain_call(node.kind) {
        judge_part(alloc, p, kinds, file, node, cells)?;
        return Ok(());
    }
    Ok(())
}

// ---- all of them

fn judge_node(
    alloc: Global,
    p: &Pass,
    kinds: &Vec<Vec<u8>>,
    file: u32,
    n: u32,
    cells: &mut Vec<Option<Argument>>,
) -> Result<(), NoMemory>
    requires pass { IsPass p.now }
    requires cells { AreJudged p.now.state.now.table cells.old.items }
    ensures { OnOk result (AreJudged p.now.state.now.table cells.new.items) }
{
    match node_of(p.subject.nodes_at(file), n) {
        Some(node) => {
            judge_call(alloc, p, kinds, file, node, cells)?;
            Ok(())
        }
        None => Ok(()),
    }
}

fn judge_file(
    alloc: Global,
    p: &Pass,
    kinds: &Vec<Vec<u8>>,
    file: u32,
    cells: &mut Vec<Option<Argument>>,
) -> Result<(), NoMemory>
    requires pass { IsPass p.now }
    requires cells { AreJudged p.now.state.now.table cells.old.items }
    ensures { OnOk result (AreJudged p.now.state.now.table cells.new.items) }
{
    let count = node_count(p, file);
    for n in 0..count {
        judge_node(alloc, p, kinds, file, n as u32, cells)?;
    }
    Ok(())
}

/// For each type of a package's table what is known of arguments of it, where a format prints one: what a type is judged by is as large as the type, and
/// many calls print arguments of one type.
pub(crate) fn judged_types(
    alloc: Global,
    p: &Pass,
    kinds: &Vec<Vec<u8>>,
) -> Result<Vec<Option<Argument>>, NoMemory>
    requires { IsPass p.now }
    ensures { IfOk result (λ cells. AreJudged p.now.state.now.table cells.items) }
{
    let mut cells = no_cells(alloc, &p.state.table)?;
    for file in 0..p.subject.trees.len() {
        judge_file(alloc, p, kinds, file as u32, &mut cells)?;
    }
    Ok(cells)
}
