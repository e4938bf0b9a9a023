//! What calls with `...` call.
ghost use Rattle.std.specs.Prelude.{◌≡◌, ◌≤◌, ◌^◌, true, length, slice_get, IfOk};
ghost use Rattle.package_objects.specs.Declares.{part};
ghost use Rattle.unit_read.specs.Units.{nodes_at};
ghost use Rattle.findings.specs.Gains.{OfSome};
ghost use Rattle.findings.specs.Passes.{unit_in, marks_in, IsPass};
ghost use Rattle.vet_words.specs.Forms.{bare};
ghost use Rattle.member_names.specs.InCode.{Finds};
ghost use Rattle.vet_printf.specs.Forwards.{is_spread_call};
ghost use Rattle.vet_printf.specs.Handing.{IsCalleeNamed, IsSpreadCall, IsSpreadCallee, AreCells, AreCellRow, AreCellRows};

use findings::Pass;
use go_tree::{Node, NodeKind};
use gv_base::NoMemory;
use member_names::{Named, named_at};
use package_objects::{node_of, part_of};
use std::alloc::Global;
use vet_words::bare;

pub(crate) fn is_spread_call(kind: NodeKind) -> bool
    ensures { result ≡ is_spread_call kind }
{
    matches!(kind, NodeKind::CallSpread)
}

fn bare_at(p: &Pass, file: u32, n: u32) -> u32
    ensures { result ≡ bare (nodes_at (unit_in p.now) file) n }
{
    bare(p.subject.nodes_at(file), n)
}

fn callee_named(alloc: Global, p: &Pass, file: u32, callee: u32) -> Result<Option<Named>, NoMemory>
    requires { IsPass p.now }
    ensures { IfOk result (Finds (IsCalleeNamed (unit_in p.now) (marks_in p.now) file callee)) }
{
    let n = bare_at(p, file, callee);
    let named = named_at(alloc, p, file, n)?;
    Ok(named)
}

fn part_named(alloc: Global, p: &Pass, file: u32, call: &Node) -> Result<Option<Named>, NoMemory>
    requires { IsPass p.now }
    ensures { IfOk result (Finds (OfSome (part call.now 0) (IsCalleeNamed (unit_in p.now) (marks_in p.now) file))) }
{
    match part_of(call, 0) {
        Some(callee) => {
            let named = callee_named(alloc, p, file, callee)?;
            Ok(named)
        }
        None => Ok(None),
    }
}

fn call_named(alloc: Global, p: &Pass, file: u32, call: &Node) -> Result<Option<Named>, NoMemory>
    requires { IsPass p.now }
    ensures { IfOk result (Finds (IsSpreadCall (unit_in p.now) (marks_in p.now) file call.now)) }
{
    if is_spread_call(call.kind) {
        let named = part_named(alloc, p, file, call)?;
        return Ok(named);
    }
    Ok(None)
}

fn node_named(alloc: Global, p: &Pass, file: u32, n: u32) -> Result<Option<Named>, NoMemory>
    requires { IsPass p.now }
    ensures { IfOk result (Finds (IsSpreadCallee (unit_in p.now) (marks_in p.now) file n)) }
{
    match node_of(p.subject.nodes_at(file), n) {
        Some(call) => {
            let named = call_named(alloc, p, file, call)?;
            Ok(named)
        }
        None => Ok(None),
    }
}

// ---- all nodes

pub(crate) fn node_count(p: &Pass, file: u32) -> usize
    requires { IsPass p.now }
    ensures count { result ≡ length (nodes_at (unit_in p.now) file) }
    ensures small { result ≤ 2 ^ 32 }
{
    p.subject.nodes_at(file).len()
}

fn cells_to(alloc: Global, p: &Pass, file: u32, end: usize) -> Result<Vec<Option<Named>>, NoMemory>
    requires pass { IsPass p.now }
    requires small { end ≤ 2 ^ 32 }
    ensures { IfOk result (λ row. AreCells (unit_in p.now) (marks_in p.now) file end row.items) }
{
    let mut row = Vec::with_capacity(alloc, end)?;
    for n in 0..end {
        let one = node_named(alloc, p, file, n as u32)?;
        row.push(one)?;
    }
    Ok(row)
}

fn cell_row(alloc: Global, p: &Pass, file: u32) -> Result<Vec<Option<Named>>, NoMemory>
    requires { IsPass p.now }
    ensures { IfOk result (AreCellRow (unit_in p.now) (marks_in p.now) file) }
{
    let row = cells_to(alloc, p, file, node_count(p, file))?;
    Ok(row)
}

/// For each node of each file what it calls, if it is a call with `...`.
pub(crate) fn cell_rows(alloc: Global, p: &Pass) -> Result<Vec<Vec<Option<Named>>>, NoMemory>
    requires { IsPass p.now }
    ensures { IfOk result (λ rows. AreCellRows (unit_in p.now) (marks_in p.now) rows.items) }
{
    let mut rows = Vec::new(alloc);
    for file in 0..p.subject.trees.len() {
        let row = cell_row(alloc, p, file as u32)?;
        rows.push(row)?;
    }
    Ok(rows)
}
