//! `printf`: calls of functions that print by a format.
ghost use Rattle.std.specs.Prelude.{◌≡◌, IfOk, OnOk};
ghost use Rattle.package_objects.specs.Declares.{part};
ghost use Rattle.unit_read.specs.Units.{nodes_at};
ghost use Rattle.rule_words.specs.Good.{known_of, AreFactsOf};
ghost use Rattle.findings.specs.Gains.{Gains, OfSome};
ghost use Rattle.findings.specs.Passes.{unit_in, marks_in, IsPass};
ghost use Rattle.vet_words.specs.Forms.{bare, is_plain_call};
ghost use Rattle.vet_printf.specs.Tables.{AreJudged};
ghost use Rattle.vet_printf.specs.Calls.{IsWayFound, IsKnownFound, IsBareFound, IsCalleeFound, IsPrintFault, ArePrintFaults, kinds_at, AreJudgedOf};

use crate::checking::{report_format_at, report_plain_at};
use crate::fault::Argument;
use crate::judging::judged_types;
use crate::ways::{Way, param_count, way_at};
use analysis_core::Diagnostic;
use findings::{Pass, Reports, run_over_nodes};
use go_tree::{Node, NodeKind, NodeRef};
use gv_base::NoMemory;
use package_objects::part_of;
use std::alloc::Global;
use typed_marks::Facts;
use vet_words::{bare, known_at};

fn report_way(
    alloc: Global,
    p: &Pass,
    cells: &[Option<Argument>],
    file: u32,
    node: &Node,
    callee: u32,
    count: usize,
    way: Way,
    found: &mut Vec<Diagnostic>,
) -> Result<(), NoMemory>
    requires pass { IsPass p.now }
    requires cells { AreJudged p.now.state.now.table cells.now }
    ensures { OnOk result (Gains (IsWayFound (unit_in p.now) (marks_in p.now) file node.now callee count way) found.old.items found.new.items) }
{
    match way {
        Way::Format(errorf) => {
            report_format_at(alloc, p, cells, file, node, callee, count, errorf, found)?;
            Ok(())
        }
        Way::Plain => {
            report_plain_at(alloc, p, file, node, callee, count, found)?;
            Ok(())
        }
        Way::Silent => Ok(()),
    }
}

fn report_known(
    alloc: Global,
    p: &Pass,
    cells: &[Option<Argument>],
    kinds: &Vec<Vec<u8>>,
    file: u32,
    node: &Node,
    callee: u32,
    n: u32,
    x: Facts,
    found: &mut Vec<Diagnostic>,
) -> Result<(), NoMemory>
    requires pass { IsPass p.now }
    requires cells { AreJudged p.now.state.now.table cells.now }
    requires over { AreFactsOf p.now.state.now x }
    ensures { OnOk result (Gains (IsKnownFound (kinds_at kinds.now.items) (unit_in p.now) (marks_in p.now) file node.now callee n (known_of p.now.state.now x)) found.old.items found.new.items) }
{
    let count = param_count(&p.state.table, x.of);
    let way = way_at(kinds, file, n);
    report_way(alloc, p, cells, file, node, callee, count, way, found)?;
    Ok(())
}

fn report_bare(
    alloc: Global,
    p: &Pass,
    cells: &[Option<Argument>],
    kinds: &Vec<Vec<u8>>,
    file: u32,
    node: &Node,
    callee: u32,
    n: u32,
    found: &mut Vec<Diagnostic>,
) -> Result<(), NoMemory>
    requires pass { IsPass p.now }
    requires cells { AreJudged p.now.state.now.table cells.now }
    ensures { OnOk result (Gains (IsBareFound (kinds_at kinds.now.items) (unit_in p.now) (marks_in p.now) file node.now callee n) found.old.items found.new.items) }
{
    match known_at(p, file, n) {
        Some(x) => {
            report_known(alloc, p, cells, kinds, file, node, callee, n, x, found)?;
            Ok(())
        }
        None => Ok(()),
    }
}

pub(crate) fn bare_at(p: &Pass, file: u32, n: u32) -> u32
    ensures { result ≡ bare (nodes_at (unit_in p.now) file) n }
{
    bare(p.subject.nodes_at(file), n)
}

fn report_callee(
    alloc: Global,
    p: &Pass,
    cells: &[Option<Argument>],
    kinds: &Vec<Vec<u8>>,
    file: u32,
    node: &Node,
    callee: u32,
    found: &mut Vec<Diagnostic>,
) -> Result<(), NoMemory>
    requires pass { IsPass p.now }
    requires cells { AreJudged p.now.state.now.table cells.now }
    ensures { OnOk result (Gains (IsCalleeFound (kinds_at kinds.now.items) (unit_in p.now) (marks_in p.now) file node.now callee) found.old.items found.new.items) }
{
    let n = bare_at(p, file, callee);
    report_bare(alloc, p, cells, kinds, file, node, callee, n, found)?;
    Ok(())
}

fn report_part(
    alloc: Global,
    p: &Pass,
    cells: &[Option<Argument>],
    kinds: &Vec<Vec<u8>>,
    file: u32,
    node: &Node,
    found: &mut Vec<Diagnostic>,
) -> Result<(), NoMemory>
    requires pass { IsPass p.now }
    requires cells { AreJudged p.now.state.now.table cells.now }
    ensures { OnOk result (Gains (OfSome (part node.now 0) (IsCalleeFound (kinds_at kinds.now.items) (unit_in p.now) (marks_in p.now) file node.now)) found.old.items found.new.items) }
{
    match part_of(node, 0) {
        Some(callee) => {
            report_callee(alloc, p, cells, kinds, file, node, callee, found)?;
            Ok(())
        }
        None => Ok(()),
    }
}

pub(crate) fn is_plain_call(kind: NodeKind) -> bool
    ensures { result ≡ is_plain_call kind }
{
    matches!(kind, NodeKind::Call)
}

fn report_call(
    alloc: Global,
    p: &Pass,
    cells: &[Option<Argument>],
    kinds: &Vec<Vec<u8>>,
    at: NodeRef,
    node: &Node,
    found: &mut Vec<Diagnostic>,
) -> Result<(), NoMemory>
    requires pass { IsPass p.now }
    requires cells { AreJudged p.now.state.now.table cells.now }
    ensures { OnOk result (Gains (IsPrintFault (kinds_at kinds.now.items) (unit_in p.now) (marks_in p.now) at node.now) found.old.items found.new.items) }
{
    if is_plain_call(node.kind) {
        report_part(alloc, p, cells, kinds, at.file, node, found)?;
        return Ok(());
    }
    Ok(())
}

/// The rule, with what is known of types of a package's table, and the kinds of what its nodes name.
#[derive(Drop)]
struct OverKinds<'a> {
    pass: &'a Pass<'a>,
    cells: &'a [Option<Argument>],
    kinds: &'a Vec<Vec<u8>>,
}

impl<'a> Reports for OverKinds<'a> {
    ghost reported = { λ s. IsPrintFault (kinds_at s.kinds.now.items) };

    ghost fits = { λ s. AreJudgedOf s.pass.now s.cells.now };

    fn report_at(
        &self,
        alloc: Global,
        pass: &Pass,
        at: NodeRef,
        node: &Node,
        found: &mut Vec<Diagnostic>,
    ) -> Result<(), NoMemory> {
        let _ = pass;
        report_call(alloc, self.pass, self.cells, self.kinds, at, node, found)?;
        Ok(())
    }
}

/// Calls of functions that print.
#[derive(Drop)]
pub struct Printf;

impl Printf {
    /// All of a package. `kinds` has a number for each node of each file: the kinds of the function or method that the node names, 1 for
    /// print, 2 for printf and 4 for errorf, added.
    pub fn run(
        &self,
        alloc: Global,
        pass: &Pass,
        kinds: &Vec<Vec<u8>>,
    ) -> Result<Vec<Diagnostic>, NoMemory>
        requires { IsPass pass.now }
        ensures { IfOk result (λ found. ArePrintFaults (kinds_at kinds.now.items) (unit_in pass.now) (marks_in pass.now) found.items) }
    {
        let cells = judged_types(alloc, pass, kinds)?;
        let rule = OverKinds {
            pass,
            cells: &cells,
            kinds,
        };
        let found = run_over_nodes(alloc, &rule, pass)?;
        Ok(found)
    }
}
