//! What is reported of all nodes of a package.
ghost use Rattle.std.specs.Prelude.{◌≡◌, ◌≤◌, ◌^◌, List, Some, length, IfOk, OnOk};
ghost use Rattle.analysis_core.specs.declared.diagnostic.Diagnostic.{Diagnostic as OneDiagnostic};
ghost use Rattle.typed_marks.specs.declared.item.Item.{Item};
ghost use Rattle.typed_marks.specs.Meanings.{Meaning};
ghost use Rattle.unit_read.specs.Units.{Unit, node_at, nodes_at};
ghost use Rattle.findings.specs.Gains.{Gains};
ghost use Rattle.findings.specs.Passes.{unit_in, marks_in, IsPass};
ghost use Rattle.findings.specs.Reported.{AreFindings};
ghost use Rattle.findings.specs.InCode.{reported_at, reported_in, reported_below};

use crate::passing::Pass;
use crate::reporting::Reports;
use analysis_core::{Diagnostic, settle_findings};
use go_tree::{Node, NodeRef};
use gv_base::NoMemory;
use std::alloc::Global;

/// The nodes of a file.
fn nodes_in<'a>(pass: &Pass<'a>, file: u32) -> &'a [Node]
    requires { IsPass pass.now }
    ensures nodes { result.now ≡ nodes_at (unit_in pass.now) file }
    ensures small { length result.now ≤ 2 ^ 32 }
{
    pass.subject.nodes_at(file)
}

fn report_node<R: Reports>(
    alloc: Global,
    rule: &R,
    pass: &Pass,
    at: NodeRef,
    node: &Node,
    found: &mut Vec<Diagnostic>,
) -> Result<(), NoMemory>
    requires pass { IsPass pass.now }
    requires fits { R.fits rule.now (unit_in pass.now) (marks_in pass.now) }
    requires node { node_at (unit_in pass.now) at ≡ Some node.now }
    ensures { OnOk result (Gains (reported_at (R.reported rule.now) (unit_in pass.now) (marks_in pass.now) at) found.old.items found.new.items) }
{
    rule.report_at(alloc, pass, at, node, found)?;
    Ok(())
}

fn report_file<R: Reports>(
    alloc: Global,
    rule: &R,
    pass: &Pass,
    file: u32,
    found: &mut Vec<Diagnostic>,
) -> Result<(), NoMemory>
    requires pass { IsPass pass.now }
    requires fits { R.fits rule.now (unit_in pass.now) (marks_in pass.now) }
    ensures { OnOk result (Gains (reported_in (R.reported rule.now) (unit_in pass.now) (marks_in pass.now) file) found.old.items found.new.items) }
{
    let nodes = nodes_in(pass, file);
    for node in 0..nodes.len() {
        let at = NodeRef {
            file,
            node: node as u32,
        };
        report_node(alloc, rule, pass, at, &nodes[node], found)?;
    }
    Ok(())
}

fn report_files<R: Reports>(
    alloc: Global,
    rule: &R,
    pass: &Pass,
    found: &mut Vec<Diagnostic>,
) -> Result<(), NoMemory>
    requires pass { IsPass pass.now }
    requires fits { R.fits rule.now (unit_in pass.now) (marks_in pass.now) }
    ensures { OnOk result (Gains (reported_below (R.reported rule.now) (unit_in pass.now) (marks_in pass.now)) found.old.items found.new.items) }
{
    let count = pass.subject.trees.len();
    for file in 0..count {
        report_file(alloc, rule, pass, file as u32, found)?;
    }
    Ok(())
}

/// All that is reported of the nodes of a package, in order and each once.
pub fn run_over_nodes<R: Reports>(
    alloc: Global,
    rule: &R,
    pass: &Pass,
) -> Result<Vec<Diagnostic>, NoMemory>
    requires pass { IsPass pass.now }
    requires fits { R.fits rule.now (unit_in pass.now) (marks_in pass.now) }
    ensures { IfOk result (λ found. AreFindings (R.reported rule.now) (unit_in pass.now) (marks_in pass.now) found.items) }
{
    let mut found = Vec::new(alloc);
    report_files(alloc, rule, pass, &mut found)?;
    settle_findings(&mut found);
    Ok(found)
}

/// An analyzer has one list of findings over a package.
pub fn one_list<R: Reports>(rule: &R)
    ensures { (u : Unit) (marks : Item → Meaning) (xs ys : List OneDiagnostic) → AreFindings (R.reported rule.now) u marks xs → AreFindings (R.reported rule.now) u marks ys → xs ≡ ys }
{
    let _ = rule;
}
