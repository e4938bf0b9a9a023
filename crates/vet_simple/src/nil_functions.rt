//! `nilfunc`: functions and methods that are compared with `nil`.
ghost use Rattle.std.specs.Prelude.{◌≡◌, ◌++◌, ◌∷◌, [], Some, None, option_map, option_and_then, slice_get, codes, IfOk, OnOk};
ghost use Rattle.std.specs.Option.{option_copied};
ghost use Rattle.analysis_core.specs.declared.analyzer_name.AnalyzerName.TheVariants as analyzer;
ghost use Rattle.package_objects.specs.Declares.{part};
ghost use Rattle.unit_read.specs.Units.{nodes_at};
ghost use Rattle.findings.specs.Gains.{Gains, OfSome};
ghost use Rattle.findings.specs.Passes.{unit_in, marks_in, IsPass};
ghost use Rattle.vet_words.specs.Diagnosing.{diagnosed};
ghost use Rattle.vet_simple.specs.NilFunctions.{is_binary, outcome_of, operator_at, outcome_at, beside_nil, bare_sides, compared, compared_text, IsComparedNode, IsComparedWith, IsCompared, IsNilCompared, AreNilCompared};

use analysis_core::{AnalyzerName, Diagnostic};
use const_eval::Operator;
use const_tree::binary_operator;
use findings::{Pass, Reports, run_over_nodes};
use go_tree::{Node, NodeKind, NodeRef};
use gv_base::NoMemory;
use package_objects::part_of;
use std::alloc::Global;
use vet_words::{bare, diagnose, is_function, is_nil, spelling};

// ---- comparisons

pub(crate) fn is_binary(kind: NodeKind) -> bool
    ensures { result ≡ is_binary kind }
{
    matches!(kind, NodeKind::Binary)
}

/// How a comparison with a function ends.
fn outcome_of(operator: Operator) -> Option<&'static [u8]>
    ensures { option_copied result ≡ outcome_of operator }
{
    match operator {
        Operator::Equal => Some(b" == nil is always false"),
        Operator::NotEqual => Some(b" != nil is always true"),
        _ => None,
    }
}

pub(crate) fn operator_at(p: &Pass, file: u32, node: &Node) -> Option<Operator>
    ensures { result ≡ operator_at (unit_in p.now) file node.now }
{
    match p.subject.tree_at(file) {
        Some(tree) => binary_operator(tree, node),
        None => None,
    }
}

fn outcome_in(p: &Pass, file: u32, node: &Node) -> Option<&'static [u8]>
    ensures { option_copied result ≡ option_and_then outcome_of (operator_at (unit_in p.now) file node.now) }
{
    match operator_at(p, file, node) {
        Some(operator) => outcome_of(operator),
        None => None,
    }
}

fn outcome_at(p: &Pass, file: u32, node: &Node) -> Option<&'static [u8]>
    ensures { option_copied result ≡ outcome_at (unit_in p.now) file node.now }
{
    if is_binary(node.kind) {
        outcome_in(p, file, node)
    } else {
        None
    }
}

// ---- what is compared with `nil`

fn beside_nil(p: &Pass, file: u32, x: u32, y: u32) -> Option<u32>
    requires { IsPass p.now }
    ensures { result ≡ beside_nil (marks_in p.now) file x y }
{
    if is_nil(p, file, x) {
        Some(y)
    } else if is_nil(p, file, y) {
        Some(x)
    } else {
        None
    }
}

fn bare_sides(p: &Pass, file: u32, x: u32, y: u32) -> Option<u32>
    requires { IsPass p.now }
    ensures { result ≡ bare_sides (unit_in p.now) (marks_in p.now) file x y }
{
    let nodes = p.subject.nodes_at(file);
    beside_nil(p, file, bare(nodes, x), bare(nodes, y))
}

fn compared_by(p: &Pass, file: u32, node: &Node, x: u32) -> Option<u32>
    requires { IsPass p.now }
    ensures { result ≡ option_and_then (bare_sides (unit_in p.now) (marks_in p.now) file x) (part node.now 1) }
{
    match part_of(node, 1) {
        Some(y) => bare_sides(p, file, x, y),
        None => None,
    }
}

/// The side that is compared with `nil`.
fn compared(p: &Pass, file: u32, node: &Node) -> Option<u32>
    requires { IsPass p.now }
    ensures { result ≡ compared (unit_in p.now) (marks_in p.now) file node.now }
{
    match part_of(node, 0) {
        Some(x) => compared_by(p, file, node, x),
        None => None,
    }
}

// ---- what is reported

fn compared_text(
    alloc: Global,
    p: &Pass,
    file: u32,
    n: u32,
    outcome: &[u8],
) -> Result<Vec<u8>, NoMemory>
    ensures { IfOk result (λ text. text.items ≡ compared_text (unit_in p.now) file n outcome.now) }
{
    let name = spelling(alloc, p, file, n)?;
    let mut text = Vec::new(alloc);
    text.extend_from_slice(b"comparison of function ")?;
    text.extend_from_slice(&name)?;
    text.extend_from_slice(outcome)?;
    Ok(text)
}

fn push_compared(
    alloc: Global,
    p: &Pass,
    file: u32,
    node: &Node,
    outcome: &[u8],
    n: u32,
    found: &mut Vec<Diagnostic>,
) -> Result<(), NoMemory>
    ensures { OnOk result (found.new.items ≡ found.old.items ++ diagnosed (unit_in p.now) file analyzer.NilFunc (compared_text (unit_in p.now) file n outcome.now) None node.now ∷ []) }
{
    let text = compared_text(alloc, p, file, n, outcome)?;
    let diagnostic = diagnose(p, file, AnalyzerName::NilFunc, text, None, node);
    found.push(diagnostic)?;
    Ok(())
}

fn report_node(
    alloc: Global,
    p: &Pass,
    file: u32,
    node: &Node,
    outcome: &[u8],
    n: u32,
    named: &Node,
    found: &mut Vec<Diagnostic>,
) -> Result<(), NoMemory>
    requires { IsPass p.now }
    ensures { OnOk result (Gains (IsComparedNode (unit_in p.now) (marks_in p.now) file node.now outcome.now n named.now) found.old.items found.new.items) }
{
    let counts = is_function(alloc, p, file, n, named)?;
    if counts {
        push_compared(alloc, p, file, node, outcome, n, found)?;
        return Ok(());
    }
    Ok(())
}

fn report_with(
    alloc: Global,
    p: &Pass,
    file: u32,
    node: &Node,
    outcome: &[u8],
    n: u32,
    found: &mut Vec<Diagnostic>,
) -> Result<(), NoMemory>
    requires { IsPass p.now }
    ensures { OnOk result (Gains (IsComparedWith (unit_in p.now) (marks_in p.now) file node.now outcome.now n) found.old.items found.new.items) }
{
    match p.subject.node_at(NodeRef { file, node: n }) {
        Some(named) => {
            report_node(alloc, p, file, node, outcome, n, named, found)?;
            Ok(())
        }
        None => Ok(()),
    }
}

fn report_compared(
    alloc: Global,
    p: &Pass,
    file: u32,
    node: &Node,
    outcome: &[u8],
    found: &mut Vec<Diagnostic>,
) -> Result<(), NoMemory>
    requires { IsPass p.now }
    ensures { OnOk result (Gains (IsCompared (unit_in p.now) (marks_in p.now) file node.now outcome.now) found.old.items found.new.items) }
{
    match compared(p, file, node) {
        Some(n) => {
            report_with(alloc, p, file, node, outcome, n, found)?;
            Ok(())
        }
        None => Ok(()),
    }
}

fn report_nil(
    alloc: Global,
    p: &Pass,
    at: NodeRef,
    node: &Node,
    found: &mut Vec<Diagnostic>,
) -> Result<(), NoMemory>
    requires { IsPass p.now }
    ensures { OnOk result (Gains (IsNilCompared (unit_in p.now) (marks_in p.now) at node.now) found.old.items found.new.items) }
{
    match outcome_at(p, at.file, node) {
        Some(outcome) => {
            report_compared(alloc, p, at.file, node, outcome, found)?;
            Ok(())
        }
        None => Ok(()),
    }
}

/// Functions that are compared with `nil`.
#[derive(Drop)]
pub struct NilFunc;

impl Reports for NilFunc {
    ghost reported = { λ s. IsNilCompared };

    ghost fits = { λ s u marks. Prim.Unit {0} };

    fn report_at(
        &self,
        alloc: Global,
        pass: &Pass,
        at: NodeRef,
        node: &Node,
        found: &mut Vec<Diagnostic>,
    ) -> Result<(), NoMemory> {
        report_nil(alloc, pass, at, node, found)?;
        Ok(())
    }
}

impl NilFunc {
    /// All of a package.
    pub fn run(&self, alloc: Global, pass: &Pass) -> Result<Vec<Diagnostic>, NoMemory>
        requires { IsPass pass.now }
        ensures { IfOk result (λ found. AreNilCompared (unit_in pass.now) (marks_in pass.now) found.items) }
    {
        let found = run_over_nodes(alloc, self, pass)?;
        Ok(found)
    }
}
