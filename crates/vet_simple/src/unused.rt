//! `unusedresult`: call statements of functions and methods of which the result is all.
ghost use Rattle.std.specs.Prelude.{◌≡◌, ◌↔◌, ◌++◌, ◌∷◌, [], Some, None, false, codes, IfOk, IsTrue, OnOk};
ghost use Rattle.std.specs.Option.{option_copied, option_map_or};
ghost use Rattle.std.specs.Str.{bytes_eq};
ghost use Rattle.analysis_core.specs.declared.analyzer_name.AnalyzerName.TheVariants as analyzer;
ghost use Rattle.unit_read.specs.Units.{nodes_at};
ghost use Rattle.findings.specs.Gains.{Gains, OfSome};
ghost use Rattle.findings.specs.Passes.{unit_in, marks_in, IsPass};
ghost use Rattle.vet_words.specs.Forms.{bare};
ghost use Rattle.vet_words.specs.Marked.{known_at as known_of_node};
ghost use Rattle.vet_words.specs.Diagnosing.{diagnosed};
ghost use Rattle.vet_simple.specs.Unused.{is_statement_in, is_statement_by, is_statement, if_call, call_of, is_print_name, is_pure_name, is_pure, is_text_name, has_text_type, is_text_call, IsTextMethod, IsResult, unused_text, IsUnusedNamed, IsUnusedBare, IsUnusedCallee, IsUnusedCall, IsUnused, AreUnused};

use crate::text_types::is_text_function;
use analysis_core::{AnalyzerName, Diagnostic};
use assign_rules::kinds::takes_statement;
use findings::{Pass, Reports, run_over_nodes};
use go_tree::{Node, NodeRef};
use gv_base::NoMemory;
use package_objects::{node_of, part_of};
use std::alloc::Global;
use unit_read::Place;
use vet_words::{bare, diagnose, function_at, is_call, known_at, selects_method, spelling};

// ---- call statements

fn is_statement_in(p: &Pass, file: u32, at: Place, around: &Node) -> bool
    ensures { result ≡ is_statement_in (unit_in p.now) file at around.now }
{
    let nodes = p.subject.nodes_at(file);
    takes_statement(p.subject, file, nodes, around.kind, around, at.slot)
}

fn is_statement_by(p: &Pass, file: u32, at: Place) -> bool
    ensures { result ≡ is_statement_by (unit_in p.now) file at }
{
    let around = NodeRef {
        file,
        node: at.around,
    };
    match p.subject.node_at(around) {
        Some(around) => is_statement_in(p, file, at, around),
        None => false,
    }
}

/// Whether a node stands where a statement does.
fn is_statement(p: &Pass, at: NodeRef) -> bool
    requires { IsPass p.now }
    ensures { result ≡ is_statement (unit_in p.now) at }
{
    match p.subject.place_at(at) {
        Some(place) => is_statement_by(p, at.file, place),
        None => false,
    }
}

fn if_call(node: &Node) -> Option<&Node>
    ensures { option_copied result ≡ if_call node.now }
{
    if is_call(node.kind) { Some(node) } else { None }
}

/// The call that a node is.
fn call_of(nodes: &[Node], n: u32) -> Option<&Node>
    ensures { option_copied result ≡ call_of nodes.now n }
{
    match node_of(nodes, bare(nodes, n)) {
        Some(node) => if_call(node),
        None => None,
    }
}

// ---- functions

fn is_word(name: &str, word: &str) -> bool
    ensures { result ≡ bytes_eq name.now word.now }
{
    name == word
}

fn is_print_name(name: &str) -> bool
    ensures { result ≡ is_print_name name.now }
{
    is_word(name, "Errorf")
        || (is_word(name, "Sprint") || (is_word(name, "Sprintf") || is_word(name, "Sprintln")))
}

fn is_pure_name(path: &str, name: &str) -> bool
    ensures { result ≡ is_pure_name path.now name.now }
{
    if is_word(path, "errors") {
        is_word(name, "New")
    } else if is_word(path, "fmt") {
        is_print_name(name)
    } else if is_word(path, "sort") {
        is_word(name, "Reverse")
    } else {
        false
    }
}

fn is_pure(p: &Pass, file: u32, n: u32) -> bool
    requires { IsPass p.now }
    ensures { result ≡ is_pure (unit_in p.now) (marks_in p.now) file n }
{
    match function_at(p, file, n) {
        Some(function) => is_pure_name(function.path, function.name),
        None => false,
    }
}

// ---- methods

fn is_text_name(name: &str) -> bool
    ensures { result ≡ is_text_name name.now }
{
    is_word(name, "Error") || is_word(name, "String")
}

fn has_text_type(p: &Pass, file: u32, n: u32) -> bool
    requires { IsPass p.now }
    ensures { result ≡ option_map_or has_text_type (known_of_node (marks_in p.now) file n) false }
{
    match known_at(p, file, n) {
        Some(x) => is_text_function(&p.state.table, x.of),
        None => false,
    }
}

fn is_text_call(p: &Pass, file: u32, n: u32, node: &Node) -> bool
    requires { IsPass p.now }
    ensures { result ≡ is_text_call (unit_in p.now) (marks_in p.now) file n node.now }
{
    is_text_name(p.subject.spelled_text(file, node.last)) && has_text_type(p, file, n)
}

fn is_text_method(alloc: Global, p: &Pass, file: u32, n: u32, node: &Node) -> Result<bool, NoMemory>
    requires { IsPass p.now }
    ensures { IfOk result (λ b. IsTrue b ↔ IsTextMethod (unit_in p.now) (marks_in p.now) file n node.now) }
{
    if is_text_call(p, file, n, node) {
        let selects = selects_method(alloc, p, file, node)?;
        return Ok(selects);
    }
    Ok(false)
}

// ---- what is reported

fn bare_at(p: &Pass, file: u32, n: u32) -> u32
    ensures { result ≡ bare (nodes_at (unit_in p.now) file) n }
{
    bare(p.subject.nodes_at(file), n)
}

/// Whether only the result of what a node names counts.
fn is_result(alloc: Global, p: &Pass, file: u32, n: u32, node: &Node) -> Result<bool, NoMemory>
    requires { IsPass p.now }
    ensures { IfOk result (λ b. IsTrue b ↔ IsResult (unit_in p.now) (marks_in p.now) file n node.now) }
{
    if is_pure(p, file, n) {
        return Ok(true);
    }
    let method = is_text_method(alloc, p, file, n, node)?;
    Ok(method)
}

fn unused_text(alloc: Global, p: &Pass, file: u32, callee: u32) -> Result<Vec<u8>, NoMemory>
    ensures { IfOk result (λ text. text.items ≡ unused_text (unit_in p.now) file callee) }
{
    let name = spelling(alloc, p, file, callee)?;
    let mut text = Vec::new(alloc);
    text.extend_from_slice(b"result of ")?;
    text.extend_from_slice(&name)?;
    text.extend_from_slice(b" call not used")?;
    Ok(text)
}

fn push_unused(
    alloc: Global,
    p: &Pass,
    file: u32,
    node: &Node,
    callee: u32,
    found: &mut Vec<Diagnostic>,
) -> Result<(), NoMemory>
    ensures { OnOk result (found.new.items ≡ found.old.items ++ diagnosed (unit_in p.now) file analyzer.UnusedResult (unused_text (unit_in p.now) file callee) None node.now ∷ []) }
{
    let text = unused_text(alloc, p, file, callee)?;
    let diagnostic = diagnose(p, file, AnalyzerName::UnusedResult, text, None, node);
    found.push(diagnostic)?;
    Ok(())
}

fn report_named(
    alloc: Global,
    p: &Pass,
    file: u32,
    node: &Node,
    callee: u32,
    n: u32,
    named: &Node,
    found: &mut Vec<Diagnostic>,
) -> Result<(), NoMemory>
    requires { IsPass p.now }
    ensures { OnOk result (Gains (IsUnusedNamed (unit_in p.now) (marks_in p.now) file node.now callee n named.now) found.old.items found.new.items) }
{
    let counts = is_result(alloc, p, file, n, named)?;
    if counts {
        push_unused(alloc, p, file, node, callee, found)?;
        return Ok(());
    }
    Ok(())
}

fn report_bare(
    alloc: Global,
    p: &Pass,
    file: u32,
    node: &Node,
    callee: u32,
    n: u32,
    found: &mut Vec<Diagnostic>,
) -> Result<(), NoMemory>
    requires { IsPass p.now }
    ensures { OnOk result (Gains (IsUnusedBare (unit_in p.now) (marks_in p.now) file node.now callee n) found.old.items found.new.items) }
{
    match p.subject.node_at(NodeRef { file, node: n }) {
        Some(named) => {
            report_named(alloc, p, file, node, callee, n, named, found)?;
            Ok(())
        }
        None => Ok(()),
    }
}

fn report_callee(
    alloc: Global,
    p: &Pass,
    file: u32,
    node: &Node,
    callee: u32,
    found: &mut Vec<Diagnostic>,
) -> Result<(), NoMemory>
    requires { IsPass p.now }
    ensures { OnOk result (Gains (IsUnusedCallee (unit_in p.now) (marks_in p.now) file node.now callee) found.old.items found.new.items) }
{
    let n = bare_at(p, file, callee);
    report_bare(alloc, p, file, node, callee, n, found)?;
    Ok(())
}

fn report_call(
    alloc: Global,
    p: &Pass,
    file: u32,
    node: &Node,
    call: &Node,
    found: &mut Vec<Diagnostic>,
) -> Result<(), NoMemory>
    requires { IsPass p.now }
    ensures { OnOk result (Gains (IsUnusedCall (unit_in p.now) (marks_in p.now) file node.now call.now) found.old.items found.new.items) }
{
    match part_of(call, 0) {
        Some(callee) => {
            report_callee(alloc, p, file, node, callee, found)?;
            Ok(())
        }
        None => Ok(()),
    }
}

fn report_some_call(
    alloc: Global,
    p: &Pass,
    at: NodeRef,
    node: &Node,
    found: &mut Vec<Diagnostic>,
) -> Result<(), NoMemory>
    requires { IsPass p.now }
    ensures { OnOk result (Gains (OfSome (call_of (nodes_at (unit_in p.now) at.file) at.node) (IsUnusedCall (unit_in p.now) (marks_in p.now) at.file node.now)) found.old.items found.new.items) }
{
    match call_of(p.subject.nodes_at(at.file), at.node) {
        Some(call) => {
            report_call(alloc, p, at.file, node, call, found)?;
            Ok(())
        }
        None => Ok(()),
    }
}

fn report_unused(
    alloc: Global,
    p: &Pass,
    at: NodeRef,
    node: &Node,
    found: &mut Vec<Diagnostic>,
) -> Result<(), NoMemory>
    requires { IsPass p.now }
    ensures { OnOk result (Gains (IsUnused (unit_in p.now) (marks_in p.now) at node.now) found.old.items found.new.items) }
{
    if is_statement(p, at) {
        report_some_call(alloc, p, at, node, found)?;
        return Ok(());
    }
    Ok(())
}

/// Call statements whose result isn't used.
#[derive(Drop)]
pub struct UnusedResult;

impl Reports for UnusedResult {
    ghost reported = { λ s. IsUnused };

    ghost fits = { λ s u marks. Prim.Unit {0} };

    fn report_at(
        &self,
        alloc: Global,
        pass: &Pass,
        at: NodeRef,
        node: &Node,
        found: &mut Vec<Diagnostic>,
    ) -> Result<(), NoMemory> {
        report_unused(alloc, pass, at, node, found)?;
        Ok(())
    }
}

impl UnusedResult {
    /// All of a package.
    pub fn run(&self, alloc: Global, pass: &Pass) -> Result<Vec<Diagnostic>, NoMemory>
        requires { IsPass pass.now }
        ensures { IfOk result (λ found. AreUnused (unit_in pass.now) (marks_in pass.now) found.items) }
    {
        let found = run_over_nodes(alloc, self, pass)?;
        Ok(found)
    }
}
