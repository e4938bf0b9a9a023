//! Comparisons of operands of a chain with constants.
ghost use Rattle.std.specs.Prelude.{◌≡◌, ◌++◌, ◌∷◌, [], ℕ, List, Some, None, false, option_and_then, if◌then◌else◌, IfOk, OnOk};
ghost use Rattle.std.specs.Option.{option_map_or};
ghost use Rattle.package_objects.specs.Declares.{part};
ghost use Rattle.findings.specs.Passes.{unit_in, marks_in, IsPass};
ghost use Rattle.vet_words.specs.Marked.{is_constant};
ghost use Rattle.vet_simple.specs.NilFunctions.{operator_at};
ghost use Rattle.vet_simple.specs.Bools.{tests_by, is_tested, changing, changing_side, tested_in, tested, suspect_pair, suspect};
ghost use Rattle.vet_simple.specs.InRuns.{IsTable, compared_key};

use crate::chains::Chain;
use crate::met::{note, push_pair, suspect_word};
use crate::nil_functions::{is_binary, operator_at};
use analysis_core::Diagnostic;
use const_eval::Operator;
use findings::Pass;
use go_tree::Node;
use gv_base::NoMemory;
use package_objects::{node_of, part_of};
use std::alloc::Global;
use std::collections::HashMap;
use vet_words::{bare, is_constant, is_same, key_at};

fn tests_by(c: Chain, operator: Operator) -> bool
    ensures { result ≡ tests_by c operator }
{
    match (c, operator) {
        (Chain::And, Operator::Equal) => true,
        (Chain::Or, Operator::NotEqual) => true,
        _ => false,
    }
}

fn tests_in(p: &Pass, file: u32, c: Chain, node: &Node) -> bool
    ensures { result ≡ option_map_or (tests_by c) (operator_at (unit_in p.now) file node.now) false }
{
    match operator_at(p, file, node) {
        Some(operator) => tests_by(c, operator),
        None => false,
    }
}

fn is_tested(p: &Pass, file: u32, c: Chain, node: &Node) -> bool
    ensures { result ≡ is_tested (unit_in p.now) file c node.now }
{
    is_binary(node.kind) && tests_in(p, file, c, node)
}

fn unless_constant(p: &Pass, file: u32, test: u32, other: u32) -> Option<u32>
    requires { IsPass p.now }
    ensures { result ≡ (if is_constant (marks_in p.now) file test then None else Some other) }
{
    if is_constant(p, file, test) {
        None
    } else {
        Some(other)
    }
}

fn if_constant(p: &Pass, file: u32, test: u32, other: u32) -> Option<u32>
    requires { IsPass p.now }
    ensures { result ≡ (if is_constant (marks_in p.now) file test then Some other else None) }
{
    if is_constant(p, file, test) {
        Some(other)
    } else {
        None
    }
}

fn changing(p: &Pass, file: u32, x: u32, y: u32) -> Option<u32>
    requires { IsPass p.now }
    ensures { result ≡ changing (marks_in p.now) file x y }
{
    if is_constant(p, file, x) {
        unless_constant(p, file, y, y)
    } else {
        if_constant(p, file, y, x)
    }
}

fn changing_from(p: &Pass, file: u32, node: &Node, x: u32) -> Option<u32>
    requires { IsPass p.now }
    ensures { result ≡ option_and_then (changing (marks_in p.now) file x) (part node.now 1) }
{
    match part_of(node, 1) {
        Some(y) => changing(p, file, x, y),
        None => None,
    }
}

fn changing_side(p: &Pass, file: u32, node: &Node) -> Option<u32>
    requires { IsPass p.now }
    ensures { result ≡ changing_side (marks_in p.now) file node.now }
{
    match part_of(node, 0) {
        Some(x) => changing_from(p, file, node, x),
        None => None,
    }
}

fn tested_in(p: &Pass, file: u32, c: Chain, node: &Node) -> Option<u32>
    requires { IsPass p.now }
    ensures { result ≡ tested_in (unit_in p.now) (marks_in p.now) file c node.now }
{
    if is_tested(p, file, c, node) {
        changing_side(p, file, node)
    } else {
        None
    }
}

/// What an operand compares with a constant.
fn tested(p: &Pass, file: u32, c: Chain, x: u32) -> Option<u32>
    requires { IsPass p.now }
    ensures { result ≡ tested (unit_in p.now) (marks_in p.now) file c x }
{
    let nodes = p.subject.nodes_at(file);
    match node_of(nodes, bare(nodes, x)) {
        Some(node) => tested_in(p, file, c, node),
        None => None,
    }
}

fn push_suspect(
    alloc: Global,
    p: &Pass,
    file: u32,
    c: Chain,
    x: u32,
    y: u32,
    found: &mut Vec<Diagnostic>,
) -> Result<(), NoMemory>
    ensures { OnOk result (found.new.items ≡ found.old.items ++ suspect_pair (unit_in p.now) file c x y) }
{
    let same = is_same(alloc, p, file, y, x)?;
    if same {
        return Ok(());
    }
    push_pair(alloc, p, file, c, suspect_word(c), x, y, found)?;
    Ok(())
}

fn push_before(
    alloc: Global,
    p: &Pass,
    file: u32,
    c: Chain,
    x: u32,
    before: Option<u32>,
    found: &mut Vec<Diagnostic>,
) -> Result<(), NoMemory>
    ensures { OnOk result (found.new.items ≡ found.old.items ++ option_map_or (suspect_pair (unit_in p.now) file c x) before []) }
{
    match before {
        Some(y) => {
            push_suspect(alloc, p, file, c, x, y, found)?;
            Ok(())
        }
        None => Ok(()),
    }
}

fn report_compared(
    alloc: Global,
    p: &Pass,
    file: u32,
    c: Chain,
    met: &mut HashMap<Vec<u8>, u32>,
    x: u32,
    t: u32,
    found: &mut Vec<Diagnostic>,
) -> Result<(), NoMemory>
    requires { tested (unit_in p.now) (marks_in p.now) file c x ≡ Some t }
    ensures found { OnOk result ((run : List ℕ) → IsTable (compared_key (unit_in p.now) (marks_in p.now) file c) run met.old → found.new.items ≡ found.old.items ++ suspect (unit_in p.now) (marks_in p.now) file c run x) }
    ensures met { OnOk result ((run : List ℕ) → IsTable (compared_key (unit_in p.now) (marks_in p.now) file c) run met.old → IsTable (compared_key (unit_in p.now) (marks_in p.now) file c) (run ++ x ∷ []) met.new) }
{
    let key = key_at(alloc, p, file, t)?;
    let before = note(met, key, x)?;
    push_before(alloc, p, file, c, x, before, found)?;
    Ok(())
}

/// Reports an operand beside the first of its run that compares the same with a constant, and notes it.
pub(crate) fn report_suspect(
    alloc: Global,
    p: &Pass,
    file: u32,
    c: Chain,
    met: &mut HashMap<Vec<u8>, u32>,
    x: u32,
    found: &mut Vec<Diagnostic>,
) -> Result<(), NoMemory>
    requires { IsPass p.now }
    ensures found { OnOk result ((run : List ℕ) → IsTable (compared_key (unit_in p.now) (marks_in p.now) file c) run met.old → found.new.items ≡ found.old.items ++ suspect (unit_in p.now) (marks_in p.now) file c run x) }
    ensures met { OnOk result ((run : List ℕ) → IsTable (compared_key (unit_in p.now) (marks_in p.now) file c) run met.old → IsTable (compared_key (unit_in p.now) (marks_in p.now) file c) (run ++ x ∷ []) met.new) }
{
    match tested(p, file, c, x) {
        Some(t) => {
            report_compared(alloc, p, file, c, met, x, t, found)?;
            Ok(())
        }
        None => Ok(()),
    }
}
