//! Chains of `&&` and `||`, and their operands.
ghost use Rattle.std.specs.Prelude.{◌≡◌, ◌++◌, ◌∷◌, [], option_and_then, false, OnOk, IfOk};
ghost use Rattle.vet_words.specs.Forms.{is_paren};
ghost use Rattle.std.specs.Option.{option_map_or};
ghost use Rattle.findings.specs.Passes.{unit_in, IsPass};
ghost use Rattle.vet_simple.specs.NilFunctions.{operator_at};
ghost use Rattle.vet_simple.specs.Bools.{chain_by, chain_of, is_one, continues_in, continues, side_at, of_side, operands_from, operands, around_by, around_from, around, is_inner};
ghost use Rattle.package_objects.specs.Declares.{kind_at};
ghost use Rattle.unit_read.specs.Units.{nodes_at};

use crate::nil_functions::{is_binary, operator_at};
use const_eval::Operator;
use findings::Pass;
use go_tree::{Node, NodeKind, NodeRef};
use gv_base::NoMemory;
use package_objects::{kind_of, node_of, part_of};
use std::alloc::Global;
use unit_read::Place;
use vet_words::bare;

/// Which operator a chain has.
#[derive(Clone, Copy, Debug, PartialEq, Eq, Drop)]
pub enum Chain {
    And,
    Or,
}

fn chain_by(operator: Operator) -> Option<Chain>
    ensures { result ≡ chain_by operator }
{
    match operator {
        Operator::AndAlso => Some(Chain::And),
        Operator::OrElse => Some(Chain::Or),
        _ => None,
    }
}

fn chain_in(p: &Pass, file: u32, node: &Node) -> Option<Chain>
    ensures { result ≡ option_and_then chain_by (operator_at (unit_in p.now) file node.now) }
{
    match operator_at(p, file, node) {
        Some(operator) => chain_by(operator),
        None => None,
    }
}

/// Of which chain a node is a part.
pub(crate) fn chain_of(p: &Pass, file: u32, node: &Node) -> Option<Chain>
    ensures { result ≡ chain_of (unit_in p.now) file node.now }
{
    if is_binary(node.kind) {
        chain_in(p, file, node)
    } else {
        None
    }
}

fn is_one(a: Chain, b: Chain) -> bool
    ensures { result ≡ is_one a b }
{
    match (a, b) {
        (Chain::And, Chain::And) => true,
        (Chain::And, Chain::Or) => false,
        (Chain::Or, Chain::And) => false,
        (Chain::Or, Chain::Or) => true,
    }
}

fn continues_in(p: &Pass, file: u32, c: Chain, node: &Node) -> bool
    ensures { result ≡ continues_in (unit_in p.now) file c node.now }
{
    match chain_of(p, file, node) {
        Some(other) => is_one(c, other),
        None => false,
    }
}

fn continues(p: &Pass, file: u32, c: Chain, n: u32) -> bool
    ensures { result ≡ continues (unit_in p.now) file c n }
{
    match node_of(p.subject.nodes_at(file), n) {
        Some(node) => continues_in(p, file, c, node),
        None => false,
    }
}

// ---- operands

fn side_at(p: &Pass, file: u32, n: u32, i: usize) -> Option<u32>
    ensures { result ≡ side_at (unit_in p.now) file n i }
{
    match node_of(p.subject.nodes_at(file), n) {
        Some(node) => part_of(node, i),
        None => None,
    }
}

fn push(n: u32, out: &mut Vec<u32>) -> Result<(), NoMemory>
    ensures { OnOk result (out.new.items ≡ out.old.items ++ n ∷ []) }
{
    out.push(n)?;
    Ok(())
}

#[cycle(operands)]
fn add_side(
    p: &Pass,
    file: u32,
    c: Chain,
    most: usize,
    n: Option<u32>,
    out: &mut Vec<u32>,
) -> Result<(), NoMemory>
    ensures { OnOk result (out.new.items ≡ out.old.items ++ of_side (operands_from (unit_in p.now) file c most) n) }
{
    match n {
        Some(n) => {
            add_operands(p, file, c, most, n, out)?;
            Ok(())
        }
        None => Ok(()),
    }
}

#[cycle(operands)]
fn add_sides(
    p: &Pass,
    file: u32,
    c: Chain,
    most: usize,
    m: u32,
    out: &mut Vec<u32>,
) -> Result<(), NoMemory>
    ensures { OnOk result (out.new.items ≡ out.old.items ++ (of_side (operands_from (unit_in p.now) file c most) (side_at (unit_in p.now) file m 0) ++ of_side (operands_from (unit_in p.now) file c most) (side_at (unit_in p.now) file m 1))) }
{
    add_side(p, file, c, most, side_at(p, file, m, 0), out)?;
    add_side(p, file, c, most, side_at(p, file, m, 1), out)?;
    Ok(())
}

/// Adds the operands of an operand, or itself.
#[cycle(operands)]
fn add_operands(
    p: &Pass,
    file: u32,
    c: Chain,
    most: usize,
    n: u32,
    out: &mut Vec<u32>,
) -> Result<(), NoMemory>
    ensures { OnOk result (out.new.items ≡ out.old.items ++ operands_from (unit_in p.now) file c most n) }
{
    if most == 0 {
        push(n, out)?;
        return Ok(());
    }
    let m = bare(p.subject.nodes_at(file), n);
    if continues(p, file, c, m) {
        add_sides(p, file, c, most - 1, m, out)?;
        return Ok(());
    }
    push(n, out)?;
    Ok(())
}

/// The operands of a chain, from left to right.
pub(crate) fn operands(
    alloc: Global,
    p: &Pass,
    file: u32,
    c: Chain,
    n: u32,
) -> Result<Vec<u32>, NoMemory>
    ensures { IfOk result (λ list. list.items ≡ operands (unit_in p.now) file c n) }
{
    let mut list = Vec::new(alloc);
    add_operands(p, file, c, p.subject.nodes_at(file).len(), n, &mut list)?;
    Ok(list)
}

// ---- what stands around

fn is_paren(kind: NodeKind) -> bool
    ensures { result ≡ is_paren kind }
{
    matches!(kind, NodeKind::Paren)
}

fn kind_at(p: &Pass, file: u32, n: u32) -> NodeKind
    ensures { result ≡ kind_at (nodes_at (unit_in p.now) file) n }
{
    kind_of(p.subject.nodes_at(file), n)
}

#[cycle(around)]
fn around_by(p: &Pass, file: u32, most: usize, at: Place) -> Option<u32>
    requires { IsPass p.now }
    ensures { result ≡ around_by (unit_in p.now) file (around_from (unit_in p.now) file most) at }
{
    if is_paren(kind_at(p, file, at.around)) {
        around_from(p, file, most, at.around)
    } else {
        Some(at.around)
    }
}

/// What stands around a node, in so many steps at most.
#[cycle(around)]
fn around_from(p: &Pass, file: u32, most: usize, n: u32) -> Option<u32>
    requires { IsPass p.now }
    ensures { result ≡ around_from (unit_in p.now) file most n }
{
    if most == 0 {
        return None;
    }
    match p.subject.place_at(NodeRef { file, node: n }) {
        Some(at) => around_by(p, file, most - 1, at),
        None => None,
    }
}

fn around(p: &Pass, file: u32, n: u32) -> Option<u32>
    requires { IsPass p.now }
    ensures { result ≡ around (unit_in p.now) file n }
{
    around_from(p, file, p.subject.nodes_at(file).len(), n)
}

/// Whether the chain goes on around a node.
pub(crate) fn is_inner(p: &Pass, file: u32, c: Chain, n: u32) -> bool
    requires { IsPass p.now }
    ensures { result ≡ is_inner (unit_in p.now) file c n }
{
    match around(p, file, n) {
        Some(m) => continues(p, file, c, m),
        None => false,
    }
}
