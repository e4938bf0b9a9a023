//! Places in statements that make more of what stands there than what is wanted of it.
ghost use Rattle.std.specs.Prelude.{◌≡◌, IfOk, ◌==◌, if◌then◌else◌};
ghost use Rattle.type_answers.specs.Coming.{ComesTo};
ghost use Rattle.unit_read.specs.Subjects.{unit_of, IsRead};
ghost use Rattle.rule_words.specs.Scenes.{IsScene, said, IsMarkOf};
ghost use Rattle.rule_words.specs.Steps.{IsStepOf};
ghost use Rattle.statement_rules.specs.Placing.{if_first, value_placing, assigned_placing, name_placing, defined_placing, range_placing, call_placing, return_placing, type_placing, comm_placing, other_placing, placing_by, placing_of, placed_by, takes_blank};

use crate::case_types::judge_case_type;
use crate::case_values::judge_case;
use crate::return_passing::judge_passed;
use crate::returning::returned_call;
use crate::standing::{judge_communicating, judge_standing};
use assign_rules::around::function_of;
use assign_rules::assigning::{is_used, judge_target};
use assign_rules::kinds::{is_statement, is_type_list, takes_statement};
use assign_rules::range_operand::judge_ranged;
use assign_rules::several::judge_several;
use go_tree::{Node, NodeKind};
use gv_base::NoMemory;
use rule_words::Step;
use rule_words::good::silent;
use std::alloc::Global;
use typed_marks::{Mark, State};
use unit_read::{Place, Subject};
use variable_rules::shared_value;

/// What a place in a statement makes of what stands there.
#[derive(Clone, Copy, Debug, PartialEq, Eq, Drop)]
pub enum Placing {
    /// What is wanted of it says all that is tested.
    Plain,
    /// It is a statement: E56, E70.
    Standing,
    /// It is all of a clause of a select statement: E86.
    Communicating,
    /// Something is assigned to it: E72.
    Target,
    /// It is the only value of several operands: E32.
    Several,
    /// It gives all results of the function: E32.
    Passed,
    /// It is compared with the tag of a switch: E24, E25, E30, E33, E35.
    Value,
    /// It is a type of a type switch, or nil: E10, E47.
    Type,
    /// It is ranged over, and what it gives is assigned: E24, E25, E26, E30, E32.
    Ranged,
}

// ---- which places

fn if_first(slot: usize, placing: Placing) -> Placing
    ensures { result ≡ if_first slot placing }
{
    if slot == 0 { placing } else { Placing::Plain }
}

fn value_placing(u: &Subject, file: u32, around: &Node) -> Placing
    ensures { result ≡ value_placing (unit_of u.now) file around.now }
{
    let shared = shared_value(u, file, u.nodes_at(file), 1, around);
    if shared.is_some() {
        Placing::Several
    } else {
        Placing::Plain
    }
}

fn assigned_placing(u: &Subject, file: u32, around: &Node, slot: usize) -> Placing
    ensures { result ≡ assigned_placing (unit_of u.now) file around.now slot }
{
    if slot == 0 {
        Placing::Target
    } else {
        value_placing(u, file, around)
    }
}

fn name_placing(u: &Subject, file: u32, n: u32) -> Placing
    requires { IsRead u.now }
    ensures { result ≡ name_placing (unit_of u.now) file n }
{
    if is_used(u, file, n) {
        Placing::Target
    } else {
        Placing::Plain
    }
}

fn defined_placing(u: &Subject, file: u32, around: &Node, slot: usize, n: u32) -> Placing
    requires { IsRead u.now }
    ensures { result ≡ defined_placing (unit_of u.now) file around.now slot n }
{
    if slot == 0 {
        name_placing(u, file, n)
    } else {
        value_placing(u, file, around)
    }
}

fn second_placing(slot: usize) -> Placing
    ensures { result ≡ (if slot == 1 then Placing.Ranged else Placing.Plain) }
{
    if slot == 1 {
        Placing::Ranged
    } else {
        Placing::Plain
    }
}

fn range_placing(slot: usize) -> Placing
    ensures { result ≡ range_placing slot }
{
    if slot == 0 {
        Placing::Target
    } else {
        second_placing(slot)
    }
}

fn call_placing(nodes: &[Node], around: &Node, f: u32) -> Placing
    ensures { result ≡ call_placing nodes.now around.now f }
{
    let call = returned_call(nodes, around, f);
    if call.is_some() {
        Placing::Passed
    } else {
        Placing::Plain
    }
}

fn return_placing(u: &Subject, file: u32, whole: u32, around: &Node) -> Placing
    requires { IsRead u.now }
    ensures { result ≡ return_placing (unit_of u.now) file whole around.now }
{
    match function_of(u, file, whole) {
        Some(f) => call_placing(u.nodes_at(file), around, f),
        None => Placing::Plain,
    }
}

fn type_placing(slot: usize, kind: NodeKind) -> Placing
    ensures { result ≡ type_placing slot kind }
{
    if slot == 0 && !is_type_list(kind) {
        Placing::Type
    } else {
        Placing::Plain
    }
}

fn comm_placing(slot: usize, kind: NodeKind) -> Placing
    ensures { result ≡ comm_placing slot kind }
{
    if slot == 0 && !is_statement(kind) {
        Placing::Communicating
    } else {
        Placing::Plain
    }
}

fn other_placing(u: &Subject, file: u32, around: &Node, slot: usize, kind: NodeKind) -> Placing
    ensures { result ≡ other_placing (unit_of u.now) file around.now slot kind }
{
    let takes = takes_statement(u, file, u.nodes_at(file), around.kind, around, slot);
    if takes && !is_statement(kind) {
        Placing::Standing
    } else {
        Placing::Plain
    }
}

fn placing_by(
    u: &Subject,
    file: u32,
    at: Place,
    around: &Node,
    n: u32,
    kind: NodeKind,
    whole: NodeKind,
) -> Placing
    requires { IsRead u.now }
    ensures { result ≡ placing_by (unit_of u.now) file at around.now n kind whole }
{
    match whole {
        NodeKind::Assign => assigned_placing(u, file, around, at.slot),
        NodeKind::Define => defined_placing(u, file, around, at.slot, n),
        NodeKind::OpAssign => if_first(at.slot, Placing::Target),
        NodeKind::Increment => Placing::Target,
        NodeKind::Decrement => Placing::Target,
        NodeKind::ForRangeAssign => range_placing(at.slot),
        NodeKind::Return => return_placing(u, file, at.around, around),
        NodeKind::Case => if_first(at.slot, Placing::Value),
        NodeKind::TypeCase => type_placing(at.slot, kind),
        NodeKind::TypeList => Placing::Type,
        NodeKind::Comm => comm_placing(at.slot, kind),
        _ => other_placing(u, file, around, at.slot, kind),
    }
}

/// The placing of a node of a number and kind, in a file, at a place in another.
pub fn placing_of(
    u: &Subject,
    file: u32,
    at: Place,
    around: &Node,
    n: u32,
    kind: NodeKind,
) -> Placing
    requires { IsRead u.now }
    ensures { result ≡ placing_of (unit_of u.now) file at around.now n kind }
{
    placing_by(u, file, at, around, n, kind, around.kind)
}

// ---- what they make of the node's own mark

/// What comes of a node's own mark at such a place.
#[tactic(auto, using(type_answers::proofs::ComingLaws::same_comes))]
pub fn judge_statement_placed(
    alloc: Global,
    u: &Subject,
    s: &State,
    block: usize,
    file: u32,
    at: Place,
    around: &Node,
    n: u32,
    m: Mark,
    placing: Placing,
) -> Result<Step, NoMemory>
    requires scene { IsScene u.now s.now }
    requires mark { IsMarkOf s.now m }
    ensures comes { IfOk result (ComesTo u.now s.now (placed_by (unit_of u.now) block file at around.now n (said s.now m) placing)) }
    ensures over { IfOk result (IsStepOf s.now) }
{
    let nodes = u.nodes_at(file);
    match placing {
        Placing::Plain => Ok(silent()),
        Placing::Standing => Ok(judge_standing(u, s, block, file, n, m)),
        Placing::Communicating => Ok(judge_communicating(u, s, file, n, m)),
        Placing::Target => Ok(judge_target(u, s, file, n, m)),
        Placing::Several => {
            let step = judge_several(alloc, u, s, block, file, nodes, around, m)?;
            Ok(step)
        }
        Placing::Passed => {
            let step = judge_passed(alloc, u, s, block, file, at.around, m)?;
            Ok(step)
        }
        Placing::Value => {
            let step = judge_case(alloc, u, s, block, file, at.around, m)?;
            Ok(step)
        }
        Placing::Type => {
            let step = judge_case_type(alloc, u, s, block, file, at.around, m)?;
            Ok(step)
        }
        Placing::Ranged => {
            let step = judge_ranged(alloc, u, s, block, file, nodes, around, m)?;
            Ok(step)
        }
    }
}

/// A blank may stand in the slot: it is no use.
pub fn takes_blank(kind: NodeKind, slot: usize) -> bool
    ensures { result ≡ takes_blank kind slot }
{
    match kind {
        NodeKind::Assign => slot == 0,
        NodeKind::ForRangeAssign => slot == 0,
        _ => false,
    }
}
