//! What late rules refuse: they are tested when all marks stand, and no mark rests on them.
ghost use Rattle.std.specs.Prelude.{◌≡◌, ◌≤◌, ◌^◌, ◌↔◌, IfOk, OnOk, Contains, length};
ghost use Rattle.go_tree.specs.declared.tree.NodeRef.{NodeRef as OneNode};
ghost use Rattle.mark_walk.specs.Asks.{filled};
ghost use Rattle.package_objects.specs.Declares.{AreSmall};
ghost use Rattle.typed_marks.specs.Meanings.{Quiet};
ghost use Rattle.typed_marks.specs.States.{so_far};
ghost use Rattle.unit_read.specs.Index.{texts_of};
ghost use Rattle.unit_read.specs.Subjects.{full_of, unit_of};
ghost use Rattle.rule_words.specs.Scenes.{IsScene};
ghost use Rattle.body_facts.specs.Bodies.{AreBodies};
ghost use Rattle.check_pkg.specs.Gains.{Gains, SomeBelow};
ghost use Rattle.check_pkg.specs.Late.{lates, late_rule, late_token, RefusesLate, IsLateIn, IsLateAt, RefusedBy, IsRefusedByRow, IsRefusedLate, NthLateAt, NthRefusedBy};

use crate::in_bodies::refuse_bodies;
use crate::initial::initial_nodes;
use crate::places::start_of;
use crate::refusal::{Fault, Refusal};
use duplicate_cases::duplicate_nodes;
use go_tree::{Node, NodeRef};
use gv_base::{NoMemory, Place};
use std::alloc::Global;
use typed_marks::State;
use typed_tree::{DUPLICATE_CASE, INITIALISATION_CYCLE, Rule};
use unit_read::Subject;

/// A rule that is tested when all marks stand.
#[derive(Clone, Copy, Debug, PartialEq, Eq, Drop)]
pub enum Late {
    /// E5: a variable that reaches itself by references in initial values and bodies.
    InitialCycle,
    /// E81: a case that stands before in its switch.
    DuplicateCase,
}

// ---- the rows

fn lates(alloc: Global) -> Result<Vec<Late>, NoMemory>
    ensures { IfOk result (λ list. list.items ≡ lates) }
{
    let mut list = Vec::new(alloc);
    list.push(Late::InitialCycle)?;
    list.push(Late::DuplicateCase)?;
    Ok(list)
}

fn late_rule(late: Late) -> Rule
    ensures { result ≡ late_rule late }
{
    match late {
        Late::InitialCycle => INITIALISATION_CYCLE,
        Late::DuplicateCase => DUPLICATE_CASE,
    }
}

/// The token at which the fault of a node stands.
fn late_token(late: Late, node: &Node) -> u32
    ensures { result ≡ late_token late node.now }
{
    match late {
        Late::InitialCycle => node.first,
        Late::DuplicateCase => node.first,
    }
}

/// The nodes that a rule refuses.
fn late_nodes(alloc: Global, u: &Subject, s: &State, late: Late) -> Result<Vec<NodeRef>, NoMemory>
    requires scene { IsScene u.now s.now }
    requires small { AreSmall u.now.trees.now }
    requires few { length u.now.trees.now ≤ 2 ^ 32 }
    requires bodies { AreBodies (texts_of u.now.texts.now) u.now.trees.now }
    ensures { IfOk result (λ list. (at : OneNode) → Contains list.items at ↔ RefusesLate (full_of u.now) (filled Quiet (so_far s.now)) late at) }
{
    match late {
        Late::InitialCycle => {
            let list = initial_nodes(alloc, u, s)?;
            Ok(list)
        }
        Late::DuplicateCase => {
            let list = duplicate_nodes(alloc, u, s)?;
            Ok(list)
        }
    }
}

// ---- what they refuse

/// Adds the fault of a node.
fn refuse_node(
    u: &Subject,
    late: Late,
    at: NodeRef,
    node: &Node,
    list: &mut Vec<Refusal>,
) -> Result<(), NoMemory>
    ensures { OnOk result (Gains (IsLateIn (unit_of u.now) late at node.now) list.old.items list.new.items) }
{
    let place = Place {
        file: at.file,
        offset: start_of(u, at.file, late_token(late, node)),
    };
    let fault = Fault::Rule(late_rule(late));
    list.push(Refusal { place, fault })?;
    Ok(())
}

fn refuse_at(u: &Subject, late: Late, at: NodeRef, list: &mut Vec<Refusal>) -> Result<(), NoMemory>
    ensures { OnOk result (Gains (IsLateAt (unit_of u.now) late at) list.old.items list.new.items) }
{
    match u.node_at(at) {
        Some(node) => {
            refuse_node(u, late, at, node, list)?;
            Ok(())
        }
        None => Ok(()),
    }
}

/// Adds the faults of nodes.
fn refuse_nodes(
    u: &Subject,
    late: Late,
    nodes: &[NodeRef],
    list: &mut Vec<Refusal>,
) -> Result<(), NoMemory>
    ensures { OnOk result (Gains (SomeBelow (length nodes.now) (NthLateAt (unit_of u.now) late nodes.now)) list.old.items list.new.items) }
{
    for at in nodes {
        refuse_at(u, late, *at, list)?;
    }
    Ok(())
}

/// Adds what a late rule refuses.
fn refuse_by(
    alloc: Global,
    u: &Subject,
    s: &State,
    late: Late,
    list: &mut Vec<Refusal>,
) -> Result<(), NoMemory>
    requires scene { IsScene u.now s.now }
    requires small { AreSmall u.now.trees.now }
    requires few { length u.now.trees.now ≤ 2 ^ 32 }
    requires bodies { AreBodies (texts_of u.now.texts.now) u.now.trees.now }
    ensures { OnOk result (Gains (RefusedBy (full_of u.now) (filled Quiet (so_far s.now)) late) list.old.items list.new.items) }
{
    let nodes = late_nodes(alloc, u, s, late)?;
    refuse_nodes(u, late, &nodes, list)?;
    Ok(())
}

/// Adds what some late rules refuse.
fn refuse_each(
    alloc: Global,
    u: &Subject,
    s: &State,
    rules: &[Late],
    list: &mut Vec<Refusal>,
) -> Result<(), NoMemory>
    requires scene { IsScene u.now s.now }
    requires small { AreSmall u.now.trees.now }
    requires few { length u.now.trees.now ≤ 2 ^ 32 }
    requires bodies { AreBodies (texts_of u.now.texts.now) u.now.trees.now }
    ensures { OnOk result (Gains (SomeBelow (length rules.now) (NthRefusedBy (full_of u.now) (filled Quiet (so_far s.now)) rules.now)) list.old.items list.new.items) }
{
    for late in rules {
        refuse_by(alloc, u, s, *late, list)?;
    }
    Ok(())
}

/// Adds what the late rules refuse that are rows.
fn refuse_rows(
    alloc: Global,
    u: &Subject,
    s: &State,
    list: &mut Vec<Refusal>,
) -> Result<(), NoMemory>
    requires scene { IsScene u.now s.now }
    requires small { AreSmall u.now.trees.now }
    requires few { length u.now.trees.now ≤ 2 ^ 32 }
    requires bodies { AreBodies (texts_of u.now.texts.now) u.now.trees.now }
    ensures { OnOk result (Gains (IsRefusedByRow (full_of u.now) (filled Quiet (so_far s.now))) list.old.items list.new.items) }
{
    let rules = lates(alloc)?;
    refuse_each(alloc, u, s, &rules, list)?;
    Ok(())
}

/// Adds what late rules refuse.
pub fn refuse_late(
    alloc: Global,
    u: &Subject,
    s: &State,
    list: &mut Vec<Refusal>,
) -> Result<(), NoMemory>
    requires scene { IsScene u.now s.now }
    requires bodies { AreBodies (texts_of u.now.texts.now) u.now.trees.now }
    ensures { OnOk result (Gains (IsRefusedLate (full_of u.now) (filled Quiet (so_far s.now))) list.old.items list.new.items) }
{
    refuse_rows(alloc, u, s, list)?;
    refuse_bodies(alloc, u, s, list)?;
    Ok(())
}
