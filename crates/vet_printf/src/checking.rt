//! Formats and plain texts of calls.
ghost use Rattle.std.specs.Prelude.{◌≡◌, ◌≤◌, ◌<◌, ◌^◌, ◌-◌, [], length, drop, IfOk, OnOk};
ghost use Rattle.findings.specs.Gains.{Gains, OfSome};
ghost use Rattle.findings.specs.Passes.{unit_in, marks_in, IsPass};
ghost use Rattle.vet_printf.specs.Tables.{AreJudged};
ghost use Rattle.vet_printf.specs.Calls.{IsFaultOf, IsFormatFound, IsPlainFound, part_text};

use crate::arguments::all_arguments;
use crate::const_texts::part_text;
use crate::fault::{Argument, Fault};
use crate::formats::{format_fault, has_possible};
use crate::telling::push_fault;
use analysis_core::Diagnostic;
use findings::Pass;
use go_tree::Node;
use gv_base::NoMemory;
use printf_format::read_format;
use std::alloc::Global;

/// The first fault of a format, over the arguments at these nodes. A call of 2^32 arguments has no room in memory.
fn checked_fault(
    alloc: Global,
    p: &Pass,
    cells: &[Option<Argument>],
    file: u32,
    errorf: bool,
    nodes: &[u32],
    text: &[u8],
) -> Result<Option<Fault>, NoMemory>
    requires pass { IsPass p.now }
    requires cells { AreJudged p.now.state.now.table cells.now }
    requires short { length text.now ≤ 65536 }
    ensures { IfOk result (IsFaultOf (unit_in p.now) (marks_in p.now) file errorf nodes.now text.now) }
{
    let list = all_arguments(alloc, p, cells, file, nodes)?;
    let read = read_format(alloc, text)?;
    if list.len() >= 4294967296 {
        return Err(NoMemory);
    }
    Ok(format_fault(errorf, &list, &read))
}

fn report_format(
    alloc: Global,
    p: &Pass,
    cells: &[Option<Argument>],
    file: u32,
    node: &Node,
    callee: u32,
    errorf: bool,
    nodes: &[u32],
    text: &[u8],
    found: &mut Vec<Diagnostic>,
) -> Result<(), NoMemory>
    requires pass { IsPass p.now }
    requires cells { AreJudged p.now.state.now.table cells.now }
    requires short { length text.now ≤ 65536 }
    ensures { OnOk result (Gains (IsFormatFound (unit_in p.now) (marks_in p.now) file node.now callee errorf nodes.now text.now) found.old.items found.new.items) }
{
    let checked = checked_fault(alloc, p, cells, file, errorf, nodes, text)?;
    match checked {
        Some(fault) => {
            push_fault(alloc, p, file, node, nodes, callee, fault, found)?;
            Ok(())
        }
        None => Ok(()),
    }
}

fn report_plain(
    alloc: Global,
    p: &Pass,
    file: u32,
    node: &Node,
    callee: u32,
    nodes: &[u32],
    text: &[u8],
    found: &mut Vec<Diagnostic>,
) -> Result<(), NoMemory>
    requires short { length text.now ≤ 65536 }
    ensures { OnOk result (Gains (IsPlainFound (unit_in p.now) file node.now callee nodes.now text.now) found.old.items found.new.items) }
{
    let read = read_format(alloc, text)?;
    if has_possible(&read) {
        push_fault(alloc, p, file, node, nodes, callee, Fault::Possible, found)?;
        return Ok(());
    }
    Ok(())
}

// ---- by the parts of a call

/// The parts from a number on.
#[tactic(auto, using(crate::proofs::CallLemmas::drop_past, crate::proofs::CallLemmas::take_all))]
fn rest_of(parts: &[u32], count: usize) -> &[u32]
    ensures { result.now ≡ drop count parts.now }
{
    if count < parts.len() {
        &parts[count..]
    } else {
        &[]
    }
}

pub(crate) fn rest_parts(node: &Node, count: usize) -> &[u32]
    ensures { result.now ≡ drop count node.now.parts }
{
    rest_of(node.parts.as_slice(), count)
}

pub(crate) fn report_format_at(
    alloc: Global,
    p: &Pass,
    cells: &[Option<Argument>],
    file: u32,
    node: &Node,
    callee: u32,
    count: usize,
    errorf: bool,
    found: &mut Vec<Diagnostic>,
) -> Result<(), NoMemory>
    requires pass { IsPass p.now }
    requires cells { AreJudged p.now.state.now.table cells.now }
    ensures { OnOk result (Gains (OfSome (part_text (marks_in p.now) file node.now (count - 1)) (IsFormatFound (unit_in p.now) (marks_in p.now) file node.now callee errorf (drop count node.now.parts))) found.old.items found.new.items) }
{
    let nodes = rest_parts(node, count);
    match part_text(p, file, node, count.saturating_sub(1)) {
        Some(text) => {
            report_format(
                alloc, p, cells, file, node, callee, errorf, nodes, text, found,
            )?;
            Ok(())
        }
        None => Ok(()),
    }
}

pub(crate) fn report_plain_at(
    alloc: Global,
    p: &Pass,
    file: u32,
    node: &Node,
    callee: u32,
    count: usize,
    found: &mut Vec<Diagnostic>,
) -> Result<(), NoMemory>
    requires pass { IsPass p.now }
    ensures { OnOk result (Gains (OfSome (part_text (marks_in p.now) file node.now count) (IsPlainFound (unit_in p.now) file node.now callee (drop count node.now.parts))) found.old.items found.new.items) }
{
    let nodes = rest_parts(node, count);
    match part_text(p, file, node, count) {
        Some(text) => {
            report_plain(alloc, p, file, node, callee, nodes, text, found)?;
            Ok(())
        }
        None => Ok(()),
    }
}
