//! In which function a call hands its arguments on.
ghost use Rattle.std.specs.Prelude.{◌≡◌, ◌<◌, false, length, map, slice_get, option_and_then, IfOk};
ghost use Rattle.std.specs.Option.{option_map_or};
ghost use Rattle.unit_read.specs.Units.{nodes_at};
ghost use Rattle.findings.specs.Passes.{unit_in, marks_in, IsPass};
ghost use Rattle.own_functions.specs.declared.functions.Declared.{Declared as ADeclared};
ghost use Rattle.own_functions.specs.InCode.{named_in};
ghost use Rattle.vet_printf.specs.Forwards.{AreTouched};
ghost use Rattle.vet_printf.specs.Knowing.{IsKnown};
ghost use Rattle.vet_printf.specs.Walk.{declared_name, stands_at, number_if, number_named, owner_number, giver_in, giver_of, giver_around, giver_from, giver};

use crate::handing::hands;
use crate::known::Known;
use crate::spreads::is_spread_call;
use crate::standing::declaration_of;
use findings::Pass;
use go_tree::Node;
use gv_base::{NoMemory, Text};
use own_functions::{Declared, name_by};
use package_objects::node_of;
use std::alloc::Global;
use unit_read::find;

// ---- the function that a node declares

fn declared_name(alloc: Global, p: &Pass, file: u32, d: u32) -> Result<Option<Text>, NoMemory>
    requires { IsPass p.now }
    ensures { IfOk result (λ o. o ≡ declared_name (unit_in p.now) file d) }
{
    match node_of(p.subject.nodes_at(file), d) {
        Some(node) => {
            let name = name_by(alloc, p, file, d, node)?;
            Ok(name)
        }
        None => Ok(None),
    }
}

fn stands_at(x: &Declared, file: u32, d: u32) -> bool
    ensures { result ≡ stands_at file d (named_in x.now) }
{
    x.at.file == file && x.at.node == d
}

fn nth_stands(list: &[Declared], file: u32, d: u32, i: usize) -> bool
    ensures { result ≡ option_map_or (λ (x : ADeclared). stands_at file d (named_in x)) (slice_get list.now i) false }
{
    match list.get(i) {
        Some(x) => stands_at(x, file, d),
        None => false,
    }
}

fn number_if(p: &Pass, known: &Known<'_, '_>, file: u32, d: u32, i: usize) -> Option<usize>
    requires { IsKnown (unit_in p.now) (marks_in p.now) known.now }
    ensures { result ≡ number_if (unit_in p.now) file d i }
{
    let _ = p;
    if nth_stands(known.list, file, d, i) {
        Some(i)
    } else {
        None
    }
}

fn number_named(p: &Pass, known: &Known<'_, '_>, file: u32, d: u32, name: &[u8]) -> Option<usize>
    requires { IsKnown (unit_in p.now) (marks_in p.now) known.now }
    ensures { result ≡ number_named (unit_in p.now) file d name.now }
{
    match find(known.numbers, name) {
        Some(i) => number_if(p, known, file, d, i),
        None => None,
    }
}

/// The number of the function that a node declares, if it is the first of its name.
fn owner_number(
    alloc: Global,
    p: &Pass,
    known: &Known<'_, '_>,
    file: u32,
    d: u32,
) -> Result<Option<usize>, NoMemory>
    requires pass { IsPass p.now }
    requires known { IsKnown (unit_in p.now) (marks_in p.now) known.now }
    ensures { IfOk result (λ o. o ≡ owner_number (unit_in p.now) file d) }
{
    let name = declared_name(alloc, p, file, d)?;
    match name {
        Some(name) => Ok(number_named(p, known, file, d, name.as_str().as_bytes())),
        None => Ok(None),
    }
}

// ---- the function in which a call stands

fn giver_in(
    alloc: Global,
    p: &Pass,
    known: &Known<'_, '_>,
    kind: u8,
    file: u32,
    row: &[bool],
    call: &Node,
    d: u32,
    node: &Node,
) -> Result<Option<usize>, NoMemory>
    requires pass { IsPass p.now }
    requires known { IsKnown (unit_in p.now) (marks_in p.now) known.now }
    requires row { AreTouched (unit_in p.now) file (length (nodes_at (unit_in p.now) file)) (nodes_at (unit_in p.now) file) row.now }
    ensures { IfOk result (λ o. o ≡ giver_in (unit_in p.now) (marks_in p.now) kind file call.now d node.now) }
{
    if hands(p, file, row, call, node, kind) {
        let owner = owner_number(alloc, p, known, file, d)?;
        return Ok(owner);
    }
    Ok(None)
}

fn giver_of(
    alloc: Global,
    p: &Pass,
    known: &Known<'_, '_>,
    kind: u8,
    file: u32,
    row: &[bool],
    call: &Node,
    d: u32,
) -> Result<Option<usize>, NoMemory>
    requires pass { IsPass p.now }
    requires known { IsKnown (unit_in p.now) (marks_in p.now) known.now }
    requires row { AreTouched (unit_in p.now) file (length (nodes_at (unit_in p.now) file)) (nodes_at (unit_in p.now) file) row.now }
    ensures { IfOk result (λ o. o ≡ giver_of (unit_in p.now) (marks_in p.now) kind file call.now d) }
{
    match node_of(p.subject.nodes_at(file), d) {
        Some(node) => {
            let giver = giver_in(alloc, p, known, kind, file, row, call, d, node)?;
            Ok(giver)
        }
        None => Ok(None),
    }
}

fn giver_around(
    alloc: Global,
    p: &Pass,
    known: &Known<'_, '_>,
    kind: u8,
    file: u32,
    row: &[bool],
    n: u32,
    call: &Node,
) -> Result<Option<usize>, NoMemory>
    requires pass { IsPass p.now }
    requires known { IsKnown (unit_in p.now) (marks_in p.now) known.now }
    requires row { AreTouched (unit_in p.now) file (length (nodes_at (unit_in p.now) file)) (nodes_at (unit_in p.now) file) row.now }
    ensures { IfOk result (λ o. o ≡ giver_around (unit_in p.now) (marks_in p.now) kind file n call.now) }
{
    match declaration_of(p, file, n) {
        Some(d) => {
            let giver = giver_of(alloc, p, known, kind, file, row, call, d)?;
            Ok(giver)
        }
        None => Ok(None),
    }
}

fn giver_from(
    alloc: Global,
    p: &Pass,
    known: &Known<'_, '_>,
    kind: u8,
    file: u32,
    row: &[bool],
    n: u32,
    call: &Node,
) -> Result<Option<usize>, NoMemory>
    requires pass { IsPass p.now }
    requires known { IsKnown (unit_in p.now) (marks_in p.now) known.now }
    requires row { AreTouched (unit_in p.now) file (length (nodes_at (unit_in p.now) file)) (nodes_at (unit_in p.now) file) row.now }
    ensures { IfOk result (λ o. o ≡ giver_from (unit_in p.now) (marks_in p.now) kind file n call.now) }
{
    if is_spread_call(call.kind) {
        let giver = giver_around(alloc, p, known, kind, file, row, n, call)?;
        return Ok(giver);
    }
    Ok(None)
}

/// The number of the function in which a node stands, if the node is a call that hands that function's arguments on, as a function of this kind.
pub(crate) fn giver(
    alloc: Global,
    p: &Pass,
    known: &Known<'_, '_>,
    kind: u8,
    file: u32,
    row: &[bool],
    n: u32,
) -> Result<Option<usize>, NoMemory>
    requires pass { IsPass p.now }
    requires known { IsKnown (unit_in p.now) (marks_in p.now) known.now }
    requires row { AreTouched (unit_in p.now) file (length (nodes_at (unit_in p.now) file)) (nodes_at (unit_in p.now) file) row.now }
    ensures { IfOk result (λ o. o ≡ giver (unit_in p.now) (marks_in p.now) kind file n) }
{
    match node_of(p.subject.nodes_at(file), n) {
        Some(call) => {
            let giver = giver_from(alloc, p, known, kind, file, row, n, call)?;
            Ok(giver)
        }
        None => Ok(None),
    }
}
