//! The walk over the calls of a package: to whom functions hand on, as functions of one kind.
ghost use Rattle.std.specs.Prelude.{◌≡◌, ◌<◌, ◌≤◌, ◌^◌, ◌+◌, Some, is_some, length, IfOk, IfSome, OnOk};
ghost use Rattle.object_order.specs.Spots.{place};
ghost use Rattle.unit_read.specs.Units.{nodes_at};
ghost use Rattle.findings.specs.Passes.{unit_in, marks_in, IsPass};
ghost use Rattle.member_names.specs.InCode.{named_in};
ghost use Rattle.own_functions.specs.Functions.{functions, number};
ghost use Rattle.vet_printf.specs.Forwards.{AreTouched};
ghost use Rattle.vet_printf.specs.Knowing.{handed_in, called_at, IsKnown};
ghost use Rattle.vet_printf.specs.Walk.{given_of, both_of, contribution, walk_nodes, walk_files, Fills, IsSized, AreFilled};
ghost use Rattle.vet_printf.specs.Wraps.{number_of};

use crate::buckets::{Buckets, no_buckets, put};
use crate::known::{Known, called_at, is_given, number_of, own_number};
use crate::owners::giver;
use crate::spreads::node_count;
use crate::touching::touched_row;
use fact_codec::WrapKind;
use findings::Pass;
use gv_base::NoMemory;
use member_names::Named;
use std::alloc::Global;

// ---- one call

fn put_named(
    p: &Pass,
    known: &Known<'_, '_>,
    kind: WrapKind,
    i: usize,
    x: &Named,
    buckets: &mut Buckets,
) -> Result<(), NoMemory>
    requires known { IsKnown (unit_in p.now) (marks_in p.now) known.now }
    requires sized { IsSized (length (functions (unit_in p.now))) buckets.old }
    requires below { i < length (functions (unit_in p.now)) }
    ensures { OnOk result (Fills (length (functions (unit_in p.now))) (handed_in known.now) (number (number_of kind) (unit_in p.now)) (Some (given_of (number_of kind) i (named_in x.now))) buckets.old buckets.new) }
{
    let given = is_given(p, known, kind, x);
    let own = own_number(p, known, x);
    put(buckets, i, given, own)?;
    Ok(())
}

fn give_to(
    p: &Pass,
    known: &Known<'_, '_>,
    kind: WrapKind,
    i: usize,
    file: u32,
    n: u32,
    buckets: &mut Buckets,
) -> Result<(), NoMemory>
    requires known { IsKnown (unit_in p.now) (marks_in p.now) known.now }
    requires sized { IsSized (length (functions (unit_in p.now))) buckets.old }
    requires below { i < length (functions (unit_in p.now)) }
    ensures { OnOk result (Fills (length (functions (unit_in p.now))) (handed_in known.now) (number (number_of kind) (unit_in p.now)) (both_of (number_of kind) (Some i) (called_at known.now (place file n))) buckets.old buckets.new) }
{
    match called_at(known, file, n) {
        Some(x) => {
            put_named(p, known, kind, i, x, buckets)?;
            Ok(())
        }
        None => Ok(()),
    }
}

fn give(
    p: &Pass,
    known: &Known<'_, '_>,
    kind: WrapKind,
    giver: Option<usize>,
    file: u32,
    n: u32,
    buckets: &mut Buckets,
) -> Result<(), NoMemory>
    requires known { IsKnown (unit_in p.now) (marks_in p.now) known.now }
    requires sized { IsSized (length (functions (unit_in p.now))) buckets.old }
    requires below { IfSome giver (λ i. i < length (functions (unit_in p.now))) }
    ensures { OnOk result (Fills (length (functions (unit_in p.now))) (handed_in known.now) (number (number_of kind) (unit_in p.now)) (both_of (number_of kind) giver (called_at known.now (place file n))) buckets.old buckets.new) }
{
    match giver {
        Some(i) => {
            give_to(p, known, kind, i, file, n, buckets)?;
            Ok(())
        }
        None => Ok(()),
    }
}

/// Whether it is known what a node calls with `...`. Most nodes are no such calls.
fn is_called(known: &Known<'_, '_>, file: u32, n: u32) -> bool
    ensures { result ≡ is_some (called_at known.now (place file n)) }
{
    match called_at(known, file, n) {
        Some(_named) => true,
        None => false,
    }
}

fn visit(
    alloc: Global,
    p: &Pass,
    known: &Known<'_, '_>,
    kind: WrapKind,
    file: u32,
    row: &[bool],
    n: u32,
    buckets: &mut Buckets,
) -> Result<(), NoMemory>
    requires pass { IsPass p.now }
    requires known { IsKnown (unit_in p.now) (marks_in p.now) known.now }
    requires row { AreTouched (unit_in p.now) file (length (nodes_at (unit_in p.now) file)) (nodes_at (unit_in p.now) file) row.now }
    requires sized { IsSized (length (functions (unit_in p.now))) buckets.old }
    ensures { OnOk result (Fills (length (functions (unit_in p.now))) (handed_in known.now) (number (number_of kind) (unit_in p.now)) (contribution (called_at known.now) (unit_in p.now) (marks_in p.now) (number_of kind) file n) buckets.old buckets.new) }
{
    if is_called(known, file, n) {
        let giver = giver(alloc, p, known, number_of(kind), file, row, n)?;
        give(p, known, kind, giver, file, n, buckets)?;
        return Ok(());
    }
    Ok(())
}

// ---- all of them

fn walk_to(
    alloc: Global,
    p: &Pass,
    known: &Known<'_, '_>,
    kind: WrapKind,
    file: u32,
    row: &[bool],
    end: usize,
    buckets: &mut Buckets,
) -> Result<(), NoMemory>
    requires pass { IsPass p.now }
    requires known { IsKnown (unit_in p.now) (marks_in p.now) known.now }
    requires row { AreTouched (unit_in p.now) file (length (nodes_at (unit_in p.now) file)) (nodes_at (unit_in p.now) file) row.now }
    requires small { end ≤ 2 ^ 32 }
    requires filled { AreFilled known.now (unit_in p.now) (number_of kind) (walk_files (called_at known.now) (unit_in p.now) (marks_in p.now) (number_of kind) file) buckets.old }
    ensures { OnOk result (AreFilled known.now (unit_in p.now) (number_of kind) (walk_nodes (called_at known.now) (unit_in p.now) (marks_in p.now) (number_of kind) (walk_files (called_at known.now) (unit_in p.now) (marks_in p.now) (number_of kind) file) file end) buckets.new) }
{
    for n in 0..end {
        visit(alloc, p, known, kind, file, row, n as u32, buckets)?;
    }
    Ok(())
}

fn walk_file(
    alloc: Global,
    p: &Pass,
    known: &Known<'_, '_>,
    kind: WrapKind,
    file: u32,
    buckets: &mut Buckets,
) -> Result<(), NoMemory>
    requires pass { IsPass p.now }
    requires known { IsKnown (unit_in p.now) (marks_in p.now) known.now }
    requires filled { AreFilled known.now (unit_in p.now) (number_of kind) (walk_files (called_at known.now) (unit_in p.now) (marks_in p.now) (number_of kind) file) buckets.old }
    ensures { OnOk result (AreFilled known.now (unit_in p.now) (number_of kind) (walk_files (called_at known.now) (unit_in p.now) (marks_in p.now) (number_of kind) (file + 1)) buckets.new) }
{
    let row = touched_row(alloc, p, file)?;
    walk_to(
        alloc,
        p,
        known,
        kind,
        file,
        &row,
        node_count(p, file),
        buckets,
    )?;
    Ok(())
}

/// For each function by number to whom it hands on, as a function of this kind.
pub(crate) fn walk(
    alloc: Global,
    p: &Pass,
    known: &Known<'_, '_>,
    kind: WrapKind,
) -> Result<Buckets, NoMemory>
    requires pass { IsPass p.now }
    requires known { IsKnown (unit_in p.now) (marks_in p.now) known.now }
    ensures { IfOk result (AreFilled known.now (unit_in p.now) (number_of kind) (walk_files (called_at known.now) (unit_in p.now) (marks_in p.now) (number_of kind) (length (unit_in p.now).trees))) }
{
    let mut buckets = no_buckets(alloc, known.list.len())?;
    for file in 0..p.subject.trees.len() {
        walk_file(alloc, p, known, kind, file as u32, &mut buckets)?;
    }
    Ok(buckets)
}
