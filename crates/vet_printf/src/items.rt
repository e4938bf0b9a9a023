//! The functions of a package that print in one way, by their numbers.
ghost use Rattle.std.specs.Prelude.{◌≡◌, ◌<◌, ◌^◌, ◌||◌, not, Some, length, IfOk};
ghost use Rattle.findings.specs.Passes.{unit_in, marks_in, IsPass};
ghost use Rattle.own_functions.specs.Functions.{functions, first_of, nth_name};
ghost use Rattle.vet_printf.specs.InTable.{flag_at, row_of};
ghost use Rattle.vet_printf.specs.Items.{IsItemAs, AreItemsAs, ArePrintingFlags};
ghost use Rattle.vet_printf.specs.Knowing.{called_at, IsKnown};
ghost use Rattle.vet_printf.specs.Walk.{walk_files, AreFilled};
ghost use Rattle.vet_printf.specs.Wraps.{number_of};

use crate::buckets::Buckets;
use crate::known::{Known, number_of};
use crate::listed::is_listed;
use crate::readers::Readers;
use crate::sets::printing;
use crate::shapes::Shape;
use crate::walk::walk;
use fact_codec::WrapKind;
use findings::Pass;
use gv_base::{NoMemory, Row};
use own_functions::nth_name;
use std::alloc::Global;
use unit_read::find;

/// The number of the first function of the name.
fn first_of(p: &Pass, known: &Known<'_, '_>, i: usize) -> usize
    requires known { IsKnown (unit_in p.now) (marks_in p.now) known.now }
    requires there { i < length known.now.list.now }
    ensures { first_of (unit_in p.now) (nth_name (unit_in p.now) i) ≡ Some result }
{
    match find(known.numbers, nth_name(p, known.list, i)) {
        Some(j) => j,
        None => i,
    }
}

fn flag(flags: &[bool], i: usize) -> bool
    ensures { result ≡ flag_at flags.now i }
{
    match flags.get(i) {
        Some(flag) => *flag,
        None => false,
    }
}

fn parts_at(alloc: Global, parts: &Vec<Readers>, i: usize) -> Result<Vec<u32>, NoMemory>
    ensures { IfOk result (λ list. list.items ≡ row_of parts.now.items i) }
{
    match parts.get(i) {
        Some(row) => {
            let list = row.as_slice().to_vec(alloc)?;
            Ok(list)
        }
        None => Ok(Vec::new(alloc)),
    }
}

fn item(listed: bool, settled: bool, parts: Vec<u32>) -> Shape
    ensures parted { result.parted ≡ not (listed || settled) }
    ensures parts { result.parts ≡ parts.items }
{
    Shape {
        parted: !(listed || settled),
        parts: Row::new(parts),
    }
}

fn nth_item(
    alloc: Global,
    p: &Pass,
    known: &Known<'_, '_>,
    kind: WrapKind,
    buckets: &Buckets,
    i: usize,
) -> Result<Shape, NoMemory>
    requires pass { IsPass p.now }
    requires known { IsKnown (unit_in p.now) (marks_in p.now) known.now }
    requires filled { AreFilled known.now (unit_in p.now) (number_of kind) (walk_files (called_at known.now) (unit_in p.now) (marks_in p.now) (number_of kind) (length (unit_in p.now).trees)) buckets.now }
    requires there { i < length known.now.list.now }
    ensures { IfOk result (IsItemAs known.now (unit_in p.now) (marks_in p.now) (number_of kind) i) }
{
    let first = first_of(p, known, i);
    let listed = is_listed(p, known, number_of(kind), nth_name(p, known.list, i));
    let parts = parts_at(alloc, &buckets.parts, first)?;
    Ok(item(listed, flag(&buckets.settled, first), parts))
}

fn all_items(
    alloc: Global,
    p: &Pass,
    known: &Known<'_, '_>,
    kind: WrapKind,
    buckets: &Buckets,
) -> Result<Vec<Shape>, NoMemory>
    requires pass { IsPass p.now }
    requires known { IsKnown (unit_in p.now) (marks_in p.now) known.now }
    requires filled { AreFilled known.now (unit_in p.now) (number_of kind) (walk_files (called_at known.now) (unit_in p.now) (marks_in p.now) (number_of kind) (length (unit_in p.now).trees)) buckets.now }
    ensures { IfOk result (λ items. AreItemsAs known.now (unit_in p.now) (marks_in p.now) (number_of kind) items.items) }
{
    let mut items = Vec::new(alloc);
    for i in 0..known.list.len() {
        let one = nth_item(alloc, p, known, kind, buckets, i)?;
        items.push(one)?;
    }
    Ok(items)
}

fn items_of(
    alloc: Global,
    p: &Pass,
    known: &Known<'_, '_>,
    kind: WrapKind,
) -> Result<Vec<Shape>, NoMemory>
    requires pass { IsPass p.now }
    requires known { IsKnown (unit_in p.now) (marks_in p.now) known.now }
    ensures { IfOk result (λ items. AreItemsAs known.now (unit_in p.now) (marks_in p.now) (number_of kind) items.items) }
{
    let buckets = walk(alloc, p, known, kind)?;
    let items = all_items(alloc, p, known, kind, &buckets)?;
    Ok(items)
}

/// A flag for each function of the package: whether it prints in this way.
pub(crate) fn printing_flags(
    alloc: Global,
    p: &Pass,
    known: &Known<'_, '_>,
    kind: WrapKind,
) -> Result<Vec<bool>, NoMemory>
    requires pass { IsPass p.now }
    requires known { IsKnown (unit_in p.now) (marks_in p.now) known.now }
    ensures { IfOk result (λ flags. ArePrintingFlags known.now (unit_in p.now) (marks_in p.now) kind flags.items) }
{
    let items = items_of(alloc, p, known, kind)?;
    let flags = printing(alloc, &items)?;
    Ok(flags)
}
