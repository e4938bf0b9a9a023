//! In which ways what nodes name prints.
ghost use Rattle.std.specs.Prelude.{◌≡◌, ◌≤◌, ◌^◌, false, IfOk};
ghost use Rattle.std.specs.Option.{option_map_or};
ghost use Rattle.object_order.specs.Spots.{place};
ghost use Rattle.unit_read.specs.Units.{object_at};
ghost use Rattle.findings.specs.Passes.{unit_in, marks_in, IsPass};
ghost use Rattle.vet_printf.specs.Items.{is_declared, may_name_by, may_name, prints, kinds_of_member, IsKindsCell, AreKindsCells, AreKindsRow, AreKindsRows};
ghost use Rattle.vet_printf.specs.Knowing.{IsKnown};

use crate::kinds::kinds_number;
use crate::known::{Known, is_given, own_place};
use crate::printing::{Printing, is_marked};
use crate::spreads::node_count;
use fact_codec::WrapKind;
use findings::Pass;
use go_tree::{NodeKind, NodeRef, Object};
use gv_base::NoMemory;
use member_names::{Named, named_at};
use package_objects::node_of;
use std::alloc::Global;

fn prints(p: &Pass, known: &Known<'_, '_>, kind: WrapKind, flags: &[bool], m: &Named) -> bool
    requires { IsKnown (unit_in p.now) (marks_in p.now) known.now }
    ensures { result ≡ prints known.now (unit_in p.now) kind flags.now m.now.path m.now.name }
{
    let given = is_given(p, known, kind, m);
    let own = is_marked(flags, own_place(p, known, m));
    given || own
}

fn kinds_of_member(p: &Pass, known: &Known<'_, '_>, x: &Printing, m: &Named) -> u8
    requires { IsKnown (unit_in p.now) (marks_in p.now) known.now }
    ensures { result ≡ kinds_of_member known.now (unit_in p.now) x.now m.now.path m.now.name }
{
    let print = prints(p, known, WrapKind::Print, &x.print, m);
    let printf = prints(p, known, WrapKind::Printf, &x.printf, m);
    let errorf = prints(p, known, WrapKind::Errorf, &x.errorf, m);
    kinds_number(print, printf, errorf)
}

fn is_declared(object: Object) -> bool
    ensures { result ≡ is_declared object }
{
    match object {
        Object::Package(_) => true,
        Object::Universe(_) => false,
        Object::Import(_) => false,
        Object::Local(_) => false,
    }
}

fn denotes_declared(p: &Pass, file: u32, n: u32) -> bool
    requires { IsPass p.now }
    ensures { result ≡ option_map_or is_declared (object_at (unit_in p.now) (place file n)) false }
{
    let at = NodeRef { file, node: n };
    match p.subject.object_at(at) {
        Some(object) => is_declared(object),
        None => false,
    }
}

fn may_name_by(p: &Pass, file: u32, n: u32, kind: NodeKind) -> bool
    requires { IsPass p.now }
    ensures { result ≡ may_name_by (unit_in p.now) file n kind }
{
    match kind {
        NodeKind::Name => denotes_declared(p, file, n),
        NodeKind::Selector => true,
        _ => false,
    }
}

/// Whether a node may name a function or method. Most don't.
fn may_name(p: &Pass, file: u32, n: u32) -> bool
    requires { IsPass p.now }
    ensures { result ≡ may_name (unit_in p.now) file n }
{
    match node_of(p.subject.nodes_at(file), n) {
        Some(node) => may_name_by(p, file, n, node.kind),
        None => false,
    }
}

fn cell_named(
    alloc: Global,
    p: &Pass,
    known: &Known<'_, '_>,
    x: &Printing,
    file: u32,
    n: u32,
) -> Result<u8, NoMemory>
    requires pass { IsPass p.now }
    requires known { IsKnown (unit_in p.now) (marks_in p.now) known.now }
    ensures { IfOk result (IsKindsCell known.now (unit_in p.now) (marks_in p.now) x.now file n) }
{
    let named = named_at(alloc, p, file, n)?;
    match named {
        Some(m) => Ok(kinds_of_member(p, known, x, &m)),
        None => Ok(0),
    }
}

fn kinds_at(
    alloc: Global,
    p: &Pass,
    known: &Known<'_, '_>,
    x: &Printing,
    file: u32,
    n: u32,
) -> Result<u8, NoMemory>
    requires pass { IsPass p.now }
    requires known { IsKnown (unit_in p.now) (marks_in p.now) known.now }
    ensures { IfOk result (IsKindsCell known.now (unit_in p.now) (marks_in p.now) x.now file n) }
{
    if may_name(p, file, n) {
        let kinds = cell_named(alloc, p, known, x, file, n)?;
        return Ok(kinds);
    }
    Ok(0)
}

fn kinds_to(
    alloc: Global,
    p: &Pass,
    known: &Known<'_, '_>,
    x: &Printing,
    file: u32,
    end: usize,
) -> Result<Vec<u8>, NoMemory>
    requires pass { IsPass p.now }
    requires known { IsKnown (unit_in p.now) (marks_in p.now) known.now }
    requires small { end ≤ 2 ^ 32 }
    ensures { IfOk result (λ row. AreKindsCells known.now (unit_in p.now) (marks_in p.now) x.now file end row.items) }
{
    let mut row = Vec::with_capacity(alloc, end)?;
    for n in 0..end {
        let one = kinds_at(alloc, p, known, x, file, n as u32)?;
        row.push(one)?;
    }
    Ok(row)
}

fn kinds_row(
    alloc: Global,
    p: &Pass,
    known: &Known<'_, '_>,
    x: &Printing,
    file: u32,
) -> Result<Vec<u8>, NoMemory>
    requires pass { IsPass p.now }
    requires known { IsKnown (unit_in p.now) (marks_in p.now) known.now }
    ensures { IfOk result (AreKindsRow known.now (unit_in p.now) (marks_in p.now) x.now file) }
{
    let row = kinds_to(alloc, p, known, x, file, node_count(p, file))?;
    Ok(row)
}

/// For each node of each file in which ways the function or method that it names prints.
pub(crate) fn kinds_rows(
    alloc: Global,
    p: &Pass,
    known: &Known<'_, '_>,
    x: &Printing,
) -> Result<Vec<Vec<u8>>, NoMemory>
    requires pass { IsPass p.now }
    requires known { IsKnown (unit_in p.now) (marks_in p.now) known.now }
    ensures { IfOk result (λ rows. AreKindsRows known.now (unit_in p.now) (marks_in p.now) x.now rows.items) }
{
    let mut rows = Vec::new(alloc);
    for file in 0..p.subject.trees.len() {
        let row = kinds_row(alloc, p, known, x, file as u32)?;
        rows.push(row)?;
    }
    Ok(rows)
}
