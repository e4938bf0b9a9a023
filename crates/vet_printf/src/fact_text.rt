//! The facts of the functions of a package that print.
ghost use Rattle.std.specs.Prelude.{◌≡◌, Some, false, is_some, IfOk, OnOk};
ghost use Rattle.fact_codec.specs.Tables.{fact_of};
ghost use Rattle.findings.specs.Passes.{unit_in, marks_in};
ghost use Rattle.vet_printf.specs.Items.{fact_named, IsAdded, AreFactsOf};
ghost use Rattle.vet_printf.specs.Knowing.{IsKnown};

use crate::known::Known;
use crate::printing::{Printing, kinds_named};
use fact_codec::{FactTable, Wraps};
use findings::Pass;
use gv_base::NoMemory;
use own_functions::nth_text;
use std::alloc::Global;

fn has(table: &FactTable<Wraps>, name: &str) -> bool
    ensures { result ≡ is_some (fact_of table.now name.now) }
{
    table.get(name).is_some()
}

fn put_new(table: &mut FactTable<Wraps>, name: &str, fact: Wraps) -> Result<(), NoMemory>
    requires { is_some (fact_of table.old name.now) ≡ false }
    ensures { OnOk result (IsAdded name.now (Some fact) table.old table.new) }
{
    table.put(name, fact)?;
    Ok(())
}

fn put_text(table: &mut FactTable<Wraps>, name: &str, fact: Wraps) -> Result<(), NoMemory>
    ensures { OnOk result (IsAdded name.now (Some fact) table.old table.new) }
{
    if has(table, name) {
        return Ok(());
    }
    put_new(table, name, fact)?;
    Ok(())
}

fn put_some(table: &mut FactTable<Wraps>, name: &str, fact: Option<Wraps>) -> Result<(), NoMemory>
    ensures { OnOk result (IsAdded name.now fact table.old table.new) }
{
    match fact {
        Some(fact) => {
            put_text(table, name, fact)?;
            Ok(())
        }
        None => Ok(()),
    }
}

fn fact_named(p: &Pass, known: &Known<'_, '_>, x: &Printing, name: &[u8]) -> Option<Wraps>
    requires { IsKnown (unit_in p.now) (marks_in p.now) known.now }
    ensures { result ≡ fact_named (unit_in p.now) x.now name.now }
{
    Wraps::of_number(kinds_named(p, known, x, name) as u64)
}

/// The names of the functions that print, each with its kinds.
pub(crate) fn table_of(
    alloc: Global,
    p: &Pass,
    known: &Known<'_, '_>,
    x: &Printing,
) -> Result<FactTable<Wraps>, NoMemory>
    requires { IsKnown (unit_in p.now) (marks_in p.now) known.now }
    ensures { IfOk result (AreFactsOf (unit_in p.now) x.now) }
{
    let mut table = FactTable::new(alloc);
    for i in 0..known.list.len() {
        let name = nth_text(p, known.list, i);
        let fact = fact_named(p, known, x, name.as_bytes());
        put_some(&mut table, name, fact)?;
    }
    Ok(table)
}
