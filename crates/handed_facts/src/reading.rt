//! Facts are read from their texts.
ghost use Rattle.std.specs.Prelude.{◌<◌, length, IfOk};
ghost use Rattle.handed_facts.specs.Handed.{TellsFacts, IsNthTold, AreToldBy};

use fact_codec::{FactKind, FactTable};
use gv_base::{Bytes, NoMemory, Text};
use std::alloc::Global;

/// What a text tells.
fn told<F: FactKind>(alloc: Global, text: &[u8]) -> Result<FactTable<F>, NoMemory>
    ensures { IfOk result (λ table. TellsFacts F.spelling text.now table) }
{
    let read = FactTable::<F>::read(alloc, text)?;
    match read {
        Some(table) => Ok(table),
        None => Ok(FactTable::new(alloc)),
    }
}

fn nth_told<F: FactKind>(
    alloc: Global,
    given: &[(Text, Bytes)],
    i: usize,
) -> Result<FactTable<F>, NoMemory>
    requires { i < length given.now }
    ensures { IfOk result (λ table. IsNthTold F.spelling given.now i table) }
{
    let table = told::<F>(alloc, given[i].1.as_slice())?;
    Ok(table)
}

/// What the texts tell, each in turn.
pub fn tables_told<F: FactKind>(
    alloc: Global,
    given: &[(Text, Bytes)],
) -> Result<Vec<FactTable<F>>, NoMemory>
    ensures { IfOk result (λ tables. AreToldBy F.spelling given.now tables.items) }
{
    let mut tables = Vec::new(alloc);
    for i in 0..given.len() {
        let table = nth_told::<F>(alloc, given, i)?;
        tables.push(table)?;
    }
    Ok(tables)
}
