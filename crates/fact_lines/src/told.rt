//! What the texts of facts tell.
ghost use Rattle.std.specs.Prelude.{◌≡◌, [], map, IfOk};
ghost use Rattle.fact_codec.specs.Kinds.{wraps_at};
ghost use Rattle.fact_codec.specs.Texts.{table_in};
ghost use Rattle.fact_lines.specs.Told.{never_at, never_line, never_told, wraps_line, wraps_told, facts_told};

use fact_codec::{FactTable, Never, Wraps};
use gv_base::{Bytes, NoMemory};
use std::alloc::Global;

/// What is told of a function that never returns.
fn never_line(alloc: Global, name: &str) -> Result<Bytes, NoMemory>
    ensures { IfOk result (λ line. line ≡ never_line name.now) }
{
    let mut out = Vec::new(alloc);
    out.extend_from_slice(name.as_bytes())?;
    out.extend_from_slice(b" never returns")?;
    Ok(Bytes::new(out))
}

/// What is told of a function that prints what it is given.
fn wraps_line(alloc: Global, name: &str, wraps: Wraps) -> Result<Bytes, NoMemory>
    ensures { IfOk result (λ line. line ≡ wraps_line name.now wraps) }
{
    let mut out = Vec::new(alloc);
    out.extend_from_slice(name.as_bytes())?;
    out.push(b' ')?;
    out.extend_from_slice(wraps.text().as_bytes())?;
    Ok(Bytes::new(out))
}

/// The facts that these bytes spell, if they spell some.
fn never_table(alloc: Global, text: &[u8]) -> Result<Option<FactTable<Never>>, NoMemory>
    ensures { IfOk result (λ table. table ≡ table_in never_at text.now) }
{
    let table = FactTable::<Never>::read(alloc, text)?;
    Ok(table)
}

fn wraps_table(alloc: Global, text: &[u8]) -> Result<Option<FactTable<Wraps>>, NoMemory>
    ensures { IfOk result (λ table. table ≡ table_in wraps_at text.now) }
{
    let table = FactTable::<Wraps>::read(alloc, text)?;
    Ok(table)
}

/// A line for each function of a table, in its order.
fn never_lines(alloc: Global, table: &FactTable<Never>) -> Result<Vec<Bytes>, NoMemory>
    ensures { IfOk result (λ lines. lines.items ≡ map (λ e. never_line e.0) table.now) }
{
    let mut lines = Vec::new(alloc);
    for i in 0..table.count() {
        let (name, _fact) = table.at(i);
        let line = never_line(alloc, name)?;
        lines.push(line)?;
    }
    Ok(lines)
}

fn wraps_lines(alloc: Global, table: &FactTable<Wraps>) -> Result<Vec<Bytes>, NoMemory>
    ensures { IfOk result (λ lines. lines.items ≡ map (λ e. wraps_line e.0 e.1) table.now) }
{
    let mut lines = Vec::new(alloc);
    for i in 0..table.count() {
        let (name, wraps) = table.at(i);
        let line = wraps_line(alloc, name, *wraps)?;
        lines.push(line)?;
    }
    Ok(lines)
}

/// What the facts of ctrlflow tell; nothing where the bytes spell none.
fn never_told(alloc: Global, text: &[u8]) -> Result<Vec<Bytes>, NoMemory>
    ensures { IfOk result (λ lines. lines.items ≡ never_told text.now) }
{
    let table = never_table(alloc, text)?;
    match table {
        Some(table) => {
            let lines = never_lines(alloc, &table)?;
            Ok(lines)
        }
        None => Ok(Vec::new(alloc)),
    }
}

/// What the facts of printf tell; nothing where the bytes spell none.
fn wraps_told(alloc: Global, text: &[u8]) -> Result<Vec<Bytes>, NoMemory>
    ensures { IfOk result (λ lines. lines.items ≡ wraps_told text.now) }
{
    let table = wraps_table(alloc, text)?;
    match table {
        Some(table) => {
            let lines = wraps_lines(alloc, &table)?;
            Ok(lines)
        }
        None => Ok(Vec::new(alloc)),
    }
}

/// What the facts of the analyzer of this number tell, by the text of a package's: a line a function, in byte order of the names. Bytes that spell no
/// facts tell nothing.
pub fn facts_told(alloc: Global, analyzer: u8, text: &[u8]) -> Result<Vec<Bytes>, NoMemory>
    ensures { IfOk result (λ lines. lines.items ≡ facts_told analyzer text.now) }
{
    if analyzer == 4 {
        let lines = never_told(alloc, text)?;
        return Ok(lines);
    }
    if analyzer == 6 {
        let lines = wraps_told(alloc, text)?;
        return Ok(lines);
    }
    Ok(Vec::new(alloc))
}
