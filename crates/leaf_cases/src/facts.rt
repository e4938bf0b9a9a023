//! Facts and their tables.
use crate::spelled::Reading;
use crate::told::{add, said, unread};
use bundles::bytes_of;
use fact_codec::{FactKind, FactTable, Never, NoFact, WrapKind, Wraps};
use gv_base::NoMemory;
use std::alloc::Global;

/// A table: each name, `=` and how its fact is spelled.
pub fn table<F: FactKind>(alloc: Global, bytes: &[u8]) -> Result<Option<Reading>, NoMemory> {
    let Some(table) = FactTable::<F>::read(alloc, bytes)? else {
        return Ok(None);
    };
    let again = table.write()?;
    let mut says = Vec::new(alloc);
    for i in 0..table.count() {
        let (name, fact) = table.at(i);
        add(&mut says, name)?;
        says.push(b'=')?;
        fact.encode(&mut says)?;
        says.push(b' ')?;
    }
    Ok(Some(Reading { says, again }))
}

/// `TEXT`: how many bytes the fact at the front takes, and how it is spelled.
fn one<F: FactKind>(alloc: Global, input: &str) -> Result<Vec<u8>, NoMemory> {
    let bytes = bytes_of(alloc, input)?;
    let Some((fact, used)) = F::decode(&bytes) else {
        return said(alloc, "none");
    };
    let text = format!(in alloc; "{used} ")?;
    let mut out = said(alloc, text.as_str())?;
    fact.encode(&mut out)?;
    Ok(out)
}

/// Adds a fact where the name has none, and tells whether it had none.
fn enter(table: &mut FactTable<Never>, name: &str) -> Result<bool, NoMemory> {
    if table.get(name).is_some() {
        return Ok(false);
    }
    table.put(name, Never)?;
    Ok(true)
}

/// `NAME ..`: which of the names had no fact yet, and the text of the table.
fn entered(alloc: Global, input: &str) -> Result<Vec<u8>, NoMemory> {
    let mut out = Vec::new(alloc);
    let mut table = FactTable::new(alloc);
    for name in input.split(' ') {
        let is_new = enter(&mut table, name)?;
        add(&mut out, if is_new { "new " } else { "old " })?;
    }
    let text = table.write()?;
    out.extend_from_slice(text.as_slice())?;
    Ok(out)
}

/// `NUMBER`: the kinds of this number, each kind that is among them with what it is alone.
fn kinds(alloc: Global, input: &str) -> Result<Vec<u8>, NoMemory> {
    let Some(wraps) = Wraps::of_number(input.parse::<u64>().unwrap_or(u64::MAX)) else {
        return said(alloc, "none");
    };
    let text = format!(in alloc; "{} {wraps:?} {}", wraps.number(), wraps.text())?;
    let mut out = said(alloc, text.as_str())?;
    for kind in [WrapKind::Print, WrapKind::Printf, WrapKind::Errorf] {
        if wraps.has(kind) {
            let text = format!(in alloc; ", {} {:?}", kind.text(), Wraps::of_kind(kind))?;
            add(&mut out, text.as_str())?;
        }
    }
    Ok(out)
}

/// The answer to the input of a case of this file.
pub fn answer(alloc: Global, name: &str, input: &str) -> Result<Vec<u8>, NoMemory> {
    match name {
        "entered" => entered(alloc, input),
        "kinds" => kinds(alloc, input),
        "one_never" => one::<Never>(alloc, input),
        "one_none" => one::<NoFact>(alloc, input),
        "one_wraps" => one::<Wraps>(alloc, input),
        _ => unread(alloc),
    }
}
