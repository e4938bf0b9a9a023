//! How answers are told.
use gv_base::{Const, NoMemory};
use std::alloc::Global;

/// A text as bytes.
pub fn said(alloc: Global, text: &str) -> Result<Vec<u8>, NoMemory> {
    let bytes = text.as_bytes().to_vec(alloc)?;
    Ok(bytes)
}

/// What is answered to an input that isn't of its form.
pub fn unread(alloc: Global) -> Result<Vec<u8>, NoMemory> {
    said(alloc, "UNREAD")
}

/// Adds a text.
pub fn add(out: &mut Vec<u8>, text: &str) -> Result<(), NoMemory> {
    out.extend_from_slice(text.as_bytes())?;
    Ok(())
}

/// Adds what stands between two things.
pub fn add_comma(out: &mut Vec<u8>) -> Result<(), NoMemory> {
    if out.is_empty() {
        return Ok(());
    }
    add(out, ", ")
}

/// Adds a number and a space.
pub fn add_number(alloc: Global, out: &mut Vec<u8>, number: u64) -> Result<(), NoMemory> {
    let text = format!(in alloc; "{number} ")?;
    add(out, text.as_str())
}

/// The number of a word; the greatest one where it is none.
pub fn number(word: &str) -> u32 {
    word.parse::<u32>().unwrap_or(u32::MAX)
}

/// Adds a constant's value: a truth, an integer, or a text behind `'`.
pub fn add_value(alloc: Global, out: &mut Vec<u8>, value: &Const) -> Result<(), NoMemory> {
    match value {
        Const::Truth(true) => add(out, "true"),
        Const::Truth(false) => add(out, "false"),
        Const::Int(n) => add_integer(alloc, out, *n),
        Const::Text(text) => add_text(out, text.bytes()),
    }
}

fn add_integer(alloc: Global, out: &mut Vec<u8>, n: i128) -> Result<(), NoMemory> {
    let text = format!(in alloc; "{n}")?;
    add(out, text.as_str())
}

fn add_text(out: &mut Vec<u8>, text: &[u8]) -> Result<(), NoMemory> {
    out.push(b'\'')?;
    out.extend_from_slice(text)?;
    Ok(())
}
