//! Numbers and texts as fields: what is read at the front, how many bytes it takes, and how it is written.
use crate::told::{said, unread};
use bundles::bytes_of;
use gv_base::NoMemory;
use gv_bytes::{put_num, put_text, split_natural, take_num, take_text};
use std::alloc::Global;

/// The number at the front.
fn numbers(alloc: Global, bytes: &[u8]) -> Result<Vec<u8>, NoMemory> {
    let Some((n, used)) = take_num(bytes) else {
        return said(alloc, "none");
    };
    let text = format!(in alloc; "{n} {used} ")?;
    let mut out = said(alloc, text.as_str())?;
    put_num(&mut out, n)?;
    Ok(out)
}

/// The text at the front.
fn texts(alloc: Global, bytes: &[u8]) -> Result<Vec<u8>, NoMemory> {
    let Some((text, used)) = take_text(bytes) else {
        return said(alloc, "none");
    };
    let digits = format!(in alloc; "{used} ")?;
    let mut out = said(alloc, digits.as_str())?;
    put_text(&mut out, text)?;
    out.push(b' ')?;
    out.extend_from_slice(text)?;
    Ok(out)
}

/// A number up to 17 at the front, and what stands behind it.
fn naturals(alloc: Global, bytes: &[u8]) -> Result<Vec<u8>, NoMemory> {
    let Some((n, rest)) = split_natural(bytes, 17) else {
        return said(alloc, "none");
    };
    let text = format!(in alloc; "{n} ")?;
    let mut out = said(alloc, text.as_str())?;
    out.extend_from_slice(rest)?;
    Ok(out)
}

/// The words, written one behind the other.
fn written(alloc: Global, input: &str) -> Result<Vec<u8>, NoMemory> {
    let mut out = Vec::new(alloc);
    for word in input.split(' ') {
        put_text(&mut out, word.as_bytes())?;
    }
    Ok(out)
}

/// The answer to the input of a case of this file.
pub fn answer(alloc: Global, name: &str, input: &str) -> Result<Vec<u8>, NoMemory> {
    let bytes = bytes_of(alloc, input)?;
    match name {
        "naturals" => naturals(alloc, &bytes),
        "numbers" => numbers(alloc, &bytes),
        "texts" => texts(alloc, &bytes),
        "written" => written(alloc, input),
        _ => unread(alloc),
    }
}
