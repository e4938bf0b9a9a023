//! Texts that spell what packages export, facts, findings and caches: what is read of them, which is written as the same bytes.
use crate::told::said;
use crate::{caches, exports, facts, findings};
use bundles::bytes_of;
use fact_codec::{Never, Wraps};
use gv_base::NoMemory;
use std::alloc::Global;

/// What is read of bytes, as it is told, and the bytes as which it is written.
#[derive(Drop)]
pub struct Reading {
    pub says: Vec<u8>,
    pub again: Vec<u8>,
}

/// What is read of bytes that are to spell a thing of this file.
fn read(alloc: Global, name: &str, bytes: &[u8]) -> Result<Option<Reading>, NoMemory> {
    match name {
        "caches" => caches::read(alloc, bytes),
        "exports" => exports::read(alloc, bytes),
        "findings" => findings::read(alloc, bytes),
        "never" => facts::table::<Never>(alloc, bytes),
        "wraps" => facts::table::<Wraps>(alloc, bytes),
        _ => Ok(None),
    }
}

/// What is read, or that nothing is, or that it is written as other bytes.
fn told(alloc: Global, name: &str, bytes: &[u8]) -> Result<Vec<u8>, NoMemory> {
    match read(alloc, name, bytes)? {
        None => said(alloc, "none"),
        Some(read) => {
            if read.again.as_slice() == bytes {
                Ok(read.says)
            } else {
                said(alloc, "WRITTEN AS OTHER BYTES")
            }
        }
    }
}

/// Whether something is read that is written as other bytes.
fn is_misread(alloc: Global, name: &str, bytes: &[u8]) -> Result<bool, NoMemory> {
    match read(alloc, name, bytes)? {
        None => Ok(false),
        Some(read) => Ok(read.again.as_slice() != bytes),
    }
}

/// How many of the texts are misread in which this byte is another.
fn misread_at(alloc: Global, name: &str, bytes: &[u8], at: usize) -> Result<usize, NoMemory> {
    let mut count = 0usize;
    for byte in 0..=255u8 {
        let mut changed = bytes.to_vec(alloc)?;
        if at < changed.len() {
            changed[at] = byte;
        }
        if is_misread(alloc, name, &changed)? {
            count = count.saturating_add(1);
        }
    }
    Ok(count)
}

/// How many fronts of a text are read, and how many texts with one byte changed are misread.
fn changed(alloc: Global, name: &str, bytes: &[u8]) -> Result<Vec<u8>, NoMemory> {
    let mut fronts = 0usize;
    let mut misread = 0usize;
    for at in 0..bytes.len() {
        if read(alloc, name, &bytes[..at])?.is_some() {
            fronts = fronts.saturating_add(1);
        }
        misread = misread.saturating_add(misread_at(alloc, name, bytes, at)?);
    }
    let text = format!(in alloc; "{} bytes, fronts {fronts}, misread {misread}", bytes.len())?;
    said(alloc, text.as_str())
}

/// The answer to the input of a case of this file: `TEXT`, or `FILE TEXT` in `changed`.
pub fn answer(alloc: Global, name: &str, input: &str) -> Result<Vec<u8>, NoMemory> {
    if name == "changed" {
        let (of, text) = input.split_once(" ").unwrap_or((input, ""));
        let bytes = bytes_of(alloc, text)?;
        return changed(alloc, of, &bytes);
    }
    let bytes = bytes_of(alloc, input)?;
    if name == "exported" {
        return exports::exported(alloc, &bytes);
    }
    told(alloc, name, &bytes)
}
