//! How answers are told.
use gv_base::NoMemory;
use std::alloc::Global;

/// A text as bytes.
pub fn said(alloc: Global, text: &str) -> Result<Vec<u8>, NoMemory> {
    let bytes = text.as_bytes().to_vec(alloc)?;
    Ok(bytes)
}

/// What is answered to an input that isn't of its form.
pub fn unread(alloc: Global) -> Result<Vec<u8>, NoMemory> {
    said(alloc, "UNREAD")
}

/// Adds a text.
pub fn add(out: &mut Vec<u8>, text: &str) -> Result<(), NoMemory> {
    out.extend_from_slice(text.as_bytes())?;
    Ok(())
}

/// The number of a word; the greatest one where it is none.
pub fn number(word: &str) -> u32 {
    word.parse::<u32>().unwrap_or(u32::MAX)
}
