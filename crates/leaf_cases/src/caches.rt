//! Caches: whole inputs told apart, and the text of a cache.
use crate::spelled::Reading;
use crate::told::{add_comma, number, said, unread};
use bundles::bytes_of;
use fact_cache::{Cache, Input, Key};
use gv_base::{Bytes, NoMemory, Row};
use std::alloc::Global;

/// A cache that these bytes spell. What it holds isn't told here.
pub fn read(alloc: Global, bytes: &[u8]) -> Result<Option<Reading>, NoMemory> {
    let Some(cache) = Cache::decode(alloc, Key::KNOWN, bytes)? else {
        return Ok(None);
    };
    let again = cache.encode()?;
    let again = again.as_slice().to_vec(alloc)?;
    let says = said(alloc, "a cache")?;
    Ok(Some(Reading { says, again }))
}

/// The input of `NODE TEXT ..`.
fn input_of(alloc: Global, words: &str) -> Result<Input, NoMemory> {
    let mut pieces = words.split(' ');
    let node = (number(pieces.next().unwrap_or("")) % 256) as u8;
    let mut row = Vec::new(alloc);
    for word in pieces {
        row.push(Bytes::new(bytes_of(alloc, word)?))?;
    }
    let texts = Row::new(row);
    Ok(Input { node, texts })
}

/// Adds the outcome that an input has, or `new`.
fn add_found(out: &mut Vec<u8>, cache: &Cache, input: &Input) -> Result<(), NoMemory> {
    add_comma(out)?;
    match cache.find(input) {
        Some(found) => out.extend_from_slice(found)?,
        None => out.extend_from_slice(b"new")?,
    }
    Ok(())
}

/// Puts an input with its outcome, where it isn't found.
fn put(alloc: Global, cache: &mut Cache, input: Input, own: &str) -> Result<(), NoMemory> {
    let outcome = Bytes::of(alloc, own.as_bytes())?;
    if cache.find(&input).is_none() {
        cache.put(input, outcome)?;
    }
    Ok(())
}

/// Enters each of `INPUT > OUTCOME, ..` in turn.
fn fill(alloc: Global, out: &mut Vec<u8>, cache: &mut Cache, items: &str) -> Result<(), NoMemory> {
    for item in items.split(", ") {
        let (words, own) = item.split_once(" > ").unwrap_or((item, ""));
        let input = input_of(alloc, words)?;
        add_found(out, cache, &input)?;
        put(alloc, cache, input, own)?;
    }
    Ok(())
}

/// `INPUT > OUTCOME, ..`: what each finds before it is put.
fn entered(alloc: Global, items: &str) -> Result<Vec<u8>, NoMemory> {
    let mut out = Vec::new(alloc);
    let mut cache = Cache::new(alloc);
    fill(alloc, &mut out, &mut cache, items)?;
    Ok(out)
}

/// `INPUT > OUTCOME, ..`: the text of the cache, and what each finds where it is read again by another key.
fn written(alloc: Global, items: &str) -> Result<Vec<u8>, NoMemory> {
    let mut found = Vec::new(alloc);
    let mut cache = Cache::new(alloc);
    fill(alloc, &mut found, &mut cache, items)?;
    let text = cache.encode()?;
    let key = Key {
        point: 7,
        factor: 9,
    };
    let Some(mut again) = Cache::decode(alloc, key, text.as_slice())? else {
        return unread(alloc);
    };
    let mut out = text.as_slice().to_vec(alloc)?;
    fill(alloc, &mut out, &mut again, items)?;
    Ok(out)
}

/// Puts an input of a shared text and a number.
fn put_numbered(alloc: Global, cache: &mut Cache, number: u32) -> Result<(), NoMemory> {
    let mut row = Vec::new(alloc);
    row.push(Bytes::of(alloc, b"m/p/q")?)?;
    row.push(Bytes::of(alloc, number.to_le_bytes().as_slice())?)?;
    let texts = Row::new(row);
    put(alloc, cache, Input { node: 3, texts }, "")
}

/// `COUNT`: so many inputs are put and the cache is trimmed; how many of the first aren't found, and how many of the others are.
fn trimmed(alloc: Global, input: &str) -> Result<Vec<u8>, NoMemory> {
    let mut cache = Cache::new(alloc);
    for i in 0..number(input) {
        put_numbered(alloc, &mut cache, i)?;
    }
    cache.trim();
    let mut missing = 0u32;
    let mut found = 0u32;
    for i in 0..number(input) {
        let own = i.to_le_bytes();
        let texts: [&[u8]; 2] = [b"m/p/q", &own];
        if cache.find_slices(3, &texts).is_some() {
            found = found.saturating_add(1);
        } else if found == 0 {
            missing = missing.saturating_add(1);
        }
    }
    let text = format!(in alloc; "missing {missing}, found {found}")?;
    said(alloc, text.as_str())
}

/// The answer to the input of a case of this file.
pub fn answer(alloc: Global, name: &str, input: &str) -> Result<Vec<u8>, NoMemory> {
    match name {
        "entered" => entered(alloc, input),
        "trimmed" => trimmed(alloc, input),
        "written" => written(alloc, input),
        _ => unread(alloc),
    }
}
