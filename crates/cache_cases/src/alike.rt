//! Entries whose texts begin alike.
use fact_cache::{Cache, Input};
use gv_base::{Bytes, NoMemory, Row};
use std::alloc::Global;

const FRONT: [u8; 16] = *b"package p\n\nimpor";

/// The 24 bytes of a number: the front, and the number.
fn own_text(alloc: Global, number: u64) -> Result<Vec<u8>, NoMemory> {
    let mut own = FRONT.as_slice().to_vec(alloc)?;
    own.extend_from_slice(&number.to_be_bytes())?;
    Ok(own)
}

/// Puts an entry, if there is none of its input.
fn add(alloc: Global, cache: &mut Cache, number: u64) -> Result<(), NoMemory> {
    let own = own_text(alloc, number)?;
    let outcome = Bytes::of(alloc, b"!")?;
    let path = Bytes::of(alloc, b"m/p")?;
    let mut texts = Vec::new(alloc);
    texts.push(path)?;
    texts.push(Bytes::new(own))?;
    let input = Input {
        node: 3,
        texts: Row::new(texts),
    };
    if cache.find(&input).is_none() {
        cache.put(input, outcome)?;
    }
    Ok(())
}

fn is_found(alloc: Global, cache: &Cache, number: u64) -> Result<bool, NoMemory> {
    let own = own_text(alloc, number)?;
    let texts: [&[u8]; 2] = [b"m/p", &own];
    Ok(cache.find_slices(3, &texts).is_some())
}

/// Whether of 100,000 such entries exactly the last 65,536 are found after `trim`.
pub fn are_found(alloc: Global) -> Result<bool, NoMemory> {
    let mut cache = Cache::new(alloc);
    for n in 0..100_000 {
        add(alloc, &mut cache, n)?;
    }
    cache.trim();
    for n in 0..100_000 {
        let found = is_found(alloc, &cache, n)?;
        if found != (n >= 34_464) {
            return Ok(false);
        }
    }
    Ok(true)
}
