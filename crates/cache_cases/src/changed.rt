//! Texts that are nearly those of caches.
use fact_cache::{Cache, Input, Key};
use gv_base::{Bytes, NoMemory, Row};
use std::alloc::Global;

/// How many entries the cache has whose text is changed.
const COUNT: u64 = 120;

fn add(alloc: Global, cache: &mut Cache, number: u64) -> Result<(), NoMemory> {
    let own = number.to_be_bytes().as_slice().to_vec(alloc)?;
    let outcome = Bytes::of(alloc, &[(number % 7) as u8])?;
    let path = Bytes::of(alloc, b"m/p")?;
    let mut texts = Vec::new(alloc);
    texts.push(path)?;
    texts.push(Bytes::new(own))?;
    let input = Input {
        node: 1,
        texts: Row::new(texts),
    };
    if cache.find(&input).is_none() {
        cache.put(input, outcome)?;
    }
    Ok(())
}

fn text_of(alloc: Global) -> Result<Vec<u8>, NoMemory> {
    let mut cache = Cache::new(alloc);
    for n in 0..COUNT {
        add(alloc, &mut cache, n)?;
    }
    let text = cache.encode()?;
    let bytes = text.as_slice().to_vec(alloc)?;
    Ok(bytes)
}

/// Whether the bytes are refused, or read as a cache that they spell.
fn is_as_spelled(alloc: Global, bytes: &[u8]) -> Result<bool, NoMemory> {
    let Some(cache) = Cache::decode(alloc, Key::KNOWN, bytes)? else {
        return Ok(true);
    };
    let again = cache.encode()?;
    Ok(again.as_slice() == bytes)
}

fn with_nine(alloc: Global, bytes: &[u8], at: usize) -> Result<Vec<u8>, NoMemory> {
    let mut changed = bytes.to_vec(alloc)?;
    if at < changed.len() {
        changed[at] = b'9';
    }
    Ok(changed)
}

/// Whether each text with one byte changed to `9`, and each front of the text, is refused or read as it is spelled.
pub fn all_return(alloc: Global) -> Result<bool, NoMemory> {
    let text = text_of(alloc)?;
    for at in 0..text.len() {
        let changed = with_nine(alloc, &text, at)?;
        if !is_as_spelled(alloc, &changed)? {
            return Ok(false);
        }
        let Some(front) = text.get(..at) else {
            return Ok(false);
        };
        if !is_as_spelled(alloc, front)? {
            return Ok(false);
        }
    }
    Ok(true)
}
