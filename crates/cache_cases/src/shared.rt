//! Many entries over one long text.
use fact_cache::{Cache, Key};
use gv_base::NoMemory;
use gv_bytes::{put_num, put_text};
use std::alloc::Global;

/// How many entries there are.
const COUNT: u64 = 65_536;

/// How many bytes the text has that all of them share.
const SIZE: usize = 1_048_576;

fn long_text(alloc: Global) -> Result<Vec<u8>, NoMemory> {
    let mut text = Vec::new(alloc);
    for _n in 0..SIZE {
        text.push(b'x')?;
    }
    Ok(text)
}

fn put_texts(alloc: Global, out: &mut Vec<u8>) -> Result<(), NoMemory> {
    put_num(out, COUNT as i128 + 2)?;
    put_text(out, &long_text(alloc)?)?;
    for n in 0..COUNT {
        put_text(out, &n.to_be_bytes())?;
        if n == 0 {
            put_text(out, b"!")?;
        }
    }
    Ok(())
}

fn put_entries(out: &mut Vec<u8>) -> Result<(), NoMemory> {
    put_num(out, COUNT as i128)?;
    for n in 0..COUNT {
        put_num(out, 0)?;
        put_num(out, 2)?;
        put_num(out, 0)?;
        put_num(out, if n == 0 { 1 } else { n as i128 + 2 })?;
        put_num(out, 2)?;
    }
    Ok(())
}

/// The text of entries of node 0, each over the shared text and a number of its own, which all gave `!`.
fn text_of(alloc: Global) -> Result<Vec<u8>, NoMemory> {
    let mut out = b"gvcache 1\n".as_slice().to_vec(alloc)?;
    put_texts(alloc, &mut out)?;
    put_entries(&mut out)?;
    Ok(out)
}

/// Whether the text is read as a cache that has the last entry and is written as the same text.
pub fn is_read(alloc: Global) -> Result<bool, NoMemory> {
    let text = text_of(alloc)?;
    let Some(cache) = Cache::decode(alloc, Key::KNOWN, &text)? else {
        return Ok(false);
    };
    let long = long_text(alloc)?;
    let own = 65_535u64.to_be_bytes();
    let texts: [&[u8]; 2] = [&long, &own];
    if cache.find_slices(0, &texts).is_none() {
        return Ok(false);
    }
    let again = cache.encode()?;
    Ok(again.as_slice() == text.as_slice())
}
