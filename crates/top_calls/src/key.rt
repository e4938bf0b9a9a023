//! The key of a session's cache.
use fact_cache::Key;
use std::io;
use std::random::RandomSource;

/// Two numbers from the source.
fn drawn<R: RandomSource>(rt: &R) -> io::Result<Key> {
    let mut point = [0; 8];
    rt.fill_bytes(&mut point)?;
    let mut factor = [0; 8];
    rt.fill_bytes(&mut factor)?;
    Ok(Key {
        point: u64::from_le_bytes(point),
        factor: u64::from_le_bytes(factor),
    })
}

/// A key that nobody else knows, so that no tree can be made to share heads of the cache's indexes; the known one
/// where the source gives nothing. No answer depends on it, and no clause speaks of it.
pub fn key_of<R: RandomSource>(rt: &R) -> Key {
    match drawn(rt) {
        Ok(key) => key,
        Err(_) => Key::KNOWN,
    }
}
