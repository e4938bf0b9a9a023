//! The text of a cache.
ghost use Rattle.std.specs.Prelude.{IfOk, option_map};
ghost use Rattle.tree_runs.specs.Reports.{CacheSpelled, IsDecoded};

use fact_cache::{Cache, Key, each_cache_has_a_text};
use gv_base::{Bytes, NoMemory};
use std::alloc::Global;

/// The text of a cache.
pub fn text_of(cache: &Cache) -> Result<Bytes, NoMemory>
    ensures { IfOk result (λ text. CacheSpelled cache.now text) }
{
    each_cache_has_a_text(cache);
    let text = cache.encode()?;
    Ok(text)
}

/// The cache of this key that the bytes spell.
pub fn read_text(alloc: Global, key: Key, bytes: &[u8]) -> Result<Option<Cache>, NoMemory>
    ensures { IfOk result (λ cache. IsDecoded bytes.now (option_map (λ c. c) cache)) }
{
    let cache = Cache::decode(alloc, key, bytes)?;
    Ok(cache)
}
