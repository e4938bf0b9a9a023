//! What follows from the definitions alone, and what holds of each cache.
ghost use Rattle.std.specs.Prelude.{◌≡◌, ◌<◌, ◌^◌, ℕ, List, length};
ghost use Rattle.fact_cache.specs.declared.list.Entry.{Entry};
ghost use Rattle.fact_cache.specs.CacheTexts.{CacheSpelled, IsCacheValue};

use crate::list::{Cache, height, row_at};
use crate::numbered::Numbered;

/// A text is of one cache.
pub fn one_cache_of_a_text()
    ensures { (c d : List Entry) (bytes : List ℕ) → length bytes < 2 ^ 64 → CacheSpelled c bytes → CacheSpelled d bytes → c ≡ d }
{}

/// The number of a row's node.
fn node_of(row: &Numbered) -> u8
    ensures { result ≡ row.now.node }
{
    row.node
}

/// Each cache is one that has a text.
pub fn each_cache_has_a_text(cache: &Cache)
    ensures { IsCacheValue cache.now }
{
    let count = height(&cache.rows);
    for at in 0..count {
        let _node = node_of(row_at(&cache.rows, at));
    }
}
