//! A cache read from its text.
ghost use Rattle.std.specs.Prelude.{◌≡◌, ◌<◌, [], ℕ, List, Some, IfOk, IfSome, IfNone, length, map};
ghost use Rattle.std.specs.List.{flat_map};
ghost use Rattle.fact_cache.specs.declared.list.Entry.{Entry};
ghost use Rattle.fact_cache.specs.Kept.{text_at};
ghost use Rattle.fact_cache.specs.Caches.{AreDistinct};
ghost use Rattle.fact_cache.specs.CacheTexts.{CacheSpelled};
ghost use Rattle.fact_cache.specs.Numbered.{numbers_of, IsCache};
ghost use Rattle.fact_cache.specs.Coded.{decoded, AreApart, IsInOrder, AreCoded};
ghost use Rattle.fact_cache.specs.Placed.{AreBelow};

use crate::coded::read_coded;
use crate::index::Index;
use crate::kept::Kept;
use crate::list::Cache;
use crate::numbered::{Numbered, free_all};
use crate::order::is_in_order;
use crate::restore::{hold_texts, put_rows};
use crate::spread::Key;
use gv_base::NoMemory;
use gv_bytes::Unread;
use std::alloc::Global;
use std::collections::VecDeque;

/// The cache of rows whose numbers lead to held places; none where two rows have one input.
fn put_all(
    alloc: Global,
    key: Key,
    held: Kept,
    places: &[usize],
    coded: &[Numbered],
) -> Result<Option<Cache>, NoMemory>
    requires cache { IsCache key places.now held [] [] }
    requires below { AreBelow (length places.now) (flat_map numbers_of coded.now) }
    ensures some { IfOk result (λ o. IfSome o (λ cache. (cache ≡ map (decoded (map (text_at held) places.now)) coded.now) × AreDistinct (map (decoded (map (text_at held) places.now)) coded.now))) }
    ensures none { IfOk result (λ o. IfNone o (AreDistinct (map (decoded (map (text_at held) places.now)) coded.now) → ⊥)) }
{
    let mut kept = held;
    let mut index = Index::new(alloc);
    let mut rows = VecDeque::new(alloc);
    let fresh = put_rows(alloc, key, &mut kept, &mut index, &mut rows, places, coded)?;
    if !fresh {
        return Ok(None);
    }
    free_all(&mut kept, places);
    Ok(Some(Cache {
        alloc,
        key,
        kept,
        index,
        rows,
    }))
}

/// The cache of these texts and rows; none where two texts are equal, or two inputs.
fn restore(
    alloc: Global,
    key: Key,
    texts: &[&[u8]],
    coded: &[Numbered],
) -> Result<Option<Cache>, NoMemory>
    requires order { IsInOrder (map (λ t. t.now) texts.now) coded.now }
    ensures some { IfOk result (λ o. IfSome o (λ cache. AreCoded (map (λ t. t.now) texts.now) coded.now × (cache ≡ map (decoded (map (λ t. t.now) texts.now)) coded.now))) }
    ensures none { IfOk result (λ o. IfNone o (AreCoded (map (λ t. t.now) texts.now) coded.now → ⊥)) }
{
    let mut kept = Kept::new(alloc);
    let mut places = Vec::new(alloc);
    let apart = hold_texts(key, &mut kept, &mut places, texts)?;
    if !apart {
        return Ok(None);
    }
    let cache = put_all(alloc, key, kept, &places, coded)?;
    Ok(cache)
}

fn count_of(texts: &[&[u8]]) -> usize
    ensures { result ≡ length (map (λ t. t.now) texts.now) }
{
    texts.len()
}

/// The cache of these texts and rows; none where they are those of no cache.
fn restore_coded(
    alloc: Global,
    key: Key,
    texts: &[&[u8]],
    coded: &[Numbered],
) -> Result<Option<Cache>, NoMemory>
    ensures some { IfOk result (λ o. IfSome o (λ cache. AreCoded (map (λ t. t.now) texts.now) coded.now × (cache ≡ map (decoded (map (λ t. t.now) texts.now)) coded.now))) }
    ensures none { IfOk result (λ o. IfNone o (AreCoded (map (λ t. t.now) texts.now) coded.now → ⊥)) }
{
    let count = count_of(texts);
    if !is_in_order(count, coded) {
        return Ok(None);
    }
    let cache = restore(alloc, key, texts, coded)?;
    Ok(cache)
}

impl Cache {
    /// The cache that all of the bytes spell, whose texts will be spread by this key. `None` exactly where they
    /// spell none: another front, a field that is no number or text, a text out of the order of first mentions,
    /// that no entry mentions, or twice, an input twice, bytes behind the end. Room is made for what is there,
    /// whatever a count says.
    pub fn decode(alloc: Global, key: Key, bytes: &[u8]) -> Result<Option<Cache>, NoMemory>
        // What is read is spelled so.
        ensures spelled { IfOk result (λ o. IfSome o (λ cache. CacheSpelled cache bytes.now)) }
        // What is spelled so is read.
        ensures only { (es : List Entry) → CacheSpelled es bytes.now → IfOk result (λ o. o ≡ Some es) }
    {
        let _size = bytes.len();
        match read_coded(alloc, bytes) {
            Err(Unread::Memory) => Err(NoMemory),
            Err(Unread::Unspelled) => Ok(None),
            Ok((texts, rows)) => {
                let cache = restore_coded(alloc, key, &texts, &rows)?;
                Ok(cache)
            }
        }
    }
}
