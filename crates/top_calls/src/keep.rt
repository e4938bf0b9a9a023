//! The keeper at the beginning of a call and after a run.
ghost use Rattle.std.specs.Prelude.{◌≡◌, ◌<◌, ◌^◌, Err, IfOk, OnErr, Some, length, true};
ghost use Rattle.folder.specs.Folders.{OnlyWhereRose};
ghost use Rattle.top_calls.specs.Desk.{FailsToKeep, Finds, HoldsText};
ghost use Rattle.top_calls.specs.Ends.{may, Fetching};
ghost use Rattle.top_calls.specs.Headline.{keeper_faults};
ghost use Rattle.top_calls.specs.declared.stop.Cut.{Cut as Causes};

use crate::stop::Cut;
use fact_cache::{Cache, Key};
use gv_base::{Denied, Keeper};
use std::alloc::Global;
use tree_runs::{read_text, text_of};

/// Stores the text of the cache.
pub(crate) fn keep<K: Keeper>(cache: &Cache, keeper: &mut K) -> Result<(), Cut>
    ensures kept { IfOk result (λ done. HoldsText cache.now (K.view keeper.new).kept) }
    ensures failed { (cut : Causes) → result ≡ Err cut → FailsToKeep cache.now (K.view keeper.old).kept (K.view keeper.new).kept cut }
    ensures fault { OnlyWhereRose (keeper_faults (K.view keeper.old)) (keeper_faults (K.view keeper.new)) (result ≡ Err Cut.Keeper) }
{
    match text_of(cache) {
        Err(_) => Err(Cut::Memory),
        Ok(text) => match keeper.store(text.as_slice()) {
            Ok(()) => Ok(()),
            Err(Denied::Failed) => Err(Cut::Keeper),
            Err(Denied::NoMemory) => Err(Cut::Memory),
        },
    }
}

/// A cache, and whether bytes were found that spell none.
#[derive(Drop)]
pub struct Opening {
    pub cache: Cache,
    pub ignored: bool,
}

/// How many bytes there are: fewer than an address counts.
fn count_of(bytes: &[u8]) -> usize
    ensures count { result ≡ length bytes.now }
    ensures small { length bytes.now < 2 ^ 64 }
{
    bytes.len()
}

/// The cache that these bytes spell, or an empty one.
fn read_cache(alloc: Global, key: Key, bytes: &[u8]) -> Result<Opening, Cut>
    ensures finds { IfOk result (λ opening. Finds (Some (Some bytes.now)) opening.cache opening.ignored) }
    ensures cut { OnErr result (result ≡ Err Cut.Memory) }
{
    let _count = count_of(bytes);
    match read_text(alloc, key, bytes) {
        Err(_) => Err(Cut::Memory),
        Ok(Some(cache)) => Ok(Opening {
            cache,
            ignored: false,
        }),
        Ok(None) => Ok(Opening {
            cache: Cache::with_key(alloc, key),
            ignored: true,
        }),
    }
}

/// Fetches the cache.
pub(crate) fn open<K: Keeper>(alloc: Global, key: Key, keeper: &mut K) -> Result<Opening, Cut>
    ensures kept { (K.view keeper.new).kept ≡ (K.view keeper.old).kept }
    ensures finds { IfOk result (λ opening. Finds (K.view keeper.old).kept opening.cache opening.ignored) }
    ensures failed { (cut : Causes) → result ≡ Err cut → may cut Fetching ≡ true }
    ensures fault { OnlyWhereRose (keeper_faults (K.view keeper.old)) (keeper_faults (K.view keeper.new)) (result ≡ Err Cut.Keeper) }
{
    match keeper.fetch() {
        Err(Denied::Failed) => Err(Cut::Keeper),
        Err(Denied::NoMemory) => Err(Cut::Memory),
        Ok(None) => Ok(Opening {
            cache: Cache::with_key(alloc, key),
            ignored: false,
        }),
        Ok(Some(bytes)) => read_cache(alloc, key, bytes.as_slice()),
    }
}
