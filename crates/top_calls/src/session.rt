//! Where a session stands, and the bytes that it holds.
ghost use Rattle.std.specs.Prelude.{◌≡◌, ◌+◌, ◌^◌, ◌≤◌, drop, length, [], ℕ, List, Option};

use crate::desk::Desk;
use crate::pending::Pending;
use fact_cache::Cache;
use std::alloc::Global;

/// The desk, and the bytes of the script that were taken and not yet answered.
#[derive(Drop)]
pub struct Session {
    pub desk: Desk,
    pub pending: Pending,
    /// How many bytes of the script are answered.
    pub offset: usize,
    ghost within: { offset + length pending ≤ 2 ^ 28 },
}

impl Session {
    ghost use Rattle.top_calls.specs.Desk.{IsReady, standing_of};
    ghost use Rattle.top_calls.specs.Standing.{start_at};

    /// A session that has taken nothing, over a cache.
    pub fn new(alloc: Global, cache: Cache) -> Self
        ensures standing { (kept : Option (List ℕ)) → standing_of result.desk 0 0 kept ≡ start_at [] cache kept }
        ensures ready { IsReady result.desk }
        ensures pending { result.pending ≡ [] }
        ensures offset { result.offset ≡ 0 }
    {
        Session {
            desk: Desk::new(alloc, cache),
            pending: Pending::new(alloc),
            offset: 0,
        }
    }

    /// Passes over bytes that are answered.
    pub fn skip(&mut self, count: usize)
        requires { count ≤ length self.old.pending }
        ensures desk { self.new.desk ≡ self.old.desk }
        ensures pending { self.new.pending ≡ drop count self.old.pending }
        ensures offset { self.new.offset ≡ self.old.offset + count }
    {
        self.pending.skip(count);
        self.offset += count;
    }
}
