//! What is kept from one run to the next, in one file.
ghost use Rattle.std.specs.Prelude.{◌≡◌, ℕ, List, Option};
ghost use Rattle.gv_base.specs.Keepers.{Fetches, Stores};
ghost use Rattle.disk.specs.Kept.{keeper_shows};

use crate::device::Disk;
use crate::replacing::replace;
use gv_base::{Denied, Keeper};
use std::alloc::Global;

/// The file that is kept.
const FILE: &str = ".gvet-cache";

/// The most bytes that are kept.
pub const LONGEST: usize = 1_073_741_824;

/// Keeps bytes in the file `.gvet-cache` at the top of a disk. It keeps no more than `LONGEST`
/// bytes: a longer store is denied. Of a longer file that stands there, the first `LONGEST + 1`
/// bytes are fetched.
#[derive(Drop)]
pub struct FileKeeper<D: Disk + Drop> {
    alloc: Global,
    disk: D,
    failed_fetches: u64,
    failed_stores: u64,
}

impl<D: Disk + Drop> FileKeeper<D> {
    /// A keeper on this disk. Nothing has failed.
    pub fn new(alloc: Global, disk: D) -> Self
        ensures disk { result.disk ≡ disk }
        ensures fetches { result.failed_fetches ≡ 0 }
        ensures stores { result.failed_stores ≡ 0 }
    {
        FileKeeper {
            alloc,
            disk,
            failed_fetches: 0,
            failed_stores: 0,
        }
    }

    /// The disk on which it keeps.
    pub fn disk(&self) -> &D
        ensures { result.now ≡ self.now.disk }
    {
        &self.disk
    }
}

impl<D: Disk + Drop> Keeper for FileKeeper<D> {
    ghost view = { λ k. keeper_shows (D.held k.disk) k.failed_fetches k.failed_stores };

    fn fetch(&mut self) -> Result<Option<Vec<u8>>, Denied> {
        match self.disk.read(FILE, LONGEST + 1) {
            Ok(kept) => Ok(kept),
            Err(Denied::Failed) => {
                self.failed_fetches = self.failed_fetches.saturating_add(1);
                Err(Denied::Failed)
            }
            Err(Denied::NoMemory) => Err(Denied::NoMemory),
        }
    }

    fn store(&mut self, bytes: &[u8]) -> Result<(), Denied> {
        if bytes.len() > LONGEST {
            self.failed_stores = self.failed_stores.saturating_add(1);
            return Err(Denied::Failed);
        }
        match replace(self.alloc, &mut self.disk, FILE, bytes) {
            Ok(()) => Ok(()),
            Err(Denied::Failed) => {
                self.failed_stores = self.failed_stores.saturating_add(1);
                Err(Denied::Failed)
            }
            Err(Denied::NoMemory) => Err(Denied::NoMemory),
        }
    }
}
