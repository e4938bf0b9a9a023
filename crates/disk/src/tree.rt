//! A tree of files on a disk.
ghost use Rattle.std.specs.Prelude.{◌≡◌, ℕ, List, Option, Some, IfOk, map, string_bytes};
ghost use Rattle.gv_base.specs.Paths.{IsPath};
ghost use Rattle.gv_base.specs.Trees.{Lists, ReadsFile, WritesFile};
ghost use Rattle.disk.specs.Held.{IsFrontOf, Tells, Replaces};
ghost use Rattle.disk.specs.Kept.{tree_shows};
ghost use Rattle.disk.specs.Listings.{TellsListing};

use crate::device::Disk;
use crate::listing::list_below;
use crate::replacing::replace;
use gv_base::{Denied, Tree};
use std::alloc::Global;

/// The files below the top of a disk: `go.mod` and the source files. To its callers it tells nothing
/// of what it holds; where its disk tells, what a call does is said beside.
#[derive(Drop)]
pub struct DirTree<D: Disk + Drop> {
    alloc: Global,
    disk: D,
    faults: u64,
}

impl<D: Disk + Drop> DirTree<D> {
    /// A tree on this disk. Nothing has failed.
    pub fn new(alloc: Global, disk: D) -> Self
        ensures disk { result.disk ≡ disk }
        ensures faults { result.faults ≡ 0 }
    {
        DirTree {
            alloc,
            disk,
            faults: 0,
        }
    }

    /// The disk on which it stands.
    pub fn disk(&self) -> &D
        ensures { result.now ≡ self.now.disk }
    {
        &self.disk
    }

    /// How often a call has failed.
    pub fn faults(&self) -> u64
        ensures { result ≡ self.now.faults }
    {
        self.faults
    }
}

impl<D: Disk + Drop> Tree for DirTree<D> {
    ghost view = { λ t. tree_shows t.faults };

    /// `go.mod` and the source files, in byte order of their paths, each once.
    fn list(&mut self) -> Result<Vec<String>, Denied>
        ensures lists { Lists (tree_shows self.old.faults) (tree_shows self.new.faults) result }
        ensures listed { IfOk result (λ list. TellsListing (D.slots self.old.disk) (map string_bytes list.items)) }
        ensures slots { D.slots self.new.disk ≡ D.slots self.old.disk }
        ensures held { D.held self.new.disk ≡ D.held self.old.disk }
    {
        match list_below(self.alloc, &mut self.disk) {
            Ok(list) => Ok(list),
            Err(Denied::Failed) => {
                self.faults = self.faults.saturating_add(1);
                Err(Denied::Failed)
            }
            Err(Denied::NoMemory) => Err(Denied::NoMemory),
        }
    }

    /// The first `most` bytes of a file. One that isn't there any more is a fault.
    fn read(&mut self, path: &str, most: usize) -> Result<Vec<u8>, Denied>
        ensures reads { ReadsFile (tree_shows self.old.faults) (tree_shows self.new.faults) path.now most result }
        ensures front { IfOk result (λ bytes. IsFrontOf (D.held self.old.disk) path.now most (Some bytes.items)) }
        ensures slots { D.slots self.new.disk ≡ D.slots self.old.disk }
        ensures held { D.held self.new.disk ≡ D.held self.old.disk }
    {
        match self.disk.read(path, most) {
            Ok(Some(bytes)) => Ok(bytes),
            Ok(None) => {
                self.faults = self.faults.saturating_add(1);
                Err(Denied::Failed)
            }
            Err(Denied::Failed) => {
                self.faults = self.faults.saturating_add(1);
                Err(Denied::Failed)
            }
            Err(Denied::NoMemory) => Err(Denied::NoMemory),
        }
    }

    /// Replaces a file, so that a crash leaves its old or its new bytes.
    fn write(&mut self, path: &str, bytes: &[u8]) -> Result<(), Denied>
        requires { IsPath path.now }
        ensures writes { WritesFile (tree_shows self.old.faults) (tree_shows self.new.faults) path.now bytes.now result }
        ensures slots { D.slots self.new.disk ≡ D.slots self.old.disk }
        ensures held { Tells (D.held self.old.disk) (D.held self.new.disk) (Replaces path.now bytes.now result) }
    {
        match replace(self.alloc, &mut self.disk, path, bytes) {
            Ok(()) => Ok(()),
            Err(Denied::Failed) => {
                self.faults = self.faults.saturating_add(1);
                Err(Denied::Failed)
            }
            Err(Denied::NoMemory) => Err(Denied::NoMemory),
        }
    }
}
