//! A disk in memory, of which some calls fail.
ghost use Rattle.std.specs.Prelude.{◌≡◌, ◌≢◌, ◌≤◌, ℕ, List, Some, [], IfOk, IfSome, OnOk, OnErr, map, length, take, string_bytes};
ghost use Rattle.std.specs.List.{flat_map};
ghost use Rattle.std.specs.Option.{option_map};
ghost use Rattle.gv_base.specs.Keepers.{bytes_of};
ghost use Rattle.gv_base.specs.Files.{file_at, put_file};
ghost use Rattle.gv_base.specs.Paths.{IsPath};
ghost use Rattle.disk.specs.Folders.{named_of};
ghost use Rattle.disk.specs.Held.{IsMoved, OthersStay, Writes};
ghost use Rattle.disk.specs.Memory.{placed_of, item_in};

use crate::device::{Disk, Item, Kind};
use gv_base::{Denied, Fault, Files, NoMemory};
use std::alloc::Global;

/// A folder, a name that stands in it, and what this names.
#[derive(Drop)]
pub struct Slot {
    pub folder: String,
    pub name: String,
    pub kind: Kind,
}

/// What stands in folders, and files by path, in memory. Some calls fail, those of the listed numbers.
#[derive(Drop)]
pub struct MemDisk {
    alloc: Global,
    slots: Vec<Slot>,
    files: Files,
    calls: u64,
    failing: Vec<Fault>,
}

impl MemDisk {
    /// A disk where this stands in folders, which has no files to read, and in which these calls fail.
    pub fn new(alloc: Global, slots: Vec<Slot>, failing: Vec<Fault>) -> Self
        ensures slots { map placed_of result.slots.items ≡ map placed_of slots.items }
        ensures files { result.files ≡ [] }
    {
        MemDisk {
            alloc,
            slots,
            files: Files::new(alloc),
            calls: 0,
            failing,
        }
    }

    /// Sets a file beforehand: no call of the disk, so it doesn't count as one.
    pub fn put(&mut self, path: &str, bytes: &[u8]) -> Result<(), NoMemory>
        requires { IsPath path.now }
        ensures slots { self.new.slots ≡ self.old.slots }
        ensures put { OnOk result (self.new.files ≡ put_file self.old.files path.now bytes.now) }
        ensures unchanged { OnErr result (self.new.files ≡ self.old.files) }
    {
        self.files.put(path, bytes)
    }

    /// The bytes of the file of a path, if it is held.
    pub fn get(&self, path: &str) -> Option<&[u8]>
        ensures { option_map (λ b. b.now) result ≡ file_at self.now.files path.now }
    {
        self.files.get(path)
    }

    /// The fault at this call, if it is to fail.
    fn next_fault(&mut self) -> Option<Fault>
        ensures slots { self.new.slots ≡ self.old.slots }
        ensures files { self.new.files ≡ self.old.files }
    {
        let call = self.calls;
        self.calls = self.calls.saturating_add(1);
        self.failing
            .iter()
            .copied()
            .find(|fault| fault.call == call)
    }
}

fn make_item(alloc: Global, slot: &Slot) -> Result<Item, NoMemory>
    ensures { IfOk result (λ item. named_of item ≡ (string_bytes slot.now.name, slot.now.kind)) }
{
    let name = String::from_str(alloc, slot.name.as_str())?;
    Ok(Item {
        name,
        kind: slot.kind,
    })
}

/// What stands in a folder.
fn items_in(alloc: Global, slots: &[Slot], folder: &str) -> Result<Vec<Item>, NoMemory>
    ensures { IfOk result (λ items. map named_of items.items ≡ flat_map (item_in folder.now) (map placed_of slots.now)) }
{
    let mut items = Vec::new(alloc);
    for slot in slots {
        if slot.folder.as_str() == folder {
            let item = make_item(alloc, slot)?;
            items.push(item)?;
        }
    }
    Ok(items)
}

/// The first bytes of a file, if there is one.
fn copy_front(alloc: Global, bytes: Option<&[u8]>, most: usize) -> Result<Option<Vec<u8>>, NoMemory>
    ensures short { IfOk result (λ copy. IfSome copy (λ v. length v.items ≤ most)) }
    ensures front { IfOk result (λ copy. bytes_of copy ≡ option_map (λ b. take most b) (option_map (λ b. b.now) bytes.entry)) }
{
    match bytes {
        None => Ok(None),
        Some(bytes) => {
            let count = most.min(bytes.len());
            let copy = bytes[..count].to_vec(alloc)?;
            Ok(Some(copy))
        }
    }
}

fn copy_whole(alloc: Global, bytes: Option<&[u8]>) -> Result<Option<Vec<u8>>, NoMemory>
    ensures { IfOk result (λ copy. bytes_of copy ≡ option_map (λ b. b.now) bytes.entry) }
{
    match bytes {
        None => Ok(None),
        Some(bytes) => {
            let copy = bytes.to_vec(alloc)?;
            Ok(Some(copy))
        }
    }
}

/// Moves a file onto another; what isn't there leaves none.
fn move_file(alloc: Global, files: &mut Files, beside: &str, path: &str) -> Result<(), NoMemory>
    requires path { IsPath path.now }
    requires apart { beside.now ≢ path.now }
    ensures moved { OnOk result (IsMoved beside.now path.now files.old files.new) }
    ensures unchanged { OnErr result (files.new ≡ files.old) }
{
    let bytes = copy_whole(alloc, files.get(beside))?;
    match bytes {
        None => {
            let _there = files.del(path);
        }
        Some(bytes) => {
            files.put(path, bytes.as_slice())?;
            let _there = files.del(beside);
        }
    }
    Ok(())
}

/// Writes half of the bytes.
fn tear(files: &mut Files, path: &str, bytes: &[u8])
    requires { IsPath path.now }
    ensures { OthersStay files.old files.new path.now }
{
    let half = bytes.len() / 2;
    let _written = files.put(path, &bytes[..half]);
}

fn write_file(files: &mut Files, path: &str, bytes: &[u8]) -> Result<(), Denied>
    requires { IsPath path.now }
    ensures { Writes path.now bytes.now result files.old files.new }
{
    match files.put(path, bytes) {
        Ok(()) => Ok(()),
        Err(_) => Err(Denied::NoMemory),
    }
}

impl Disk for MemDisk {
    ghost slots = { λ d. Some (map placed_of d.slots.items) };

    ghost held = { λ d. Some d.files };

    fn items(&mut self, folder: &str) -> Result<Vec<Item>, Denied> {
        if self.next_fault().is_some() {
            return Err(Denied::Failed);
        }
        match items_in(self.alloc, &self.slots, folder) {
            Ok(items) => Ok(items),
            Err(_) => Err(Denied::NoMemory),
        }
    }

    fn read(&mut self, path: &str, most: usize) -> Result<Option<Vec<u8>>, Denied> {
        if self.next_fault().is_some() {
            return Err(Denied::Failed);
        }
        match copy_front(self.alloc, self.files.get(path), most) {
            Ok(copy) => Ok(copy),
            Err(_) => Err(Denied::NoMemory),
        }
    }

    fn write_beside(&mut self, path: &str, bytes: &[u8], _like: &str) -> Result<(), Denied> {
        match self.next_fault() {
            None => write_file(&mut self.files, path, bytes),
            Some(_) => {
                tear(&mut self.files, path, bytes);
                Err(Denied::Failed)
            }
        }
    }

    fn move_onto(&mut self, beside: &str, path: &str) -> Result<(), Denied> {
        match self.next_fault() {
            None => match move_file(self.alloc, &mut self.files, beside, path) {
                Ok(()) => Ok(()),
                Err(_) => Err(Denied::NoMemory),
            },
            Some(fault) => {
                if fault.new_stay {
                    let _moved = move_file(self.alloc, &mut self.files, beside, path);
                }
                Err(Denied::Failed)
            }
        }
    }

    fn discard(&mut self, path: &str) {
        if self.next_fault().is_none() {
            let _there = self.files.del(path);
        }
    }
}
