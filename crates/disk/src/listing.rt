//! The listing of a disk: folder by folder, by a list of those to look into.
ghost use Rattle.std.specs.Prelude.{◌≡◌, ◌∷◌, ◌++◌, ◌≤◌, ◌<◌, ℕ, List, Some, IfOk, OnOk, [], length, map, string_bytes, slice_index_or, if◌then◌else◌};
ghost use Rattle.std.specs.List.{fold, AllByRecursion};
ghost use Rattle.gv_base.specs.Files.{put_file};
ghost use Rattle.gv_base.specs.Paths.{IsPath};
ghost use Rattle.gv_base.specs.Trees.{AreNamed, ArePaths, paths_of};
ghost use Rattle.disk.specs.Folders.{named_of};
ghost use Rattle.disk.specs.Names.{is_chosen, is_open, is_short, is_file, is_folder, found_with, waiting_with, IsFolder};
ghost use Rattle.disk.specs.Listings.{TellsListing};
ghost use Rattle.disk.specs.Searches.{LooksInto, Turns};

use crate::device::{Disk, Item, Kind};
use crate::names::{child, is_chosen, is_open, is_segment, is_short};
use gv_base::{Denied, Files, NoMemory};
use std::alloc::Global;

/// Takes a file into those found, if it is one that a run reads.
fn take_file(path: &str, found: &mut Files) -> Result<(), NoMemory>
    requires { IsPath path.now }
    ensures { OnOk result (found.new ≡ (if is_chosen path.now then put_file found.old path.now [] else found.old)) }
{
    if is_chosen(path.as_bytes()) {
        found.put(path, b"")?;
    }
    Ok(())
}

/// Takes a folder into those to look into, if a source file may stand in it.
fn take_folder(alloc: Global, path: String, waiting: &mut Vec<String>) -> Result<(), NoMemory>
    ensures { OnOk result (map string_bytes waiting.new.items ≡ (if is_open (string_bytes path) then map string_bytes waiting.old.items ++ string_bytes path ∷ [] else map string_bytes waiting.old.items)) }
{
    if is_open(alloc, path.as_str())? {
        waiting.push(path)?;
    }
    Ok(())
}

/// Takes what one item is: a file that a run reads, or a folder that is looked into.
fn take_item(
    alloc: Global,
    folder: &str,
    item: &Item,
    found: &mut Files,
    waiting: &mut Vec<String>,
) -> Result<(), NoMemory>
    requires { IsFolder folder.now }
    ensures files { OnOk result (found.new ≡ found_with folder.now found.old (named_of item.now)) }
    ensures folders { OnOk result (map string_bytes waiting.new.items ≡ waiting_with folder.now (map string_bytes waiting.old.items) (named_of item.now)) }
{
    if !is_segment(item.name.as_bytes()) {
        return Ok(());
    }
    let path = child(alloc, folder, item.name.as_str())?;
    if !is_short(path.as_bytes()) {
        return Ok(());
    }
    match item.kind {
        Kind::File => take_file(path.as_str(), found),
        Kind::Folder => take_folder(alloc, path, waiting),
        Kind::Other => Ok(()),
    }
}

/// Takes what stands in a folder.
fn take_items(
    alloc: Global,
    folder: &str,
    items: &[Item],
    found: &mut Files,
    waiting: &mut Vec<String>,
) -> Result<(), NoMemory>
    requires { IsFolder folder.now }
    ensures files { OnOk result (found.new ≡ fold (found_with folder.now) found.old (map named_of items.now)) }
    ensures folders { OnOk result (map string_bytes waiting.new.items ≡ fold (waiting_with folder.now) (map string_bytes waiting.old.items) (map named_of items.now)) }
{
    for item in items {
        take_item(alloc, folder, item, found, waiting)?;
    }
    Ok(())
}

/// Looks into one folder.
fn look_into<D: Disk>(
    alloc: Global,
    disk: &mut D,
    folder: &str,
    found: &mut Files,
    waiting: &mut Vec<String>,
) -> Result<(), Denied>
    requires { IsFolder folder.now }
    ensures slots { D.slots disk.new ≡ D.slots disk.old }
    ensures held { D.held disk.new ≡ D.held disk.old }
    ensures looks { OnOk result (LooksInto (D.slots disk.old) folder.now found.old found.new (map string_bytes waiting.old.items) (map string_bytes waiting.new.items)) }
{
    let items = disk.items(folder)?;
    match take_items(alloc, folder, items.as_slice(), found, waiting) {
        Ok(()) => Ok(()),
        Err(_) => Err(Denied::NoMemory),
    }
}

/// The folder at the top, to begin with.
fn top_alone(alloc: Global) -> Result<Vec<String>, NoMemory>
    ensures { IfOk result (λ waiting. map string_bytes waiting.items ≡ [] ∷ []) }
{
    let mut waiting = Vec::new(alloc);
    waiting.push(String::new(alloc))?;
    Ok(waiting)
}

/// The path of a file, as a text of its own.
fn copy_path(alloc: Global, files: &Files, file: u32) -> Result<String, NoMemory>
    requires { file < length files.now }
    ensures { IfOk result (λ path. string_bytes path ≡ slice_index_or (paths_of files.now) file []) }
{
    let (path, _bytes) = files.at(file);
    let copy = String::from_str(alloc, path)?;
    Ok(copy)
}

/// The paths of all files.
fn paths_of(alloc: Global, files: &Files) -> Result<Vec<String>, NoMemory>
    ensures listed { IfOk result (λ list. map string_bytes list.items ≡ paths_of files.now) }
    ensures lawful { AreNamed files.now → IfOk result (λ list. ArePaths (map string_bytes list.items)) }
{
    let mut list = Vec::new(alloc);
    let count = files.count();
    for file in 0..count {
        let path = copy_path(alloc, files, file)?;
        list.push(path)?;
    }
    Ok(list)
}

/// Looks into one of the folders that wait, and tells whether one did.
fn next_turn<D: Disk>(
    alloc: Global,
    disk: &mut D,
    found: &mut Files,
    waiting: &mut Vec<String>,
) -> Result<bool, Denied>
    requires { AllByRecursion IsFolder (map string_bytes waiting.old.items) }
    ensures slots { D.slots disk.new ≡ D.slots disk.old }
    ensures held { D.held disk.new ≡ D.held disk.old }
    ensures turns { IfOk result (λ more. Turns (D.slots disk.old) found.old found.new (map string_bytes waiting.old.items) (map string_bytes waiting.new.items) more) }
{
    match waiting.pop() {
        Some(folder) => {
            look_into(alloc, disk, folder.as_str(), found, waiting)?;
            Ok(true)
        }
        None => Ok(false),
    }
}

/// The paths of all files, at the end.
fn all_paths(alloc: Global, files: &Files) -> Result<Vec<String>, Denied>
    ensures listed { IfOk result (λ list. map string_bytes list.items ≡ paths_of files.now) }
    ensures lawful { AreNamed files.now → IfOk result (λ list. ArePaths (map string_bytes list.items)) }
{
    match paths_of(alloc, files) {
        Ok(list) => Ok(list),
        Err(_) => Err(Denied::NoMemory),
    }
}

/// The paths of `go.mod` and of the source files on a disk, in byte order, each once. A folder is
/// looked into where a source file may stand in it; what is neither a file nor a folder, and what
/// has no path, is passed over. `Failed` where a folder can't be looked into.
pub fn list_below<D: Disk>(alloc: Global, disk: &mut D) -> Result<Vec<String>, Denied>
    ensures slots { D.slots disk.new ≡ D.slots disk.old }
    ensures held { D.held disk.new ≡ D.held disk.old }
    ensures paths { IfOk result (λ list. ArePaths (map string_bytes list.items)) }
    ensures listed { IfOk result (λ list. TellsListing (D.slots disk.old) (map string_bytes list.items)) }
{
    let mut found = Files::new(alloc);
    let mut waiting = match top_alone(alloc) {
        Ok(waiting) => waiting,
        Err(_) => return Err(Denied::NoMemory),
    };
    'folders: loop {
        let more = next_turn(alloc, disk, &mut found, &mut waiting)?;
        if !more {
            let list = all_paths(alloc, &found)?;
            return Ok(list);
        }
    }
}
