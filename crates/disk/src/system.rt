//! The system's disk, below a folder. It tells nothing of what it holds.
ghost use Rattle.std.specs.Prelude.{◌≡◌, ◌≤◌, ◌<◌, ◌+◌, ℕ, None, IfOk, OnOk, IfSome, length, vec_len, true};

use crate::device::{Disk, Item, Kind};
use gv_base::Denied;
use std::alloc::Global;
use std::fs::{DirEntry, FileType, OpenFile, OpenOptions, Permissions};
use std::io::{ErrorKind, Read, Write};
use std::os::unix::fs::{OpenOptionsExt, PermissionsExt};
use std::rt::Files;
use std::{fs, io};

/// How many bytes are asked for at a time, at most.
const PIECE: usize = 65_536;

/// The bits of a mode that say who may do what.
const MODE: u32 = 0o7777;

/// The system's disk, below a folder.
#[derive(Drop)]
pub struct SystemDisk<R: Files + AllocGlobal + Clone + Drop> {
    rt: R,
    top: String,
}

impl<R: Files + AllocGlobal + Clone + Drop> SystemDisk<R> {
    /// The disk below this folder; `.` is the current one.
    pub fn new(rt: R, top: String) -> Self {
        SystemDisk { rt, top }
    }
}

/// How a call ends after an error of the system.
fn denied_by(error: io::Error) -> Denied {
    match error.kind() {
        ErrorKind::OutOfMemory => Denied::NoMemory,
        _ => Denied::Failed,
    }
}

/// The system's path of one below the top, or of the top.
fn full_path(alloc: Global, top: &str, path: &str) -> io::Result<String> {
    let mut full = String::from_str(alloc, top)?;
    if !path.is_empty() {
        full.push_str("/")?;
        full.push_str(path)?;
    }
    Ok(full)
}

fn kind_of(file_type: FileType) -> Kind {
    if file_type.is_file() {
        Kind::File
    } else if file_type.is_dir() {
        Kind::Folder
    } else {
        Kind::Other
    }
}

/// Adds what a name names. A name that was taken away meanwhile is left out.
fn add_item<R: Files>(
    alloc: Global,
    entry: &DirEntry<R, Global>,
    items: &mut Vec<Item>,
) -> io::Result<()> {
    let kind = match entry.file_type() {
        Ok(file_type) => kind_of(file_type),
        Err(e) if e.kind() == ErrorKind::NotFound => return Ok(()),
        Err(e) => return Err(e),
    };
    let name = String::from_str(alloc, entry.file_name())?;
    items.push(Item { name, kind })?;
    Ok(())
}

/// What stands in a folder. A name that isn't UTF-8 is left out.
fn list_folder<R: Files + AllocGlobal + Clone + Drop>(rt: &R, full: &str) -> io::Result<Vec<Item>> {
    let mut items = Vec::new(rt.alloc());
    for entry in fs::read_dir(rt, full)? {
        match entry {
            Ok(entry) => add_item(rt.alloc(), &entry, &mut items)?,
            Err(e) if e.kind() == ErrorKind::InvalidFilename => {}
            Err(e) => return Err(e),
        }
    }
    Ok(items)
}

/// Reads one piece more, of at most `most` bytes, and tells whether there was one.
fn read_piece<F: Read>(
    file: &mut F,
    most: usize,
    piece: &mut [u8],
    bytes: &mut Vec<u8>,
) -> io::Result<bool>
    ensures most { OnOk result (vec_len bytes.new ≤ vec_len bytes.old + most) }
    ensures more { IfOk result (λ more. more ≡ true → vec_len bytes.old < vec_len bytes.new) }
{
    let count = most.min(piece.len());
    let read = file.read(&mut piece[..count])?;
    bytes.extend_from_slice(&piece[..read])?;
    Ok(read > 0)
}

/// How many bytes are asked for at a time of a file of which this many are awaited: one more, so that its end is found by the second call.
fn piece_size(likely: usize) -> usize {
    likely.min(PIECE - 1) + 1
}

/// The first `most` bytes of a file, however long it grows, of which `likely` are awaited. Each
/// turn reads something or is the last.
pub fn read_most<F: Read>(
    alloc: Global,
    file: &mut F,
    most: usize,
    likely: usize,
) -> io::Result<Vec<u8>>
    ensures { IfOk result (λ bytes. vec_len bytes ≤ most) }
{
    let mut bytes = Vec::with_capacity(alloc, likely.min(most))?;
    let mut piece = vec![in alloc; 0u8; piece_size(likely)]?;
    'pieces: while bytes.len() < most {
        let room = most - bytes.len();
        let more = read_piece(file, room, &mut piece, &mut bytes)?;
        if !more {
            return Ok(bytes);
        }
    }
    Ok(bytes)
}

/// The first `most` bytes of a file; None where nothing has its name. What isn't a file is an error.
fn read_file<R: Files + AllocGlobal>(rt: &R, full: &str, most: usize) -> io::Result<Option<Vec<u8>>>
    ensures { IfOk result (λ got. IfSome got (λ bytes. vec_len bytes ≤ most)) }
{
    let likely = match fs::symlink_metadata(rt, full) {
        Ok(metadata) if metadata.is_file() => metadata.len() as usize,
        Ok(_) => return Err(io::Error::from(ErrorKind::InvalidInput)),
        Err(e) if e.kind() == ErrorKind::NotFound => return Ok(None),
        Err(e) => return Err(e),
    };
    let mut file = match fs::open(rt, full) {
        Ok(file) => file,
        Err(e) if e.kind() == ErrorKind::NotFound => return Ok(None),
        Err(e) => return Err(e),
    };
    let bytes = read_most(rt.alloc(), &mut file, most, likely)?;
    Ok(Some(bytes))
}

/// Who may do what with a file; None where there is no file.
fn permissions_of<R: Files>(rt: &R, full: &str) -> io::Result<Option<Permissions>> {
    match fs::symlink_metadata(rt, full) {
        Ok(metadata) if metadata.is_file() => Ok(Some(PermissionsExt::from_mode(
            metadata.permissions().mode() & MODE,
        ))),
        Ok(_) => Err(io::Error::from(ErrorKind::InvalidInput)),
        Err(e) if e.kind() == ErrorKind::NotFound => Ok(None),
        Err(e) => Err(e),
    }
}

/// Removes what has this name, if anything has.
fn remove_left<R: Files>(rt: &R, full: &str) -> io::Result<()> {
    match fs::remove_file(rt, full) {
        Ok(()) => Ok(()),
        Err(e) if e.kind() == ErrorKind::NotFound => Ok(()),
        Err(e) => Err(e),
    }
}

/// Writes a file that isn't there yet, with these permissions where some are given, and waits until
/// the disk has it.
fn write_new<R: Files>(
    rt: &R,
    full: &str,
    bytes: &[u8],
    permissions: Option<Permissions>,
) -> io::Result<()> {
    let mut how = OpenOptions::new();
    how.write(true).create_new(true);
    if let Some(permissions) = &permissions {
        how.mode(permissions.mode());
    }
    let mut file = how.open(rt, full)?;
    file.write_all(bytes)?;
    if let Some(permissions) = permissions {
        file.set_permissions(permissions)?;
    }
    file.sync_all()
}

/// Writes a file in place of what is left there, readable by whom the file of `like` is.
fn write_like<R: Files>(rt: &R, full: &str, bytes: &[u8], like: &str) -> io::Result<()> {
    let permissions = permissions_of(rt, like)?;
    remove_left(rt, full)?;
    write_new(rt, full, bytes, permissions)
}

impl<R: Files + AllocGlobal + Clone + Drop> SystemDisk<R> {
    fn full(&self, path: &str) -> io::Result<String> {
        full_path(self.rt.alloc(), self.top.as_str(), path)
    }

    fn items_of(&self, folder: &str) -> io::Result<Vec<Item>> {
        let full = self.full(folder)?;
        list_folder(&self.rt, full.as_str())
    }

    fn bytes_of(&self, path: &str, most: usize) -> io::Result<Option<Vec<u8>>>
        ensures { IfOk result (λ got. IfSome got (λ bytes. vec_len bytes ≤ most)) }
    {
        let full = self.full(path)?;
        read_file(&self.rt, full.as_str(), most)
    }

    fn set_beside(&self, path: &str, bytes: &[u8], like: &str) -> io::Result<()> {
        let full = self.full(path)?;
        let like = self.full(like)?;
        write_like(&self.rt, full.as_str(), bytes, like.as_str())
    }

    fn rename(&self, beside: &str, path: &str) -> io::Result<()> {
        let from = self.full(beside)?;
        let to = self.full(path)?;
        fs::rename(&self.rt, from.as_str(), to.as_str())
    }

    fn remove(&self, path: &str) -> io::Result<()> {
        let full = self.full(path)?;
        fs::remove_file(&self.rt, full.as_str())
    }
}

impl<R: Files + AllocGlobal + Clone + Drop> Disk for SystemDisk<R> {
    ghost slots = { λ _. None };

    ghost held = { λ _. None };

    fn items(&mut self, folder: &str) -> Result<Vec<Item>, Denied> {
        match self.items_of(folder) {
            Ok(items) => Ok(items),
            Err(e) => Err(denied_by(e)),
        }
    }

    fn read(&mut self, path: &str, most: usize) -> Result<Option<Vec<u8>>, Denied> {
        match self.bytes_of(path, most) {
            Ok(bytes) => Ok(bytes),
            Err(e) => Err(denied_by(e)),
        }
    }

    fn write_beside(&mut self, path: &str, bytes: &[u8], like: &str) -> Result<(), Denied> {
        match self.set_beside(path, bytes, like) {
            Ok(()) => Ok(()),
            Err(e) => Err(denied_by(e)),
        }
    }

    fn move_onto(&mut self, beside: &str, path: &str) -> Result<(), Denied> {
        match self.rename(beside, path) {
            Ok(()) => Ok(()),
            Err(e) => Err(denied_by(e)),
        }
    }

    fn discard(&mut self, path: &str) {
        let _removed = self.remove(path);
    }
}
