//! Which names and paths are taken into a listing.
ghost use Rattle.std.specs.Prelude.{◌≡◌, ◌≤◌, ◌++◌, ◌&&◌, length, IfOk, string_bytes, codes, nat_le, bytes_eq, not};
ghost use Rattle.std.specs.List.{list_all};
ghost use Rattle.gv_base.specs.Paths.{is_segment_byte};
ghost use Rattle.disk.specs.Folders.{child};
ghost use Rattle.disk.specs.Names.{is_segment, is_short, is_chosen, is_open};

use gv_base::NoMemory;
use import_graph::is_source;
use std::alloc::Global;

/// The most bytes of a path.
const LONGEST_PATH: usize = 1024;

fn both(a: bool, b: bool) -> bool
    ensures { result ≡ (a && b) }
{
    a && b
}

fn is_segment_byte(byte: u8) -> bool
    ensures { result ≡ is_segment_byte byte }
{
    matches!(byte, b'A'..=b'Z' | b'a'..=b'z' | b'0'..=b'9' | b'_' | b'.' | b'-' | b'+' | b'~' | b'@')
}

fn are_segment_bytes(name: &[u8]) -> bool
    ensures { result ≡ list_all is_segment_byte name.now }
{
    name.iter().all(|byte| is_segment_byte(*byte))
}

/// Whether a name can be a segment of a path.
pub(crate) fn is_segment(name: &[u8]) -> bool
    ensures { result ≡ is_segment name.now }
{
    let dots = both(name != b".".as_slice(), name != b"..".as_slice());
    both(are_segment_bytes(name), both(name.len() >= 1, dots))
}

/// Whether a path is short enough.
pub(crate) fn is_short(path: &[u8]) -> bool
    ensures { result ≡ is_short path.now }
{
    path.len() <= LONGEST_PATH
}

/// Whether a run reads the file of this path: `go.mod` and the source files.
pub(crate) fn is_chosen(path: &[u8]) -> bool
    ensures { result ≡ is_chosen path.now }
{
    path == b"go.mod".as_slice() || is_source(path)
}

/// Whether a source file may stand in this folder.
pub(crate) fn is_open(alloc: Global, folder: &str) -> Result<bool, NoMemory>
    ensures { IfOk result (λ answer. answer ≡ is_open folder.now) }
{
    let mut path = String::from_str(alloc, folder)?;
    path.push_str("/some_file.go")?;
    Ok(is_source(path.as_bytes()))
}

/// The path of a name in a folder.
pub(crate) fn child(alloc: Global, folder: &str, name: &str) -> Result<String, NoMemory>
    ensures { IfOk result (λ path. string_bytes path ≡ child folder.now name.now) }
{
    let mut path = String::from_str(alloc, folder)?;
    if !folder.is_empty() {
        path.push_str("/")?;
    }
    path.push_str(name)?;
    Ok(path)
}
