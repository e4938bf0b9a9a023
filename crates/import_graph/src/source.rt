//! Which files of a tree are source files, and of which package each is.
ghost use Rattle.std.specs.Prelude.{◌≡◌, ◌≤◌, ◌<◌, ◌&&◌, length, take, drop, bytes_eq, IfOk};
ghost use Rattle.std.specs.List.{list_all};
ghost use Rattle.import_graph.specs.Sources.{is_plain, is_source, segments_of, directory_of, bare, is_stub, module_package, package_of};

use gv_base::NoMemory;
use std::alloc::Global;

fn is_plain(segment: &[u8]) -> bool
    ensures { result ≡ is_plain segment.now }
{
    !(segment.starts_with(b"_")
        || segment.starts_with(b".")
        || segment == b"testdata".as_slice()
        || segment == b"vendor".as_slice())
}

fn both(a: bool, b: bool) -> bool
    ensures { result ≡ (a && b) }
{
    a && b
}

/// Whether no segment hides what stands in it.
fn are_plain(path: &[u8]) -> bool
    ensures { result ≡ list_all is_plain (segments_of path.now) }
{
    let mut end = path.len();
    let mut at = path.len();
    let mut plain = true;
    while at > 0 {
        at -= 1;
        if path[at] == b'/' {
            plain = both(is_plain(&path[at + 1..end]), plain);
            end = at;
        }
    }
    both(is_plain(&path[..end]), plain)
}

/// Whether the file of this path is read as Go source.
pub fn is_source(path: &[u8]) -> bool
    ensures { result ≡ is_source path.now }
{
    path.ends_with(b".go") && !path.ends_with(b"_test.go") && are_plain(path)
}

/// How many bytes of a path stand up to its last slash.
fn directory_len(path: &[u8]) -> usize
    ensures within { result ≤ length path.now }
    ensures directory { directory_of path.now ≡ take result path.now }
{
    let mut at = path.len();
    while at > 0 {
        if path[at - 1] == b'/' {
            return at;
        }
        at -= 1;
    }
    0
}

/// The directory in which a file stands, with the slash at its end.
pub fn directory_of(path: &[u8]) -> &[u8]
    ensures { result.now ≡ directory_of path.now }
{
    let len = directory_len(path);
    &path[..len]
}

/// A directory without the slash at its end.
fn bare(dir: &[u8]) -> &[u8]
    ensures { result.now ≡ bare dir.now }
{
    let len = dir.len().saturating_sub(1);
    &dir[..len]
}

/// Whether the package of a directory is a stub.
pub fn is_stub(dir: &[u8]) -> bool
    ensures { result ≡ is_stub dir.now }
{
    dir.starts_with(b"std/") && dir.len() >= 6
}

fn copied(alloc: Global, text: &[u8]) -> Result<Vec<u8>, NoMemory>
    ensures { IfOk result (λ copy. copy.items ≡ text.now) }
{
    let copy = text.to_vec(alloc)?;
    Ok(copy)
}

/// The path of the module's package of a directory.
fn module_package(alloc: Global, root: &[u8], dir: &[u8]) -> Result<Vec<u8>, NoMemory>
    ensures { IfOk result (λ path. path.items ≡ module_package root.now dir.now) }
{
    let mut path = copied(alloc, root)?;
    if dir.len() == 0 {
        return Ok(path);
    }
    path.push(b'/')?;
    path.extend_from_slice(bare(dir))?;
    Ok(path)
}

/// The directory below `std` of a stub.
fn behind_std(dir: &[u8]) -> &[u8]
    ensures { result.now ≡ drop 4 dir.now }
{
    let at = dir.len().min(4);
    &dir[at..]
}

/// The path of the package of a directory.
pub fn package_of(alloc: Global, root: &[u8], dir: &[u8]) -> Result<Vec<u8>, NoMemory>
    ensures { IfOk result (λ path. path.items ≡ package_of root.now dir.now) }
{
    if is_stub(dir) {
        let path = copied(alloc, bare(behind_std(dir)))?;
        return Ok(path);
    }
    let path = module_package(alloc, root, dir)?;
    Ok(path)
}
