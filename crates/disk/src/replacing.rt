//! The replacing of a file, so that a crash leaves its old or its new bytes.
ghost use Rattle.std.specs.Prelude.{◌≡◌, ◌≢◌, ◌≤◌, length};
ghost use Rattle.gv_base.specs.Paths.{IsPath};
ghost use Rattle.disk.specs.Held.{beside, Tells, Replaces};

use crate::beside::beside;
use crate::device::Disk;
use crate::names::is_short;
use gv_base::Denied;
use std::alloc::Global;

/// Writes the bytes beside the file, and moves them onto it.
fn write_and_move<D: Disk>(
    disk: &mut D,
    other: &str,
    path: &str,
    bytes: &[u8],
) -> Result<(), Denied>
    requires path { IsPath path.now }
    requires other { other.now ≡ beside path.now }
    requires short { length other.now ≤ 1024 }
    requires apart { other.now ≢ path.now }
    ensures slots { D.slots disk.new ≡ D.slots disk.old }
    ensures held { Tells (D.held disk.old) (D.held disk.new) (Replaces path.now bytes.now result) }
{
    if let Err(denied) = disk.write_beside(other, bytes, path) {
        disk.discard(other);
        return Err(denied);
    }
    if let Err(denied) = disk.move_onto(other, path) {
        disk.discard(other);
        return Err(denied);
    }
    Ok(())
}

/// Replaces a file. At each moment between, it has its old or its new bytes, since they are written
/// to another file in its folder, which is then moved onto it. `Failed` too where that file's path
/// would be too long, and for a path that is such a file's.
pub fn replace<D: Disk>(alloc: Global, disk: &mut D, path: &str, bytes: &[u8]) -> Result<(), Denied>
    requires { IsPath path.now }
    ensures slots { D.slots disk.new ≡ D.slots disk.old }
    ensures held { Tells (D.held disk.old) (D.held disk.new) (Replaces path.now bytes.now result) }
{
    let other = match beside(alloc, path) {
        Ok(other) => other,
        Err(_) => return Err(Denied::NoMemory),
    };
    if !is_short(other.as_bytes()) || other.as_str() == path {
        return Err(Denied::Failed);
    }
    write_and_move(disk, other.as_str(), path, bytes)
}
