//! A disk, as far as trees and caches need it.
ghost use Rattle.std.specs.Prelude.{◌≡◌, ◌≢◌, ◌≤◌, ℕ, List, Option, IfOk, IfSome, map, length};
ghost use Rattle.gv_base.specs.Files.{Entry};
ghost use Rattle.gv_base.specs.Keepers.{bytes_of};
ghost use Rattle.gv_base.specs.Paths.{IsPath};
ghost use Rattle.disk.specs.Folders.{Placed, named_of, TellsItems};
ghost use Rattle.disk.specs.Held.{IsFrontOf, IsBeside, Tells, Writes, Moves, OthersStay};

use gv_base::Denied;

/// What a name in a folder names.
#[derive(Clone, Copy, Debug, PartialEq, Eq, Drop)]
pub enum Kind {
    /// A file.
    File,
    /// A folder.
    Folder,
    /// Anything else: a symbolic link, a pipe, a socket, a device.
    Other,
}

/// What stands in a folder.
#[derive(Drop)]
pub struct Item {
    pub name: String,
    pub kind: Kind,
}

/// A disk below one folder, which is its top. Paths start there, and the top's own path is empty.
pub trait Disk {
    /// What stands in each folder, where it tells.
    ghost slots: { Self → Option (List Placed) };

    /// The files by path, where it tells.
    ghost held: { Self → Option (List Entry) };

    /// What stands in a folder, in any order. A name that isn't UTF-8 may be left out.
    fn items(&mut self, folder: &str) -> Result<Vec<Item>, Denied>
        ensures slots { slots self.new ≡ slots self.old }
        ensures held { held self.new ≡ held self.old }
        ensures told { IfOk result (λ items. TellsItems (slots self.old) folder.now (map named_of items.items)) };

    /// The first `most` bytes of a file; None where there is no such file.
    fn read(&mut self, path: &str, most: usize) -> Result<Option<Vec<u8>>, Denied>
        ensures slots { slots self.new ≡ slots self.old }
        ensures held { held self.new ≡ held self.old }
        ensures short { IfOk result (λ got. IfSome got (λ bytes. length bytes.items ≤ most)) }
        ensures front { IfOk result (λ got. IsFrontOf (held self.old) path.now most (bytes_of got)) };

    /// Writes a file whole that stands beside another, in place of one that is left there, and sees
    /// to it that the disk has the bytes. It may be read by whom the file of `like` may be, where there
    /// is one. Where this is denied, the file beside holds whatever.
    fn write_beside(&mut self, path: &str, bytes: &[u8], like: &str) -> Result<(), Denied>
        requires { IsBeside path.now }
        ensures slots { slots self.new ≡ slots self.old }
        ensures held { Tells (held self.old) (held self.new) (Writes path.now bytes.now result) };

    /// Moves a file that was written beside onto another, at one stroke: whoever looks, and whatever
    /// befalls the machine, the other has its old or its new bytes.
    fn move_onto(&mut self, beside: &str, path: &str) -> Result<(), Denied>
        requires beside { IsBeside beside.now }
        requires path { IsPath path.now }
        requires apart { beside.now ≢ path.now }
        ensures slots { slots self.new ≡ slots self.old }
        ensures held { Tells (held self.old) (held self.new) (Moves beside.now path.now result) };

    /// Removes a file that was written beside another, if it is there and that can be done.
    fn discard(&mut self, path: &str)
        requires { IsBeside path.now }
        ensures slots { slots self.new ≡ slots self.old }
        ensures held { Tells (held self.old) (held self.new) (λ old new. OthersStay old new path.now) };
}
