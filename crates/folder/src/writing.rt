//! The files that a run changes.
ghost use Rattle.std.specs.Prelude.{◌≡◌, All, Err, List};
ghost use Rattle.gv_base.specs.Files.{Entry};
ghost use Rattle.gv_base.specs.Paths.{IsPath};
ghost use Rattle.folder.specs.Folders.{OnlyWhereRose, IsTold, WritesTo};

use analysis_core::ChangedFile;
use gv_base::{Denied, Tree};

/// Writes changed files, in turn. Where one is denied, those before it are written, it is old or new, and those behind it are old.
pub fn write_files<T: Tree>(tree: &mut T, changed: &[ChangedFile]) -> Result<(), Denied>
    requires { All (λ c. IsPath c.path) changed.now }
    ensures writes { (files : List Entry) → IsTold (T.view tree.old).files files → WritesTo files changed.now (T.view tree.new).files result }
    ensures fault { OnlyWhereRose (T.view tree.old).faults (T.view tree.new).faults (result ≡ Err Denied.Failed) }
{
    for file in changed {
        match tree.write(file.path.as_str(), file.bytes.as_slice()) {
            Ok(()) => {}
            Err(error) => return Err(error),
        }
    }
    Ok(())
}
