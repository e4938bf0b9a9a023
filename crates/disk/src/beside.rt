//! The path of the file that is written beside another.
ghost use Rattle.std.specs.Prelude.{◌≡◌, IfOk, string_bytes};
ghost use Rattle.gv_base.specs.Paths.{IsPath};
ghost use Rattle.import_graph.specs.Sources.{directory_of};
ghost use Rattle.disk.specs.Held.{beside};

use gv_base::NoMemory;
use import_graph::directory_of;
use std::alloc::Global;

/// The folder of a path, with the slash at its end.
fn folder_of(path: &str) -> &str
    requires { IsPath path.now }
    ensures { result.now ≡ directory_of path.now }
{
    match std::str::from_utf8(directory_of(path.as_bytes())) {
        Ok(folder) => folder,
        Err(_) => unreachable!(),
    }
}

/// The path of the file that is written beside this one, in the same folder. Its name begins with
/// a dot, so no listing has it.
pub(crate) fn beside(alloc: Global, path: &str) -> Result<String, NoMemory>
    requires { IsPath path.now }
    ensures { IfOk result (λ other. string_bytes other ≡ beside path.now) }
{
    let mut other = String::from_str(alloc, folder_of(path))?;
    other.push_str(".gvet-new")?;
    Ok(other)
}
