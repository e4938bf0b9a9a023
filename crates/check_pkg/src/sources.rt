//! A package, as it is given to those who read it.
ghost use Rattle.std.specs.Prelude.{◌≡◌, IfOk, map};
ghost use Rattle.unit_read.specs.Index.{texts_of};
ghost use Rattle.check_pkg.specs.ImportLists.{named_in};
ghost use Rattle.check_pkg.specs.Packages.{text_of};

use gv_base::{Bytes, NoMemory, Text};
use package_faces::Interface;
use std::alloc::Global;

fn bytes_of(file: &(Text, Bytes)) -> &[u8]
    ensures { result.now ≡ text_of file.now }
{
    file.1.as_slice()
}

/// The bytes of the files.
pub fn texts<'a>(alloc: Global, files: &'a [(Text, Bytes)]) -> Result<Vec<&'a [u8]>, NoMemory>
    ensures { IfOk result (λ list. texts_of list.items ≡ map text_of files.now) }
{
    let mut list = Vec::new(alloc);
    for file in files {
        list.push(bytes_of(file))?;
    }
    Ok(list)
}

fn pair_of(alloc: Global, interface: &Interface) -> Result<(Text, Text), NoMemory>
    ensures { IfOk result (λ pair. pair ≡ (interface.now.path, interface.now.name)) }
{
    let path = interface.path.copy(alloc)?;
    let name = interface.name.copy(alloc)?;
    Ok((path, name))
}

/// The paths and the names of the packages that are known.
pub fn known(alloc: Global, env: &[Interface]) -> Result<Vec<(Text, Text)>, NoMemory>
    ensures { IfOk result (λ list. list.items ≡ named_in env.now) }
{
    let mut list = Vec::new(alloc);
    for interface in env {
        let pair = pair_of(alloc, interface)?;
        list.push(pair)?;
    }
    Ok(list)
}
