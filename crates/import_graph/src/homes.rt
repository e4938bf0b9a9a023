//! Where each file of a tree stands.
ghost use Rattle.std.specs.Prelude.{◌≡◌, ◌<◌, ◌^◌, [], length, map, IfOk};
ghost use Rattle.std.specs.Str.{IsUtf8};
ghost use Rattle.import_graph.specs.Packages.{home_of};

use crate::source::{directory_of, is_source, is_stub, package_of};
use gv_base::{Files, NoMemory, Text};
use std::alloc::Global;

/// Where a file stands.
#[derive(Drop)]
pub struct Home {
    /// Whether it is a source file.
    pub source: bool,
    /// Whether its directory's package is a stub.
    pub stub: bool,
    /// The path of its directory's package.
    pub path: Text,
}

/// Bytes that are UTF-8 as a text.
fn text(bytes: Vec<u8>) -> Text
    requires { IsUtf8 bytes.items }
    ensures { result ≡ bytes.items }
{
    match String::from_utf8(bytes) {
        Ok(text) => Text::new(text),
        Err(_) => unreachable!(),
    }
}

fn home_of(alloc: Global, root: &str, path: &str) -> Result<Home, NoMemory>
    ensures { IfOk result (λ home. home ≡ home_of root.now (path.now, [])) }
{
    let bytes = path.as_bytes();
    let dir = directory_of(bytes);
    let package = package_of(alloc, root.as_bytes(), dir)?;
    Ok(Home {
        source: is_source(bytes),
        stub: is_stub(dir),
        path: text(package),
    })
}

/// Where each file of a tree stands, below this module path.
pub fn homes(alloc: Global, files: &Files, root: &str) -> Result<Vec<Home>, NoMemory>
    ensures homes { IfOk result (λ homes. homes.items ≡ map (home_of root.now) files.now) }
    ensures few { IfOk result (λ homes. length homes.items < 2 ^ 32) }
{
    let mut homes = Vec::new(alloc);
    for n in 0..files.count() {
        let file = files.at(n);
        let home = home_of(alloc, root, file.0)?;
        homes.push(home)?;
    }
    Ok(homes)
}
