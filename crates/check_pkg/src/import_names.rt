//! The names that the imports of a file declare (Go 1.17, "Import declarations").
ghost use Rattle.std.specs.Prelude.{◌≡◌, ◌++◌, IfOk, OnOk, length, option_map, slice_get};
ghost use Rattle.bind.specs.Imports.{default_name, line_name, package_of};
ghost use Rattle.bind.specs.Imported.{imported};
ghost use Rattle.bind.specs.Package.{listed};
ghost use Rattle.unit_read.specs.Environments.{IsEnvironment, faces_in};
ghost use Rattle.unit_read.specs.Index.{found};
ghost use Rattle.check_pkg.specs.Packages.{known_of};
ghost use Rattle.check_pkg.specs.ImportLists.{pairs};

use bind::last_segment;
use go_tree::{ImportLine, LocalName, NodeRef};
use gv_base::NoMemory;
use package_faces::Interface;
use std::alloc::Global;
use std::collections::HashMap;
use unit_read::Environment;

/// A name that an import declares, and the node of the import.
#[derive(Clone, Copy, Drop)]
pub struct Declared<'a> {
    pub name: &'a [u8],
    pub at: NodeRef,
}

fn place_of(paths: &HashMap<&[u8], usize>, path: &[u8]) -> Option<usize>
    ensures { result ≡ found paths.now path.now }
{
    paths.get(path).copied()
}

/// The name of the package of an interface.
fn name_at(interfaces: &[Interface], place: usize) -> Option<&[u8]>
    ensures { option_map (λ n. n.now) result ≡ option_map (λ i. i.name) (slice_get interfaces.now place) }
{
    if place < interfaces.len() {
        Some(interfaces[place].name.as_str().as_bytes())
    } else {
        None
    }
}

/// The name of the package to which a path leads.
fn package_of<'a>(env: &'a Environment<'_>, path: &[u8]) -> Option<&'a [u8]>
    requires { IsEnvironment env.now }
    ensures { option_map (λ n. n.now) result ≡ package_of (known_of (faces_in env.now)) path.now }
{
    match place_of(&env.paths, path) {
        Some(place) => name_at(env.interfaces, place),
        None => None,
    }
}

/// The name of an import that has none of its own.
fn default_name<'a>(env: &'a Environment<'_>, path: &'a [u8]) -> &'a [u8]
    requires { IsEnvironment env.now }
    ensures { result.now ≡ default_name (known_of (faces_in env.now)) path.now }
{
    match package_of(env, path) {
        Some(name) => name,
        None => last_segment(path),
    }
}

/// The name that an import declares.
fn line_name<'a>(env: &'a Environment<'_>, line: &'a ImportLine) -> Option<&'a [u8]>
    requires { IsEnvironment env.now }
    ensures { option_map (λ n. n.now) result ≡ line_name (known_of (faces_in env.now)) line.now }
{
    match &line.local {
        LocalName::Default => Some(default_name(env, line.path.as_slice())),
        LocalName::Named(name) => Some(name.as_slice()),
        LocalName::Blank => None,
        LocalName::Dot => None,
    }
}

/// Adds the name that an import declares, if it does.
fn push_import<'a>(
    env: &'a Environment<'_>,
    at: NodeRef,
    line: &'a ImportLine,
    out: &mut Vec<Declared<'a>>,
) -> Result<(), NoMemory>
    requires { IsEnvironment env.now }
    ensures { OnOk result (pairs out.new.items ≡ pairs out.old.items ++ listed (line_name (known_of (faces_in env.now)) line.now) at) }
{
    match line_name(env, line) {
        Some(name) => {
            out.push(Declared { name, at })?;
            Ok(())
        }
        None => Ok(()),
    }
}

/// The names that the imports of a file declare, each at its spec.
pub fn import_names<'a>(
    alloc: Global,
    env: &'a Environment<'_>,
    file: u32,
    specs: &[u32],
    lines: &'a [ImportLine],
) -> Result<Vec<Declared<'a>>, NoMemory>
    requires env { IsEnvironment env.now }
    requires lines { length lines.now ≡ length specs.now }
    ensures { IfOk result (λ out. pairs out.items ≡ imported (known_of (faces_in env.now)) file specs.now lines.now) }
{
    let mut out = Vec::new(alloc);
    for place in 0..specs.len() {
        let at = NodeRef {
            file,
            node: specs[place],
        };
        let line = &lines[place];
        push_import(env, at, line, &mut out)?;
    }
    Ok(out)
}
