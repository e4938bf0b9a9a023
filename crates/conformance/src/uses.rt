//! What the names in the files of a package denote.
ghost use Rattle.conformance.specs.Ready.{AreReady};

use crate::parsed::add_files;
use anyhow::{Result, bail};
use bind::bind;
use bundles::shown;
use file_uses::{Locals, name_at};
use go_tree::{Bindings, FileTree, NodeRef, Object};
use gv_base::{Bytes, Text};
use std::alloc::Global;
use std::fmt::Write;

/// The most files of a package.
const MOST: usize = 1 << 16;

/// The files of a package, which of their names are uses, and what these denote.
#[derive(Clone, Copy, Drop)]
struct Package<'a> {
    files: &'a [FileTree],
    sources: &'a [(Text, Bytes)],
    locals: &'a [Locals],
    bindings: &'a Bindings,
}

/// The place of the first token of a node, 0 where there is none.
fn place_in(tree: &FileTree, at: usize) -> u32 {
    let Some(node) = tree.nodes.as_slice().get(at) else {
        return 0;
    };
    match tree.tokens.as_slice().get(node.first as usize) {
        Some(token) => token.start,
        None => 0,
    }
}

fn place_of(package: &Package<'_>, at: NodeRef) -> u32 {
    match package.files.get(at.file as usize) {
        Some(tree) => place_in(tree, at.node as usize),
        None => 0,
    }
}

fn is_use(package: &Package<'_>, at: NodeRef) -> bool {
    match package.locals.get(at.file as usize) {
        Some(locals) => locals.uses.as_slice().get(at.node as usize).copied() == Some(true),
        None => false,
    }
}

/// The name that a node is, but for `_`.
fn name_of<'a>(package: &Package<'a>, at: NodeRef) -> Option<&'a [u8]> {
    let file = at.file as usize;
    if file >= package.files.len() || file >= package.sources.len() {
        return None;
    }
    let bytes = package.sources[file].1.as_slice();
    let name = name_at(bytes, &package.files[file], at.node as usize)?;
    if name == b"_".as_slice() {
        return None;
    }
    Some(name)
}

/// Ends a line: where a declaration stands, and in which of the files if that is another.
fn write_place(out: &mut String, package: &Package<'_>, at: NodeRef, of: NodeRef) -> Result<()> {
    let place = place_of(package, of);
    if of.file == at.file {
        writeln!(out, " {place}")?;
    } else {
        writeln!(out, " {place} in file {}", of.file)?;
    }
    Ok(())
}

fn write_object(
    out: &mut String,
    package: &Package<'_>,
    at: NodeRef,
    object: Object,
) -> Result<()> {
    match object {
        Object::Universe(_) => writeln!(out, "")?,
        Object::Local(of) => {
            write!(out, " is of")?;
            write_place(out, package, at, of)?;
        }
        Object::Package(of) => {
            write!(out, " is of the package's")?;
            write_place(out, package, at, of)?;
        }
        Object::Import(of) => {
            write!(out, " is of the import")?;
            write_place(out, package, at, of)?;
        }
    }
    Ok(())
}

/// Writes a line for the name, if it is a use.
fn write_name(out: &mut String, package: &Package<'_>, at: NodeRef, name: &[u8]) -> Result<()> {
    let place = place_of(package, at);
    match package.bindings.declaration(at) {
        Some(object) => {
            write!(out, "  {place} {}", shown(name))?;
            write_object(out, package, at, object)
        }
        None if is_use(package, at) => Ok(writeln!(
            out,
            "  {place} {} is undeclared",
            shown(name)
        )?),
        None => Ok(()),
    }
}

/// Writes a line for each use in a file.
fn write_file(out: &mut String, package: &Package<'_>, file: u32, tree: &FileTree) -> Result<()> {
    writeln!(out, "file")?;
    let mut node = 0;
    for _node in tree.nodes.as_slice() {
        let at = NodeRef { file, node };
        if let Some(name) = name_of(package, at) {
            write_name(out, package, at, name)?;
        }
        node = node.saturating_add(1);
    }
    Ok(())
}

/// Writes a line for each file, and one for each use in it.
fn write_files(out: &mut String, package: &Package<'_>) -> Result<()> {
    let mut file = 0;
    for tree in package.files {
        write_file(out, package, file, tree)?;
        file = file.saturating_add(1);
    }
    Ok(())
}

/// Binds the uses in the files, and writes a line for each.
fn write_uses(
    out: &mut String,
    alloc: Global,
    files: &[FileTree],
    sources: &[(Text, Bytes)],
    locals: &[Locals],
) -> Result<()>
    requires { AreReady files.now sources.now }
{
    if files.len() > MOST {
        bail!("too many files");
    }
    match bind(alloc, files, sources, &[]) {
        Ok(bindings) => write_files(
            out,
            &Package {
                files,
                sources,
                locals,
                bindings: &bindings,
            },
        ),
        Err(_) => bail!("no memory"),
    }
}

/// A line for each file of a package, and one for each use in it: where it stands, its name, and what it denotes.
pub fn uses(alloc: Global, texts: &[&[u8]]) -> Result<String> {
    let mut out = String::new(alloc);
    let mut files = Vec::new(alloc);
    let mut sources = Vec::new(alloc);
    let mut locals = Vec::new(alloc);
    match add_files(alloc, texts, &mut files, &mut sources, &mut locals) {
        Ok(true) => write_uses(&mut out, alloc, &files, &sources, &locals)?,
        Ok(false) => writeln!(out, "broken")?,
        Err(_) => bail!("no memory"),
    }
    Ok(out)
}
