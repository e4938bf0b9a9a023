//! The order of need of a package's objects.
ghost use Rattle.conformance.specs.Ready.{AreReady};

use crate::parsed::add_files;
use anyhow::{Result, bail};
use bind::bind;
use bundles::shown;
use go_tree::{FileTree, token_text};
use gv_base::{Bytes, NoMemory, Text};
use object_order::Needed;
use package_needs::needs_order;
use std::alloc::Global;
use std::fmt::Write;

/// The most files of a package.
const MOST: usize = 1 << 16;

/// The objects in the order of their declarations. None where the files are too many.
fn objects_in(
    alloc: Global,
    trees: &[FileTree],
    sources: &[(Text, Bytes)],
) -> Result<Option<Vec<Needed>>, NoMemory>
    requires { AreReady trees.now sources.now }
{
    if trees.len() > MOST {
        return Ok(None);
    }
    let bindings = bind(alloc, trees, sources, &[])?;
    let mut objects = needs_order(alloc, &bindings, trees, &Vec::new(alloc))?;
    objects.sort_by_key(|needed| (needed.object.file, needed.object.node))?;
    Ok(Some(objects))
}

/// The text of a node's first token.
fn text_of<'a>(text: &'a [u8], tree: &FileTree, at: usize) -> &'a [u8] {
    let nodes = tree.nodes.as_slice();
    let tokens = tree.tokens.as_slice();
    if at < nodes.len() {
        let first = nodes[at].first as usize;
        if first < tokens.len() {
            let token = tokens[first];
            return token_text(text, &token);
        }
    }
    b""
}

fn write_objects(
    out: &mut String,
    texts: &[&[u8]],
    trees: &[FileTree],
    objects: &[Needed],
) -> Result<()> {
    for (at, needed) in objects.iter().enumerate() {
        let file = needed.object.file as usize;
        if file >= trees.len() || file >= texts.len() {
            bail!("an object outside the files");
        }
        let name = shown(text_of(texts[file], &trees[file], needed.object.node as usize));
        let mark = if needed.cyclic { "!" } else { "" };
        let between = if at > 0 { " " } else { "" };
        write!(out, "{between}{name}{mark}")?;
    }
    Ok(())
}

/// The objects of the files of a package in the order of their declarations, with a `!` behind each that needs itself.
pub fn needs(alloc: Global, texts: &[&[u8]]) -> Result<String> {
    let mut out = String::new(alloc);
    let mut trees = Vec::new(alloc);
    let mut sources = Vec::new(alloc);
    let mut locals = Vec::new(alloc);
    match add_files(alloc, texts, &mut trees, &mut sources, &mut locals) {
        Ok(true) => match objects_in(alloc, &trees, &sources) {
            Ok(Some(objects)) => write_objects(&mut out, texts, &trees, objects.as_slice())?,
            Ok(None) => bail!("too many files"),
            Err(_) => bail!("no memory"),
        },
        Ok(false) => write!(out, "broken")?,
        Err(_) => bail!("no memory"),
    }
    Ok(out)
}
