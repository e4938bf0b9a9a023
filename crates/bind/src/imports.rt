//! The names that the imports of a file declare (Go 1.17, "Import declarations").
ghost use Rattle.std.specs.Prelude.{◌≡◌, ◌<◌, ◌++◌, ◌==◌, ◌+◌, [], ℕ, List, IfOk, OnOk, length, option_map, cond, map, drop, get_or, slice_get};
ghost use Rattle.bind.specs.Imports.{piece_specs, specs_in, last_segment, default_name, line_name, package_of};
ghost use Rattle.bind.specs.Package.{listed};
ghost use Rattle.bind.specs.Places.{placed, place_from};
ghost use Rattle.bind.specs.Tables.{pairs};
ghost use Rattle.bind.specs.Imported.{imported};

use crate::places::place_of;
use crate::table::Declared;
use go_tree::{FileTree, ImportLine, LocalName, NodeRef, is_import};
use gv_base::{NoMemory, Text};
use std::alloc::Global;
use std::collections::HashMap;

fn push_all(parts: &[u32], out: &mut Vec<u32>) -> Result<(), NoMemory>
    ensures { OnOk result (out.new.items ≡ out.old.items ++ parts.now) }
{
    for part in parts {
        out.push(*part)?;
    }
    Ok(())
}

/// Adds the specs of the imports in a piece.
fn push_specs(tree: &FileTree, top: u32, out: &mut Vec<u32>) -> Result<(), NoMemory>
    ensures { OnOk result (out.new.items ≡ out.old.items ++ piece_specs tree.now top) }
{
    if is_import(tree.kind(top)) {
        push_all(tree.parts(top), out)?;
    }
    Ok(())
}

/// The nodes of the specifications of a file's imports, in turn.
pub fn specs_in(alloc: Global, tree: &FileTree) -> Result<Vec<u32>, NoMemory>
    ensures { IfOk result (λ specs. specs.items ≡ specs_in tree.now tree.now.tops) }
{
    let mut out = Vec::new(alloc);
    for top in tree.tops.as_slice() {
        push_specs(tree, *top, &mut out)?;
    }
    Ok(out)
}

/// What stands from a place on.
fn behind(bytes: &[u8], place: usize) -> &[u8]
    ensures { result.now ≡ drop place bytes.now }
{
    if place < bytes.len() {
        &bytes[place..]
    } else {
        &bytes[..0]
    }
}

/// What stands behind a place, where a slash stands there.
fn next_segment<'a>(path: &'a [u8], at: usize, segment: &'a [u8]) -> &'a [u8]
    requires { at < length path.now }
    ensures { result.now ≡ cond (get_or path.now at 0 == 47) (drop (at + 1) path.now) segment.now }
{
    if path[at] == b'/' {
        behind(path, at + 1)
    } else {
        segment
    }
}

/// What stands behind the last slash of an import path: the name of a package that isn't known.
pub fn last_segment(path: &[u8]) -> &[u8]
    ensures { result.now ≡ last_segment path.now }
{
    let mut segment = path;
    for at in 0..path.len() {
        segment = next_segment(path, at, segment);
    }
    segment
}

/// The paths of the packages.
pub fn paths_of<'a>(alloc: Global, named: &'a [(Text, Text)]) -> Result<Vec<&'a [u8]>, NoMemory>
    ensures { IfOk result (λ paths. map (λ n. n.now) paths.items ≡ map (λ e. e.0) named.now) }
{
    let mut paths = Vec::new(alloc);
    for entry in named {
        paths.push(entry.0.as_str().as_bytes())?;
    }
    Ok(paths)
}

/// The name of the package at a place.
fn name_at(named: &[(Text, Text)], place: usize) -> Option<&[u8]>
    ensures { option_map (λ n. n.now) result ≡ option_map (λ e. e.1) (slice_get named.now place) }
{
    if place < named.len() {
        Some(named[place].1.as_str().as_bytes())
    } else {
        None
    }
}

/// The name of the package to which a path leads.
fn package_of<'a>(
    named: &'a [(Text, Text)],
    places: &HashMap<&[u8], usize>,
    path: &[u8],
) -> Option<&'a [u8]>
    requires places { (q : List ℕ) → placed places.now q ≡ place_from 0 (map (λ e. e.0) named.now) q }
    ensures { option_map (λ n. n.now) result ≡ package_of named.now path.now }
{
    match place_of(places, path) {
        Some(place) => name_at(named, place),
        None => None,
    }
}

/// The name of an import that has none of its own.
fn default_name<'a>(
    named: &'a [(Text, Text)],
    places: &HashMap<&[u8], usize>,
    path: &'a [u8],
) -> &'a [u8]
    requires places { (q : List ℕ) → placed places.now q ≡ place_from 0 (map (λ e. e.0) named.now) q }
    ensures { result.now ≡ default_name named.now path.now }
{
    match package_of(named, places, path) {
        Some(name) => name,
        None => last_segment(path),
    }
}

/// The name that an import declares.
fn line_name<'a>(
    named: &'a [(Text, Text)],
    places: &HashMap<&[u8], usize>,
    line: &'a ImportLine,
) -> Option<&'a [u8]>
    requires places { (q : List ℕ) → placed places.now q ≡ place_from 0 (map (λ e. e.0) named.now) q }
    ensures { option_map (λ n. n.now) result ≡ line_name named.now line.now }
{
    match &line.local {
        LocalName::Default => Some(default_name(named, places, line.path.as_slice())),
        LocalName::Named(name) => Some(name.as_slice()),
        LocalName::Blank => None,
        LocalName::Dot => None,
    }
}

/// Adds the name that an import declares, if it does.
fn push_import<'a>(
    named: &'a [(Text, Text)],
    places: &HashMap<&[u8], usize>,
    at: NodeRef,
    line: &'a ImportLine,
    out: &mut Vec<Declared<'a>>,
) -> Result<(), NoMemory>
    requires places { (q : List ℕ) → placed places.now q ≡ place_from 0 (map (λ e. e.0) named.now) q }
    ensures { OnOk result (pairs out.new.items ≡ pairs out.old.items ++ listed (line_name named.now line.now) at) }
{
    match line_name(named, places, line) {
        Some(name) => {
            out.push(Declared { name, at })?;
            Ok(())
        }
        None => Ok(()),
    }
}

/// The names that the imports of a file declare, each at its spec.
pub fn import_names<'a>(
    alloc: Global,
    named: &'a [(Text, Text)],
    places: &HashMap<&[u8], usize>,
    file: u32,
    specs: &[u32],
    lines: &'a [ImportLine],
) -> Result<Vec<Declared<'a>>, NoMemory>
    requires places { (q : List ℕ) → placed places.now q ≡ place_from 0 (map (λ e. e.0) named.now) q }
    requires lines { length lines.now ≡ length specs.now }
    ensures { IfOk result (λ out. pairs out.items ≡ imported named.now file specs.now lines.now) }
{
    let mut out = Vec::new(alloc);
    for place in 0..specs.len() {
        let at = NodeRef {
            file,
            node: specs[place],
        };
        let line = &lines[place];
        push_import(named, places, at, line, &mut out)?;
    }
    Ok(out)
}
