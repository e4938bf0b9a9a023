//! What the imports of a package lead to.
ghost use Rattle.std.specs.Prelude.{◌≡◌, [], IfOk, length, slice_index_or, slice_get, if◌then◌else◌};
ghost use Rattle.std.specs.Option.{option_copied};
ghost use Rattle.go_tree.specs.ImportPaths.{are_segments};
ghost use Rattle.unit_read.specs.Environments.{IsEnvironment, faces_in};
ghost use Rattle.unit_read.specs.Imports.{is_import, dot_limit, path_limit, place_within, lead_by};
ghost use Rattle.unit_read.specs.Index.{texts_of};
ghost use Rattle.unit_read.specs.Rows.{IsRow, AreRows, token_bytes, lead_in, lead_for, leads_in};

use crate::environment::Environment;
use crate::first_names::find;
use crate::lead::Lead;
use go_tree::{FileTree, Node, NodeKind, Token, are_segments, text_value, token_text};
use gv_base::NoMemory;
use std::alloc::Global;
use typed_tree::Limit;

fn is_import(kind: NodeKind) -> bool
    ensures { result ≡ is_import kind }
{
    match kind {
        NodeKind::ImportPath => true,
        NodeKind::ImportDot => true,
        NodeKind::ImportNamed => true,
        _ => false,
    }
}

fn dot_limit(kind: NodeKind) -> Option<Limit>
    ensures { result ≡ dot_limit kind }
{
    match kind {
        NodeKind::ImportDot => Some(Limit::DotImport),
        _ => None,
    }
}

/// The limit outside which an import of a path lies.
fn path_limit(path: &[u8], kind: NodeKind) -> Option<Limit>
    ensures { result ≡ path_limit path.now kind }
{
    if path == b"unsafe".as_slice() {
        return Some(Limit::Unsafe);
    }
    if path == b"C".as_slice() {
        return Some(Limit::Cgo);
    }
    dot_limit(kind)
}

/// The value of a literal, where it is a path, and nothing else.
fn segments_of(value: &[u8]) -> &[u8]
    ensures { result.now ≡ (if are_segments value.now then value.now else []) }
{
    if are_segments(value) { value } else { &[] }
}

/// The number of the interface that has the path of an import, unless that lies outside a limit.
fn place_within(limit: Option<Limit>, env: &Environment, path: &[u8]) -> Option<usize>
    requires { IsEnvironment env.now }
    ensures { result ≡ place_within limit (faces_in env.now) path.now }
{
    match limit {
        Some(_) => None,
        None => find(&env.paths, path),
    }
}

/// What an import of a literal leads to.
fn lead_by(
    alloc: Global,
    env: &Environment,
    literal: &[u8],
    kind: NodeKind,
) -> Result<Lead, NoMemory>
    requires { IsEnvironment env.now }
    ensures { IfOk result (λ lead. lead ≡ lead_by (faces_in env.now) literal.now kind) }
{
    let value = text_value(alloc, literal)?;
    let limit = path_limit(&value, kind);
    Ok(Lead {
        limit,
        interface: place_within(limit, env, segments_of(&value)),
    })
}

fn token_of(tree: &FileTree, token: u32) -> Option<&Token>
    ensures { option_copied result ≡ slice_get tree.now.tokens token }
{
    tree.tokens.as_slice().get(token as usize)
}

/// The bytes of a token.
fn token_bytes<'a>(source: &'a [u8], tree: &FileTree, token: u32) -> &'a [u8]
    ensures { result.now ≡ token_bytes source.now tree.now token }
{
    match token_of(tree, token) {
        Some(token) => token_text(source, token),
        None => &[],
    }
}

/// What a node leads to.
fn lead_in(
    alloc: Global,
    env: &Environment,
    source: &[u8],
    tree: &FileTree,
    node: &Node,
) -> Result<Option<Lead>, NoMemory>
    requires { IsEnvironment env.now }
    ensures { IfOk result (λ lead. lead ≡ lead_in (faces_in env.now) source.now tree.now node.now) }
{
    if !is_import(node.kind) {
        return Ok(None);
    }
    let lead = lead_by(alloc, env, token_bytes(source, tree, node.last), node.kind)?;
    Ok(Some(lead))
}

/// For each node of a file what it leads to.
fn tree_leads(
    alloc: Global,
    env: &Environment,
    source: &[u8],
    tree: &FileTree,
) -> Result<Vec<Option<Lead>>, NoMemory>
    requires { IsEnvironment env.now }
    ensures { IfOk result (λ row. IsRow (lead_for (faces_in env.now) source.now tree.now) row.items (length tree.now.nodes)) }
{
    let nodes = tree.nodes.as_slice();
    let mut row = Vec::with_capacity(alloc, nodes.len())?;
    for n in 0..nodes.len() {
        let lead = lead_in(alloc, env, source, tree, &nodes[n])?;
        row.push(lead)?;
    }
    Ok(row)
}

/// The bytes of a file.
fn source_of<'a>(sources: &[&'a [u8]], file: usize) -> &'a [u8]
    ensures { result.now ≡ slice_index_or (texts_of sources.now) file [] }
{
    if file < sources.len() {
        sources[file]
    } else {
        &[]
    }
}

/// For each node of each file what it leads to.
pub fn lead_rows(
    alloc: Global,
    env: &Environment,
    sources: &[&[u8]],
    trees: &[FileTree],
) -> Result<Vec<Vec<Option<Lead>>>, NoMemory>
    requires { IsEnvironment env.now }
    ensures { IfOk result (λ rows. AreRows (leads_in (faces_in env.now) (texts_of sources.now)) trees.now rows.items (length trees.now)) }
{
    let mut rows = Vec::new(alloc);
    for file in 0..trees.len() {
        rows.push(tree_leads(alloc, env, source_of(sources, file), &trees[file])?)?;
    }
    Ok(rows)
}
