//! Which names are declared before at package level.
ghost use Rattle.std.specs.Prelude.{◌≡◌, ◌++◌, map, IfOk, OnOk};
ghost use Rattle.unit_read.specs.Index.{texts_of};
ghost use Rattle.unit_read.specs.Subjects.{unit_of};
ghost use Rattle.unit_read.specs.Units.{name_at};
ghost use Rattle.unit_rows.specs.Drafts.{IsPlaced};
ghost use Rattle.unit_rows.specs.Redeclared.{kind_of, kind_around, is_method, is_function, is_init, is_in_block, if_in_block, nth_name, nth_in_block, all_in_block, named_again};

use crate::again::add_again;
use crate::top::{around, is_top};
use go_tree::{NodeKind, NodeRef};
use gv_base::NoMemory;
use object_order::Entry;
use std::alloc::Global;
use unit_read::Subject;

/// The kind of a node; that of a package clause, where there is no such node.
fn kind_of(s: &Subject, at: NodeRef) -> NodeKind
    ensures { result ≡ kind_of (unit_of s.now) at }
{
    match s.node_at(at) {
        Some(node) => node.kind,
        None => NodeKind::Package,
    }
}

fn kind_around(s: &Subject, at: NodeRef) -> NodeKind
    requires { IsPlaced s.now }
    ensures { result ≡ kind_around (unit_of s.now) at }
{
    match around(s, at) {
        Some(node) => kind_of(s, node),
        None => NodeKind::Package,
    }
}

fn is_method(kind: NodeKind) -> bool
    ensures { result ≡ is_method kind }
{
    match kind {
        NodeKind::MethodDecl => true,
        _ => false,
    }
}

fn is_function(kind: NodeKind) -> bool
    ensures { result ≡ is_function kind }
{
    match kind {
        NodeKind::FuncDecl => true,
        _ => false,
    }
}

/// Whether this is the name of a function `init`.
fn is_init(s: &Subject, at: NodeRef) -> bool
    requires { IsPlaced s.now }
    ensures { result ≡ is_init (unit_of s.now) at }
{
    if is_function(kind_around(s, at)) {
        s.name_at(at) == b"init".as_slice()
    } else {
        false
    }
}

/// Whether a name is declared in the package block.
fn is_in_block(s: &Subject, at: NodeRef) -> bool
    requires { IsPlaced s.now }
    ensures { result ≡ is_in_block (unit_of s.now) at }
{
    if !is_top(s, at) {
        return false;
    }
    if is_method(kind_around(s, at)) {
        false
    } else {
        !is_init(s, at)
    }
}

fn add_name(s: &Subject, at: NodeRef, out: &mut Vec<NodeRef>) -> Result<(), NoMemory>
    requires { IsPlaced s.now }
    ensures { OnOk result (out.new.items ≡ out.old.items ++ if_in_block (unit_of s.now) at) }
{
    if is_in_block(s, at) {
        out.push(at)?;
    }
    Ok(())
}

fn nth_name(entries: &[Entry], i: usize) -> Option<NodeRef>
    ensures { result ≡ nth_name entries.now i }
{
    match entries.get(i) {
        Some(entry) => Some(entry.name),
        None => None,
    }
}

fn add_nth(s: &Subject, entries: &[Entry], i: usize, out: &mut Vec<NodeRef>) -> Result<(), NoMemory>
    requires { IsPlaced s.now }
    ensures { OnOk result (out.new.items ≡ out.old.items ++ nth_in_block (unit_of s.now) entries.now i) }
{
    if let Some(at) = nth_name(entries, i) {
        add_name(s, at, out)?;
    }
    Ok(())
}

/// Of some declarations the names in the package block: of all of a package's those of its package block, in order of file and node.
pub fn all_in_block(alloc: Global, s: &Subject, entries: &[Entry]) -> Result<Vec<NodeRef>, NoMemory>
    requires { IsPlaced s.now }
    ensures { IfOk result (λ names. names.items ≡ all_in_block (unit_of s.now) entries.now) }
{
    let mut out = Vec::new(alloc);
    for i in 0..entries.len() {
        add_nth(s, entries, i, &mut out)?;
    }
    Ok(out)
}

fn spelled<'a>(alloc: Global, s: &Subject<'a>, nodes: &[NodeRef]) -> Result<Vec<&'a [u8]>, NoMemory>
    ensures { IfOk result (λ texts. texts_of texts.items ≡ map (name_at (unit_of s.now)) nodes.now) }
{
    let mut texts = Vec::new(alloc);
    for node in nodes {
        texts.push(s.name_at(*node))?;
    }
    Ok(texts)
}

/// Of some nodes those whose name an earlier one has.
pub fn named_again(alloc: Global, s: &Subject, nodes: &[NodeRef]) -> Result<Vec<NodeRef>, NoMemory>
    ensures { IfOk result (λ list. list.items ≡ named_again (unit_of s.now) nodes.now) }
{
    let texts = spelled(alloc, s, nodes)?;
    let mut list = Vec::new(alloc);
    add_again(alloc, &texts, nodes, &mut list)?;
    Ok(list)
}
