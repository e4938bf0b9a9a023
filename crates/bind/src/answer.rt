//! What a node denotes.
ghost use Rattle.std.specs.Prelude.{◌≡◌, ◌<◌, ◌==◌, ◌++◌, OnOk, length, get_or, slice_get, option_map, Some, None, bytes_eq, codes, false};
ghost use Rattle.bind.specs.Answers.{Tables, unless_blank, used_name, local_node, narrow_byte, outside, named_answer, answer_of, entry, uses_before};
ghost use Rattle.bind.specs.Package.{ref};
ghost use Rattle.bind.specs.Places.{placed};
ghost use Rattle.bind.specs.Tables.{found};

use crate::file::File;
use crate::places::place_of;
use crate::table::find;
use crate::tops::{count_nodes, narrow, only_if, unless};
use file_uses::{Locals, name_at};
use go_tree::{NodeRef, Object};
use gv_base::NoMemory;
use std::collections::HashMap;

fn is_blank(name: &[u8]) -> bool
    ensures { result ≡ bytes_eq name.now (codes "_") }
{
    name == b"_".as_slice()
}

fn unless_blank(name: Option<&[u8]>) -> Option<&[u8]>
    ensures { option_map (λ o. o.now) result ≡ unless_blank (option_map (λ o. o.now) name.entry) }
{
    match name {
        Some(name) => unless(is_blank(name), name),
        None => None,
    }
}

/// Whether the node is a use, if it is a name.
fn is_flagged(file: &File<'_>, at: usize) -> bool
    ensures { result ≡ get_or file.now.locals.uses.items at false }
{
    let flags = file.locals.uses.as_slice();
    if at < flags.len() { flags[at] } else { false }
}

/// The name that a node uses, if it is a use.
fn used_name<'a>(file: &File<'a>, at: usize) -> Option<&'a [u8]>
    ensures { option_map (λ o. o.now) result ≡ used_name file.now at }
{
    only_if(
        is_flagged(file, at),
        unless_blank(name_at(file.bytes, file.tree, at)),
    )
}

/// The place of the declaration within a function that the node's name denotes.
fn local_place(locals: &Locals, at: usize) -> Option<usize>
    ensures { result ≡ get_or locals.now.answers.items at None }
{
    let answers = locals.answers.as_slice();
    if at < answers.len() {
        answers[at]
    } else {
        None
    }
}

/// The node of the declaration at a place.
fn node_at(locals: &Locals, place: usize) -> Option<usize>
    ensures { result ≡ option_map (λ d. d.node) (slice_get locals.now.names.items place) }
{
    let names = locals.names.as_slice();
    if place < names.len() {
        Some(names[place].node)
    } else {
        None
    }
}

/// The node of the declaration within a function that the node's name denotes.
fn local_node(locals: &Locals, at: usize) -> Option<usize>
    ensures { result ≡ local_node locals.now at }
{
    match local_place(locals, at) {
        Some(place) => node_at(locals, place),
        None => None,
    }
}

fn narrow_byte(number: usize) -> u8
    ensures { result ≡ narrow_byte number }
{
    if number < 256 { number as u8 } else { 0 }
}

/// What a name denotes that is declared outside functions.
fn outside(
    top: Option<NodeRef>,
    imported: Option<NodeRef>,
    universe: Option<usize>,
) -> Option<Object>
    ensures { result ≡ outside top imported universe }
{
    if let Some(at) = top {
        return Some(Object::Package(at));
    }
    if let Some(at) = imported {
        return Some(Object::Import(at));
    }
    match universe {
        Some(place) => Some(Object::Universe(narrow_byte(place))),
        None => None,
    }
}

/// A node of a file.
pub fn ref_to(file: u32, node: usize) -> NodeRef
    ensures { result ≡ ref file node }
{
    NodeRef {
        file,
        node: narrow(node),
    }
}

/// What a name denotes at a node of a file.
fn named_answer(
    file: &File<'_>,
    number: u32,
    top_names: &HashMap<&[u8], NodeRef>,
    imports: &HashMap<&[u8], NodeRef>,
    universe: &HashMap<&[u8], usize>,
    at: usize,
    name: &[u8],
) -> Option<Object>
    ensures { result ≡ named_answer file.now number (record { top_names = found top_names.now; imports = found imports.now; universe = placed universe.now }) at (Some name.now) }
{
    match local_node(&file.locals, at) {
        Some(node) => Some(Object::Local(ref_to(number, node))),
        None => outside(
            find(top_names, name),
            find(imports, name),
            place_of(universe, name),
        ),
    }
}

/// What a node denotes.
fn answer_of(
    file: &File<'_>,
    number: u32,
    top_names: &HashMap<&[u8], NodeRef>,
    imports: &HashMap<&[u8], NodeRef>,
    universe: &HashMap<&[u8], usize>,
    at: usize,
) -> Option<Object>
    ensures { result ≡ answer_of file.now number (record { top_names = found top_names.now; imports = found imports.now; universe = placed universe.now }) at }
{
    match used_name(file, at) {
        Some(name) => named_answer(file, number, top_names, imports, universe, at, name),
        None => None,
    }
}

/// Adds the node with what it denotes, if it does.
fn push_use(
    file: &File<'_>,
    number: u32,
    top_names: &HashMap<&[u8], NodeRef>,
    imports: &HashMap<&[u8], NodeRef>,
    universe: &HashMap<&[u8], usize>,
    at: usize,
    out: &mut Vec<(NodeRef, Object)>,
) -> Result<(), NoMemory>
    ensures { OnOk result (out.new.items ≡ out.old.items ++ entry (ref number at) (answer_of file.now number (record { top_names = found top_names.now; imports = found imports.now; universe = placed universe.now }) at)) }
{
    match answer_of(file, number, top_names, imports, universe, at) {
        Some(object) => {
            out.push((ref_to(number, at), object))?;
            Ok(())
        }
        None => Ok(()),
    }
}

/// Adds the uses in a file, each with what it denotes.
pub fn push_uses(
    file: &File<'_>,
    number: u32,
    top_names: &HashMap<&[u8], NodeRef>,
    imports: &HashMap<&[u8], NodeRef>,
    universe: &HashMap<&[u8], usize>,
    out: &mut Vec<(NodeRef, Object)>,
) -> Result<(), NoMemory>
    ensures { OnOk result (out.new.items ≡ out.old.items ++ uses_before file.now number (record { top_names = found top_names.now; imports = found imports.now; universe = placed universe.now }) (length file.now.tree.now.nodes)) }
{
    for at in 0..count_nodes(file) {
        push_use(file, number, top_names, imports, universe, at, out)?;
    }
    Ok(())
}
