//! Of nodes with names, those that have the name of an earlier one.
ghost use Rattle.std.specs.Prelude.{◌≡◌, ◌++◌, [], Some, if◌then◌else◌, length, nat_lt, slice_get, slice_index_or, unwrap_or, IfOk, OnOk};
ghost use Rattle.std.specs.Str.{bytes_eq};
ghost use Rattle.go_tree.specs.Lexeme.{place_of};
ghost use Rattle.unit_read.specs.Index.{texts_of};
ghost use Rattle.unit_read.specs.Members.{is_later, is_again, again_at, nth_again, all_again};
ghost use Rattle.unit_rows.specs.Redeclared.{AreFirsts};
ghost use Rattle.unit_read.specs.Units.{is_blank};

use go_tree::NodeRef;
use gv_base::NoMemory;
use std::alloc::Global;
use std::collections::HashMap;
use unit_read::{find, index};

fn is_blank(name: &[u8]) -> bool
    ensures { result ≡ is_blank name.now }
{
    name == b"_".as_slice()
}

fn is_later(i: usize, first: Option<usize>) -> bool
    ensures { result ≡ is_later i first }
{
    match first {
        Some(first) => first < i,
        None => false,
    }
}

fn is_same(name: &[u8], other: &[u8]) -> bool
    ensures { result ≡ bytes_eq name.now other.now }
{
    name == other
}

/// The first place, where this is another place of the name or none.
fn kept_first(first: Option<usize>, place: usize, is_here: bool) -> Option<usize>
    ensures { result ≡ (if is_here then Some (unwrap_or first place) else first) }
{
    if !is_here {
        return first;
    }
    match first {
        Some(first) => Some(first),
        None => Some(place),
    }
}

/// The first place of a name in a list, which is read through.
fn first_place(names: &[&[u8]], name: &[u8]) -> Option<usize>
    ensures { result ≡ place_of (texts_of names.now) name.now }
{
    let mut first = None;
    for i in 0..names.len() {
        let is_here = is_same(names[i], name);
        first = kept_first(first, i, is_here);
    }
    first
}

/// Whether the names are so few that a list of them is read through sooner than a map is made of them.
fn are_few(names: &[&[u8]]) -> bool
    ensures { result ≡ nat_lt (length names.now) 9 }
{
    names.len() < 9
}

/// The first place of a name, which a map has where the names aren't few.
fn place_in(names: &[&[u8]], firsts: &HashMap<&[u8], usize>, name: &[u8]) -> Option<usize>
    requires { AreFirsts names.now firsts.now }
    ensures { result ≡ place_of (texts_of names.now) name.now }
{
    if are_few(names) {
        return first_place(names, name);
    }
    find(firsts, name)
}

/// Whether a name that stands at a place stands at an earlier one too.
fn stands_before(names: &[&[u8]], firsts: &HashMap<&[u8], usize>, i: usize, name: &[u8]) -> bool
    requires { AreFirsts names.now firsts.now }
    ensures { result ≡ is_again (texts_of names.now) i name.now }
{
    if is_blank(name) {
        return false;
    }
    is_later(i, place_in(names, firsts, name))
}

fn nth_name<'a>(names: &[&'a [u8]], i: usize) -> &'a [u8]
    ensures { result.now ≡ slice_index_or (texts_of names.now) i [] }
{
    if i < names.len() { names[i] } else { &[] }
}

/// Whether the name at a place stands at an earlier one too.
fn is_again(names: &[&[u8]], firsts: &HashMap<&[u8], usize>, i: usize) -> bool
    requires { AreFirsts names.now firsts.now }
    ensures { result ≡ is_again (texts_of names.now) i (slice_index_or (texts_of names.now) i []) }
{
    stands_before(names, firsts, i, nth_name(names, i))
}

fn add_at(
    names: &[&[u8]],
    firsts: &HashMap<&[u8], usize>,
    i: usize,
    at: NodeRef,
    out: &mut Vec<NodeRef>,
) -> Result<(), NoMemory>
    requires { AreFirsts names.now firsts.now }
    ensures { OnOk result (out.new.items ≡ out.old.items ++ again_at (texts_of names.now) i at) }
{
    if is_again(names, firsts, i) {
        out.push(at)?;
    }
    Ok(())
}

fn nth_node(nodes: &[NodeRef], i: usize) -> Option<NodeRef>
    ensures { result ≡ slice_get nodes.now i }
{
    nodes.get(i).copied()
}

fn add_nth(
    names: &[&[u8]],
    nodes: &[NodeRef],
    firsts: &HashMap<&[u8], usize>,
    i: usize,
    out: &mut Vec<NodeRef>,
) -> Result<(), NoMemory>
    requires { AreFirsts names.now firsts.now }
    ensures { OnOk result (out.new.items ≡ out.old.items ++ nth_again (texts_of names.now) nodes.now i) }
{
    if let Some(at) = nth_node(nodes, i) {
        add_at(names, firsts, i, at, out)?;
    }
    Ok(())
}

fn add_each(
    names: &[&[u8]],
    nodes: &[NodeRef],
    firsts: &HashMap<&[u8], usize>,
    out: &mut Vec<NodeRef>,
) -> Result<(), NoMemory>
    requires { AreFirsts names.now firsts.now }
    ensures { OnOk result (out.new.items ≡ out.old.items ++ all_again (texts_of names.now) nodes.now) }
{
    for i in 0..nodes.len() {
        add_nth(names, nodes, firsts, i, out)?;
    }
    Ok(())
}

/// The first place of each name, where they aren't few.
fn firsts_of<'a>(alloc: Global, names: &[&'a [u8]]) -> Result<HashMap<&'a [u8], usize>, NoMemory>
    ensures { IfOk result (λ firsts. AreFirsts names.now firsts) }
{
    if are_few(names) {
        return Ok(HashMap::new(alloc));
    }
    let firsts = index(alloc, names)?;
    Ok(firsts)
}

/// Adds those of some nodes with these names that have the name of an earlier one.
pub fn add_again(
    alloc: Global,
    names: &[&[u8]],
    nodes: &[NodeRef],
    out: &mut Vec<NodeRef>,
) -> Result<(), NoMemory>
    ensures { OnOk result (out.new.items ≡ out.old.items ++ all_again (texts_of names.now) nodes.now) }
{
    let firsts = firsts_of(alloc, names)?;
    add_each(names, nodes, &firsts, out)?;
    Ok(())
}
