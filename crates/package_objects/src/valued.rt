//! Names with what their declarations rest on.
ghost use Rattle.std.specs.Prelude.{◌≡◌, ◌++◌, ◌&&◌, [], OnOk, IfOk, is_some, slice_get};
ghost use Rattle.std.specs.List.{cons_option};
ghost use Rattle.package_objects.specs.Declares.{rooted, value_place, value_of, is_use, declared_name, roots_of, valued_name, valued, name_of};

use crate::nodes::{count, item, part_of};
use go_tree::{Node, NodeRef};
use gv_base::{NoMemory, Row};
use object_order::{Entry, Form, Role, Root};
use std::alloc::Global;

/// What goes with the names of a specification.
#[derive(Clone, Copy, Drop)]
pub struct Valued {
    /// Whether the only value belongs to each of the names.
    pub several: bool,
    /// What the values are in the declaration.
    pub role: Role,
    /// The type.
    pub typing: Option<Root>,
    /// The node of the values.
    pub values: Option<u32>,
}

/// A node in its role.
pub fn as_root(role: Role, node: Option<u32>) -> Option<Root>
    ensures { result ≡ rooted role node }
{
    match node {
        Some(node) => Some(Root { role, node }),
        None => None,
    }
}

fn both(a: bool, b: bool) -> bool
    ensures { result ≡ (a && b) }
{
    a && b
}

fn place_of_value(several: bool, count: usize, i: usize) -> usize
    ensures { result ≡ value_place several count i }
{
    let shared = both(several, count == 1);
    if shared { 0 } else { i }
}

fn value_at(nodes: &[Node], v: Valued, i: usize) -> Option<Root>
    ensures { result ≡ value_of nodes.now v i }
{
    let count = count(nodes, v.values);
    let place = place_of_value(v.several, count, i);
    as_root(v.role, item(nodes, v.values, place))
}

fn is_some_use(meant: Option<NodeRef>) -> bool
    ensures { result ≡ is_some meant }
{
    match meant {
        Some(_) => true,
        None => false,
    }
}

fn use_at(uses: &[Option<NodeRef>], n: u32) -> Option<Option<NodeRef>>
    ensures { result ≡ slice_get uses.now n }
{
    uses.get(n as usize).copied()
}

/// Whether the node is a use.
fn is_used(uses: &[Option<NodeRef>], n: u32) -> bool
    ensures { result ≡ is_use uses.now n }
{
    match use_at(uses, n) {
        Some(meant) => is_some_use(meant),
        None => false,
    }
}

/// Adds a root, if there is one.
pub fn put_root(roots: &mut Vec<Root>, root: Option<Root>) -> Result<(), NoMemory>
    ensures { OnOk result (roots.new.items ≡ roots.old.items ++ cons_option root []) }
{
    if let Some(root) = root {
        roots.push(root)?;
    }
    Ok(())
}

/// Adds the declaration of a name, unless the name is a use.
pub fn add_name(
    file: u32,
    form: Form,
    uses: &[Option<NodeRef>],
    roots: Vec<Root>,
    n: u32,
    out: &mut Vec<Entry>,
) -> Result<(), NoMemory>
    ensures { OnOk result (out.new.items ≡ out.old.items ++ declared_name file form uses.now roots.items n) }
{
    if is_used(uses, n) {
        return Ok(());
    }
    let name = NodeRef { file, node: n };
    out.push(Entry {
        name,
        form,
        roots: Row::new(roots),
    })?;
    Ok(())
}

fn roots_at(alloc: Global, nodes: &[Node], v: Valued, i: usize) -> Result<Vec<Root>, NoMemory>
    ensures { IfOk result (λ roots. roots.items ≡ roots_of nodes.now v i) }
{
    let mut roots = Vec::new(alloc);
    put_root(&mut roots, v.typing)?;
    put_root(&mut roots, value_at(nodes, v, i))?;
    Ok(roots)
}

fn add_valued_name(
    alloc: Global,
    file: u32,
    nodes: &[Node],
    uses: &[Option<NodeRef>],
    v: Valued,
    names: Option<u32>,
    i: usize,
    out: &mut Vec<Entry>,
) -> Result<(), NoMemory>
    ensures { OnOk result (out.new.items ≡ out.old.items ++ valued_name file nodes.now uses.now v names i) }
{
    match item(nodes, names, i) {
        Some(n) => {
            let roots = roots_at(alloc, nodes, v, i)?;
            add_name(file, Form::Other, uses, roots, n, out)
        }
        None => Ok(()),
    }
}

/// Adds the names of a specification.
pub fn add_valued(
    alloc: Global,
    file: u32,
    nodes: &[Node],
    uses: &[Option<NodeRef>],
    v: Valued,
    names: Option<u32>,
    out: &mut Vec<Entry>,
) -> Result<(), NoMemory>
    ensures { OnOk result (out.new.items ≡ out.old.items ++ valued file nodes.now uses.now v names) }
{
    let end = count(nodes, names);
    for i in 0..end {
        add_valued_name(alloc, file, nodes, uses, v, names, i, out)?;
    }
    Ok(())
}

/// Adds the name that is a part of a node.
pub fn add_part(
    file: u32,
    form: Form,
    roots: Vec<Root>,
    node: &Node,
    i: usize,
    out: &mut Vec<Entry>,
) -> Result<(), NoMemory>
    ensures { OnOk result (out.new.items ≡ out.old.items ++ name_of file form roots.items node.now i) }
{
    match part_of(node, i) {
        Some(n) => add_name(file, form, &[], roots, n, out),
        None => Ok(()),
    }
}
