//! The members of structs and interfaces, and their names.
ghost use Rattle.std.specs.Prelude.{◌≡◌, ◌++◌, [], IfOk, OnOk};
ghost use Rattle.std.specs.List.{cons_option};
ghost use Rattle.package_objects.specs.Declares.{items};
ghost use Rattle.unit_read.specs.Index.{texts_of};
ghost use Rattle.unit_read.specs.Members.{is_field, is_embedded, is_member, members_of, members_at, nth_members, members_in, type_word, embedded_name, name_by, member_name, member_names};
ghost use Rattle.unit_read.specs.Subjects.{unit_of};

use go_tree::{Node, NodeKind, NodeRef};
use gv_base::NoMemory;
use package_objects::{count, item, node_of, part_count, part_of};
use std::alloc::Global;
use unit_read::Subject;

fn is_field(kind: NodeKind) -> bool
    ensures { result ≡ is_field kind }
{
    match kind {
        NodeKind::Field => true,
        _ => false,
    }
}

fn is_embedded(kind: NodeKind) -> bool
    ensures { result ≡ is_embedded kind }
{
    match kind {
        NodeKind::Embedded => true,
        NodeKind::EmbeddedPointer => true,
        _ => false,
    }
}

fn is_member(kind: NodeKind) -> bool
    ensures { result ≡ is_member kind }
{
    match kind {
        NodeKind::Embedded => true,
        NodeKind::EmbeddedPointer => true,
        NodeKind::Method => true,
        _ => false,
    }
}

fn add_item(item: Option<u32>, out: &mut Vec<u32>) -> Result<(), NoMemory>
    ensures { OnOk result (out.new.items ≡ out.old.items ++ cons_option item []) }
{
    if let Some(n) = item {
        out.push(n)?;
    }
    Ok(())
}

/// Adds the names that a node stands for.
fn add_names(nodes: &[Node], names: Option<u32>, out: &mut Vec<u32>) -> Result<(), NoMemory>
    ensures { OnOk result (out.new.items ≡ out.old.items ++ items nodes.now names) }
{
    for i in 0..count(nodes, names) {
        add_item(item(nodes, names, i), out)?;
    }
    Ok(())
}

/// Adds the members that a node declares.
fn add_of(nodes: &[Node], n: u32, node: &Node, out: &mut Vec<u32>) -> Result<(), NoMemory>
    ensures { OnOk result (out.new.items ≡ out.old.items ++ members_of nodes.now n node.now) }
{
    if is_field(node.kind) {
        add_names(nodes, part_of(node, 0), out)?;
        return Ok(());
    }
    if is_member(node.kind) {
        out.push(n)?;
    }
    Ok(())
}

fn add_at(nodes: &[Node], n: u32, out: &mut Vec<u32>) -> Result<(), NoMemory>
    ensures { OnOk result (out.new.items ≡ out.old.items ++ members_at nodes.now n) }
{
    if let Some(node) = node_of(nodes, n) {
        add_of(nodes, n, node, out)?;
    }
    Ok(())
}

/// Adds the members that a part declares.
fn add_nth(nodes: &[Node], node: &Node, i: usize, out: &mut Vec<u32>) -> Result<(), NoMemory>
    ensures { OnOk result (out.new.items ≡ out.old.items ++ nth_members nodes.now node.now i) }
{
    if let Some(n) = part_of(node, i) {
        add_at(nodes, n, out)?;
    }
    Ok(())
}

/// The nodes at which a struct or an interface declares members, in the order in which they are written.
pub fn members_in(alloc: Global, nodes: &[Node], node: &Node) -> Result<Vec<u32>, NoMemory>
    ensures { IfOk result (λ members. members.items ≡ members_in nodes.now node.now) }
{
    let mut out = Vec::new(alloc);
    for i in 0..part_count(node) {
        add_nth(nodes, node, i, &mut out)?;
    }
    Ok(out)
}

fn type_word<'a>(s: &Subject<'a>, at: NodeRef) -> &'a [u8]
    ensures { result.now ≡ type_word (unit_of s.now) at }
{
    match s.node_at(at) {
        Some(node) => s.spelled(at.file, node.last),
        None => &[],
    }
}

fn embedded_name<'a>(s: &Subject<'a>, file: u32, node: &Node) -> &'a [u8]
    ensures { result.now ≡ embedded_name (unit_of s.now) file node.now }
{
    match part_of(node, 0) {
        Some(n) => type_word(s, NodeRef { file, node: n }),
        None => &[],
    }
}

fn name_by<'a>(s: &Subject<'a>, file: u32, node: &Node) -> &'a [u8]
    ensures { result.now ≡ name_by (unit_of s.now) file node.now }
{
    if is_embedded(node.kind) {
        return embedded_name(s, file, node);
    }
    s.spelled(file, node.first)
}

/// The name of the member that is declared at a node.
fn member_name<'a>(s: &Subject<'a>, at: NodeRef) -> &'a [u8]
    ensures { result.now ≡ member_name (unit_of s.now) at }
{
    match s.node_at(at) {
        Some(node) => name_by(s, at.file, node),
        None => &[],
    }
}

/// The names of some members.
pub fn member_names<'a>(
    alloc: Global,
    s: &Subject<'a>,
    members: &[NodeRef],
) -> Result<Vec<&'a [u8]>, NoMemory>
    ensures { IfOk result (λ names. texts_of names.items ≡ member_names (unit_of s.now) members.now) }
{
    let mut names = Vec::new(alloc);
    for member in members {
        names.push(member_name(s, *member))?;
    }
    Ok(names)
}
