//! Struct types (Go 1.17, "Struct types").
ghost use Rattle.std.specs.Prelude.{◌≡◌, ◌++◌, ◌∷◌, [], Some, map, OnOk, IfOk};
ghost use Rattle.mark_walk.specs.Telling.{tell};
ghost use Rattle.type_model.specs.GoTypes.{FieldsBelow, fields_of};
ghost use Rattle.type_model.specs.Tables.{types_in, count};
ghost use Rattle.typed_tree.specs.Basics.{HasBasics};
ghost use Rattle.unit_read.specs.Subjects.{unit_of, IsRead};
ghost use Rattle.rule_words.specs.Scenes.{sight, type_in, IsTypeOf, parts_in, AreSeenOf};
ghost use Rattle.rule_words.specs.Steps.{step_in, IsStepOf};
ghost use Rattle.type_rules.specs.Structs.{fields_from, tag_of, field_of, named_field, nth_field, named_fields, embedded_field, fields_by, fields_at, nth_fields, all_fields, struct_rule};
ghost use Rattle.type_rules.specs.Members.{field_in};

use crate::fields::{embedded_name, field_of, tag_of};
use crate::params::{are_good, type_of_part};
use go_tree::{Node, NodeKind, NodeRef};
use gv_base::{Bytes, NoMemory, Row};
use package_objects::{count, item, node_of, part_count, part_of};
use rule_words::good::{gives_type, part_at, silent};
use rule_words::{Seen, Step};
use std::alloc::Global;
use type_model::{Field, Term, TypeId};
use typed_marks::State;
use unit_read::Subject;

fn add_field(s: &State, f: Field, out: &mut Vec<Field>) -> Result<(), NoMemory>
    requires of { IsTypeOf s.now f.of }
    requires below { FieldsBelow (count s.now.table) out.old.items }
    ensures is { OnOk result (map (field_in s.now) out.new.items ≡ map (field_in s.now) out.old.items ++ field_in s.now f ∷ []) }
    ensures below { OnOk result (FieldsBelow (count s.now.table) out.new.items) }
{
    out.push(f)?;
    Ok(())
}

fn add_made(
    alloc: Global,
    u: &Subject,
    s: &State,
    name: &str,
    embedded: bool,
    tag: Bytes,
    of: TypeId,
    out: &mut Vec<Field>,
) -> Result<(), NoMemory>
    requires read { IsRead u.now }
    requires of { IsTypeOf s.now of }
    requires below { FieldsBelow (count s.now.table) out.old.items }
    ensures is { OnOk result (map (field_in s.now) out.new.items ≡ map (field_in s.now) out.old.items ++ field_of (unit_of u.now) name.now embedded tag (type_in s.now of) ∷ []) }
    ensures below { OnOk result (FieldsBelow (count s.now.table) out.new.items) }
{
    let field = field_of(alloc, u, name, embedded, tag, of)?;
    add_field(s, field, out)?;
    Ok(())
}

fn add_named(
    alloc: Global,
    u: &Subject,
    s: &State,
    file: u32,
    node: &Node,
    of: TypeId,
    n: u32,
    out: &mut Vec<Field>,
) -> Result<(), NoMemory>
    requires read { IsRead u.now }
    requires of { IsTypeOf s.now of }
    requires below { FieldsBelow (count s.now.table) out.old.items }
    ensures is { OnOk result (map (field_in s.now) out.new.items ≡ map (field_in s.now) out.old.items ++ named_field (unit_of u.now) file (tag_of (unit_of u.now) file node.now) (type_in s.now of) (Some n)) }
    ensures below { OnOk result (FieldsBelow (count s.now.table) out.new.items) }
{
    let tag = tag_of(alloc, u, file, node)?;
    add_made(
        alloc,
        u,
        s,
        u.name_text(NodeRef { file, node: n }),
        false,
        tag,
        of,
        out,
    )?;
    Ok(())
}

fn add_nth(
    alloc: Global,
    u: &Subject,
    s: &State,
    file: u32,
    nodes: &[Node],
    node: &Node,
    of: TypeId,
    i: usize,
    out: &mut Vec<Field>,
) -> Result<(), NoMemory>
    requires read { IsRead u.now }
    requires of { IsTypeOf s.now of }
    requires below { FieldsBelow (count s.now.table) out.old.items }
    ensures is { OnOk result (map (field_in s.now) out.new.items ≡ map (field_in s.now) out.old.items ++ nth_field (unit_of u.now) file nodes.now node.now (type_in s.now of) i) }
    ensures below { OnOk result (FieldsBelow (count s.now.table) out.new.items) }
{
    if let Some(n) = item(nodes, part_of(node, 0), i) {
        add_named(alloc, u, s, file, node, of, n, out)?;
    }
    Ok(())
}

/// Adds the fields of the names that one type is written for.
fn add_names(
    alloc: Global,
    u: &Subject,
    s: &State,
    file: u32,
    nodes: &[Node],
    node: &Node,
    of: TypeId,
    out: &mut Vec<Field>,
) -> Result<(), NoMemory>
    requires read { IsRead u.now }
    requires of { IsTypeOf s.now of }
    requires below { FieldsBelow (count s.now.table) out.old.items }
    ensures is { OnOk result (map (field_in s.now) out.new.items ≡ map (field_in s.now) out.old.items ++ named_fields (unit_of u.now) file nodes.now node.now (type_in s.now of)) }
    ensures below { OnOk result (FieldsBelow (count s.now.table) out.new.items) }
{
    for i in 0..count(nodes, part_of(node, 0)) {
        add_nth(alloc, u, s, file, nodes, node, of, i, out)?;
    }
    Ok(())
}

fn add_embedded(
    alloc: Global,
    u: &Subject,
    s: &State,
    file: u32,
    node: &Node,
    of: TypeId,
    out: &mut Vec<Field>,
) -> Result<(), NoMemory>
    requires read { IsRead u.now }
    requires of { IsTypeOf s.now of }
    requires below { FieldsBelow (count s.now.table) out.old.items }
    ensures is { OnOk result (map (field_in s.now) out.new.items ≡ map (field_in s.now) out.old.items ++ embedded_field (unit_of u.now) file node.now (type_in s.now of)) }
    ensures below { OnOk result (FieldsBelow (count s.now.table) out.new.items) }
{
    let tag = tag_of(alloc, u, file, node)?;
    add_made(
        alloc,
        u,
        s,
        embedded_name(u, file, node),
        true,
        tag,
        of,
        out,
    )?;
    Ok(())
}

fn add_by_kind(
    alloc: Global,
    u: &Subject,
    s: &State,
    file: u32,
    nodes: &[Node],
    node: &Node,
    of: TypeId,
    out: &mut Vec<Field>,
) -> Result<(), NoMemory>
    requires read { IsRead u.now }
    requires of { IsTypeOf s.now of }
    requires below { FieldsBelow (count s.now.table) out.old.items }
    ensures is { OnOk result (map (field_in s.now) out.new.items ≡ map (field_in s.now) out.old.items ++ fields_by (unit_of u.now) file nodes.now (type_in s.now of) node.now.kind node.now) }
    ensures below { OnOk result (FieldsBelow (count s.now.table) out.new.items) }
{
    match node.kind {
        NodeKind::Field => add_names(alloc, u, s, file, nodes, node, of, out)?,
        NodeKind::Embedded => add_embedded(alloc, u, s, file, node, of, out)?,
        NodeKind::EmbeddedPointer => add_embedded(alloc, u, s, file, node, of, out)?,
        _ => {}
    }
    Ok(())
}

fn add_at(
    alloc: Global,
    u: &Subject,
    s: &State,
    file: u32,
    nodes: &[Node],
    of: TypeId,
    n: u32,
    out: &mut Vec<Field>,
) -> Result<(), NoMemory>
    requires read { IsRead u.now }
    requires of { IsTypeOf s.now of }
    requires below { FieldsBelow (count s.now.table) out.old.items }
    ensures is { OnOk result (map (field_in s.now) out.new.items ≡ map (field_in s.now) out.old.items ++ fields_at (unit_of u.now) file nodes.now (type_in s.now of) n) }
    ensures below { OnOk result (FieldsBelow (count s.now.table) out.new.items) }
{
    if let Some(node) = node_of(nodes, n) {
        add_by_kind(alloc, u, s, file, nodes, node, of, out)?;
    }
    Ok(())
}

/// Adds the fields of a part of a struct.
fn add_part(
    alloc: Global,
    u: &Subject,
    s: &State,
    file: u32,
    node: &Node,
    parts: &[Seen],
    i: usize,
    out: &mut Vec<Field>,
) -> Result<(), NoMemory>
    requires read { IsRead u.now }
    requires basics { HasBasics s.now.table }
    requires parts { AreSeenOf s.now parts.now }
    requires below { FieldsBelow (count s.now.table) out.old.items }
    ensures is { OnOk result (map (field_in s.now) out.new.items ≡ map (field_in s.now) out.old.items ++ nth_fields (unit_of u.now) file node.now (parts_in s.now parts.now) i) }
    ensures below { OnOk result (FieldsBelow (count s.now.table) out.new.items) }
{
    let of = type_of_part(s, part_at(s, parts, i));
    if let Some(n) = part_of(node, i) {
        add_at(alloc, u, s, file, u.nodes_at(file), of, n, out)?;
    }
    Ok(())
}

fn all_fields(
    alloc: Global,
    u: &Subject,
    s: &State,
    file: u32,
    node: &Node,
    parts: &[Seen],
) -> Result<Vec<Field>, NoMemory>
    requires read { IsRead u.now }
    requires basics { HasBasics s.now.table }
    requires parts { AreSeenOf s.now parts.now }
    ensures are { IfOk result (λ list. map (field_in s.now) list.items ≡ all_fields (unit_of u.now) file node.now (parts_in s.now parts.now)) }
    ensures below { IfOk result (λ list. FieldsBelow (count s.now.table) list.items) }
{
    let mut out = Vec::new(alloc);
    for i in 0..part_count(node) {
        add_part(alloc, u, s, file, node, parts, i, &mut out)?;
    }
    Ok(out)
}

fn field_row(
    alloc: Global,
    u: &Subject,
    s: &State,
    file: u32,
    node: &Node,
    parts: &[Seen],
) -> Result<Vec<Field>, NoMemory>
    requires read { IsRead u.now }
    requires basics { HasBasics s.now.table }
    requires parts { AreSeenOf s.now parts.now }
    ensures are { IfOk result (λ list. fields_of (types_in s.now.table) list.items ≡ fields_from (all_fields (unit_of u.now) file node.now (parts_in s.now parts.now))) }
    ensures below { IfOk result (λ list. FieldsBelow (count s.now.table) list.items) }
{
    let list = all_fields(alloc, u, s, file, node, parts)?;
    Ok(list)
}

/// A struct type.
pub fn structure(
    alloc: Global,
    u: &Subject,
    s: &State,
    file: u32,
    node: &Node,
    parts: &[Seen],
) -> Result<Step, NoMemory>
    requires read { IsRead u.now }
    requires basics { HasBasics s.now.table }
    requires parts { AreSeenOf s.now parts.now }
    ensures is { IfOk result (λ step. step_in s.now step ≡ tell (sight s.now) (struct_rule (unit_of u.now) file node.now (parts_in s.now parts.now))) }
    ensures over { IfOk result (IsStepOf s.now) }
{
    if !are_good(s, parts, part_count(node)) {
        return Ok(silent());
    }
    let fields = field_row(alloc, u, s, file, node, parts)?;
    Ok(gives_type(Term::Struct(Row::new(fields))))
}
