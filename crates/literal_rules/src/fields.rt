//! The fields of struct types, and the field of a name.
ghost use Rattle.std.specs.Prelude.{◌≡◌, ◌<◌, ◌||◌, ℕ, List, Some, None, if◌then◌else◌, length, map, nat_eq, option_and_then, slice_get};
ghost use Rattle.std.specs.Option.{option_copied};
ghost use Rattle.std.specs.Str.{bytes_eq};
ghost use Rattle.go_tree.specs.Lexeme.{place_of};
ghost use Rattle.type_model.specs.GoTypes.{FieldsBelow};
ghost use Rattle.type_model.specs.Tables.{count, IsTable};
ghost use Rattle.unit_read.specs.Subjects.{unit_of};
ghost use Rattle.rule_words.specs.Scenes.{type_in, IsTypeOf};
ghost use Rattle.literal_rules.specs.Structs.{is_visible, if_visible, field_names, has_name, place_near, named_field, field_place, field_key};
ghost use Rattle.literal_rules.specs.InCode.{fields_in, field_in, last_byte};

use crate::forms::is_name;
use crate::items::either;
use go_tree::{Node, NodeRef};
use package_objects::kind_of;
use rule_words::is_blank;
use type_model::{Field, Term, TypeId};
use typed_marks::State;
use unit_read::Subject;

pub fn same(a: &[u8], b: &[u8]) -> bool
    ensures { result ≡ bytes_eq a.now b.now }
{
    a == b
}

/// The fields of a struct type.
pub fn fields_of(s: &State, of: TypeId) -> &[Field]
    requires table { IsTable s.now.table }
    requires within { IsTypeOf s.now of }
    ensures is { map (field_in s.now) result.now ≡ fields_in (type_in s.now of) }
    ensures below { FieldsBelow (count s.now.table) result.now }
{
    match s.table.term(of) {
        Term::Struct(fields) => fields.as_slice(),
        Term::Basic(_) => &[],
        Term::Defined(_) => &[],
        Term::Pointer(_) => &[],
        Term::Slice(_) => &[],
        Term::Array(_, _) => &[],
        Term::Map(_, _) => &[],
        Term::Chan(_, _) => &[],
        Term::Func(_) => &[],
        Term::Interface(_) => &[],
    }
}

pub fn nth_field(fields: &[Field], i: usize) -> Option<&Field>
    ensures { option_copied result ≡ slice_get fields.now i }
{
    fields.get(i)
}

// ---- a name

pub fn is_visible(s: &State, path: &[u8], f: &Field) -> bool
    ensures { result ≡ is_visible path.now (field_in s.now f.now) }
{
    let _ = s;
    let owner = f.package.as_str().as_bytes();
    either(same(owner, &[]), same(owner, path))
}

fn keep_visible(s: &State, path: &[u8], f: &Field, n: usize) -> Option<usize>
    ensures { result ≡ (if is_visible path.now (field_in s.now f.now) then Some n else None) }
{
    if is_visible(s, path, f) {
        Some(n)
    } else {
        None
    }
}

/// The place, if the field there may be written in a package.
pub fn if_visible(s: &State, path: &[u8], fields: &[Field], n: usize) -> Option<usize>
    ensures { result ≡ if_visible path.now (map (field_in s.now) fields.now) n }
{
    match nth_field(fields, n) {
        Some(f) => keep_visible(s, path, f, n),
        None => None,
    }
}

/// The last byte of a text; 0 where it has none.
fn last_byte(text: &[u8]) -> u8
    ensures { result ≡ last_byte text.now }
{
    match text.last() {
        Some(byte) => *byte,
        None => 0,
    }
}

fn end_alike(a: &[u8], b: &[u8]) -> bool
    ensures { result ≡ nat_eq (last_byte a.now) (last_byte b.now) }
{
    last_byte(a) == last_byte(b)
}

fn name_of(f: &Field) -> &[u8]
    ensures { result.now ≡ f.now.name }
{
    f.name.as_str().as_bytes()
}

/// Whether a field has this name. Names that end alike are looked at in full, since those of many fields mostly begin alike.
fn is_named(f: &Field, name: &[u8]) -> bool
    ensures { result ≡ bytes_eq f.now.name name.now }
{
    let own = name_of(f);
    if !end_alike(own, name) {
        return false;
    }
    same(own, name)
}

/// Whether a field of this name stands at a place.
pub fn has_name(s: &State, fields: &[Field], i: usize, name: &[u8]) -> bool
    ensures { result ≡ has_name (map (field_in s.now) fields.now) i name.now }
{
    let _ = s;
    match nth_field(fields, i) {
        Some(f) => is_named(f, name),
        None => false,
    }
}

// ---- the field of a name, found one by one

fn listed(fields: &[Field], i: usize) -> &Field
    requires { i < length fields.now }
    ensures { slice_get fields.now i ≡ Some result.now }
{
    &fields[i]
}

/// The first field of a name.
fn place_among(s: &State, fields: &[Field], name: &[u8]) -> Option<usize>
    ensures { result ≡ place_of (field_names (map (field_in s.now) fields.now)) name.now }
{
    let _ = s;
    for i in 0..fields.len() {
        if is_named(listed(fields, i), name) {
            return Some(i);
        }
    }
    None
}

fn near_among(s: &State, fields: &[Field], i: usize, name: &[u8]) -> Option<usize>
    ensures { result ≡ place_near (map (field_in s.now) fields.now) i name.now }
{
    if has_name(s, fields, i, name) {
        Some(i)
    } else {
        place_among(s, fields, name)
    }
}

fn named_among(s: &State, path: &[u8], fields: &[Field], i: usize, name: &[u8]) -> Option<usize>
    ensures { result ≡ named_field path.now (map (field_in s.now) fields.now) i name.now }
{
    match near_among(s, fields, i, name) {
        Some(n) => if_visible(s, path, fields, n),
        None => None,
    }
}

fn field_among(s: &State, path: &[u8], fields: &[Field], i: usize, name: &[u8]) -> Option<usize>
    ensures { result ≡ field_place path.now (map (field_in s.now) fields.now) i name.now }
{
    if is_blank(name) {
        None
    } else {
        named_among(s, path, fields, i, name)
    }
}

/// The place of the field that a key names, for an element at a place; found one by one, unless it stands at that place.
pub fn key_among(
    u: &Subject,
    s: &State,
    file: u32,
    fields: &[Field],
    nodes: &[Node],
    i: usize,
    k: u32,
) -> Option<usize>
    ensures { result ≡ field_key (unit_of u.now) file (map (field_in s.now) fields.now) nodes.now i k }
{
    if is_name(kind_of(nodes, k)) {
        field_among(s, u.path, fields, i, u.name_at(NodeRef { file, node: k }))
    } else {
        None
    }
}

pub fn keyed_among(
    u: &Subject,
    s: &State,
    file: u32,
    fields: &[Field],
    nodes: &[Node],
    i: usize,
    key: Option<u32>,
) -> Option<usize>
    ensures { result ≡ option_and_then (field_key (unit_of u.now) file (map (field_in s.now) fields.now) nodes.now i) key }
{
    match key {
        Some(k) => key_among(u, s, file, fields, nodes, i, k),
        None => None,
    }
}
