//! The parts of fields: their names, packages and tags; and fields whose name an earlier one has.
ghost use Rattle.std.specs.Prelude.{◌≡◌, ◌||◌, IfOk};
ghost use Rattle.mark_walk.specs.Telling.{tell};
ghost use Rattle.package_objects.specs.Declares.{items};
ghost use Rattle.typed_marks.specs.declared.state.State.{State};
ghost use Rattle.unit_read.specs.Members.{type_word, embedded_name};
ghost use Rattle.unit_read.specs.Subjects.{unit_of, IsRead};
ghost use Rattle.rule_words.specs.Scenes.{sight, IsScene, type_in, part_in, IsSeenOf};
ghost use Rattle.rule_words.specs.Steps.{step_in, IsStepOf};
ghost use Rattle.type_rules.specs.Structs.{is_upper, is_exported, owner_of, begins_quoted, tag_in, tag_of, field_of, repeats, repeat_among, field_rule};
ghost use Rattle.type_rules.specs.Members.{field_in};

use crate::types::same;
use go_tree::{Node, NodeRef, text_value};
use gv_base::{Bytes, NoMemory, Text};
use package_objects::{count, item, part_of};
use rule_words::good::silent;
use rule_words::{Seen, Step};
use std::alloc::Global;
use type_model::{Field, TypeId};
use typed_marks::State;
use unicode::properties::GeneralCategory;
use unit_read::Subject;

fn is_upper(category: GeneralCategory) -> bool
    ensures { result ≡ is_upper category }
{
    match category {
        GeneralCategory::UppercaseLetter => true,
        _ => false,
    }
}

pub fn is_exported(name: &str) -> bool
    ensures { result ≡ is_exported name.now }
{
    match name.chars().next() {
        Some(c) => is_upper(GeneralCategory::for_char(c)),
        None => false,
    }
}

/// The package of a name: empty for an exported one.
pub fn owner_of(alloc: Global, u: &Subject, name: &str) -> Result<Text, NoMemory>
    requires { IsRead u.now }
    ensures { IfOk result (λ owner. owner ≡ owner_of (unit_of u.now) name.now) }
{
    if is_exported(name) {
        let none = Text::of(alloc, "")?;
        Ok(none)
    } else {
        let owner = Text::of(alloc, u.path_text())?;
        Ok(owner)
    }
}

fn begins_quoted(text: &[u8]) -> bool
    ensures { result ≡ begins_quoted text.now }
{
    match text {
        [] => false,
        [b, ..] => *b == 34 || *b == 96,
    }
}

fn tag_in(alloc: Global, text: &[u8]) -> Result<Bytes, NoMemory>
    ensures { IfOk result (λ tag. tag ≡ tag_in text.now) }
{
    if begins_quoted(text) {
        let value = text_value(alloc, text)?;
        Ok(Bytes::new(value))
    } else {
        Ok(Bytes::new(Vec::new(alloc)))
    }
}

pub fn tag_of(alloc: Global, u: &Subject, file: u32, node: &Node) -> Result<Bytes, NoMemory>
    ensures { IfOk result (λ tag. tag ≡ tag_of (unit_of u.now) file node.now) }
{
    let tag = tag_in(alloc, u.spelled(file, node.last))?;
    Ok(tag)
}

pub fn field_of(
    alloc: Global,
    u: &Subject,
    name: &str,
    embedded: bool,
    tag: Bytes,
    of: TypeId,
) -> Result<Field, NoMemory>
    requires { IsRead u.now }
    ensures is { IfOk result (λ f. (s : State) → field_in s f ≡ field_of (unit_of u.now) name.now embedded tag (type_in s of)) }
    ensures of { IfOk result (λ f. f.of ≡ of) }
{
    let package = owner_of(alloc, u, name)?;
    let name = Text::of(alloc, name)?;
    Ok(Field {
        name,
        package,
        embedded,
        of,
        tag,
    })
}

fn type_word<'a>(u: &Subject<'a>, at: NodeRef) -> &'a str
    requires { IsRead u.now }
    ensures { result.now ≡ type_word (unit_of u.now) at }
{
    match u.node_at(at) {
        Some(node) => u.spelled_text(at.file, node.last),
        None => "",
    }
}

pub fn embedded_name<'a>(u: &Subject<'a>, file: u32, node: &Node) -> &'a str
    requires { IsRead u.now }
    ensures { result.now ≡ embedded_name (unit_of u.now) file node.now }
{
    match part_of(node, 0) {
        Some(n) => type_word(u, NodeRef { file, node: n }),
        None => "",
    }
}

fn repeats(u: &Subject, file: u32, n: Option<u32>) -> bool
    requires { IsRead u.now }
    ensures { result ≡ repeats (unit_of u.now) file n }
{
    match n {
        Some(n) => u.is_repeat(NodeRef { file, node: n }),
        None => false,
    }
}

fn either(a: bool, b: bool) -> bool
    ensures { result ≡ (a || b) }
{
    a || b
}

fn repeat_among(u: &Subject, file: u32, nodes: &[Node], names: Option<u32>, n: usize) -> bool
    requires { IsRead u.now }
    ensures { result ≡ repeat_among (unit_of u.now) file (items nodes.now names) n }
{
    let mut found = false;
    for i in 0..n {
        found = either(found, repeats(u, file, item(nodes, names, i)));
    }
    found
}

/// A field, from its type.
pub fn field(u: &Subject, s: &State, file: u32, nodes: &[Node], node: &Node, p: Seen) -> Step
    requires scene { IsScene u.now s.now }
    requires part { IsSeenOf s.now p }
    ensures is { step_in s.now result ≡ tell (sight s.now) (field_rule (unit_of u.now) file nodes.now node.now (part_in s.now p)) }
    ensures over { IsStepOf s.now result }
{
    if repeat_among(
        u,
        file,
        nodes,
        part_of(node, 0),
        count(nodes, part_of(node, 0)),
    ) {
        silent()
    } else {
        same(s, p)
    }
}
