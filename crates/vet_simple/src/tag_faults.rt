//! Faults of tags: of what a part of a struct was read to say.
ghost use Rattle.std.specs.Prelude.{◌≡◌, ◌==◌, ℕ, Some, None, not, ◌&&◌, codes, if◌then◌else◌, option_map, IfOk};
ghost use Rattle.std.specs.Option.{option_map_or, option_or};
ghost use Rattle.std.specs.Global.{Vec as OneVec};
ghost use Rattle.findings.specs.Passes.{unit_in, IsPass};
ghost use Rattle.vet_simple.specs.StructTags.{is_field, field_count, written_name, nth_name, field_name, again_text, hidden_by, is_hidden, if_hidden, bad_text};
ghost use Rattle.vet_simple.specs.TagSpots.{AreLines, told_by, or_this, earlier, again_told, fault_in, fault_told};
ghost use Rattle.vet_simple.specs.declared.tags.Pair.{Pair as OnePair};

use crate::tag_texts::{Spots, hidden_by, told_by};
use crate::tags::Pair;
use findings::Pass;
use go_tree::{Node, NodeKind, NodeRef};
use gv_base::NoMemory;
use package_objects::{count, item, part_of};
use std::alloc::Global;
use std::marker::Model;
use type_rules::fields::{embedded_name, is_exported};

// ---- fields

fn is_field(kind: NodeKind) -> bool
    ensures { result ≡ is_field kind }
{
    matches!(kind, NodeKind::Field)
}

pub(crate) fn field_count(p: &Pass, file: u32, node: &Node) -> usize
    ensures { result ≡ field_count (unit_in p.now) file node.now }
{
    match node.kind {
        NodeKind::Field => count(p.subject.nodes_at(file), part_of(node, 0)),
        NodeKind::Embedded => 1,
        NodeKind::EmbeddedPointer => 1,
        _ => 0,
    }
}

fn written_name<'a>(p: &Pass<'a>, file: u32, n: u32) -> &'a str
    requires { IsPass p.now }
    ensures { result.now ≡ written_name (unit_in p.now) file n }
{
    p.subject.name_text(NodeRef { file, node: n })
}

fn nth_name<'a>(p: &Pass<'a>, file: u32, node: &Node, j: usize) -> &'a str
    requires { IsPass p.now }
    ensures { result.now ≡ nth_name (unit_in p.now) file node.now j }
{
    match item(p.subject.nodes_at(file), part_of(node, 0), j) {
        Some(n) => written_name(p, file, n),
        None => "",
    }
}

fn field_name<'a>(p: &Pass<'a>, file: u32, node: &Node, j: usize) -> &'a str
    requires { IsPass p.now }
    ensures { result.now ≡ field_name (unit_in p.now) file node.now j }
{
    if is_field(node.kind) {
        nth_name(p, file, node, j)
    } else {
        embedded_name(p.subject, file, node)
    }
}

// ---- faults

fn is_hidden(node: &Node, name: &str) -> bool
    ensures { result ≡ is_hidden node.now name.now }
{
    is_field(node.kind) && !is_exported(name)
}

fn hidden_in(alloc: Global, name: &str, pairs: &[Pair]) -> Result<Option<Vec<u8>>, NoMemory>
    ensures { IfOk result (λ text. option_map (λ (v : OneVec ℕ). v.items) text ≡ option_or (hidden_by (codes "json") name.now pairs.now) (hidden_by (codes "xml") name.now pairs.now)) }
{
    match hidden_by(alloc, b"json", name, pairs)? {
        Some(text) => Ok(Some(text)),
        None => {
            let text = hidden_by(alloc, b"xml", name, pairs)?;
            Ok(text)
        }
    }
}

fn if_hidden(
    alloc: Global,
    node: &Node,
    name: &str,
    pairs: &[Pair],
) -> Result<Option<Vec<u8>>, NoMemory>
    ensures { IfOk result (λ text. option_map (λ (v : OneVec ℕ). v.items) text ≡ if_hidden node.now name.now pairs.now) }
{
    if is_hidden(node, name) {
        let text = hidden_in(alloc, name, pairs)?;
        Ok(text)
    } else {
        Ok(None)
    }
}

/// What a part was read to say: the pairs of its tag, by what its names are told, and the first of the parts before it that have these.
#[derive(Drop)]
pub(crate) struct Told {
    pub pairs: Option<Vec<Pair>>,
    pub json: Option<Vec<u8>>,
    pub json_before: Option<usize>,
    pub xml: Option<Vec<u8>>,
    pub xml_before: Option<usize>,
}

impl Model for Told {
    ghost use Rattle.vet_simple.specs.TagSpots.{ToldOf};
    ghost use Rattle.std.specs.Prelude.{option_map, ℕ, List};
    ghost use Rattle.std.specs.Global.{Vec};
    ghost use Rattle.vet_simple.specs.declared.tags.Pair.{Pair};

    ghost Value = { ToldOf };

    ghost view = { λ t. record { pairs = option_map (λ (v : Vec Pair). v.items) t.pairs; json = option_map (λ (v : Vec ℕ). v.items) t.json; json_before = t.json_before; xml = option_map (λ (v : Vec ℕ). v.items) t.xml; xml_before = t.xml_before } };
}

fn or_this(before: Option<usize>, i: usize) -> Option<usize>
    ensures { result ≡ or_this before i }
{
    match before {
        Some(b) => Some(b),
        None => Some(i),
    }
}

/// The first part that has the key of this one, as one of its names meets it.
fn earlier(before: Option<usize>, i: usize, j: usize) -> Option<usize>
    ensures { result ≡ earlier before i j }
{
    if j == 0 { before } else { or_this(before, i) }
}

fn json_again(
    alloc: Global,
    p: &Pass,
    s: &Spots,
    file: u32,
    parts: &Node,
    i: usize,
    j: usize,
    name: &str,
    t: &Told,
) -> Result<Option<Vec<u8>>, NoMemory>
    requires { AreLines (unit_in p.now).texts s.now.lines.items }
    ensures { IfOk result (λ text. option_map (λ (v : OneVec ℕ). v.items) text ≡ told_by (again_text s.now.paths.now (unit_in p.now) file parts.now (codes "json") name.now) t.now.json (earlier t.now.json_before i j)) }
{
    let before = earlier(t.json_before, i, j);
    let text = told_by(alloc, p, s, file, parts, b"json", name, &t.json, before)?;
    Ok(text)
}

fn xml_again(
    alloc: Global,
    p: &Pass,
    s: &Spots,
    file: u32,
    parts: &Node,
    i: usize,
    j: usize,
    name: &str,
    t: &Told,
) -> Result<Option<Vec<u8>>, NoMemory>
    requires { AreLines (unit_in p.now).texts s.now.lines.items }
    ensures { IfOk result (λ text. option_map (λ (v : OneVec ℕ). v.items) text ≡ told_by (again_text s.now.paths.now (unit_in p.now) file parts.now (codes "xml") name.now) t.now.xml (earlier t.now.xml_before i j)) }
{
    let before = earlier(t.xml_before, i, j);
    let text = told_by(alloc, p, s, file, parts, b"xml", name, &t.xml, before)?;
    Ok(text)
}

fn again_told(
    alloc: Global,
    p: &Pass,
    s: &Spots,
    file: u32,
    parts: &Node,
    i: usize,
    j: usize,
    name: &str,
    t: &Told,
) -> Result<Option<Vec<u8>>, NoMemory>
    requires { AreLines (unit_in p.now).texts s.now.lines.items }
    ensures { IfOk result (λ text. option_map (λ (v : OneVec ℕ). v.items) text ≡ again_told s.now.paths.now (unit_in p.now) file parts.now i j name.now t.now) }
{
    match json_again(alloc, p, s, file, parts, i, j, name, t)? {
        Some(text) => Ok(Some(text)),
        None => {
            let text = xml_again(alloc, p, s, file, parts, i, j, name, t)?;
            Ok(text)
        }
    }
}

fn bad_text(alloc: Global) -> Result<Vec<u8>, NoMemory>
    ensures { IfOk result (λ text. text.items ≡ bad_text) }
{
    let mut text = Vec::new(alloc);
    text.extend_from_slice(b"struct field tag is not key:\"value\" pairs")?;
    Ok(text)
}

fn pairs_fault(
    alloc: Global,
    p: &Pass,
    s: &Spots,
    file: u32,
    parts: &Node,
    i: usize,
    j: usize,
    node: &Node,
    name: &str,
    t: &Told,
    pairs: &[Pair],
) -> Result<Option<Vec<u8>>, NoMemory>
    requires { AreLines (unit_in p.now).texts s.now.lines.items }
    ensures { IfOk result (λ text. option_map (λ (v : OneVec ℕ). v.items) text ≡ option_or (if_hidden node.now name.now pairs.now) (again_told s.now.paths.now (unit_in p.now) file parts.now i j name.now t.now)) }
{
    match if_hidden(alloc, node, name, pairs)? {
        Some(text) => Ok(Some(text)),
        None => {
            let text = again_told(alloc, p, s, file, parts, i, j, name, t)?;
            Ok(text)
        }
    }
}

fn fault_in(
    alloc: Global,
    p: &Pass,
    s: &Spots,
    file: u32,
    parts: &Node,
    i: usize,
    j: usize,
    node: &Node,
    name: &str,
    t: &Told,
    pairs: &Option<Vec<Pair>>,
) -> Result<Option<Vec<u8>>, NoMemory>
    requires { AreLines (unit_in p.now).texts s.now.lines.items }
    ensures { IfOk result (λ text. option_map (λ (v : OneVec ℕ). v.items) text ≡ fault_in s.now.paths.now (unit_in p.now) file parts.now i j node.now name.now t.now (option_map (λ (v : OneVec OnePair). v.items) pairs.now)) }
{
    match pairs {
        Some(pairs) => {
            let text = pairs_fault(alloc, p, s, file, parts, i, j, node, name, t, pairs)?;
            Ok(text)
        }
        None => {
            let text = bad_text(alloc)?;
            Ok(Some(text))
        }
    }
}

/// The first fault of one of the names of a part.
pub(crate) fn fault_told(
    alloc: Global,
    p: &Pass,
    s: &Spots,
    file: u32,
    parts: &Node,
    i: usize,
    node: &Node,
    t: &Told,
    j: usize,
) -> Result<Option<Vec<u8>>, NoMemory>
    requires pass { IsPass p.now }
    requires lines { AreLines (unit_in p.now).texts s.now.lines.items }
    ensures { IfOk result (λ text. option_map (λ (v : OneVec ℕ). v.items) text ≡ fault_told s.now.paths.now (unit_in p.now) file parts.now i node.now t.now j) }
{
    let name = field_name(p, file, node, j);
    let text = fault_in(alloc, p, s, file, parts, i, j, node, name, t, &t.pairs)?;
    Ok(text)
}
