//! `structtag`: tags of fields that are no pairs, that name a field that isn't seen, or that name one twice.
ghost use Rattle.std.specs.Prelude.{◌≡◌, ◌+◌, ◌<◌, ◌++◌, [], ℕ, List, Some, None, length, map, slice_get, slice_index_or, if◌then◌else◌, Option, option_map, option_and_then, IfOk, OnOk};
ghost use Rattle.std.specs.Option.{option_map_or};
ghost use Rattle.std.specs.Global.{Vec as OneVec};
ghost use Rattle.go_tree.specs.declared.tree.Node.{Node as OneNode};
ghost use Rattle.package_objects.specs.Declares.{gather, part};
ghost use Rattle.findings.specs.Passes.{unit_in, marks_in, IsPass};
ghost use Rattle.vet_simple.specs.declared.tags.Pair.{Pair as OnePair};
ghost use Rattle.vet_simple.specs.TagNames.{json_key, xml_key};
ghost use Rattle.vet_simple.specs.StructTags.{field_faults, node_faults, part_faults, is_struct, tag_faults, IsTagFault, AreTagFaults};
ghost use Rattle.vet_simple.specs.TagSpots.{AreLines, AreShort, IsPart, AreMet, nth_told, IsTold};

use crate::tag_faults::{Told, fault_told, field_count};
use crate::tag_met::note_key;
use crate::tag_names::{json_key, xml_key};
use crate::tag_texts::Spots;
use crate::tags::{Pair, pairs_of};
use analysis_core::{AnalyzerName, Diagnostic};
use findings::{Pass, Reports, run_over_nodes};
use go_tree::{Node, NodeKind, NodeRef};
use gv_base::{Lines, NoMemory, Text};
use package_objects::{node_of, part_of};
use std::alloc::Global;
use std::collections::HashMap;
use type_rules::fields::tag_of;
use vet_words::diagnose_at;

// ---- what is reported

fn report_name(
    alloc: Global,
    p: &Pass,
    s: &Spots,
    file: u32,
    parts: &Node,
    i: usize,
    n: u32,
    node: &Node,
    t: &Told,
    j: usize,
    found: &mut Vec<Diagnostic>,
) -> Result<(), NoMemory>
    requires pass { IsPass p.now }
    requires lines { AreLines (unit_in p.now).texts s.now.lines.items }
    ensures { OnOk result (found.new.items ≡ found.old.items ++ nth_told s.now.paths.now (unit_in p.now) file parts.now i n node.now t.now j) }
{
    match fault_told(alloc, p, s, file, parts, i, node, t, j)? {
        Some(text) => {
            diagnose_at(p, file, n, AnalyzerName::StructTag, text, None, found)?;
            Ok(())
        }
        None => Ok(()),
    }
}

fn report_names(
    alloc: Global,
    p: &Pass,
    s: &Spots,
    file: u32,
    parts: &Node,
    i: usize,
    n: u32,
    node: &Node,
    t: &Told,
    found: &mut Vec<Diagnostic>,
) -> Result<(), NoMemory>
    requires pass { IsPass p.now }
    requires lines { AreLines (unit_in p.now).texts s.now.lines.items }
    requires stands { IsPart (unit_in p.now) file parts.now i node.now }
    ensures { OnOk result (IsTold (unit_in p.now) file parts.now i node.now t.now → found.new.items ≡ found.old.items ++ field_faults s.now.paths.now (unit_in p.now) file parts.now i n node.now) }
{
    let count = field_count(p, file, node);
    for j in 0..count {
        report_name(alloc, p, s, file, parts, i, n, node, t, j, found)?;
    }
    Ok(())
}

// ---- reading a part

fn json_in(alloc: Global, pairs: &Option<Vec<Pair>>) -> Result<Option<Vec<u8>>, NoMemory>
    ensures { IfOk result (λ key. option_map (λ (v : OneVec ℕ). v.items) key ≡ option_and_then json_key (option_map (λ (v : OneVec OnePair). v.items) pairs.now)) }
{
    match pairs {
        Some(pairs) => {
            let key = json_key(alloc, pairs)?;
            Ok(key)
        }
        None => Ok(None),
    }
}

fn xml_in(alloc: Global, pairs: &Option<Vec<Pair>>) -> Result<Option<Vec<u8>>, NoMemory>
    ensures { IfOk result (λ key. option_map (λ (v : OneVec ℕ). v.items) key ≡ option_and_then xml_key (option_map (λ (v : OneVec OnePair). v.items) pairs.now)) }
{
    match pairs {
        Some(pairs) => {
            let key = xml_key(alloc, pairs)?;
            Ok(key)
        }
        None => Ok(None),
    }
}

/// What a part says, and which of the parts before it say it first; it is noted.
fn read_part(
    alloc: Global,
    p: &Pass,
    file: u32,
    i: usize,
    node: &Node,
    json_met: &mut HashMap<Vec<u8>, usize>,
    xml_met: &mut HashMap<Vec<u8>, usize>,
) -> Result<Told, NoMemory>
    ensures told { IfOk result (λ t. (parts : OneNode) → AreMet (unit_in p.now) file parts i json_met.old xml_met.old → IsTold (unit_in p.now) file parts i node.now t) }
    ensures met { OnOk result ((parts : OneNode) → IsPart (unit_in p.now) file parts i node.now → AreMet (unit_in p.now) file parts i json_met.old xml_met.old → AreMet (unit_in p.now) file parts (i + 1) json_met.new xml_met.new) }
{
    let tag = tag_of(alloc, p.subject, file, node)?;
    let pairs = pairs_of(alloc, tag.as_slice())?;
    let json = json_in(alloc, &pairs)?;
    let xml = xml_in(alloc, &pairs)?;
    let json_before = note_key(alloc, json_met, &json, i)?;
    let xml_before = note_key(alloc, xml_met, &xml, i)?;
    Ok(Told {
        pairs,
        json,
        json_before,
        xml,
        xml_before,
    })
}

// ---- the parts of a struct

fn report_node(
    alloc: Global,
    p: &Pass,
    s: &Spots,
    file: u32,
    parts: &Node,
    i: usize,
    n: u32,
    node: &Node,
    json_met: &mut HashMap<Vec<u8>, usize>,
    xml_met: &mut HashMap<Vec<u8>, usize>,
    found: &mut Vec<Diagnostic>,
) -> Result<(), NoMemory>
    requires pass { IsPass p.now }
    requires lines { AreLines (unit_in p.now).texts s.now.lines.items }
    requires stands { IsPart (unit_in p.now) file parts.now i node.now }
    ensures found { OnOk result (AreMet (unit_in p.now) file parts.now i json_met.old xml_met.old → found.new.items ≡ found.old.items ++ field_faults s.now.paths.now (unit_in p.now) file parts.now i n node.now) }
    ensures met { OnOk result (AreMet (unit_in p.now) file parts.now i json_met.old xml_met.old → AreMet (unit_in p.now) file parts.now (i + 1) json_met.new xml_met.new) }
{
    let told = read_part(alloc, p, file, i, node, json_met, xml_met)?;
    report_names(alloc, p, s, file, parts, i, n, node, &told, found)?;
    Ok(())
}

fn report_number(
    alloc: Global,
    p: &Pass,
    s: &Spots,
    file: u32,
    parts: &Node,
    i: usize,
    n: u32,
    json_met: &mut HashMap<Vec<u8>, usize>,
    xml_met: &mut HashMap<Vec<u8>, usize>,
    found: &mut Vec<Diagnostic>,
) -> Result<(), NoMemory>
    requires pass { IsPass p.now }
    requires lines { AreLines (unit_in p.now).texts s.now.lines.items }
    requires stands { part parts.now i ≡ Some n }
    ensures found { OnOk result (AreMet (unit_in p.now) file parts.now i json_met.old xml_met.old → found.new.items ≡ found.old.items ++ node_faults s.now.paths.now (unit_in p.now) file parts.now i n) }
    ensures met { OnOk result (AreMet (unit_in p.now) file parts.now i json_met.old xml_met.old → AreMet (unit_in p.now) file parts.now (i + 1) json_met.new xml_met.new) }
{
    match node_of(p.subject.nodes_at(file), n) {
        Some(node) => {
            report_node(
                alloc, p, s, file, parts, i, n, node, json_met, xml_met, found,
            )?;
            Ok(())
        }
        None => Ok(()),
    }
}

fn report_part(
    alloc: Global,
    p: &Pass,
    s: &Spots,
    file: u32,
    parts: &Node,
    i: usize,
    json_met: &mut HashMap<Vec<u8>, usize>,
    xml_met: &mut HashMap<Vec<u8>, usize>,
    found: &mut Vec<Diagnostic>,
) -> Result<(), NoMemory>
    requires pass { IsPass p.now }
    requires lines { AreLines (unit_in p.now).texts s.now.lines.items }
    ensures found { OnOk result (AreMet (unit_in p.now) file parts.now i json_met.old xml_met.old → found.new.items ≡ found.old.items ++ part_faults s.now.paths.now (unit_in p.now) file parts.now i) }
    ensures met { OnOk result (AreMet (unit_in p.now) file parts.now i json_met.old xml_met.old → AreMet (unit_in p.now) file parts.now (i + 1) json_met.new xml_met.new) }
{
    match part_of(parts, i) {
        Some(n) => {
            report_number(alloc, p, s, file, parts, i, n, json_met, xml_met, found)?;
            Ok(())
        }
        None => Ok(()),
    }
}

fn part_count(parts: &Node) -> usize
    ensures { result ≡ length parts.now.parts }
{
    parts.parts.as_slice().len()
}

fn report_parts(
    alloc: Global,
    p: &Pass,
    s: &Spots,
    file: u32,
    parts: &Node,
    found: &mut Vec<Diagnostic>,
) -> Result<(), NoMemory>
    requires pass { IsPass p.now }
    requires lines { AreLines (unit_in p.now).texts s.now.lines.items }
    ensures { OnOk result (found.new.items ≡ found.old.items ++ gather (part_faults s.now.paths.now (unit_in p.now) file parts.now) (length parts.now.parts)) }
{
    let mut json_met = HashMap::new(alloc);
    let mut xml_met = HashMap::new(alloc);
    for i in 0..part_count(parts) {
        report_part(
            alloc,
            p,
            s,
            file,
            parts,
            i,
            &mut json_met,
            &mut xml_met,
            found,
        )?;
    }
    Ok(())
}

fn is_struct(kind: NodeKind) -> bool
    ensures { result ≡ is_struct kind }
{
    matches!(kind, NodeKind::StructType)
}

fn report_struct(
    alloc: Global,
    p: &Pass,
    s: &Spots,
    at: NodeRef,
    node: &Node,
    found: &mut Vec<Diagnostic>,
) -> Result<(), NoMemory>
    requires pass { IsPass p.now }
    requires lines { AreLines (unit_in p.now).texts s.now.lines.items }
    ensures { OnOk result (found.new.items ≡ found.old.items ++ tag_faults s.now.paths.now (unit_in p.now) (marks_in p.now) at node.now) }
{
    if is_struct(node.kind) {
        report_parts(alloc, p, s, at.file, node, found)?;
    }
    Ok(())
}

/// The rule, with the paths and the lines of the files.
#[derive(Drop)]
struct OverSpots<'a> {
    spots: &'a Spots<'a>,
}

impl<'a> Reports for OverSpots<'a> {
    ghost reported = { λ s. IsTagFault s.spots.now.paths.now };

    ghost fits = { λ s u marks. AreLines u.texts s.spots.now.lines.items };

    fn report_at(
        &self,
        alloc: Global,
        pass: &Pass,
        at: NodeRef,
        node: &Node,
        found: &mut Vec<Diagnostic>,
    ) -> Result<(), NoMemory> {
        report_struct(alloc, pass, self.spots, at, node, found)?;
        Ok(())
    }
}

fn text_at<'a>(texts: &[&'a [u8]], f: usize) -> &'a [u8]
    ensures { result.now ≡ slice_index_or (map (λ t. t.now) texts.now) f [] }
{
    if f < texts.len() { texts[f] } else { &[] }
}

fn all_lines(alloc: Global, texts: &[&[u8]]) -> Result<Vec<Lines>, NoMemory>
    requires { AreShort (map (λ t. t.now) texts.now) }
    ensures { IfOk result (λ lines. AreLines (map (λ t. t.now) texts.now) lines.items) }
{
    let mut lines = Vec::new(alloc);
    for f in 0..texts.len() {
        let table = Lines::new(alloc, text_at(texts, f))?;
        lines.push(table)?;
    }
    Ok(lines)
}

/// Tags of fields.
#[derive(Drop)]
pub struct StructTag;

impl StructTag {
    /// All of a package. `paths` are those of its files, whose texts have at most 2^31 bytes.
    pub fn run(
        &self,
        alloc: Global,
        pass: &Pass,
        paths: &[Text],
    ) -> Result<Vec<Diagnostic>, NoMemory>
        requires pass { IsPass pass.now }
        requires texts { AreShort (unit_in pass.now).texts }
        ensures { IfOk result (λ found. AreTagFaults paths.now (unit_in pass.now) (marks_in pass.now) found.items) }
    {
        let lines = all_lines(alloc, pass.subject.texts)?;
        let spots = Spots { paths, lines };
        let rule = OverSpots { spots: &spots };
        let found = run_over_nodes(alloc, &rule, pass)?;
        Ok(found)
    }
}
