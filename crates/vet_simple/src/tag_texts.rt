//! What is said of tags of fields.
ghost use Rattle.std.specs.Prelude.{◌≡◌, ◌≤◌, ◌<◌, ◌^◌, ◌++◌, ◌∷◌, [], ℕ, List, Some, None, min, length, codes, drop, is_some, map, slice_get, slice_index_or, if◌then◌else◌, option_map, IfOk};
ghost use Rattle.std.specs.Option.{option_map_or, option_copied};
ghost use Rattle.unit_read.specs.Units.{text_in};
ghost use Rattle.std.specs.Global.{Vec as OneVec};
ghost use Rattle.gv_base.specs.Lines.{IsTableOf};
ghost use Rattle.findings.specs.Passes.{unit_in};
ghost use Rattle.vet_simple.specs.TagNames.{pair_of};
ghost use Rattle.vet_simple.specs.StructTags.{said_of, hidden_text, hidden_by, offset_text, node_start, spot_text, part_spot, again_text};
ghost use Rattle.vet_simple.specs.TagSpots.{AreLines, told_by};

use crate::tag_names::pair_of;
use crate::tags::Pair;
use findings::Pass;
use go_tree::Node;
use gv_base::{Lines, NoMemory, Text};
use package_objects::{node_of, part_of};
use std::alloc::Global;
use vet_words::start_of;

/// The paths of the files, and where their lines begin.
#[derive(Drop)]
pub(crate) struct Spots<'a> {
    pub paths: &'a [Text],
    pub lines: Vec<Lines>,
}

pub(crate) fn said_of(alloc: Global, name: &str, rest: &[u8]) -> Result<Vec<u8>, NoMemory>
    ensures { IfOk result (λ text. text.items ≡ said_of name.now rest.now) }
{
    let mut text = Vec::new(alloc);
    text.extend_from_slice(b"struct field ")?;
    text.extend_from_slice(name.as_bytes())?;
    text.extend_from_slice(rest)?;
    Ok(text)
}

fn hidden_text(alloc: Global, word: &[u8], name: &str) -> Result<Vec<u8>, NoMemory>
    ensures { IfOk result (λ text. text.items ≡ hidden_text word.now name.now) }
{
    let mut rest = Vec::new(alloc);
    rest.extend_from_slice(b" has ")?;
    rest.extend_from_slice(word)?;
    rest.extend_from_slice(b" tag but is not exported")?;
    let text = said_of(alloc, name, &rest)?;
    Ok(text)
}

fn has_pair(word: &[u8], pairs: &[Pair]) -> bool
    ensures { result ≡ is_some (pair_of word.now pairs.now) }
{
    pair_of(word, pairs).is_some()
}

/// What is said of a key of a field that isn't seen.
pub(crate) fn hidden_by(
    alloc: Global,
    word: &[u8],
    name: &str,
    pairs: &[Pair],
) -> Result<Option<Vec<u8>>, NoMemory>
    ensures { IfOk result (λ text. option_map (λ (v : OneVec ℕ). v.items) text ≡ hidden_by word.now name.now pairs.now) }
{
    if has_pair(word, pairs) {
        let text = hidden_text(alloc, word, name)?;
        Ok(Some(text))
    } else {
        Ok(None)
    }
}

// ---- places

/// The offset, or the end of a text that ends before it.
fn within(offset: u32, text: &[u8]) -> u32
    ensures { result ≡ min offset (length text.now) }
{
    let end = text.len();
    if (offset as usize) < end {
        offset
    } else {
        end as u32
    }
}

fn node_start(p: &Pass, file: u32, n: u32) -> u32
    ensures { result ≡ node_start (unit_in p.now) file n }
{
    match node_of(p.subject.nodes_at(file), n) {
        Some(node) => start_of(p, file, node.first),
        None => 0,
    }
}

fn offset_text(
    alloc: Global,
    path: &str,
    text: &[u8],
    lines: &Lines,
    offset: u32,
) -> Result<Vec<u8>, NoMemory>
    requires { IsTableOf text.now lines.now }
    ensures { IfOk result (λ said. said.items ≡ offset_text path.now text.now offset) }
{
    let (line, column) = lines.line_col(within(offset, text));
    let said = format!(in alloc; "{path}:{line}:{column}")?;
    let mut out = Vec::new(alloc);
    out.extend_from_slice(said.as_bytes())?;
    Ok(out)
}

fn path_of<'a>(paths: &'a [Text], file: u32) -> &'a str
    ensures { result.now ≡ slice_index_or paths.now file [] }
{
    match paths.get(file as usize) {
        Some(path) => path.as_str(),
        None => "",
    }
}

fn text_in<'a>(p: &Pass<'a>, file: u32) -> &'a [u8]
    ensures { result.now ≡ text_in (unit_in p.now) file }
{
    if (file as usize) < p.subject.texts.len() {
        p.subject.texts[file as usize]
    } else {
        &[]
    }
}

fn lines_of<'a>(s: &'a Spots, file: u32) -> Option<&'a Lines>
    ensures { option_copied result ≡ slice_get s.now.lines.items file }
{
    s.lines.get(file as usize)
}

fn spot_text(alloc: Global, p: &Pass, s: &Spots, file: u32, n: u32) -> Result<Vec<u8>, NoMemory>
    requires { AreLines (unit_in p.now).texts s.now.lines.items }
    ensures { IfOk result (λ said. said.items ≡ spot_text s.now.paths.now (unit_in p.now) file n) }
{
    match lines_of(s, file) {
        Some(lines) => {
            let said = offset_text(
                alloc,
                path_of(s.paths, file),
                text_in(p, file),
                lines,
                node_start(p, file, n),
            )?;
            Ok(said)
        }
        None => Ok(Vec::new(alloc)),
    }
}

fn part_spot(
    alloc: Global,
    p: &Pass,
    s: &Spots,
    file: u32,
    parts: &Node,
    i: usize,
) -> Result<Vec<u8>, NoMemory>
    requires { AreLines (unit_in p.now).texts s.now.lines.items }
    ensures { IfOk result (λ said. said.items ≡ part_spot s.now.paths.now (unit_in p.now) file parts.now i) }
{
    match part_of(parts, i) {
        Some(n) => {
            let said = spot_text(alloc, p, s, file, n)?;
            Ok(said)
        }
        None => Ok(Vec::new(alloc)),
    }
}

// ---- names that stand twice

/// The name behind the mark of a key.
fn name_of_key(key: &[u8]) -> &[u8]
    ensures { result.now ≡ drop 1 key.now }
{
    match key {
        [] => &[],
        [_, name @ ..] => name,
    }
}

fn again_rest(alloc: Global, word: &[u8], own: &[u8], spot: &[u8]) -> Result<Vec<u8>, NoMemory>
    ensures { IfOk result (λ text. text.items ≡ codes " repeats " ++ (word.now ++ (codes " tag \"" ++ (own.now ++ (codes "\" also at " ++ spot.now))))) }
{
    let mut text = Vec::new(alloc);
    text.extend_from_slice(b" repeats ")?;
    text.extend_from_slice(word)?;
    text.extend_from_slice(b" tag \"")?;
    text.extend_from_slice(own)?;
    text.extend_from_slice(b"\" also at ")?;
    text.extend_from_slice(spot)?;
    Ok(text)
}

fn again_text(
    alloc: Global,
    p: &Pass,
    s: &Spots,
    file: u32,
    parts: &Node,
    word: &[u8],
    name: &str,
    key: &[u8],
    i: usize,
) -> Result<Vec<u8>, NoMemory>
    requires { AreLines (unit_in p.now).texts s.now.lines.items }
    ensures { IfOk result (λ text. text.items ≡ again_text s.now.paths.now (unit_in p.now) file parts.now word.now name.now key.now i) }
{
    let spot = part_spot(alloc, p, s, file, parts, i)?;
    let rest = again_rest(alloc, word, name_of_key(key), &spot)?;
    let text = said_of(alloc, name, &rest)?;
    Ok(text)
}

fn told_before(
    alloc: Global,
    p: &Pass,
    s: &Spots,
    file: u32,
    parts: &Node,
    word: &[u8],
    name: &str,
    key: &[u8],
    before: Option<usize>,
) -> Result<Option<Vec<u8>>, NoMemory>
    requires { AreLines (unit_in p.now).texts s.now.lines.items }
    ensures { IfOk result (λ text. option_map (λ (v : OneVec ℕ). v.items) text ≡ option_map (again_text s.now.paths.now (unit_in p.now) file parts.now word.now name.now key.now) before) }
{
    match before {
        Some(i) => {
            let text = again_text(alloc, p, s, file, parts, word, name, key, i)?;
            Ok(Some(text))
        }
        None => Ok(None),
    }
}

/// What is said of a key that an earlier part has.
pub(crate) fn told_by(
    alloc: Global,
    p: &Pass,
    s: &Spots,
    file: u32,
    parts: &Node,
    word: &[u8],
    name: &str,
    key: &Option<Vec<u8>>,
    before: Option<usize>,
) -> Result<Option<Vec<u8>>, NoMemory>
    requires { AreLines (unit_in p.now).texts s.now.lines.items }
    ensures { IfOk result (λ text. option_map (λ (v : OneVec ℕ). v.items) text ≡ told_by (again_text s.now.paths.now (unit_in p.now) file parts.now word.now name.now) (option_map (λ (v : OneVec ℕ). v.items) key.now) before) }
{
    match key {
        Some(key) => {
            let text = told_before(alloc, p, s, file, parts, word, name, key, before)?;
            Ok(text)
        }
        None => Ok(None),
    }
}
