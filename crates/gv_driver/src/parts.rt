//! What a load reads, as slices of what holds it, so that nothing is copied to look it up.
ghost use Rattle.std.specs.Prelude.{◌≡◌, ◌++◌, ◌∷◌, [], IfOk, OnOk, map, option_map, slice_get};
ghost use Rattle.action_graph.specs.Nodes.{load_texts, pairs};
ghost use Rattle.fact_cache.specs.Caches.{lookup};
ghost use Rattle.gv_driver.specs.Rows.{path_in};
ghost use Rattle.gv_driver.specs.Tables.{export_in, export_part, load_over, pair_at};

use crate::answer::shared_export;
use crate::node::{Answer, Node};
use crate::tree::PackageTexts;
use fact_cache::{Cache, Parts};
use gv_base::{Bytes, NoMemory, Text};
use std::alloc::Global;

pub(crate) fn path_at(tree: &[PackageTexts], at: usize) -> &str
    ensures { result.now ≡ path_in (slice_get tree.now at) }
{
    match tree.get(at) {
        None => "",
        Some(pack) => pack.path.as_str(),
    }
}

/// The export text of a package, as far as it is known, for one holder more.
pub(crate) fn shared_export_at(
    alloc: Global,
    table: &[Option<Node>],
    at: usize,
) -> Result<Bytes, NoMemory>
    ensures { IfOk result (λ b. b ≡ export_in (slice_get table.now at)) }
{
    match table.get(at) {
        None => Ok(Bytes::new(Vec::new(alloc))),
        Some(None) => Ok(Bytes::new(Vec::new(alloc))),
        Some(Some(node)) => {
            let more = shared_export(alloc, &node.answer)?;
            Ok(more)
        }
    }
}

fn push_part<'a>(parts: &mut Parts<'a>, part: &'a [u8]) -> Result<(), NoMemory>
    ensures { OnOk result (parts.new ≡ parts.old ++ part.now ∷ []) }
{
    parts.push(part)?;
    Ok(())
}

fn push_pair<'a>(parts: &mut Parts<'a>, path: &'a str, bytes: &'a [u8]) -> Result<(), NoMemory>
    ensures { OnOk result (parts.new ≡ (parts.old ++ path.now ∷ []) ++ bytes.now ∷ []) }
{
    push_part(parts, path.as_bytes())?;
    push_part(parts, bytes)?;
    Ok(())
}

fn push_file<'a>(parts: &mut Parts<'a>, file: &'a (Text, Bytes)) -> Result<(), NoMemory>
    ensures { OnOk result (parts.new ≡ (parts.old ++ file.now.0 ∷ []) ++ file.now.1 ∷ []) }
{
    push_pair(parts, file.0.as_str(), file.1.as_slice())?;
    Ok(())
}

fn push_files<'a>(parts: &mut Parts<'a>, files: &'a [(Text, Bytes)]) -> Result<(), NoMemory>
    ensures { OnOk result (parts.new ≡ parts.old ++ pairs files.now) }
{
    for file in files {
        push_file(parts, file)?;
    }
    Ok(())
}

/// The export text of an accepted package has its number already.
fn push_answer<'a>(parts: &mut Parts<'a>, answer: &'a Answer) -> Result<(), NoMemory>
    ensures { OnOk result (parts.new ≡ parts.old ++ export_part answer.now ∷ []) }
{
    match answer {
        Answer::Accepted(export) => {
            parts.push_keyed(export)?;
            Ok(())
        }
        Answer::Refused(_) => {
            push_part(parts, b"")?;
            Ok(())
        }
    }
}

fn push_export_at<'a>(
    parts: &mut Parts<'a>,
    table: &'a [Option<Node>],
    at: usize,
) -> Result<(), NoMemory>
    ensures { OnOk result (parts.new ≡ parts.old ++ export_in (slice_get table.now at) ∷ []) }
{
    match table.get(at) {
        None => {
            push_part(parts, b"")?;
            Ok(())
        }
        Some(None) => {
            push_part(parts, b"")?;
            Ok(())
        }
        Some(Some(node)) => {
            push_answer(parts, &node.answer)?;
            Ok(())
        }
    }
}

fn push_export<'a>(
    parts: &mut Parts<'a>,
    tree: &'a [PackageTexts],
    table: &'a [Option<Node>],
    number: u32,
) -> Result<(), NoMemory>
    ensures { OnOk result (parts.new ≡ (parts.old ++ (pair_at tree.now table.now number).0 ∷ []) ++ (pair_at tree.now table.now number).1 ∷ []) }
{
    let at = number as usize;
    push_part(parts, path_at(tree, at).as_bytes())?;
    push_export_at(parts, table, at)?;
    Ok(())
}

fn push_exports<'a>(
    parts: &mut Parts<'a>,
    tree: &'a [PackageTexts],
    table: &'a [Option<Node>],
    numbers: &[u32],
) -> Result<(), NoMemory>
    ensures { OnOk result (parts.new ≡ parts.old ++ pairs (map (pair_at tree.now table.now) numbers.now)) }
{
    for number in numbers {
        push_export(parts, tree, table, *number)?;
    }
    Ok(())
}

/// The texts of what a package's load reads, each gone through once for all look-ups that begin with them.
pub(crate) fn parts_of<'a>(
    cache: &Cache,
    tree: &'a [PackageTexts],
    table: &'a [Option<Node>],
    env: &[u32],
    pack: &'a PackageTexts,
) -> Result<Parts<'a>, NoMemory>
    ensures { IfOk result (λ parts. parts ≡ load_texts (load_over tree.now table.now env.now pack.now)) }
{
    let mut parts = cache.parts();
    push_part(&mut parts, pack.path.as_str().as_bytes())?;
    push_files(&mut parts, pack.files.as_slice())?;
    push_part(&mut parts, b"")?;
    push_exports(&mut parts, tree, table, env)?;
    Ok(parts)
}

/// The texts of what the runs over a package read, up to the facts, by those of what its load reads.
pub(crate) fn run_parts<'a>(parts: Parts<'a>) -> Result<Parts<'a>, NoMemory>
    ensures { IfOk result (λ more. more ≡ parts.entry ++ [] ∷ []) }
{
    let mut more = parts;
    push_part(&mut more, b"")?;
    Ok(more)
}

/// These texts, and the path and the facts of each of these packages.
pub(crate) fn with_facts<'a>(
    alloc: Global,
    parts: &Parts<'a>,
    facts: &'a [(Text, Bytes)],
) -> Result<Parts<'a>, NoMemory>
    ensures { IfOk result (λ texts. texts ≡ parts.now ++ pairs facts.now) }
{
    let mut texts = parts.copy(alloc)?;
    push_files(&mut texts, facts)?;
    Ok(texts)
}

/// The outcome that the cache has of a node whose input is these texts: a load for 0, else the analyzer's run.
pub(crate) fn cached<'a>(cache: &'a Cache, node: u8, parts: &Parts<'_>) -> Option<&'a [u8]>
    ensures { option_map (λ o. o.now) result ≡ lookup cache.now (record { node = node; texts = parts.now }) }
{
    cache.find_parts(node, parts)
}
